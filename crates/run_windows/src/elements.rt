// Each element of a source in turn made too large: a sample outside the window, alpha and padding are not read, and a colour sample of the
// window is refused with its place, which counts from the window's corner. The second frame of a ring has the same element in its part.
use crate::run;
use answer_numbers::{CheckedNumbers, ConvertedNumbers, RingNumbers};
use cases::case::Case;
use cases::draw::{Room, within_room};
use cases::planes::{get, put};
use cases::text::small;
use cases::{case, draw, text};
use convert_calls::rings::{convert_ring, end_to_end};

fn put_places(at: usize, n: ConvertedNumbers, t: CheckedNumbers) {
    let p = n.sample;
    let q = t.sample;
    text::line(
        b"high",
        &[
            at,
            small(n.refusal),
            small(p.row),
            small(p.pixel),
            small(p.channel),
            small(t.refusal),
            small(q.row),
            small(q.pixel),
            small(q.channel),
        ],
    );
}

fn put_ring(at: usize, t: RingNumbers) {
    let p = t.sample;
    text::line(
        b"second",
        &[
            at,
            small(t.written),
            small(t.refusal),
            small(p.row),
            small(p.pixel),
            small(p.channel),
        ],
    );
}

// Each element of a source from one index on in turn made too large, and a function called with it and the source.
fn each_too_large<F: FnMut(usize, &Room)>(c: Case, first: usize, mut call: F)
    requires { F.IsAlwaysCallable call }
{
    let mut source = draw::source_of(c);
    for at in first..within_room(c.source) {
        let old = get(&source, at);
        put(&mut source, at, 65535);
        call(at, &source);
        put(&mut source, at, old);
    }
}

fn try_elements(c: Case) {
    let mut luma = draw::room(7);
    let mut chroma = draw::room(7);
    each_too_large(c, 0, |at: usize, source: &Room| {
        let n = convert_calls::convert(c, source, &mut luma, &mut chroma);
        let t = check_calls::check(c, source, &luma, &chroma);
        put_places(at, n, t);
    });
}

// The elements of the second frame of two.
fn try_second(c: Case) {
    let mut luma = draw::room(7);
    let mut chroma = draw::room(7);
    each_too_large(c, within_room(c.source) / 2, |at: usize, source: &Room| {
        put_ring(at, convert_ring(c, 2, source, &mut luma, &mut chroma));
    });
}

// A window of 2×2 pixels at column 2 and row 1 of a source of 5×4, with an element of padding in each row.
fn run_channels(channels: u32, subsampling: u32) {
    let c = Case {
        channels,
        subsampling,
        seed: 11,
        ..case::base()
    };
    let d = case::windowed(case::laid(c, 2, 2, 0), 2, 1, 1, 1, 1);
    run::frame(d);
    try_elements(d);
    let e = end_to_end(d, 2);
    run::ring(e, 2);
    try_second(e);
}

pub(crate) fn run() {
    for (channels, subsampling) in [(0, 0), (1, 1), (2, 2), (3, 0)] {
        run_channels(channels, subsampling);
    }
}
