// One case: the answers of settle, convert and check, each with all its numbers, and both planes; then the same of the frame as a ring
// of one.
use answer_numbers::{CheckedNumbers, ConvertedNumbers};
use cases::case::Case;
use cases::text::small;
use cases::{draw, text};
use convert_calls::rings::convert_ring;

fn put_converted(t: ConvertedNumbers) {
    let p = t.sample;
    text::line(
        b"converted",
        &[
            small(t.refusal),
            small(p.row),
            small(p.pixel),
            small(p.channel),
        ],
    );
}

fn put_checked(t: CheckedNumbers) {
    let p = t.place;
    let q = t.sample;
    text::line(
        b"checked",
        &[
            small(t.refusal),
            small(t.wrong),
            small(p.plane),
            small(p.row),
            small(p.element),
            small(q.row),
            small(q.pixel),
            small(q.channel),
        ],
    );
}

pub(crate) fn run(c: Case) {
    text::case(c);
    text::settled(convert_calls::settle(c));
    let source = draw::source_of(c);
    let mut luma = draw::room(7);
    let mut chroma = draw::room(7);
    put_converted(convert_calls::convert(c, &source, &mut luma, &mut chroma));
    text::planes(c, &luma, &chroma);
    put_checked(check_calls::check(c, &source, &luma, &chroma));
    let mut ring_luma = draw::room(7);
    let mut ring_chroma = draw::room(7);
    text::ringed(convert_ring(c, 1, &source, &mut ring_luma, &mut ring_chroma));
    text::planes(c, &ring_luma, &ring_chroma);
}
