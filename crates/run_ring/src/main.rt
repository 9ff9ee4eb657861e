// Converts rings, frames laid end to end in one call, and prints each case with its count, the answer and both planes; compare/ring.py works
// every line out afresh.
#![tactic(auto)]

ghost use Rattle.std.specs.Prelude.{◌<◌, ◌≤◌};

use cases::case;
use cases::case::Case;
use convert_calls::rings;

mod call;
mod orders;
mod sweeps;

// Buffers that hold document 01's 3×1 frame so many times, and the count that the call is given: both sides of the limits of a count, and
// the largest number.
fn counts() {
    for (frames, count) in [
        (0, 0),
        (1, 1),
        (2, 2),
        (63, 63),
        (64, 64),
        (65, 65),
        (1, usize::MAX),
    ] {
        call::run(rings::end_to_end(case::base(), frames), count);
    }
}

// A ring of three frames of document 01: each buffer one element short and long, one frame short and long, and empty; then all of them one
// frame short and one frame long.
fn lengths() {
    for (source, luma, chroma) in [
        (26, 12, 18),
        (28, 12, 18),
        (18, 12, 18),
        (36, 12, 18),
        (0, 12, 18),
        (27, 11, 18),
        (27, 13, 18),
        (27, 8, 18),
        (27, 16, 18),
        (27, 0, 18),
        (27, 12, 17),
        (27, 12, 19),
        (27, 12, 12),
        (27, 12, 24),
        (27, 12, 0),
        (18, 8, 12),
        (36, 16, 24),
    ] {
        let c = Case {
            source,
            luma,
            chroma,
            ..case::base()
        };
        call::run(c, 3);
    }
}

// A ring of 64 frames of 2×1 with one element of padding in each row, and a sample put at an element of one of them.
fn run_sample(channels: u32, frame: usize, element: usize, sample: u16)
    requires { (frame < 64) × (element < 9) }
{
    let c = Case {
        channels,
        seed: 8,
        ..case::base()
    };
    let d = case::laid(c, 2, 1, 1);
    let e = Case {
        at: rings::start_of(d.source, frame) + element,
        sample,
        ..rings::end_to_end(d, 64)
    };
    call::run(e, 64);
}

// m + 1 in each channel of the second pixel of the first, a middle and the last frame.
fn too_large() {
    for frame in [0, 31, 63] {
        for element in 3..6 {
            run_sample(0, frame, element, 1024);
        }
    }
}

// m; then padding and alpha of a middle frame, where it does not matter.
fn harmless() {
    for (channels, element, sample) in [
        (0, 3, 1023),
        (0, 6, 65535),
        (1, 3, 65535),
        (2, 7, 65535),
        (1, 8, 65535),
    ] {
        run_sample(channels, 31, element, sample);
    }
}

fn main() {
    counts();
    lengths();
    too_large();
    harmless();
    orders::run();
    sweeps::run();
}
