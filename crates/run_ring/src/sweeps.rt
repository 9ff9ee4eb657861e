// Rings of the frames that sweep through the settings.
ghost use Rattle.std.specs.Prelude.{◌<◌};

use crate::call;
use cases::case::Case;
use cases::planes::index;
use cases::{case, sweeps};
use convert_calls::rings;

// Three frames, of which number t % 5 has a sample that is too large, in a row, pixel and channel that change from ring to ring. Numbers 3
// and 4 lie past the last frame, and no frame is refused then.
fn run_layout(t: usize)
    requires { t < 192 }
{
    let c = sweeps::layout(t);
    let element = case::first_element(c.channels, t / 15 % 3) + t / 45 % 3;
    let d = Case {
        at: rings::start_of(c.source, t % 5) + index(c.source_stride, t / 5 % 3, element),
        sample: 1024,
        ..rings::end_to_end(c, 3)
    };
    call::run(d, 3);
}

fn run_layouts() {
    for t in 0..192 {
        run_layout(t);
    }
}

// Two frames, the matrix changing from ring to ring.
fn run_depth(t: usize)
    requires { t < 182 }
{
    let c = Case {
        // `as` loses nothing of so small a number, where `try_from` would give a Result.
        matrix: (t % 6) as u32,
        ..sweeps::depth(t)
    };
    call::run(rings::end_to_end(c, 2), 2);
}

fn run_depths() {
    for t in 0..182 {
        run_depth(t);
    }
}

// One to four frames.
fn run_size(t: usize)
    requires { t < 75 }
{
    let count = 1 + t / 7 % 4;
    call::run(rings::end_to_end(sweeps::size(t), count), count);
}

fn run_sizes() {
    for t in 0..75 {
        run_size(t);
    }
}

pub(crate) fn run() {
    run_layouts();
    run_depths();
    run_sizes();
}
