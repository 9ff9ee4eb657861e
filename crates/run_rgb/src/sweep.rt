// Every subsampling, channel layout, order, packing and byte order, twice; depth, P, matrix, range, size and window change from case to
// case.
ghost use Rattle.std.specs.Prelude.{◌≤◌, ◌<◌};

use crate::trial::run_converted;
use cases::case;
use cases::case::Case;

// At some P settle refuses a matrix at one of the ranges; those have the other.
fn range_of(precision: u32, t: usize) -> u32 {
    match precision {
        1 => 1,
        3 | 5 | 6 | 7 | 9 => 0,
        _ => (t / 5 % 2) as u32,
    }
}

// A frame of its size that fills the RGB buffer.
fn whole(t: usize) -> Case
    requires { t < 192 }
    ensures { (result.width ≤ 5) × (result.height ≤ 5) }
{
    let precision = 13 - (t % 13) as u32;
    let c = Case {
        depth: 10 + (t % 7) as u32,
        precision,
        matrix: (t % 5) as u32,
        range: range_of(precision, t),
        subsampling: (t % 3) as u32,
        channels: (t / 3 % 4) as u32,
        order: (t / 12 % 2) as u32,
        packing: (t / 24 % 2) as u32,
        byte_order: (t / 48 % 2) as u32,
        seed: (t + 900) as u32,
        ..case::base()
    };
    case::laid(c, 1 + t / 2 % 5, 1 + t / 7 % 5, t % 3)
}

pub(crate) fn run() {
    for t in 0..192 {
        let c = whole(t);
        run_converted(case::windowed(c, t % 4, t / 5 % 3, t / 4 % 4, t / 3 % 3, t / 2 % 3));
    }
}
