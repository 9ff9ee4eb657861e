// Extreme codes at each depth, range and subsampling, with P 1, 6 and 13.
ghost use Rattle.std.specs.Prelude.{◌<◌};

use crate::patterns::{PATTERNS, put_pattern};
use crate::trial::{Trial, put_case};
use cases::case::Case;
use cases::{case, draw, text};

const PRECISIONS: [u32; 3] = [1, 6, 13];

// Matrices that settle takes at all depths.
fn matrix_of(range: u32, precision: u32, t: usize) -> u32 {
    match (range, precision) {
        (1, _) => 2 * (t % 3) as u32,
        (_, 1) => 1 + (t % 3) as u32,
        _ => (t % 5) as u32,
    }
}

fn extreme(t: usize) -> Case
    requires { t < 126 }
{
    let range = (t / 7 % 2) as u32;
    let precision = PRECISIONS[t / 14 % 3];
    let c = Case {
        depth: 10 + (t % 7) as u32,
        range,
        precision,
        matrix: matrix_of(range, precision, t),
        subsampling: (t / 42) as u32,
        order: (t % 2) as u32,
        packing: (t / 2 % 2) as u32,
        byte_order: (t / 3 % 2) as u32,
        channels: (t / 5 % 4) as u32,
        ..case::base()
    };
    case::laid(c, 8, 2, 0)
}

pub(crate) fn run() {
    for t in 0..126 {
        let c = extreme(t);
        put_case(c);
        for (n, pattern) in PATTERNS.into_iter().enumerate() {
            text::line(b"codes", &[n]);
            let mut trial = Trial::with_source(c, draw::room(0));
            put_pattern(&mut trial, pattern);
            trial.restore();
        }
    }
}
