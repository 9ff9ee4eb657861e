// Black, white and six greys of each depth, matrix and range, converted at 4:4:4 and turned back.
ghost use Rattle.std.specs.Prelude.{◌<◌};

use crate::stored::most_of;
use crate::trial::{Trial, put_case};
use cases::case::Case;
use cases::draw::Room;
use cases::{case, draw, text};

// A row of eight pixels, all elements of each pixel the same.
fn put_greys(c: Case, source: &mut Room) {
    let elements = match c.channels {
        1 | 2 => 4,
        _ => 3,
    };
    let m = most_of(c.depth);
    let greys = [0, m, 1, m / 2, m / 2 + 1, m / 3, m / 5, m - m / 7];
    for (pixel, grey) in source.chunks_exact_mut(elements).zip(greys) {
        pixel.fill(grey);
    }
}

// Settle takes every matrix at the limited range with P 13 and at the full range with P 12.
fn row(t: usize) -> Case
    requires { t < 70 }
{
    let c = Case {
        depth: 10 + (t % 7) as u32,
        precision: 13 - (t / 35) as u32,
        matrix: (t % 5) as u32,
        range: (t / 35) as u32,
        subsampling: 2,
        order: (t % 2) as u32,
        packing: (t / 2 % 2) as u32,
        byte_order: (t / 3 % 2) as u32,
        channels: (t / 4 % 4) as u32,
        ..case::base()
    };
    case::laid(c, 8, 1, 0)
}

pub(crate) fn run() {
    for t in 0..70 {
        let c = row(t);
        put_case(c);
        text::line(b"greys", &[]);
        let mut trial = Trial::with_source(c, draw::room(0));
        put_greys(c, &mut trial.source);
        trial.convert();
        trial.restore();
    }
}
