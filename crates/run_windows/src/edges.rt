// Windows at each edge of a source of 7×7 pixels: 3×3 at the left, in the middle and at the right of its top, middle and bottom rows; the
// whole of it; a row, a column and a single pixel at each end.
ghost use Rattle.std.specs.Prelude.{◌+◌, ◌≤◌};

use crate::run;
use cases::case;
use cases::case::Case;

fn at(subsampling: u32, width: usize, height: usize, left: usize, above: usize)
    requires { (width + left ≤ 7) × (height + above ≤ 7) }
{
    let c = Case {
        subsampling,
        matrix: 1,
        seed: 9,
        ..case::base()
    };
    let d = case::laid(c, width, height, 1);
    run::frame(case::windowed(d, left, 7 - width - left, above, 7 - height - above, 0));
}

// 3×3 pixels at each third of the columns and of the rows.
fn thirds(subsampling: u32) {
    for above in 0..3 {
        for left in 0..3 {
            at(subsampling, 3, 3, 2 * left, 2 * above);
        }
    }
}

// The whole source; a row, a column and a single pixel at each end.
fn ends(subsampling: u32) {
    for (width, height, left, above) in [
        (7, 7, 0, 0),
        (7, 1, 0, 0),
        (7, 1, 0, 6),
        (1, 7, 0, 0),
        (1, 7, 6, 0),
        (1, 1, 0, 0),
        (1, 1, 6, 0),
        (1, 1, 0, 6),
        (1, 1, 6, 6),
    ] {
        at(subsampling, width, height, left, above);
    }
}

pub(crate) fn run() {
    for subsampling in 0..3 {
        thirds(subsampling);
        ends(subsampling);
    }
}
