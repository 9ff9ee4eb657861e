// Rows left over from another frame, 5×4 both: each row of each plane alone, and each with all rows below it.
ghost use Rattle.std.specs.Prelude.{◌≤◌};

use crate::trial::Trial;
use cases::case::Case;
use cases::draw::Room;
use cases::planes::start;
use cases::text;

// Lays rows of the other frame's plane over the plane.
fn lay(plane: &mut Room, other: &Room, stride: usize, first: usize, end: usize)
    requires { (first ≤ 8) × (end ≤ 8) }
{
    let words = plane.iter_mut().zip(other).take(start(stride, end));
    for (word, left) in words.skip(start(stride, first)) {
        *word = *left;
    }
}

// Plane 0 is luma and 1 chroma, as in `rules::Place`.
fn try_rows(trial: &mut Trial, other: &Trial, plane: usize, row: usize, end: usize)
    requires { (row ≤ end) × (end ≤ 4) }
{
    trial.convert();
    if plane == 0 {
        lay(
            &mut trial.luma,
            &other.luma,
            trial.case.luma_stride,
            row,
            end,
        );
    } else {
        lay(
            &mut trial.chroma,
            &other.chroma,
            trial.case.chroma_stride,
            row,
            end,
        );
    }
    text::line(b"left", &[plane, row, end - row]);
    trial.check_and_put();
}

// The other frame has the same settings and size, and samples of another seed.
pub(crate) fn run(c: Case, seed: u32) {
    text::case(c);
    text::line(b"over", &[text::small(seed)]);
    let mut trial = Trial::new(c);
    let mut other = Trial::new(Case { seed, ..c });
    other.convert();
    for plane in 0..2 {
        for row in 0..4 {
            try_rows(&mut trial, &other, plane, row, row + 1);
            try_rows(&mut trial, &other, plane, row, 4);
        }
    }
}
