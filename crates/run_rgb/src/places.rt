// Places of the planes of a frame of at most 32 rows and 64 columns.
ghost use Rattle.std.specs.Prelude.{◌≤◌};

use cases::case::Case;
use cases::planes::index;
use check_calls::spot::{Spot, spot_at};

// A place of a plane: 0 is luma and 1 chroma, as in `rules::Place`.
fn place(plane: u32, stride: usize, row: usize, element: usize) -> Spot
    requires { (row ≤ 32) × (element ≤ 128) }
{
    let at = index(stride, row, element);
    spot_at(plane, row as u32, element as u32, at)
}

pub(crate) fn luma_at(c: Case, row: usize, element: usize) -> Spot
    requires { (row ≤ 32) × (element ≤ 128) }
{
    place(0, c.luma_stride, row, element)
}

pub(crate) fn chroma_at(c: Case, row: usize, element: usize) -> Spot
    requires { (row ≤ 32) × (element ≤ 128) }
{
    place(1, c.chroma_stride, row, element)
}

pub(crate) fn last_luma(c: Case) -> Spot {
    luma_at(c, c.height.clamp(1, 32) - 1, c.width.clamp(1, 64) - 1)
}

pub(crate) fn last_chroma(c: Case) -> Spot {
    let row = c.height.clamp(1, 32) - 1;
    let column = c.width.clamp(1, 64) - 1;
    let row = if c.subsampling == 0 { row / 2 } else { row };
    let pair = if c.subsampling == 2 {
        column
    } else {
        column / 2
    };
    chroma_at(c, row, 2 * pair + 1)
}
