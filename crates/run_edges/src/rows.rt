// Frames wide and high enough that whole rows are judged at once: the codes accepted at the first, the middle and the last element of
// the first, the middle and the last row of each plane; then whole rows at fault.
ghost use Rattle.std.specs.Prelude.{◌≤◌};

use crate::edges::accepted_at;
use crate::faults;
use crate::faults::Fault;
use crate::trial::Trial;
use cases::case::Case;
use cases::planes::index;
use cases::text;
use check_calls::spot::{Spot, spot_at};

// The last row of a plane, and the last element of its rows.
#[derive(Clone, Copy)]
pub(crate) struct End {
    pub row: usize,
    pub element: usize,
    ghost row_bound: { row ≤ 31 },
    ghost element_bound: { element ≤ 63 },
}

// A place of a plane: 0 is luma and 1 chroma, as in `rules::Place`.
fn place(c: Case, plane: u32, row: usize, element: usize) -> Spot
    requires { (row ≤ 32) × (element ≤ 64) }
{
    let stride = if plane == 0 {
        c.luma_stride
    } else {
        c.chroma_stride
    };
    spot_at(
        plane,
        row as u32,
        element as u32,
        index(stride, row, element),
    )
}

fn try_row(trial: &mut Trial, plane: u32, row: usize, last: usize)
    requires { (row ≤ 32) × (last ≤ 64) }
{
    let c = trial.case;
    let first = accepted_at(trial, place(c, plane, row, 0));
    let end = accepted_at(trial, place(c, plane, row, last));
    let middle = accepted_at(trial, place(c, plane, row, last / 2));
    text::line(
        b"edges",
        &[
            text::small(plane),
            row,
            last,
            first.low,
            first.high,
            middle.low,
            middle.high,
            end.low,
            end.high,
            first.named + end.named + middle.named,
        ],
    );
}

fn try_plane(trial: &mut Trial, plane: u32, end: End) {
    for row in [0, end.row / 2, end.row] {
        try_row(trial, plane, row, end.element);
    }
}

// The last of n rows or elements, of which the first 32 are looked at.
fn last_of(n: usize) -> usize
    ensures { result ≤ 31 }
{
    n.clamp(1, 32) - 1
}

fn luma_end(c: Case) -> End {
    End {
        row: last_of(c.height),
        element: last_of(c.width),
    }
}

fn chroma_end(c: Case) -> End {
    let row = last_of(c.height);
    let pixel = last_of(c.width);
    End {
        row: if c.subsampling == 0 { row / 2 } else { row },
        element: if c.subsampling == 2 {
            2 * pixel + 1
        } else {
            pixel / 2 * 2 + 1
        },
    }
}

// A frame of at most 32×32 pixels.
pub(crate) fn run(c: Case) {
    text::case(c);
    let y = luma_end(c);
    let uv = chroma_end(c);
    let mut trial = Trial::new(c);
    trial.convert();
    try_plane(&mut trial, 0, y);
    try_plane(&mut trial, 1, uv);
    faults::run(&mut trial, Fault::StuckLuma, y);
    faults::run(&mut trial, Fault::StuckChroma, uv);
    faults::run(&mut trial, Fault::MirroredChroma, uv);
}
