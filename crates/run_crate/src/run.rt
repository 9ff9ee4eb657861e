// One frame as the published loops leave it.
ghost use Rattle.std.specs.Prelude.{◌≤◌};

use cases::case::Case;
use cases::draw::Room;
use cases::planes::{get, put, start};
use cases::{draw, text};

// The fault in one lower row: its last luma is stored at its first element, and the last keeps its old value.
fn spoil_row(luma: &mut Room, from: usize, last: usize)
    requires { (from ≤ 524288) × (last ≤ 8) }
{
    let at = from + last;
    let v = get(luma, at);
    put(luma, from, v);
    put(luma, at, 7);
}

// The second row of each pair, in frames of at most 8 rows.
fn spoil_pairs(luma: &mut Room, stride: usize, height: usize, last: usize)
    requires { last ≤ 8 }
{
    for pair in 0..4 {
        let row = 2 * pair + 1;
        if row < height {
            spoil_row(luma, start(stride, row), last);
        }
    }
}

// The named fault: at 4:2:0 and odd width, in every lower row of a pair.
fn spoil(c: Case, luma: &mut Room) {
    let width = c.width;
    if c.subsampling == 0 && width % 2 == 1 && (3..=9).contains(&width) {
        spoil_pairs(luma, c.luma_stride, c.height, width - 1);
    }
}

// Whether the frame was converted and printed. Frames that are refused are left out, since the crate refuses none of them.
pub(crate) fn run(c: Case) -> bool {
    let source = draw::source_of(c);
    let mut luma = draw::room(7);
    let mut chroma = draw::room(7);
    let answer = convert_calls::convert(c, &source, &mut luma, &mut chroma);
    let converted = answer.refusal == 0;
    if converted {
        spoil(c, &mut luma);
        text::case(c);
        text::planes(c, &luma, &chroma);
    }
    converted
}
