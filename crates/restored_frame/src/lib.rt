// The frame loop of the way back: row parts of both planes, and of the buffer from the window's corner on, lent to the row function. Two
// functions share the planes' facts, so that a struct for them would be no plainer.
#![tactic(auto)]

ghost use Rattle.std.specs.Prelude.{◌≡◌, ◌+◌, ◌*◌, ◌^◌, ◌<◌, length};
ghost use Rattle.rules.specs.Ranges.{most};
ghost use Rattle.rules.specs.Channels.{count};
ghost use Rattle.rules.specs.Planes.{written};
ghost use Rattle.rules.specs.ToRgb.{restored_picture, rgb_written};
ghost use Rattle.rule_laws.specs.Usable.{Reach};
ghost use Rattle.inverse_bounds.specs.Bounds.{InverseWithin};
ghost use Rattle.frames.specs.Rows.{Grows};
ghost use Rattle.frames.specs.SourceRows.{WindowRows};
ghost use Rattle.frames.specs.Tests.{Strided};
ghost use Rattle.restoring_weights.specs.RestoringWeights.{restoring_weights, SmallWeights};
ghost use Rattle.restored_frame.specs.Restorable.{Readable, RestRows, restored_row};

use frames::rows::plane_row;
use restored_rows::restore_row;
use restoring_weights::{RestoringWeights, restoring_weights};
use rules::{Frame, InverseWeights, Settings};
use yuv_support::channels::get_channels_count;

// One row of the window.
fn lend_row(
    s: Settings,
    w: InverseWeights,
    r: RestoringWeights,
    f: Frame,
    row: usize,
    luma: &[u16],
    chroma: &[u16],
    rest: &mut [u16],
)
    requires reach { (Reach s) × (InverseWithin (4 * 2 ^ s.precision) w) × (r ≡ restoring_weights s w) × (SmallWeights r) }
    requires readable { (Readable s f luma.now chroma.now) × (RestRows s f (length rest.old)) }
    requires row_lt_height { row < f.height }
    ensures { Grows f.source_stride (f.width * count s.channels) row (row + 1) (restored_row s w f luma.now chroma.now) rest.old rest.new }
{
    let y = plane_row(luma, f.luma_stride, f.width, row);
    let wide = blocks::chroma_width(s.subsampling, f.width);
    let over = blocks::chroma_row(s.subsampling, row);
    let c = plane_row(chroma, f.chroma_stride, wide, over);
    let start = row * f.source_stride;
    let end = start + f.width * get_channels_count(s.channels);
    restore_row(s, r, f.width, y, c, &mut rest[start..end]);
}

// All rows of the window.
fn restore_rows(
    s: Settings,
    w: InverseWeights,
    r: RestoringWeights,
    f: Frame,
    luma: &[u16],
    chroma: &[u16],
    rest: &mut [u16],
)
    requires reach { (Reach s) × (InverseWithin (4 * 2 ^ s.precision) w) × (r ≡ restoring_weights s w) × (SmallWeights r) }
    requires readable { (Readable s f luma.now chroma.now) × (RestRows s f (length rest.old)) }
    ensures { rest.new ≡ written f.source_stride (f.width * count s.channels) f.height (restored_row s w f luma.now chroma.now) rest.old }
{
    for row in 0..f.height {
        lend_row(s, w, r, f, row, luma, chroma, rest);
    }
}

// The window of the buffer, from its corner on.
pub fn restore_frame(
    s: Settings,
    w: InverseWeights,
    f: Frame,
    luma: &[u16],
    chroma: &[u16],
    rgb: &mut [u16],
)
    requires reach { (Reach s) × (InverseWithin (4 * 2 ^ s.precision) w) }
    requires readable { (Readable s f luma.now chroma.now) × (Strided s f) × (WindowRows s.channels f (length rgb.old)) }
    ensures { rgb.new ≡ rgb_written s.channels (most s.depth) f (restored_picture s w f luma.now chroma.now) rgb.old }
{
    let r = restoring_weights(s, w);
    let corner = f.first_row * f.source_stride + f.first_column * get_channels_count(s.channels);
    restore_rows(s, w, r, f, luma, chroma, &mut rgb[corner..]);
}
