// Where the rows of a window lie in the source, and those of a plane in it.
ghost use Rattle.std.specs.Prelude.{◌+◌, ◌*◌, ◌<◌, ◌≤◌, length};
ghost use Rattle.frames.specs.Rows.{PlaneRow};
ghost use Rattle.frames.specs.SourceRows.{WindowRows, SourceRow};

use rules::{Frame, YuvSourceChannels};
use yuv_support::channels::get_channels_count;

// A row of the picture that a source shows: the part that starts with the window's first column and ends with its last.
pub fn source_row<'a>(
    channels: YuvSourceChannels,
    f: Frame,
    source: &'a [u16],
    row: usize,
) -> &'a [u16]
    requires window_rows { WindowRows channels f (length source.now) }
    requires row_lt_height { row < f.height }
    ensures { SourceRow channels f source.now row result.now }
{
    let n = get_channels_count(channels);
    let a = (f.first_row + row) * f.source_stride + f.first_column * n;
    let b = a + f.width * n;
    &source[a..b]
}

// A row of a plane, without its padding.
pub fn plane_row<'a>(words: &'a [u16], stride: usize, wide: usize, row: usize) -> &'a [u16]
    requires { row * stride + wide ≤ length words.now }
    ensures { PlaneRow stride wide words.now row result.now }
{
    let a = row * stride;
    let b = a + wide;
    &words[a..b]
}
