// The odd last column of a row, by the plain rule of one sample: all other columns are written two at a time (column_pairs).
#![tactic(auto)]

ghost use Rattle.std.specs.Prelude.{◌≡◌, ◌*◌, ◌<◌, ◌≤◌, false, length};
ghost use Rattle.rules.specs.Channels.{count};
ghost use Rattle.rules.specs.Blocks.{averaged, chroma_width};
ghost use Rattle.rule_laws.specs.Usable.{Usable};
ghost use Rattle.blocks.specs.Tiles.{tiles};
ghost use Rattle.plane_laws.specs.Rows.{Finished};
ghost use Rattle.frames.specs.Rows.{row_pixel, Convertible};
ghost use Rattle.last_column.specs.Words.{luma_words, chroma_words};
ghost use Rattle.last_column.specs.Columns.{even_columns, elements_over, even_elements};

use frames::pixels;
use rules::{Pixel, Settings, Weights, YuvChromaSubsampling, YuvSourceChannels};
use samples::word;

// The luma of an odd last column.
pub fn last_luma(s: Settings, w: Weights, width: usize, luma: &mut [u16], rgba: &[u16])
    requires usable { Usable s w }
    requires width_bound { (width ≤ 16384) × (length luma.old ≡ width) }
    requires convertible { Convertible s width rgba.now }
    ensures { Finished (even_columns width) (luma_words s w rgba.now) luma.old luma.new }
{
    if width % 2 == 0 {
        return;
    }
    let x = width - 1;
    let p = pixels::row_pixel(s.channels, rgba, width, x);
    luma[x] = word::luma_word(s, w, p);
}

// How many chroma elements an even number of first columns have.
pub fn elements_over(subsampling: YuvChromaSubsampling, columns: usize) -> usize
    requires { columns ≤ 16384 }
    ensures { result ≡ elements_over subsampling columns }
{
    match subsampling {
        YuvChromaSubsampling::Yuv420 | YuvChromaSubsampling::Yuv422 => columns,
        YuvChromaSubsampling::Yuv444 => 2 * columns,
    }
}

// The mean of a block of one column: of its two pixels where it has two rows.
fn column_mean(
    channels: YuvSourceChannels,
    width: usize,
    two: bool,
    x: usize,
    upper: &[u16],
    lower: &[u16],
) -> Pixel
    requires x_lt_width { x < width }
    requires channels_in_bounds { (width * count channels ≤ length upper.now) × (width * count channels ≤ length lower.now) }
    ensures { result ≡ averaged (tiles false two (row_pixel channels upper.now) (row_pixel channels lower.now) x) }
{
    let p = pixels::row_pixel(channels, upper, width, x);
    if two {
        let u = pixels::row_pixel(channels, lower, width, x);
        return means::mean_of_two(p, u);
    }
    p
}

// The chroma pair of an odd last column; the lower row is read only where there are two.
pub fn last_pair(
    s: Settings,
    w: Weights,
    width: usize,
    two: bool,
    chroma: &mut [u16],
    upper: &[u16],
    lower: &[u16],
)
    requires usable { Usable s w }
    requires width_bound { (width ≤ 16384) × (length chroma.old ≡ chroma_width s.subsampling width) }
    requires convertible { (Convertible s width upper.now) × (Convertible s width lower.now) }
    ensures { Finished (even_elements s.subsampling width) (chroma_words s w width two upper.now lower.now) chroma.old chroma.new }
{
    if width % 2 == 0 {
        return;
    }
    let last = width - 1;
    let k = elements_over(s.subsampling, last);
    let p = column_mean(s.channels, width, two, last, upper, lower);
    chroma[k] = word::chroma_word(s, w, p, k);
    chroma[k + 1] = word::chroma_word(s, w, p, k + 1);
}
