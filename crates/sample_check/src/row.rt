// The test of one element of a plane's row, against the row parts of the source that it is made of.
ghost use Rattle.std.specs.Prelude.{◌≡◌, ◌*◌, ◌/◌, ◌<◌, ◌≤◌, length};
ghost use Rattle.rules.specs.Channels.{count};
ghost use Rattle.rules.specs.Blocks.{chroma_width};
ghost use Rattle.blocks.specs.Tiles.{left_of};
ghost use Rattle.sample_check.specs.Samples.{tile_of, luma_element_right, chroma_element_right};

use crate::sample;
use crate::sample::Tile;
use check_limits::judge::Judge;
use frames::pixels;
use rules::YuvChromaSubsampling;
use samples::word;

// Whether element e of a luma row is right; `pixels` is the source row.
pub fn luma_at(judge: Judge, width: usize, pixels: &[u16], luma: &[u16], e: usize) -> bool
    requires e_lt_width { (e < width) × (width ≤ length luma.now) × (width * count judge.settings.channels ≤ length pixels.now) }
    ensures { result ≡ luma_element_right judge.settings judge.named pixels.now luma.now e }
{
    let p = pixels::row_pixel(judge.settings.channels, pixels, width, e);
    sample::luma_right(judge, p, luma[e])
}

// The block that a pair of chroma samples is made of.
fn tile(subsampling: YuvChromaSubsampling, width: usize, two: bool, pair: usize) -> Tile
    requires { (pair ≤ 16384) × (left_of subsampling pair < width) }
    ensures { result ≡ tile_of subsampling width two pair }
{
    let left = blocks::left(subsampling, pair);
    Tile {
        left,
        wide: blocks::wide(subsampling, width, left),
        two,
    }
}

// Whether element e of a chroma row is right; `top` and `low` are the source rows of its blocks, the same where these have one row.
pub fn chroma_at(
    judge: Judge,
    width: usize,
    two: bool,
    top: &[u16],
    low: &[u16],
    chroma: &[u16],
    e: usize,
) -> bool
    requires width_bound { (width ≤ 16384) × (e < chroma_width judge.settings.subsampling width) × (e < length chroma.now) }
    requires channels_in_bounds { (width * count judge.settings.channels ≤ length top.now) × (width * count judge.settings.channels ≤ length low.now) }
    ensures { result ≡ chroma_element_right judge.settings judge.named width two top.now low.now chroma.now e }
{
    let t = tile(judge.settings.subsampling, width, two, e / 2);
    sample::chroma_right(
        judge,
        word::is_u(judge.settings.order, e),
        width,
        top,
        low,
        t,
        chroma[e],
    )
}
