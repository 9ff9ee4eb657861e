// How many pairs of a chroma row pass by their gauges, from the first on; a last pair whose block has one column fewer is left out. There
// is one loop for blocks of one, of two and of four pixels: by closures that test a pair, handed to one loop, a check takes 4 to 12 percent
// longer.
#![tactic(auto)]

ghost use Rattle.std.specs.Prelude.{◌≡◌, true, false, [], ◌∷◌, ◌+◌, ◌*◌, ◌/◌, ◌<◌, ◌≤◌, length};
ghost use Rattle.rules.specs.Channels.{count};
ghost use Rattle.rules.specs.Blocks.{chroma_width};
ghost use Rattle.fractions.specs.Sums.{UpToFour};
ghost use Rattle.frames.specs.Rows.{row_pixel};
ghost use Rattle.gauged_chroma.specs.Pairing.{whole_pairs, pair_near, RulerBounded, row_tiles, two_pixels, pair_pixels};
ghost use Rattle.gauged_chroma.specs.Runs.{PairsPassed};

use fractions::{Sums, block};
use frames::pixels;
use gauges::gauge::{Gauge, Shares};
use gauges::near;
use rules::{YuvChromaSubsampling, YuvEndianness, YuvNVOrder, YuvSourceChannels};
use yuv_support::channels::{get_u_position, get_v_position};

// How the samples of a source row and of a chroma row lie, and what Cb and Cr are compared by. Its bounds are the clause `RulerBounded` and
// no ghost field: the definition `ruler_of` of row_check has rulers of any numbers.
#[derive(Clone, Copy)]
pub struct Ruler {
    pub channels: YuvSourceChannels,
    pub endianness: YuvEndianness,
    pub order: YuvNVOrder,
    pub shares: Shares,
    pub cb: Gauge,
    pub cr: Gauge,
}

// Whether both words of a pair pass, by the channel sums of its block.
fn pair_near(ruler: Ruler, z: Sums, chroma: &[u16], pair: usize) -> bool
    requires ruler_bounded { (RulerBounded ruler) × (UpToFour z) }
    requires pair_bound { (pair ≤ 16384) × (2 * pair + 1 < length chroma.now) }
    ensures { result ≡ pair_near ruler z chroma.now pair }
{
    let u = chroma[2 * pair + get_u_position(ruler.order)];
    let v = chroma[2 * pair + get_v_position(ruler.order)];
    near::chroma_near(
        ruler.cb,
        ruler.shares,
        z.blue,
        z,
        storage::exchanged(ruler.endianness, u),
    ) && near::chroma_near(
        ruler.cr,
        ruler.shares,
        z.red,
        z,
        storage::exchanged(ruler.endianness, v),
    )
}

// Blocks of one pixel: a pair for each pixel of a row.
fn ones(ruler: Ruler, width: usize, top: &[u16], chroma: &[u16]) -> usize
    requires ruler_bounded { RulerBounded ruler }
    requires width_bound { (width ≤ 16384) × (2 * width ≤ length chroma.now) × (width * count ruler.channels ≤ length top.now) }
    ensures { PairsPassed ruler (λ pair. row_pixel ruler.channels top.now pair ∷ []) chroma.now width result }
{
    let channels = ruler.channels;
    // not a `for`, by which the check of 4:4:4 takes 4 percent longer
    let mut pair = 0;
    while pair < width {
        let p = pixels::row_pixel(channels, top, width, pair);
        if !pair_near(ruler, block::sums_of([p]), chroma, pair) {
            return pair;
        }
        pair += 1;
    }
    pair
}

// Blocks of two pixels: a pair for two pixels of a row.
fn twos(ruler: Ruler, width: usize, top: &[u16], chroma: &[u16]) -> usize
    requires ruler_bounded { RulerBounded ruler }
    requires width_bound { (width ≤ 16384) × (2 * (width / 2) ≤ length chroma.now) × (width * count ruler.channels ≤ length top.now) }
    ensures { PairsPassed ruler (λ pair. two_pixels ruler.channels top.now (2 * pair)) chroma.now (width / 2) result }
{
    let channels = ruler.channels;
    let pairs = width / 2;
    for pair in 0..pairs {
        let p = pixels::row_pixel(channels, top, width, 2 * pair);
        let q = pixels::row_pixel(channels, top, width, 2 * pair + 1);
        if !pair_near(ruler, block::sums_of([p, q]), chroma, pair) {
            return pair;
        }
    }
    pairs
}

// Blocks of four pixels: a pair for two pixels of each of two rows.
fn fours(ruler: Ruler, width: usize, top: &[u16], low: &[u16], chroma: &[u16]) -> usize
    requires ruler_bounded { RulerBounded ruler }
    requires width_bound { (width ≤ 16384) × (2 * (width / 2) ≤ length chroma.now) }
    requires channels_in_bounds { (width * count ruler.channels ≤ length top.now) × (width * count ruler.channels ≤ length low.now) }
    ensures { PairsPassed ruler (λ pair. row_tiles ruler.channels top.now low.now true true (2 * pair)) chroma.now (width / 2) result }
{
    let channels = ruler.channels;
    let pairs = width / 2;
    for pair in 0..pairs {
        let p = pixels::row_pixel(channels, top, width, 2 * pair);
        let q = pixels::row_pixel(channels, top, width, 2 * pair + 1);
        let u = pixels::row_pixel(channels, low, width, 2 * pair);
        let v = pixels::row_pixel(channels, low, width, 2 * pair + 1);
        if !pair_near(ruler, block::sums_of_four(p, q, u, v), chroma, pair) {
            return pair;
        }
    }
    pairs
}

// Blocks of two columns.
fn paired_run(
    ruler: Ruler,
    width: usize,
    two: bool,
    top: &[u16],
    low: &[u16],
    chroma: &[u16],
) -> usize
    requires ruler_bounded { RulerBounded ruler }
    requires width_bound { (width ≤ 16384) × (2 * (width / 2) ≤ length chroma.now) }
    requires channels_in_bounds { (width * count ruler.channels ≤ length top.now) × (width * count ruler.channels ≤ length low.now) }
    ensures { PairsPassed ruler (λ pair. row_tiles ruler.channels top.now low.now true two (2 * pair)) chroma.now (width / 2) result }
{
    if two {
        return fours(ruler, width, top, low, chroma);
    }
    twos(ruler, width, top, chroma)
}

// Blocks of one column; 4:4:4 alone has these, and never two rows, for which no pair is passed.
fn single_run(
    ruler: Ruler,
    width: usize,
    two: bool,
    top: &[u16],
    low: &[u16],
    chroma: &[u16],
) -> usize
    requires ruler_bounded { RulerBounded ruler }
    requires width_bound { (width ≤ 16384) × (2 * width ≤ length chroma.now) }
    requires channels_in_bounds { (width * count ruler.channels ≤ length top.now) × (width * count ruler.channels ≤ length low.now) }
    ensures { PairsPassed ruler (λ pair. row_tiles ruler.channels top.now low.now false two pair) chroma.now width result }
{
    if two {
        return 0;
    }
    ones(ruler, width, top, chroma)
}

// Blocks of the size that the subsampling has; `two` is the Bool of `pair_pixels`, whether they have two rows.
pub fn chroma_run(
    subsampling: YuvChromaSubsampling,
    ruler: Ruler,
    width: usize,
    two: bool,
    top: &[u16],
    low: &[u16],
    chroma: &[u16],
) -> usize
    requires ruler_bounded { RulerBounded ruler }
    requires width_bound { (width ≤ 16384) × (chroma_width subsampling width ≤ length chroma.now) }
    requires channels_in_bounds { (width * count ruler.channels ≤ length top.now) × (width * count ruler.channels ≤ length low.now) }
    ensures { PairsPassed ruler (pair_pixels subsampling ruler.channels top.now low.now two) chroma.now (whole_pairs subsampling width) result }
{
    match subsampling {
        YuvChromaSubsampling::Yuv420 => paired_run(ruler, width, two, top, low, chroma),
        YuvChromaSubsampling::Yuv422 => paired_run(ruler, width, two, top, low, chroma),
        YuvChromaSubsampling::Yuv444 => single_run(ruler, width, two, top, low, chroma),
    }
}
