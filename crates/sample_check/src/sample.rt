// The test of one sample by its exact fraction, over whole numbers.
ghost use Rattle.std.specs.Prelude.{◌≡◌, ◌+◌, ◌*◌, ◌≤◌, length};
ghost use Rattle.rules.specs.Channels.{count};
ghost use Rattle.rule_laws.specs.Usable.{Reach};
ghost use Rattle.fractions.specs.Exact.{Small};
ghost use Rattle.fractions.specs.Sums.{sums_of, UpToFour};
ghost use Rattle.sample_check.specs.Samples.{near_by, right_by, pixel_right, block_right, TileFits, tiled};

use check_limits::judge::Judge;
use fractions::{Exact, Sums, block, value};
use frames::pixels;
use rules::{Pixel, Settings, YuvSourceChannels};

// A chroma block of a row: its first column, and whether it has a second column and a second row, two Bools as in `tiles` of blocks/specs.
#[derive(Clone, Copy)]
pub struct Tile {
    pub left: usize,
    pub wide: bool,
    pub two: bool,
}

// Whether the code of a word is within a bound of an exact value.
fn near_by(s: Settings, bound: u64, x: Exact, v: u16) -> bool
    requires reach { Reach s }
    requires small { (Small x) × (bound ≤ 60000000000000000) }
    ensures { result ≡ near_by s bound x v }
{
    tolerance_bounds::within_bound(
        bound,
        x,
        storage::stored(s.packing, s.endianness, s.depth, v),
    )
}

// Whether a word is well formed and its code within a bound of an exact value.
fn right_by(s: Settings, bound: u64, x: Exact, v: u16) -> bool
    requires reach { Reach s }
    requires small { (Small x) × (bound ≤ 60000000000000000) }
    ensures { result ≡ right_by s bound x v }
{
    storage::well_formed(s.packing, s.endianness, s.depth, v) && near_by(s, bound, x, v)
}

// Whether a word is right as the luma of a pixel.
pub fn luma_right(judge: Judge, p: Pixel, v: u16) -> bool
    ensures { result ≡ pixel_right judge.settings judge.named p v }
{
    let g = judge.limits.ranges;
    let l = judge.limits.luma;
    let x = value::exact_luma(judge.named, g.bias_y, g.range_y, l.under, p);
    right_by(judge.settings, l.bound, x, v)
}

// The channel sums of a block, from one or two row parts of the source.
fn sums(channels: YuvSourceChannels, width: usize, top: &[u16], low: &[u16], t: Tile) -> Sums
    requires tile_fits { TileFits width t }
    requires channels_in_bounds { (width * count channels ≤ length top.now) × (width * count channels ≤ length low.now) }
    ensures { (result ≡ sums_of (tiled channels top.now low.now t)) × UpToFour result }
{
    let p = pixels::row_pixel(channels, top, width, t.left);
    match (t.wide, t.two) {
        (false, false) => block::sums_of([p]),
        (true, false) => block::sums_of([p, pixels::row_pixel(channels, top, width, t.left + 1)]),
        (false, true) => block::sums_of([p, pixels::row_pixel(channels, low, width, t.left)]),
        (true, true) => {
            let q = pixels::row_pixel(channels, top, width, t.left + 1);
            let u = pixels::row_pixel(channels, low, width, t.left);
            let v = pixels::row_pixel(channels, low, width, t.left + 1);
            block::sums_of_four(p, q, u, v)
        }
    }
}

// Whether a word is right as the Cb of a block where `u` is true, as its Cr where it is false.
pub fn chroma_right(
    judge: Judge,
    u: bool,
    width: usize,
    top: &[u16],
    low: &[u16],
    t: Tile,
    v: u16,
) -> bool
    requires tile_fits { TileFits width t }
    requires channels_in_bounds { (width * count judge.settings.channels ≤ length top.now) × (width * count judge.settings.channels ≤ length low.now) }
    ensures { result ≡ block_right judge.settings judge.named u (tiled judge.settings.channels top.now low.now t) v }
{
    let b = sums(judge.settings.channels, width, top, low, t);
    let g = judge.limits.ranges;
    let limit = judge.limits.own_limit(u, t.wide, t.two);
    let x = value::exact_chroma(u, judge.named, g.bias_uv, g.range_uv, limit.under, b);
    right_by(judge.settings, limit.bound, x, v)
}
