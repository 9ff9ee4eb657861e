// How many samples of a row, from the first on, are right by the quick test: as a rule all of them; where not, the rest is to be judged one by
// one.
ghost use Rattle.std.specs.Prelude.{◌≡◌, ◌*◌, ◌≤◌, length};
ghost use Rattle.rules.specs.Channels.{count};
ghost use Rattle.rules.specs.Blocks.{chroma_width};
ghost use Rattle.sample_check.specs.Samples.{luma_element_right, chroma_element_right};
ghost use Rattle.gauges.specs.Prefixes.{Passed};
ghost use Rattle.gauged_chroma.specs.Pairing.{RulerBounded};
ghost use Rattle.row_check.specs.Rulers.{ruler_of};

use check_limits::judge::Judge;
use gauged_chroma::Ruler;
use gauges::gauge;

// Luma; `pixels` is the source row.
pub fn luma_passed(judge: Judge, width: usize, pixels: &[u16], luma: &[u16]) -> usize
    requires width_in_bounds { (width ≤ length luma.now) × (width * count judge.settings.channels ≤ length pixels.now) }
    ensures { Passed (luma_element_right judge.settings judge.named pixels.now luma.now) width result }
{
    if !formed_rows::all_formed(judge.settings, luma) {
        return 0;
    }
    let s = judge.settings;
    let ranges = judge.limits.ranges;
    let factor = storage::packing_factor(s.packing, s.depth);
    let h = gauge::shares_of(judge.named, ranges.range_y, factor);
    let g = gauge::gauge_of(ranges.bias_y, judge.limits.luma, factor);
    gauged_luma::luma_run(s.channels, s.endianness, h, g, width, pixels, luma)
}

// What the pairs of a chroma row are compared by, by whether their blocks have two rows.
fn ruler_of(judge: Judge, two: bool) -> Ruler
    ensures { (result ≡ ruler_of judge.settings judge.named judge.limits two) × RulerBounded result }
{
    let s = judge.settings;
    let limits = judge.limits;
    let ranges = limits.ranges;
    let factor = storage::packing_factor(s.packing, s.depth);
    let wide = blocks::paired(s.subsampling);
    let shares = gauge::shares_of(judge.named, ranges.range_uv, factor);
    let cb = gauge::gauge_of(ranges.bias_uv, limits.own_limit(true, wide, two), factor);
    let cr = gauge::gauge_of(ranges.bias_uv, limits.own_limit(false, wide, two), factor);
    Ruler {
        channels: s.channels,
        endianness: s.endianness,
        order: s.order,
        shares,
        cb,
        cr,
    }
}

// Chroma, a pair at a time; `top` and `low` are the source rows of its blocks, the same where these have one row.
pub fn chroma_passed(
    judge: Judge,
    width: usize,
    two: bool,
    top: &[u16],
    low: &[u16],
    chroma: &[u16],
) -> usize
    requires width_bound { (width ≤ 16384) × (chroma_width judge.settings.subsampling width ≤ length chroma.now) }
    requires channels_in_bounds { (width * count judge.settings.channels ≤ length top.now) × (width * count judge.settings.channels ≤ length low.now) }
    ensures { Passed (chroma_element_right judge.settings judge.named width two top.now low.now chroma.now) (chroma_width judge.settings.subsampling width) result }
{
    if !formed_rows::all_formed(judge.settings, chroma) {
        return 0;
    }
    let ruler = ruler_of(judge, two);
    2 * gauged_chroma::chroma_run(
        judge.settings.subsampling,
        ruler,
        width,
        two,
        top,
        low,
        chroma,
    )
}
