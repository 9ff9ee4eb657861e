// What the check of a sample needs that depends only on the settings and on the number of pixels of a block, worked out once for a
// frame: the ranges, and for each kind of sample a divisor and the tolerance times that divisor.
#![tactic(auto)]

ghost use Rattle.std.specs.Prelude.{◌≡◌, ◌+◌, ◌≤◌};
ghost use Rattle.rule_laws.specs.Usable.{Reach};
ghost use Rattle.tolerance_bounds.specs.Bound.{Scale};
ghost use Rattle.check_limits.specs.Limits.{LimitOf, BlockLimitsOf, LimitsOf, limit_for, own_limit};

pub mod judge;

use fractions::value;
use rules::{Named, Settings};
use yuv_support::ranges;
use yuv_support::ranges::YuvChromaRange;

// A divisor, and the tolerance times it.
#[derive(Clone, Copy)]
pub struct Limit {
    pub under: u64,
    pub bound: u64,
}

// The limits of Cb or of Cr for a block of one, of two and of four pixels.
#[derive(Clone, Copy)]
pub struct BlockLimits {
    pub one: Limit,
    pub two: Limit,
    pub four: Limit,
}

// The ranges, and the limits of luma, Cb and Cr.
#[derive(Clone, Copy)]
pub struct SettingsLimits {
    pub ranges: YuvChromaRange,
    pub luma: Limit,
    pub cb: BlockLimits,
    pub cr: BlockLimits,
}

fn limit_of(precision: u32, m: u32, halves: u32, under: u64) -> Limit
    requires { Scale precision m halves under }
    ensures { LimitOf precision m halves under result }
{
    Limit {
        under,
        bound: tolerance_bounds::bound(precision, m, halves, under),
    }
}

// The limits of Cb or Cr; `own` is Kb for Cb and Kr for Cr. Two and four pixels have one half more.
fn block_limits_of(precision: u32, m: u32, own: u32) -> BlockLimits
    requires { (precision ≤ 13) × (m ≤ 65535) × (own ≤ 10000) }
    ensures { BlockLimitsOf precision m own result }
{
    BlockLimits {
        one: limit_of(precision, m, 1, value::chroma_under(own, 1, m)),
        two: limit_of(precision, m, 2, value::chroma_under(own, 2, m)),
        four: limit_of(precision, m, 2, value::chroma_under(own, 4, m)),
    }
}

// The limits for the settings and a row of the table of matrices.
pub fn limits_of(s: Settings, k: Named) -> SettingsLimits
    requires reach { Reach s }
    requires kb_bound { k.kr + k.kb ≤ 10000 }
    ensures { LimitsOf s k result }
{
    let m = ranges::most(s.depth);
    SettingsLimits {
        ranges: ranges::get_yuv_range(s.depth, s.range),
        luma: limit_of(s.precision, m, 1, value::luma_under(m)),
        cb: block_limits_of(s.precision, m, k.kb),
        cr: block_limits_of(s.precision, m, k.kr),
    }
}

impl BlockLimits {
    // The limit of a block by whether it has a second column (`wide`) and a second row (`two`): bools, as the definition takes them.
    fn limit_for(self, wide: bool, two: bool) -> Limit
        ensures { result ≡ limit_for self wide two }
    {
        match (wide, two) {
            (false, false) => self.one,
            (true, false) | (false, true) => self.two,
            (true, true) => self.four,
        }
    }
}

impl SettingsLimits {
    // The limit of a block's Cb where `u` is true, of its Cr where it is false.
    pub fn own_limit(self, u: bool, wide: bool, two: bool) -> Limit
        ensures { result ≡ own_limit self u wide two }
    {
        let own = if u { self.cb } else { self.cr };
        own.limit_for(wide, two)
    }
}
