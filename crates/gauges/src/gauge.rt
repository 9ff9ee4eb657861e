// What a row's words are compared by, worked out once. A well-formed word equals code × 2^(16−d), or code × 1. Weights, bias and
// tolerance are scaled by that factor once, so that each stored word is compared without unpacking.
ghost use Rattle.std.specs.Prelude.{◌+◌, ◌*◌, ◌≤◌, ◌≡◌};
ghost use Rattle.gauges.specs.Gauges.{shares_of, gauge_of, SharesBounded, GaugeBounded};

use check_limits::Limit;
use rules::Named;

// The bounds of both are clauses and no ghost fields: the definitions `shares_of` and `gauge_of` have them of any numbers.

// What each channel's sum is multiplied by in the numerator of an exact value: K × range × factor, with Kr, Kg and Kb; and 10000 ×
// range × factor for the channel that a chroma sample is named after, blue for Cb and red for Cr.
#[derive(Clone, Copy)]
pub struct Shares {
    pub red: u64,
    pub green: u64,
    pub blue: u64,
    pub own: u64,
}

// One kind of sample's divisor, its bias × divisor × factor, and its tolerance × divisor × factor.
#[derive(Clone, Copy)]
pub struct Gauge {
    pub under: u64,
    pub start: u64,
    pub bound: u64,
}

fn share(k: u32, range: u32, factor: u16) -> u64
    requires { (k ≤ 10000) × (range ≤ 65535) × (factor ≤ 64) }
    ensures { (result ≡ k * range * factor) × (result ≤ 41942400000) }
{
    u64::from(k) * u64::from(range) * u64::from(factor)
}

pub fn shares_of(k: Named, range: u32, factor: u16) -> Shares
    requires { (k.kr + k.kb ≤ 10000) × (range ≤ 65535) × (factor ≤ 64) }
    ensures { (result ≡ shares_of k range factor) × SharesBounded result }
{
    Shares {
        red: share(k.kr, range, factor),
        green: share(10000 - k.kr - k.kb, range, factor),
        blue: share(k.kb, range, factor),
        own: share(10000, range, factor),
    }
}

pub fn gauge_of(bias: u32, l: Limit, factor: u16) -> Gauge
    requires { (bias ≤ 65535) × (l.under ≤ 5242800000) × (l.bound ≤ 60000000000000000) × (factor ≤ 64) }
    ensures { (result ≡ gauge_of bias l factor) × GaugeBounded result }
{
    Gauge {
        under: l.under,
        start: u64::from(bias) * l.under * u64::from(factor),
        bound: l.bound * u64::from(factor),
    }
}
