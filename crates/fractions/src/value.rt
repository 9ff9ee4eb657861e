// The exact values of luma, Cb and Cr, and their divisors.
ghost use Rattle.std.specs.Prelude.{◌≡◌, [], ◌∷◌, ◌+◌, ◌-◌, ◌*◌, ◌≤◌};
ghost use Rattle.fractions.specs.Exact.{Exactly};
ghost use Rattle.fractions.specs.Sums.{blend, sums_of, luma_by, own_sum, chroma_by, UpToFour, Modest};

use crate::block::sums_of;
use crate::{Exact, Sums};
use rules::{Named, Pixel};

// The divisor of luma.
pub fn luma_under(m: u32) -> u64
    requires { m ≤ 65535 }
    ensures { (result ≡ 10000 * m) × (result ≤ 5242800000) }
{
    10000 * u64::from(m)
}

// The divisor of the chroma of n pixels, by the K of the channel's own: Kb for Cb, Kr for Cr.
pub fn chroma_under(own: u32, n: u32, m: u32) -> u64
    requires { (own ≤ 10000) × (n ≤ 4) × (m ≤ 65535) }
    ensures { (result ≡ 2 * (10000 - own) * n * m) × (result ≤ 5242800000) }
{
    2 * u64::from(10000 - own) * u64::from(n) * u64::from(m)
}

// One K times one sum.
fn share(k: u32, sum: u32) -> u64
    requires { sum ≤ 262140 }
    ensures { (result ≡ k * sum) × (result ≤ k * 262140) }
{
    u64::from(k) * u64::from(sum)
}

// S = Kr.SR + Kg.SG + Kb.SB.
fn blend(k: Named, s: Sums) -> u64
    requires kb_bound { k.kr + k.kb ≤ 10000 }
    requires up_to_four { UpToFour s }
    ensures { (result ≡ blend k s) × (result ≤ 2621400000) }
{
    share(k.kr, s.red) + share(10000 - k.kr - k.kb, s.green) + share(k.kb, s.blue)
}

// A numerator's part, times the range.
fn ranged(x: u64, range: u32) -> u64
    requires { (x ≤ 2621400000) × (range ≤ 65535) }
    ensures { (result ≡ x * range) × (result ≤ 1000000000000000) }
{
    x * u64::from(range)
}

// The exact Cb of a block with the channel sums s where `u` is true, its exact Cr where it is false, by its divisor.
pub fn exact_chroma(u: bool, k: Named, bias: u32, range: u32, under: u64, s: Sums) -> Exact
    requires modest { Modest k bias range under }
    requires up_to_four { UpToFour s }
    ensures { Exactly (chroma_by k bias range under (own_sum u s) s) result }
{
    Exact {
        bias,
        plus: ranged(10000 * u64::from(s.own(u)), range),
        minus: ranged(blend(k, s), range),
        under,
    }
}

// The exact luma of a pixel, by its divisor.
pub fn exact_luma(k: Named, bias: u32, range: u32, under: u64, p: Pixel) -> Exact
    requires { Modest k bias range under }
    ensures { Exactly (luma_by k bias range under (sums_of (p ∷ []))) result }
{
    Exact {
        bias,
        plus: ranged(blend(k, sums_of([p])), range),
        minus: 0,
        under,
    }
}
