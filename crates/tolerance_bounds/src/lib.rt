// The tolerance test of one sample by a bound.
#![tactic(auto)]

ghost use Rattle.std.specs.Prelude.{◌≡◌, ◌+◌, ◌*◌, ◌^◌, ◌≤◌, nat_le};
ghost use Rattle.fractions.specs.Exact.{Small};
ghost use Rattle.tolerance_bounds.specs.Bound.{apart, distance, bound_of, Scale};

use fractions::Exact;

fn power(exponent: u32) -> u64
    requires { exponent ≤ 13 }
    ensures { (result ≡ 2 ^ exponent) × (1 ≤ result) × (result ≤ 8192) }
{
    1u64 << exponent
}

// The tolerance times 100·q, for q = 2^P.
fn tolerance(q: u64, m: u32, halves: u32) -> u64
    requires { (q ≤ 8192) × (m ≤ 65535) × (halves ≤ 2) }
    ensures { (result ≡ 50 * halves * q + 153 * m) × (result ≤ 10846055) }
{
    50 * u64::from(halves) * q + 153 * u64::from(m)
}

// The tolerance times the divisor, rounded down: worked out once for all samples of a block size.
pub fn bound(precision: u32, m: u32, halves: u32, under: u64) -> u64
    requires { Scale precision m halves under }
    ensures { (result ≡ bound_of precision m halves under) × (result ≤ 60000000000000000) }
{
    let q = power(precision);
    under * tolerance(q, m, halves) / (100 * q)
}

// x·under + rest.
fn lifted(x: u32, under: u64, rest: u64) -> u64
    requires { (x ≤ 65535) × (under ≤ 5242800000) × (rest ≤ 1000000000000000) }
    ensures { (result ≡ x * under + rest) × (result ≤ 2000000000000000) }
{
    u64::from(x) * under + rest
}

// Whether a and b lie at most `bound` apart: the difference that wraps where a + bound is below b is then too large. By `abs_diff`, with
// loops by closures, a check of 4:4:4 takes 19 percent longer, with these loops alone 12.
pub fn within(a: u64, b: u64, bound: u64) -> bool
    requires { (a ≤ 60000000000000000) × (b ≤ 60000000000000000) × (bound ≤ 4000000000000000000) }
    ensures { result ≡ nat_le (apart a b) bound }
{
    (a + bound).wrapping_sub(b) <= 2 * bound
}

// Whether a code lies within the bound of an exact value.
pub fn within_bound(bound: u64, x: Exact, code: u16) -> bool
    requires small { Small x }
    requires bound_bound { bound ≤ 60000000000000000 }
    ensures { result ≡ nat_le (distance x code) bound }
{
    within(
        lifted(u32::from(code), x.under, x.minus),
        lifted(x.bias, x.under, x.plus),
        bound,
    )
}
