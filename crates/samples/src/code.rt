// The code of a pixel: the weighted sum, divided by 2^P and rounded down.
ghost use Rattle.std.specs.Prelude.{◌≡◌, ◌+◌, ◌-◌, ◌*◌, ◌^◌, ◌≤◌, pos, nat_abs, ◌*ℤ◌};
ghost use Rattle.rules.specs.Weights.{luma_row, cb_row, cr_row};
ghost use Rattle.rules.specs.Sample.{weighted, signed_code, code};
ghost use Rattle.rule_laws.specs.Codes.{Between};

use rules::{Pixel, Triple, Weights};

pub fn luma_row(w: Weights) -> Triple
    ensures { result ≡ luma_row w }
{
    Triple {
        red: w.yr,
        green: w.yg,
        blue: w.yb,
    }
}

pub fn cb_row(w: Weights) -> Triple
    ensures { result ≡ cb_row w }
{
    Triple {
        red: w.cb_r,
        green: w.cb_g,
        blue: w.cb_b,
    }
}

pub fn cr_row(w: Weights) -> Triple
    ensures { result ≡ cr_row w }
{
    Triple {
        red: w.cr_r,
        green: w.cr_g,
        blue: w.cr_b,
    }
}

// One weight times one sample.
fn weigh(a: i32, x: u16) -> i64
    ensures { (result ≡ a *ℤ pos x) × (nat_abs result ≤ 140737488355328) }
{
    i64::from(a) * i64::from(x)
}

// The weighted sum of a pixel.
fn weighted(w: Triple, p: Pixel) -> i64
    ensures { (result ≡ weighted w p) × (nat_abs result ≤ 422212465065984) }
{
    weigh(w.red, p.red) + weigh(w.green, p.green) + weigh(w.blue, p.blue)
}

// What a weighted sum starts from: the bias, and one less than a half, so that exact halves go down.
pub fn start(precision: u32, bias: u32) -> u32
    requires { (1 ≤ precision) × (precision ≤ 13) × (bias ≤ 65535) }
    ensures { result ≡ bias * 2 ^ precision + (2 ^ (precision - 1) - 1) }
{
    (bias << precision) + ((1 << (precision - 1)) - 1)
}

// The code of a pixel, rounded down; whether it is 0 to m is not known yet.
pub fn signed_code(precision: u32, bias: u32, w: Triple, p: Pixel) -> i64
    requires { (1 ≤ precision) × (precision ≤ 13) × (bias ≤ 65535) }
    ensures { result ≡ signed_code precision bias w p }
{
    let sum = weighted(w, p) + i64::from(start(precision, bias));
    sum >> precision
}

// The code as it is stored, where it is known to fit.
pub fn code(precision: u32, bias: u32, w: Triple, p: Pixel) -> u16
    requires le_precision { (1 ≤ precision) × (precision ≤ 13) × (bias ≤ 65535) }
    requires between { Between (pos 0) (pos 65535) (signed_code precision bias w p) }
    ensures { result ≡ code precision bias w p }
{
    signed_code(precision, bias, w, p) as u16
}
