// Refusal 4: a weight too far from its exact fraction.
#![tactic(auto)]

ghost use Rattle.std.specs.Prelude.{◌≡◌, ◌+◌, ◌^◌, ◌≤◌, ◌<◌, unsigned_abs};
ghost use Rattle.rules.specs.Matrices.{matrix_of};
ghost use Rattle.rules.specs.Settle.{near, row_near, all_near, weight_off};

use rules::{Matrix, Named, Settings, Triple, Weights};
use samples::code;
use yuv_support::ranges;

// w is within 51/100 of 2^P times a / d.
pub fn weight_near(precision: u32, d: u32, w: i32, a: i64) -> bool
    requires precise { precision ≤ 13 }
    requires small { unsigned_abs a < 2 ^ 32 }
    ensures { result ≡ near precision d w a }
{
    let exact = a << precision;
    (i64::from(w) * i64::from(d)).abs_diff(exact) <= 51 * u64::from(d) / 100
}

// A row of three weights over one denominator.
#[tactic(auto, unfolding(rules::specs::Settle::row_near))]
pub fn row_near(precision: u32, d: u32, w: Triple, a: i64, b: i64, c: i64) -> bool
    requires precise { precision ≤ 13 }
    requires small { (unsigned_abs a < 2 ^ 32) × (unsigned_abs b < 2 ^ 32) × (unsigned_abs c < 2 ^ 32) }
    ensures { result ≡ row_near precision d w a b c }
{
    weight_near(precision, d, w.red, a)
        && weight_near(precision, d, w.green, b)
        && weight_near(precision, d, w.blue, c)
}

// The nine weights of a named matrix.
pub fn all_near(precision: u32, k: Named, m: u32, y: u32, uv: u32, w: Weights) -> bool
    requires { (precision ≤ 13) × (k.kr + k.kb ≤ 10000) × (m < 65536) × (y < 65536) × (uv < 65536) }
    ensures { result ≡ all_near precision k m y uv w }
{
    let Named { kr, kb } = k;
    let kg = 10000 - kr - kb;
    let nr = 10000 - kr;
    let nb = 10000 - kb;
    let y_r = i64::from(kr * y);
    let y_g = i64::from(kg * y);
    let y_b = i64::from(kb * y);
    let cb_r = -i64::from(kr * uv);
    let cb_b = i64::from(nb * uv);
    let cr_r = i64::from(nr * uv);
    let c_g = -i64::from(kg * uv);
    let cr_b = -i64::from(kb * uv);
    row_near(precision, 10000 * m, code::luma_row(w), y_r, y_g, y_b)
        && row_near(precision, 2 * nb * m, code::cb_row(w), cb_r, c_g, cb_b)
        && row_near(precision, 2 * nr * m, code::cr_row(w), cr_r, c_g, cr_b)
}

// Refusal 4. `Reach s` would ask for 1 ≤ precision too, which nothing here needs.
pub fn weight_off(s: Settings, matrix: Matrix, w: Weights) -> bool
    requires le_depth { (10 ≤ s.depth) × (s.depth ≤ 16) × (s.precision ≤ 13) }
    requires matrix_value { matrix ≡ matrix_of s.matrix }
    ensures { result ≡ weight_off s matrix w }
{
    match matrix {
        Matrix::Own(_) => false,
        Matrix::Tabled(k) => {
            let g = ranges::get_yuv_range(s.depth, s.range);
            let m = ranges::most(s.depth);
            !all_near(s.precision, k, m, g.range_y, g.range_uv, w)
        }
    }
}
