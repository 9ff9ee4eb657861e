// Carried over from src/yuv_support.rs: the nine weights, first in 32-bit floats and then as whole numbers.
#![tactic(auto)]

ghost use Rattle.std.specs.Prelude.{◌≡◌, ◌≤◌, false, T, pos};
ghost use Rattle.std.specs.Float.{binary32};
ghost use Rattle.std.specs.Float.Ieee.{fits, lt};
ghost use Rattle.rules.specs.Weights.{nought, pair, forward, rounded, integers, weights_of};
ghost use Rattle.weights.specs.Held.{Held};

use rules::{CbCrForwardTransform, Settings, Weights};
use yuv_support::ranges;

pub fn get_forward_transform(
    range_rgba: u32,
    range_y: u32,
    range_uv: u32,
    kr: f32,
    kb: f32,
) -> CbCrForwardTransform
    ensures exact { result ≡ forward range_rgba range_y range_uv (pair kr kb) }
    ensures held { T (fits binary32 kr) × T (fits binary32 kb) }
{
    let rgba = std::num::nearest_u32_to_f32(range_rgba);
    let ry = std::num::nearest_u32_to_f32(range_y);
    let ruv = std::num::nearest_u32_to_f32(range_uv);
    let kg = 1.0f32 - kr - kb;

    let yr = kr * ry / rgba;
    let yg = kg * ry / rgba;
    let yb = kb * ry / rgba;

    let cb_r = -0.5f32 * kr / (1f32 - kb) * ruv / rgba;
    let cb_g = -0.5f32 * kg / (1f32 - kb) * ruv / rgba;
    let cb_b = 0.5f32 * ruv / rgba;

    let cr_r = 0.5f32 * ruv / rgba;
    let cr_g = -0.5f32 * kg / (1f32 - kr) * ruv / rgba;
    let cr_b = -0.5f32 * kb / (1f32 - kr) * ruv / rgba;
    CbCrForwardTransform {
        yr,
        yg,
        yb,
        cb_r,
        cb_g,
        cb_b,
        cr_r,
        cr_g,
        cr_b,
    }
}

// An x that is not negative to the nearest whole number, a half up, by sums in f64. 2^-26 lifts an exact half above itself and no other x as far as
// a half, since the next f32 below a half is 2^-25 away at least. From 2^52 on an f64 has no fraction, so what 2^52 is added to is rounded.
fn round_half_up(x: f32) -> u32
    requires { lt x nought ≡ false }
    ensures { pos result ≡ rounded x }
{
    if x < 2147483648.0f32 {
        let lifted = f64::from(x) + 0.00000001490116119384765625;
        return (lifted + 4503599627370496.0 - 4503599627370496.0) as u32;
    }
    if x > 0.0f32 {
        return 2147483647;
    }
    0
}

// x to the nearest whole number, a half away from zero.
pub fn round_weight(x: f32) -> i32
    ensures { result ≡ rounded x }
{
    if x < 0.0f32 {
        -(round_half_up(-x) as i32)
    } else {
        round_half_up(x) as i32
    }
}

// Each weight times 2^P, in f32, to the nearest whole number.
pub fn to_integers(f: CbCrForwardTransform, precision: u32) -> Weights
    requires { precision ≤ 13 }
    ensures { result ≡ integers precision f }
{
    let scale = std::num::nearest_u32_to_f32(1 << precision);
    let whole = |x: f32| round_weight(x * scale);
    Weights {
        yr: whole(f.yr),
        yg: whole(f.yg),
        yb: whole(f.yb),
        cb_r: whole(f.cb_r),
        cb_g: whole(f.cb_g),
        cb_b: whole(f.cb_b),
        cr_r: whole(f.cr_r),
        cr_g: whole(f.cr_g),
        cr_b: whole(f.cr_b),
    }
}

// The nine weights of the settings.
pub fn weights_of(s: Settings) -> Weights
    requires { (10 ≤ s.depth) × (s.depth ≤ 16) × (s.precision ≤ 13) }
    ensures exact { result ≡ weights_of s }
    ensures held { Held s.matrix }
{
    let k = matrices::get_kr_kb(s.matrix);
    let g = ranges::get_yuv_range(s.depth, s.range);
    let m = ranges::most(s.depth);
    let f = get_forward_transform(m, g.range_y, g.range_uv, k.kr, k.kb);
    to_integers(f, s.precision)
}
