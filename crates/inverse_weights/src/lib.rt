// Carried over from src/yuv_support.rs: the five weights of the way back to RGB, first in 32-bit floats and then as whole numbers.
#![tactic(auto)]

ghost use Rattle.std.specs.Prelude.{◌≡◌, ◌≤◌};
ghost use Rattle.rules.specs.Weights.{pair};
ghost use Rattle.rules.specs.Inverse.{backward, inverse_integers, inverse_weights_of};

use rules::{CbCrInverseTransform, InverseWeights, Settings};
use weights::round_weight;
use yuv_support::ranges;

fn get_inverse_transform(
    range_bgra: u32,
    range_y: u32,
    range_uv: u32,
    kr: f32,
    kb: f32,
) -> CbCrInverseTransform
    ensures { result ≡ backward range_bgra range_y range_uv (pair kr kb) }
{
    let bgra = std::num::nearest_u32_to_f32(range_bgra);
    let ry = std::num::nearest_u32_to_f32(range_y);
    let ruv = std::num::nearest_u32_to_f32(range_uv);
    let stretch_uv = bgra / ruv;
    let y_coef = bgra / ry;
    let cr_coef = (2f32 * (1f32 - kr)) * stretch_uv;
    let cb_coef = (2f32 * (1f32 - kb)) * stretch_uv;
    let kg = 1.0f32 - kr - kb;
    let g_coeff_1 = (2f32 * ((1f32 - kr) * kr / kg)) * stretch_uv;
    let g_coeff_2 = (2f32 * ((1f32 - kb) * kb / kg)) * stretch_uv;
    CbCrInverseTransform {
        y_coef,
        cr_coef,
        cb_coef,
        g_coeff_1,
        g_coeff_2,
    }
}

// Each weight times 2^P, in f32, to the nearest whole number.
fn to_integers(f: CbCrInverseTransform, precision: u32) -> InverseWeights
    requires { precision ≤ 13 }
    ensures { result ≡ inverse_integers precision f }
{
    let scale = std::num::nearest_u32_to_f32(1 << precision);
    let whole = |x: f32| round_weight(x * scale);
    InverseWeights {
        y_coef: whole(f.y_coef),
        cr_coef: whole(f.cr_coef),
        cb_coef: whole(f.cb_coef),
        g_coeff_1: whole(f.g_coeff_1),
        g_coeff_2: whole(f.g_coeff_2),
    }
}

// The five weights of the settings. All that it shares with `weights_of` is calls, whose results the one that differs takes.
pub fn inverse_weights_of(s: Settings) -> InverseWeights
    requires { (10 ≤ s.depth) × (s.depth ≤ 16) × (s.precision ≤ 13) }
    ensures { result ≡ inverse_weights_of s }
{
    let k = matrices::get_kr_kb(s.matrix);
    let g = ranges::get_yuv_range(s.depth, s.range);
    let m = ranges::most(s.depth);
    let f = get_inverse_transform(m, g.range_y, g.range_uv, k.kr, k.kb);
    to_integers(f, s.precision)
}
