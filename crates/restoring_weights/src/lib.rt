// The weights of the way back as rows use them, worked out beforehand: scaled so that a sum over stored words, divided by 2^19, is a channel,
// and in the order in which a pixel's elements stand in the buffer. What a sum starts from holds the biases and the rounding.
#![tactic(auto)]

ghost use Rattle.std.specs.Prelude.{◌≡◌, ◌-◌, ◌*◌, ◌^◌, ◌≤◌, pos, nat_abs, ◌*ℤ◌};
ghost use Rattle.rule_laws.specs.Usable.{Reach};
ghost use Rattle.inverse_bounds.specs.Bounds.{InverseWithin};
ghost use Rattle.restoring_weights.specs.RestoringWeights.{first_side, third_side, scale_of, outer_weights, restoring_weights, SmallOuter, SmallWeights};

use rules::{InverseWeights, Settings, YuvNVOrder, YuvSourceChannels};
use yuv_support::{channels, ranges};

// Cr or Cb: its place in a chroma pair, its weight in red or in blue, and its weight in green.
#[derive(Clone, Copy)]
pub struct ChromaSide {
    pub at: usize,
    pub own: i32,
    pub green: i32,
}

// The same of a pixel's first or third element, scaled, and what that element's sum starts from.
#[derive(Clone, Copy)]
pub struct OuterWeights {
    pub at: usize,
    pub own: i64,
    pub green: i64,
    pub start: i64,
}

// SmallWeights stands in clauses: as a ghost field it would need a proof in `restoring_weights` of specs/, which takes any weights.
#[derive(Clone, Copy)]
pub struct RestoringWeights {
    pub luma: i64,
    pub first: OuterWeights,
    pub third: OuterWeights,
    pub green_start: i64,
}

// The sides of a pixel's first and third element: red stands first in Rgb and Rgba, blue in Bgr and Bgra.
fn sides(
    channels: YuvSourceChannels,
    order: YuvNVOrder,
    w: InverseWeights,
) -> (ChromaSide, ChromaSide)
    ensures { result ≡ (first_side channels order w, third_side channels order w) }
{
    let cr = ChromaSide {
        at: channels::get_v_position(order),
        own: w.cr_coef,
        green: w.g_coeff_1,
    };
    let cb = ChromaSide {
        at: channels::get_u_position(order),
        own: w.cb_coef,
        green: w.g_coeff_2,
    };
    match channels {
        YuvSourceChannels::Rgb | YuvSourceChannels::Rgba => (cr, cb),
        YuvSourceChannels::Bgra | YuvSourceChannels::Bgr => (cb, cr),
    }
}

// The factor of all weights: 2^(13 − P) times 64 over the packing factor.
fn scale_of(s: Settings) -> u32
    requires { Reach s }
    ensures { (result ≡ scale_of s) × (result * 2 ^ s.precision ≤ 524288) }
{
    (1u32 << (13 - s.precision)) * (64 / u32::from(storage::packing_factor(s.packing, s.depth)))
}

// What each sum gets before it is divided, scaled: one less than a half, so that exact halves go down.
fn rounding(precision: u32) -> u32
    requires { (1 ≤ precision) × (precision ≤ 13) }
    ensures { (result ≡ (2 ^ (precision - 1) - 1) * 2 ^ (19 - precision)) × (result ≤ 524288) }
{
    ((1u32 << (precision - 1)) - 1) << (19 - precision)
}

// A weight times a number.
pub fn weigh(weight: i64, n: u32) -> i64
    requires { (nat_abs weight ≤ 2097152) × (n ≤ 262144) }
    ensures { (result ≡ weight *ℤ pos n) × (nat_abs result ≤ nat_abs weight * n) }
{
    weight * i64::from(n)
}

// A weight times the scale. Not `weigh`: that bounds both numbers, and here only the product is known to be small.
fn scaled(weight: i32, scale: u32) -> i64
    requires { nat_abs weight * scale ≤ 2097152 }
    ensures { (result ≡ weight *ℤ pos scale) × (nat_abs result ≤ 2097152) }
{
    i64::from(weight) * i64::from(scale)
}

fn outer_weights(scale: u32, bias: u32, start: i64, side: ChromaSide) -> OuterWeights
    requires at_bound { (side.at ≤ 1) × (nat_abs side.own * scale ≤ 2097152) × (nat_abs side.green * scale ≤ 2097152) }
    requires bias_bound { (bias ≤ 65536) × (nat_abs start ≤ 274877906944) }
    ensures { (result ≡ outer_weights scale bias start side) × (SmallOuter result) }
{
    let own = scaled(side.own, scale);
    let green = scaled(side.green, scale);
    OuterWeights {
        at: side.at,
        own,
        green,
        start: start - weigh(own, bias),
    }
}

pub fn restoring_weights(s: Settings, w: InverseWeights) -> RestoringWeights
    requires reach { Reach s }
    requires inverse_within { InverseWithin (4 * 2 ^ s.precision) w }
    ensures { (result ≡ restoring_weights s w) × (SmallWeights result) }
{
    let scale = scale_of(s);
    let g = ranges::get_yuv_range(s.depth, s.range);
    let factor = u32::from(storage::packing_factor(s.packing, s.depth));
    let bias = g.bias_uv * factor;
    let luma = scaled(w.y_coef, scale);
    let start = i64::from(rounding(s.precision)) - weigh(luma, g.bias_y * factor);
    let (one, two) = sides(s.channels, s.order, w);
    let first = outer_weights(scale, bias, start, one);
    let third = outer_weights(scale, bias, start, two);
    let green_start = start + weigh(first.green, bias) + weigh(third.green, bias);
    RestoringWeights {
        luma,
        first,
        third,
        green_start,
    }
}
