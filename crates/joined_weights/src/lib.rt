// The weights of a frame as its rows use them, worked out beforehand: in the order in which a pixel's samples stand in the source,
// scaled so that sum / 2^13, its low bits cleared, is the stored word, and joined so that one sum of 64 bits holds two: a + b × 2^32.
#![tactic(auto)]

ghost use Rattle.std.specs.Prelude.{◌≡◌, ◌+◌, ◌*◌, ◌^◌, ◌≤◌, pos, nat_abs, ◌*ℤ◌};
ghost use Rattle.rule_laws.specs.Usable.{Reach, Usable};
ghost use Rattle.joined_weights.specs.JoinedWeights.{join, scale_of, blue_first, in_source_order, scaled_triple, scaled_weights, scaled_start, joined_weights, shared_weights, bits_below, frame_weights, NoWeightAbove, Scalable};

use rules::{Settings, Triple, Weights, YuvSourceChannels};
use samples::{code, word};
use yuv_support::ranges;

// The weights of two sums at once: where the sums start, and what a pixel's first, second and third sample are multiplied by.
#[derive(Clone, Copy)]
pub struct JoinedWeights {
    pub start: i64,
    pub first: i64,
    pub second: i64,
    pub third: i64,
}

// Luma's weights, for two pixels at once; chroma's, for both samples of a pair at once; and the bits of a sum below its two words.
#[derive(Clone, Copy)]
pub struct FrameWeights {
    pub luma: JoinedWeights,
    pub chroma: JoinedWeights,
    pub below: u64,
}

// Two numbers in one: a + b × 2^32.
fn join(a: i32, b: i32) -> i64
    requires { nat_abs b ≤ 1073741823 }
    ensures { result ≡ join a b }
{
    i64::from(a) + i64::from(b) * 4294967296
}

// The factor of all weights: 2^(13 − P) times the packing factor.
fn scale_of(s: Settings) -> u32
    requires { Reach s }
    ensures { result ≡ scale_of s }
{
    (1 << (13 - s.precision)) * u32::from(storage::packing_factor(s.packing, s.depth))
}

fn scaled(scale: u32, weight: i32) -> i32
    requires { (scale ≤ 262144) × (nat_abs weight * scale ≤ 524288) }
    ensures { result ≡ weight *ℤ pos scale }
{
    weight * (scale as i32)
}

// Red's weight and blue's exchanged.
fn blue_first(w: Triple) -> Triple
    ensures { result ≡ blue_first w }
{
    Triple {
        red: w.blue,
        green: w.green,
        blue: w.red,
    }
}

// The weights in the order of a pixel's samples: in Bgr and Bgra blue's stands first.
fn in_source_order(channels: YuvSourceChannels, w: Triple) -> Triple
    ensures { result ≡ in_source_order channels w }
{
    match channels {
        YuvSourceChannels::Rgb | YuvSourceChannels::Rgba => w,
        YuvSourceChannels::Bgra | YuvSourceChannels::Bgr => blue_first(w),
    }
}

fn scaled_triple(scale: u32, w: Triple) -> Triple
    requires { Scalable scale w }
    ensures { result ≡ scaled_triple scale w }
{
    Triple {
        red: scaled(scale, w.red),
        green: scaled(scale, w.green),
        blue: scaled(scale, w.blue),
    }
}

// The three weights of one code, in source order and scaled.
fn scaled_weights(s: Settings, w: Triple) -> Triple
    requires reach { Reach s }
    requires no_weight_above { NoWeightAbove (2 ^ s.precision) w }
    ensures { result ≡ scaled_weights s w }
{
    scaled_triple(scale_of(s), in_source_order(s.channels, w))
}

// What is added to the three products of a code, scaled: its bias and the rounding.
fn scaled_start(s: Settings, bias: u32) -> i32
    requires { (Reach s) × (bias + 1 ≤ 2 ^ s.depth) }
    ensures { result ≡ pos (scaled_start s bias) }
{
    (code::start(s.precision, bias) * scale_of(s)) as i32
}

// The weights of two codes of one pixel.
fn join_weights(sa: i32, a: Triple, sb: i32, b: Triple) -> JoinedWeights
    requires { (nat_abs sb ≤ 1073741823) × (NoWeightAbove 1073741823 b) }
    ensures { result ≡ joined_weights sa a sb b }
{
    JoinedWeights {
        start: join(sa, sb),
        first: join(a.red, b.red),
        second: join(a.green, b.green),
        third: join(a.blue, b.blue),
    }
}

// The weights of one code of two pixels, whose samples are joined: of the weights only the start is.
fn shared_weights(start: i32, w: Triple) -> JoinedWeights
    requires { nat_abs start ≤ 1073741823 }
    ensures { result ≡ shared_weights start w }
{
    JoinedWeights {
        start: join(start, start),
        first: i64::from(w.red),
        second: i64::from(w.green),
        third: i64::from(w.blue),
    }
}

fn luma_weights(s: Settings, bias: u32, w: Triple) -> JoinedWeights
    requires reach { (Reach s) × (bias + 1 ≤ 2 ^ s.depth) }
    requires no_weight_above { NoWeightAbove (2 ^ s.precision) w }
    ensures { result ≡ shared_weights (pos (scaled_start s bias)) (scaled_weights s w) }
{
    shared_weights(scaled_start(s, bias), scaled_weights(s, w))
}

// The two samples of a chroma pair have one bias.
fn chroma_weights(s: Settings, bias: u32, a: Triple, b: Triple) -> JoinedWeights
    requires reach { (Reach s) × (bias + 1 ≤ 2 ^ s.depth) }
    requires no_weight_above { (NoWeightAbove (2 ^ s.precision) a) × (NoWeightAbove (2 ^ s.precision) b) }
    ensures { result ≡ joined_weights (pos (scaled_start s bias)) (scaled_weights s a) (pos (scaled_start s bias)) (scaled_weights s b) }
{
    let start = scaled_start(s, bias);
    join_weights(start, scaled_weights(s, a), start, scaled_weights(s, b))
}

// In either half of a sum, the bits below a stored word: 13, and with most-significant packing those that packing leaves zero.
fn bits_below(s: Settings) -> u64
    requires { Reach s }
    ensures { result ≡ bits_below s }
{
    (8192 * u64::from(storage::packing_factor(s.packing, s.depth)) - 1) * 4294967297
}

// All that a row needs of the settings and the weights.
pub fn frame_weights(s: Settings, w: Weights) -> FrameWeights
    requires { Usable s w }
    ensures { result ≡ frame_weights s w }
{
    let g = ranges::get_yuv_range(s.depth, s.range);
    let y = code::luma_row(w);
    let first = word::chroma_row(word::is_u(s.order, 0), w);
    let second = word::chroma_row(word::is_u(s.order, 1), w);
    FrameWeights {
        luma: luma_weights(s, g.bias_y, y),
        chroma: chroma_weights(s, g.bias_uv, first, second),
        below: bits_below(s),
    }
}
