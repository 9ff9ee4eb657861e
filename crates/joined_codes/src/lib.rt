// Two stored words by one sum of joined weights: the luma of two pixels, or both samples of a chroma pair; the bytes are exchanged later.
#![tactic(auto)]

ghost use Rattle.std.specs.Prelude.{◌≡◌, ◌*◌, ◌/◌, ◌%◌, ◌≤◌, T, pos, nat_abs, ◌*ℤ◌};
ghost use Rattle.std.specs.Int.Signed.{non_neg};
ghost use Rattle.rules.specs.Ranges.{most};
ghost use Rattle.rule_laws.specs.Codes.{Low};
ghost use Rattle.rule_laws.specs.Usable.{Usable};
ghost use Rattle.joined_weights.specs.JoinedWeights.{frame_weights};
ghost use Rattle.joined_codes.specs.Sums.{joined_samples, joined_sum, cleared, first_word, second_word, SumFits};
ghost use Rattle.joined_codes.specs.Packed.{colours_of, packed_luma, packed_chroma};

use joined_weights::{FrameWeights, JoinedWeights};
use rules::{Pixel, Settings, Weights};

// The words that one sum gives.
#[derive(Clone, Copy)]
pub struct TwoWords {
    pub first: u16,
    pub second: u16,
}

// One weight times one sample, or one weight times two joined samples.
fn weigh(weight: i64, x: u64) -> i64
    requires { (nat_abs weight * x ≤ 2305807825378467840) × (x ≤ 281474976710655) }
    ensures { (result ≡ weight *ℤ pos x) × (nat_abs result ≤ 2305807825378467840) }
{
    weight * (x as i64)
}

// The start and three products.
fn sum(joined: JoinedWeights, a: u64, b: u64, c: u64) -> u64
    requires sum_fits { SumFits joined a b c }
    requires a_bound { (a ≤ 281474976710655) × (b ≤ 281474976710655) × (c ≤ 281474976710655) }
    requires t { T (non_neg (joined_sum joined a b c)) }
    ensures { result ≡ nat_abs (joined_sum joined a b c) }
{
    (joined.start
        + weigh(joined.first, a)
        + weigh(joined.second, b)
        + weigh(joined.third, c)) as u64
}

// Two samples in one number: a + b × 2^32.
fn join_samples(a: u16, b: u16) -> u64
    ensures { (result ≡ joined_samples a b) × (result ≤ 281474976710655) }
{
    u64::from(a) + u64::from(b) * 4294967296
}

// The words in the two halves of a sum, once the bits below them are cleared.
fn stored_words(v: u64, below: u64) -> TwoWords
    requires { (first_word (cleared v below) ≤ 65535) × (second_word (cleared v below) ≤ 65535) }
    ensures first { result.first ≡ first_word (cleared v below) }
    ensures second { result.second ≡ second_word (cleared v below) }
{
    let kept = v - (v & below);
    TwoWords {
        first: (kept % 4294967296 / 8192) as u16,
        second: (kept / 4294967296 / 8192) as u16,
    }
}

// The luma of two pixels, whose samples were read in source order.
pub fn luma_words(s: Settings, w: Weights, joined: FrameWeights, p: Pixel, q: Pixel) -> TwoWords
    requires usable { Usable s w }
    requires joined_value { joined ≡ frame_weights s w }
    requires low { (Low (most s.depth) p) × (Low (most s.depth) q) }
    ensures first { result.first ≡ packed_luma s w (colours_of s.channels p) }
    ensures second { result.second ≡ packed_luma s w (colours_of s.channels q) }
{
    let v = sum(
        joined.luma,
        join_samples(p.red, q.red),
        join_samples(p.green, q.green),
        join_samples(p.blue, q.blue),
    );
    stored_words(v, joined.below)
}

// The chroma pair of a pixel, or of the mean of a block, whose samples were read in source order.
pub fn chroma_words(s: Settings, w: Weights, joined: FrameWeights, p: Pixel) -> TwoWords
    requires usable { Usable s w }
    requires joined_value { joined ≡ frame_weights s w }
    requires low { Low (most s.depth) p }
    ensures first { result.first ≡ packed_chroma s w 0 (colours_of s.channels p) }
    ensures second { result.second ≡ packed_chroma s w 1 (colours_of s.channels p) }
{
    let v = sum(
        joined.chroma,
        u64::from(p.red),
        u64::from(p.green),
        u64::from(p.blue),
    );
    stored_words(v, joined.below)
}
