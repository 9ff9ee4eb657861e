// The test of a stored word, its bytes in order, by a gauge: luma by its pixel, chroma by the channel sums of its block.
ghost use Rattle.std.specs.Prelude.{◌≡◌, [], ◌∷◌, ◌*◌, ◌≤◌};
ghost use Rattle.fractions.specs.Sums.{sums_of, UpToFour};
ghost use Rattle.gauges.specs.Gauges.{shared, word_near, luma_near, chroma_near, SharesBounded, GaugeBounded};

use crate::gauge::{Gauge, Shares};
use fractions::{Sums, block};
use rules::Pixel;

fn counted(share: u64, sum: u32) -> u64
    requires { (share ≤ 41942400000) × (sum ≤ 262140) }
    ensures { (result ≡ share * sum) × (result ≤ 11000000000000000) }
{
    share * u64::from(sum)
}

// (Kr.SR + Kg.SG + Kb.SB) × range × factor.
fn shared(h: Shares, z: Sums) -> u64
    requires { (SharesBounded h) × (UpToFour z) }
    ensures { (result ≡ shared h z) × (result ≤ 33000000000000000) }
{
    counted(h.red, z.red) + counted(h.green, z.green) + counted(h.blue, z.blue)
}

// Whether a word lies within the tolerance of bias + (plus − minus) / divisor, all scaled.
fn word_near(g: Gauge, plus: u64, minus: u64, v: u16) -> bool
    requires { (GaugeBounded g) × (plus ≤ 33000000000000000) × (minus ≤ 33000000000000000) }
    ensures { result ≡ word_near g plus minus v }
{
    tolerance_bounds::within(u64::from(v) * g.under + minus, g.start + plus, g.bound)
}

// Whether a word passes as the luma of a pixel.
pub fn luma_near(g: Gauge, h: Shares, p: Pixel, v: u16) -> bool
    requires { (GaugeBounded g) × (SharesBounded h) }
    ensures { result ≡ luma_near g h (sums_of (p ∷ [])) v }
{
    word_near(g, shared(h, block::sums_of([p])), 0, v)
}

// Whether a word passes as a chroma sample; `own` is the sum of the channel that the sample is named after.
pub fn chroma_near(g: Gauge, h: Shares, own: u32, z: Sums, v: u16) -> bool
    requires { (GaugeBounded g) × (SharesBounded h) × (UpToFour z) × (own ≤ 262140) }
    ensures { result ≡ chroma_near g h own z v }
{
    word_near(g, counted(h.own, own), shared(h, z), v)
}
