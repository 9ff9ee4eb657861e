// Two words stored at neighbouring elements, before their bytes are exchanged.
#![tactic(auto)]

ghost use Rattle.std.specs.Prelude.{◌≡◌, ◌+◌, ◌≤◌, length, set};
ghost use Rattle.rules.specs.Ranges.{most};
ghost use Rattle.rule_laws.specs.Codes.{Low};
ghost use Rattle.rule_laws.specs.Usable.{Usable};
ghost use Rattle.joined_weights.specs.JoinedWeights.{frame_weights};
ghost use Rattle.joined_codes.specs.Packed.{colours_of, packed_luma, packed_chroma};

use joined_codes::{chroma_words, luma_words};
use joined_weights::FrameWeights;
use rules::{Pixel, Settings, Weights};

// The luma of two pixels, at columns x and x + 1.
pub fn put_luma(
    s: Settings,
    w: Weights,
    joined: FrameWeights,
    luma: &mut [u16],
    x: usize,
    p: Pixel,
    q: Pixel,
)
    requires usable { (Usable s w) × (joined ≡ frame_weights s w) }
    requires low { (Low (most s.depth) p) × (Low (most s.depth) q) }
    requires x_in_bounds { x + 2 ≤ length luma.old }
    ensures { luma.new ≡ set (set luma.old x (packed_luma s w (colours_of s.channels p))) (x + 1) (packed_luma s w (colours_of s.channels q)) }
{
    let y = luma_words(s, w, joined, p, q);
    luma[x] = y.first;
    luma[x + 1] = y.second;
}

// The chroma pair of a pixel, or of the mean of a block, at elements k and k + 1.
pub fn put_pair(
    s: Settings,
    w: Weights,
    joined: FrameWeights,
    chroma: &mut [u16],
    k: usize,
    p: Pixel,
)
    requires usable { (Usable s w) × (joined ≡ frame_weights s w) }
    requires low { Low (most s.depth) p }
    requires k_in_bounds { k + 2 ≤ length chroma.old }
    ensures { chroma.new ≡ set (set chroma.old k (packed_chroma s w 0 (colours_of s.channels p))) (k + 1) (packed_chroma s w 1 (colours_of s.channels p)) }
{
    let c = chroma_words(s, w, joined, p);
    chroma[k] = c.first;
    chroma[k + 1] = c.second;
}
