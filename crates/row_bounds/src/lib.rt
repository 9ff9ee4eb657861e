// A number that no colour sample of four rows exceeds: where it is at most m, so are they all. Four rows are looked at side by side, since
// they come from memory faster so than one after the other. Alpha is never read.
//
// a | b is at least both, and exceeds m = 2^n - 1 only if a or b does.
#![tactic(auto)]

ghost use Rattle.std.specs.Prelude.{◌+◌, ◌≤◌, length};
ghost use Rattle.rules.specs.Channels.{count};
ghost use Rattle.row_bounds.specs.Bounds.{Alike, BoundsThree, Bounds};

use rules::YuvSourceChannels;

// Rows without alpha: every element is a colour sample. Without an exit from the loop the compiler takes many elements at once.
#[tactic(auto, using(crate::proofs::Bounds::element_joined))]
fn every_element(a: &[u16], b: &[u16], c: &[u16], e: &[u16]) -> u16
    requires { Alike 3 a.now b.now c.now e.now }
    ensures { Bounds result 3 a.now b.now c.now e.now }
{
    let mut bound = 0;
    for i in 0..a.len() {
        bound |= a[i] | b[i] | c[i] | e[i];
    }
    bound
}

// At least each of the three samples from an index on.
#[tactic(auto, using(std::proofs::lemmas::Nat::le_or_l, std::proofs::lemmas::Nat::le_or_r))]
fn three_from(part: &[u16], at: usize) -> u64
    requires { at + 3 ≤ length part.now }
    ensures { BoundsThree result part.now at }
{
    u64::from(part[at]) | u64::from(part[at + 1]) | u64::from(part[at + 2])
}

// Rows with alpha: the first three of each four elements are colour samples. Joining them as u64 is the fastest of the forms measured. A
// function for both, by the number of channels, takes 1.3 ms for a frame of 1920 × 1080 without alpha, where every_element takes 0.54 ms.
#[tactic(auto, using(crate::proofs::Bounds::pixel_joined))]
fn three_of_four(a: &[u16], b: &[u16], c: &[u16], e: &[u16]) -> u64
    requires { Alike 4 a.now b.now c.now e.now }
    ensures { Bounds result 4 a.now b.now c.now e.now }
{
    let mut bound = 0;
    for pixel in 0..a.len() / 4 {
        let i = 4 * pixel;
        bound |= three_from(a, i) | three_from(b, i) | three_from(c, i) | three_from(e, i);
    }
    bound
}

// Four rows of one length.
pub fn four_rows(channels: YuvSourceChannels, a: &[u16], b: &[u16], c: &[u16], e: &[u16]) -> u64
    requires { Alike (count channels) a.now b.now c.now e.now }
    ensures { Bounds result (count channels) a.now b.now c.now e.now }
{
    match channels {
        YuvSourceChannels::Rgb | YuvSourceChannels::Bgr => u64::from(every_element(a, b, c, e)),
        YuvSourceChannels::Rgba | YuvSourceChannels::Bgra => three_of_four(a, b, c, e),
    }
}
