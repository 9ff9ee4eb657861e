// The codes that are accepted at a place: from the stored one up and down as far as they go, and whether the check names that very
// place at the codes just beyond.
ghost use Rattle.std.specs.Prelude.{◌≤◌};

use crate::trial::Trial;
use check_calls::spot::{Spot, get_word, named, put_word};

// The lowest and the highest code, and at how many of the two just beyond them the place is named.
#[derive(Clone, Copy)]
pub(crate) struct Accepted {
    pub low: usize,
    pub high: usize,
    pub named: usize,
}

// How many bits of a word, its bytes in order, lie below the code that it holds.
fn bits_below(packing: u32, depth: u32) -> u32
    ensures { result ≤ 6 }
{
    if packing == 1 {
        0
    } else {
        16 - depth.clamp(10, 16)
    }
}

// A word with its bytes in order, or one with its bytes in order as it is stored.
pub(crate) fn ordered(byte_order: u32, word: u16) -> u16 {
    if byte_order == 0 {
        word.swap_bytes()
    } else {
        word
    }
}

// The last word that is accepted with all words between it and a place's word, and how often the place is named at the word just beyond:
// once or not at all. `next` gives the next word up or down, where there is one.
fn side_of<F: Fn(u16) -> Option<u16>>(
    trial: &mut Trial,
    spot: Spot,
    word: u16,
    next: F,
) -> (u16, usize)
    requires { F.IsAlwaysCallable next }
    ensures { result.1 ≤ 1 }
{
    let byte_order = trial.case.byte_order;
    let mut last = word;
    for _ in 0..65536 {
        let Some(beyond) = next(last) else {
            break;
        };
        let t = trial.check_word(spot, ordered(byte_order, beyond));
        if t.refusal != 0 || t.wrong != 0 {
            return (last, usize::from(named(t, spot)));
        }
        last = beyond;
    }
    (last, 0)
}

// The codes accepted at a place of a converted frame; the frame is left as it was.
pub(crate) fn accepted_at(trial: &mut Trial, spot: Spot) -> Accepted
    ensures { result.named ≤ 2 }
{
    let c = trial.case;
    let old = get_word(&trial.luma, &trial.chroma, spot);
    let word = ordered(c.byte_order, old);
    let bits = bits_below(c.packing, c.depth);
    let step = 1 << bits;
    let (high, named_above) = side_of(trial, spot, word, |w| w.checked_add(step));
    let (low, named_below) = side_of(trial, spot, word, |w| w.checked_sub(step));
    put_word(&mut trial.luma, &mut trial.chroma, spot, old);
    Accepted {
        low: usize::from(low >> bits),
        high: usize::from(high >> bits),
        named: named_below + named_above,
    }
}
