// A ring: frames laid end to end in the source and in both planes, converted one after the other up to the first that is refused.
#![tactic(auto)]

ghost use Rattle.std.specs.Prelude.{◌≡◌, ◌≤◌, length};
ghost use Rattle.rules.specs.Answers.{ringed_answer};
ghost use Rattle.rules.specs.Ring.{in_turn, convert_ring};
ghost use Rattle.settle.specs.Promised.{HandedOut};
ghost use Rattle.ring_refusals.specs.EndToEnd.{EndToEnd};
ghost use Rattle.ring.specs.Outcomes.{ComesTo};
ghost use Rattle.ring.specs.RingAnswers.{ringed};

use ring_parts::convert_part;
use rules::{Frame, Refusal, Ringed, Settings, Weights};
use settle::settle;

// The answer by so many frames written and how the ring ended.
fn ringed(written: usize, ended: Result<(), Refusal>) -> Ringed
    requires { written ≤ 64 }
    ensures { result ≡ ringed written ended }
{
    Ringed {
        written: written as u32,
        ended,
    }
}

// One frame after the other, up to the first that is refused.
fn convert_each(
    s: Settings,
    w: Weights,
    f: Frame,
    count: usize,
    source: &[u16],
    luma: &mut [u16],
    chroma: &mut [u16],
) -> Ringed
    requires handed_out { HandedOut s w }
    requires end_to_end { EndToEnd s f count (length source.now) (length luma.old) (length chroma.old) }
    ensures { ComesTo (in_turn count s f source.now luma.old chroma.old) result luma.new chroma.new }
{
    for written in 0..count {
        if let Err(refusal) = convert_part(s, w, f, written, source, luma, chroma) {
            return ringed(written, Err(refusal));
        }
    }
    ringed(count, Ok(()))
}

// Converts a ring by the weights of its settings: what all frames together are asked comes before the first is written.
fn ring_settled(
    s: Settings,
    w: Weights,
    f: Frame,
    count: usize,
    source: &[u16],
    luma: &mut [u16],
    chroma: &mut [u16],
) -> Ringed
    requires { HandedOut s w }
    ensures { ComesTo (convert_ring s f count source.now luma.old chroma.old) result luma.new chroma.new }
{
    match ring_refusals::ring_verdict(s, f, count, source.len(), luma.len(), chroma.len()) {
        Err(refusal) => ringed(0, Err(refusal)),
        Ok(()) => convert_each(s, w, f, count, source, luma, chroma),
    }
}

// Settles the settings once, then converts the frames of a ring one after the other: how many were written, and the refusal that
// ended it, if one did.
pub fn convert_ring(
    s: Settings,
    f: Frame,
    count: usize,
    source: &[u16],
    luma: &mut [u16],
    chroma: &mut [u16],
) -> Ringed
    ensures answer { ringed_answer result ≡ (convert_ring s f count source.now luma.old chroma.old).answer }
    ensures luma { luma.new ≡ (convert_ring s f count source.now luma.old chroma.old).luma }
    ensures chroma { chroma.new ≡ (convert_ring s f count source.now luma.old chroma.old).chroma }
{
    match settle(s) {
        Err(refusal) => ringed(0, Err(refusal)),
        Ok(w) => ring_settled(s, w, f, count, source, luma, chroma),
    }
}
