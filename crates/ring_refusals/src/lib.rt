// Refusals 7, 12, 8, 11 and 9 of frames laid end to end: the first that applies to all of them together.
#![tactic(auto)]

ghost use Rattle.std.specs.Prelude.{◌≡◌};
ghost use Rattle.rules.specs.Refusals.{first, line_of};
ghost use Rattle.rules.specs.Ring.{ring_lines};

use rules::{Frame, Refusal, Settings};

// The first of refusals 7, 12, 8, 11 and 9 that applies to so many frames and buffers of these lengths, or none.
pub fn ring_verdict(
    s: Settings,
    f: Frame,
    count: usize,
    source: usize,
    luma: usize,
    chroma: usize,
) -> Result<(), Refusal>
    ensures { line_of result ≡ first (ring_lines s f count source luma chroma) }
{
    if layout_refusals::size_off(f) {
        return Err(Refusal::Size);
    }
    if layout_refusals::window_off(f) {
        return Err(Refusal::Window);
    }
    if layout_refusals::stride_off(s, f) {
        return Err(Refusal::Stride);
    }
    if layout_refusals::count_off(count) {
        return Err(Refusal::Count);
    }
    if layout_refusals::length_off(s, f, count, source, luma, chroma) {
        return Err(Refusal::Length);
    }
    Ok(())
}
