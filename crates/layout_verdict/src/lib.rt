// Refusals 7, 12, 8 and 9: the first that applies to one frame and the lengths of its three buffers.
#![tactic(auto)]

ghost use Rattle.std.specs.Prelude.{◌≡◌};
ghost use Rattle.rules.specs.Refusals.{first, line_of};
ghost use Rattle.rules.specs.Frames.{layout_lines};
ghost use Rattle.frames.specs.Tests.{LaidOut};

use rules::{Frame, Refusal, Settings};

pub fn layout_verdict(
    s: Settings,
    f: Frame,
    source: usize,
    luma: usize,
    chroma: usize,
) -> Result<(), Refusal>
    ensures exact { line_of result ≡ first (layout_lines s f source luma chroma) }
    ensures laid { LaidOut s f source luma chroma result }
{
    if layout_refusals::size_off(f) {
        return Err(Refusal::Size);
    }
    if layout_refusals::window_off(f) {
        return Err(Refusal::Window);
    }
    if layout_refusals::stride_off(s, f) {
        return Err(Refusal::Stride);
    }
    if layout_refusals::length_off(s, f, 1, source, luma, chroma) {
        return Err(Refusal::Length);
    }
    Ok(())
}
