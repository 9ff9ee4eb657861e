// A frame of RGB samples converted to a luma plane and a chroma plane, or refused with both planes as they were.
#![tactic(auto)]

ghost use Rattle.std.specs.Prelude.{◌≡◌, length};
ghost use Rattle.rules.specs.Refusals.{line_of};
ghost use Rattle.rules.specs.Answers.{converted_answer};
ghost use Rattle.rules.specs.Convert.{luma_left, chroma_left, verdict, convert, luma_after, chroma_after};
ghost use Rattle.rule_laws.specs.Usable.{Usable};
ghost use Rattle.settle.specs.Promised.{HandedOut};
ghost use Rattle.frames.specs.Tests.{Clear};

use rules::{Frame, Refusal, Settings, Weights};
use settle::settle;

// Converts a frame by the weights of its settings, or refuses it.
pub fn convert_settled(
    s: Settings,
    w: Weights,
    f: Frame,
    source: &[u16],
    luma: &mut [u16],
    chroma: &mut [u16],
) -> Result<(), Refusal>
    requires { HandedOut s w }
    ensures verdict { line_of result ≡ verdict s f source.now luma.old chroma.old }
    ensures luma { luma.new ≡ luma_after s f source.now luma.old chroma.old }
    ensures chroma { chroma.new ≡ chroma_after s f source.now luma.old chroma.old }
{
    frame_refusals::frame_verdict(s, f, source, luma.len(), chroma.len())?;
    frame_rows::convert_rows(s, w, f, source, luma, chroma);
    Ok(())
}

// Settles the settings, then converts the frame: the first refusal that applies, or both planes written.
pub fn convert(
    s: Settings,
    f: Frame,
    source: &[u16],
    luma: &mut [u16],
    chroma: &mut [u16],
) -> Result<(), Refusal>
    ensures answer { converted_answer result ≡ convert s f source.now luma.old chroma.old }
    ensures luma { luma.new ≡ luma_after s f source.now luma.old chroma.old }
    ensures chroma { chroma.new ≡ chroma_after s f source.now luma.old chroma.old }
{
    let w = settle(s)?;
    convert_settled(s, w, f, source, luma, chroma)
}
