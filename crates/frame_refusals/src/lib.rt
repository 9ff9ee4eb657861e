// Refusals 7, 12 and 8 to 10: the first that applies to a frame and its buffers.
#![tactic(auto)]

ghost use Rattle.std.specs.Prelude.{◌≡◌, length};
ghost use Rattle.rules.specs.Refusals.{first, line_of};
ghost use Rattle.rules.specs.Frames.{place_line, too_large_line, frame_lines};
ghost use Rattle.rule_laws.specs.Usable.{Reach};
ghost use Rattle.frames.specs.SourceRows.{WindowRows};
ghost use Rattle.frames.specs.Tests.{Sized, Clear};
ghost use Rattle.frame_refusals.specs.Places.{WithinFrame};

use layout_verdict::layout_verdict;
use rules::{Found, Frame, Refusal, Settings, SourcePlace};
use yuv_support::ranges;

// Refusal 10 where a sample was found: sample i of a row's colour samples is channel i % 3 of pixel i / 3.
fn place_verdict(found: Option<Found>) -> Result<(), Refusal>
    requires { WithinFrame found }
    ensures { line_of result ≡ place_line found }
{
    match found {
        None => Ok(()),
        Some(Found { row, element }) => Err(Refusal::TooLarge(SourcePlace {
            row: row as u32,
            pixel: (element / 3) as u32,
            channel: (element % 3) as u32,
        })),
    }
}

// Refusal 10 of a frame that 7, 12, 8 and 9 pass.
fn samples_verdict(s: Settings, f: Frame, source: &[u16]) -> Result<(), Refusal>
    requires reach { Reach s }
    requires sized { (Sized f) × (WindowRows s.channels f (length source.now)) }
    ensures { line_of result ≡ too_large_line s f source.now }
{
    let channels = s.channels;
    let m = ranges::most(s.depth) as u16;
    place_verdict(scan::too_large(m, channels, f, source))
}

// The first of refusals 7, 12 and 8 to 10 that applies to a frame and its buffers, or none.
pub fn frame_verdict(
    s: Settings,
    f: Frame,
    source: &[u16],
    luma: usize,
    chroma: usize,
) -> Result<(), Refusal>
    requires { Reach s }
    ensures exact { line_of result ≡ first (frame_lines s f source.now luma chroma) }
    ensures clear { Clear s f source.now luma chroma result }
{
    layout_verdict(s, f, source.len(), luma, chroma)?;
    samples_verdict(s, f, source)
}
