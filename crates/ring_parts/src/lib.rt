// One frame of a ring, from its part of the source into its parts of the planes.
#![tactic(auto)]

ghost use Rattle.std.specs.Prelude.{length};
ghost use Rattle.settle.specs.Promised.{HandedOut};
ghost use Rattle.ring_parts.specs.Parts.{Lies, Turns};

use rgb_to_nv_p16::convert_settled;
use rules::{Frame, Refusal, Settings, Weights};

// Frame i is converted, or refused with its parts as they were.
pub fn convert_part(
    s: Settings,
    w: Weights,
    f: Frame,
    i: usize,
    source: &[u16],
    luma: &mut [u16],
    chroma: &mut [u16],
) -> Result<(), Refusal>
    requires handed_out { HandedOut s w }
    requires lies { Lies s f i (length source.now) (length luma.old) (length chroma.old) }
    ensures { Turns s f i source.now luma.old chroma.old result luma.new chroma.new }
{
    let source_size = frame_sizes::source_size(s, f);
    let luma_size = frame_sizes::luma_size(s, f);
    let chroma_size = frame_sizes::chroma_size(s, f);
    let source_start = i * source_size;
    let source_end = source_start + source_size;
    let luma_start = i * luma_size;
    let luma_end = luma_start + luma_size;
    let chroma_start = i * chroma_size;
    let chroma_end = chroma_start + chroma_size;
    convert_settled(
        s,
        w,
        f,
        &source[source_start..source_end],
        &mut luma[luma_start..luma_end],
        &mut chroma[chroma_start..chroma_end],
    )
}
