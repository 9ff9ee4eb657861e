// The exported function that converts a ring, called on a case: it lends the first elements of each buffer.
ghost use Rattle.std.specs.Prelude.{◌≡◌, ◌≤◌};

use answer_numbers::RingNumbers;
use cases::case::Case;
use cases::draw::{Room, within_room};
use cases::{draw, text};

pub fn convert_ring(
    c: Case,
    count: usize,
    source: &Room,
    luma: &mut Room,
    chroma: &mut Room,
) -> RingNumbers
    ensures { result.refusal ≤ 18 }
{
    ayresokum::ayresokum_convert_ring(
        c.into(),
        c.into(),
        count,
        &source[..within_room(c.source)],
        &mut luma[..within_room(c.luma)],
        &mut chroma[..within_room(c.chroma)],
    )
}

// The index at which a frame's part of a buffer begins, where each frame has a part of one length.
pub fn start_of(part: usize, frame: usize) -> usize
    requires { frame ≤ 65 }
    ensures { result ≤ 4260100 }
{
    within_room(part) * frame
}

// A case of one frame with its buffers as long as so many frames.
pub fn end_to_end(c: Case, frames: usize) -> Case
    requires { frames ≤ 65 }
    ensures { (result.width ≡ c.width) × (result.height ≡ c.height) }
{
    Case {
        source: start_of(c.source, frames),
        luma: start_of(c.luma, frames),
        chroma: start_of(c.chroma, frames),
        ..c
    }
}

// Converts a ring of so many frames in buffers of its own, and prints the answer and both planes; hands back how many elements of luma
// there are.
pub fn run_ring(c: Case, count: usize) -> usize
    ensures { result ≤ 65540 }
{
    let source = draw::source_of(c);
    let mut luma = draw::room(7);
    let mut chroma = draw::room(7);
    text::ringed(convert_ring(c, count, &source, &mut luma, &mut chroma));
    text::planes(c, &luma, &chroma)
}
