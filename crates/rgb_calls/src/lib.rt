// The exported function that turns a frame back to RGB, called on a case: it lends the first elements of each buffer, and the RGB buffer is
// as long as the case's source.
#![tactic(auto)]

ghost use Rattle.std.specs.Prelude.{◌≤◌};

use answer_numbers::RestoredNumbers;
use cases::case::Case;
use cases::draw::{Room, within_room};
use cases::{draw, text};

pub fn to_rgb(c: Case, luma: &Room, chroma: &Room, rgb: &mut Room) -> RestoredNumbers
    ensures { result.refusal ≤ 18 }
{
    ayresokum::ayresokum_to_rgb(
        c.into(),
        c.into(),
        &luma[..within_room(c.luma)],
        &chroma[..within_room(c.chroma)],
        &mut rgb[..within_room(c.source)],
    )
}

// Turns the planes back in a buffer of its own, which is filled with 7 before, and prints the answer and the buffer after; hands back how
// many elements the buffer has.
pub fn run(c: Case, luma: &Room, chroma: &Room) -> usize
    ensures { result ≤ 65540 }
{
    let mut rgb = draw::room(7);
    text::restored(to_rgb(c, luma, chroma, &mut rgb));
    text::rgb(c, &rgb)
}
