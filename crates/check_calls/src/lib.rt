// The exported function that checks, called on a case: it lends the first elements of each buffer.
#![tactic(auto)]

ghost use Rattle.std.specs.Prelude.{◌≤◌};

pub mod spot;

use answer_numbers::CheckedNumbers;
use cases::case::Case;
use cases::draw::{Room, within_room};
use cases::text;

pub fn check(c: Case, source: &Room, luma: &Room, chroma: &Room) -> CheckedNumbers
    ensures { (result.refusal ≤ 18) × (result.wrong ≤ 1) }
{
    ayresokum::ayresokum_check(
        c.into(),
        c.into(),
        &source[..within_room(c.source)],
        &luma[..within_room(c.luma)],
        &chroma[..within_room(c.chroma)],
    )
}

// Checks and prints the answer; hands back how many numbers it has.
pub fn check_and_put(c: Case, source: &Room, luma: &Room, chroma: &Room) -> usize
    ensures { result ≤ 4 }
{
    text::answer(check(c, source, luma, chroma))
}
