// The exported functions that settle and convert, called on a case: it lends the first elements of each buffer. The buffers go apart, as
// those functions take them: a struct of them would only be taken apart at each call.
#![tactic(auto)]

ghost use Rattle.std.specs.Prelude.{◌≤◌};

pub mod rings;

use answer_numbers::{ConvertedNumbers, SettledNumbers};
use cases::case::Case;
use cases::draw::{Room, within_room};

pub fn settle(c: Case) -> SettledNumbers
    ensures { result.refusal ≤ 18 }
{
    ayresokum::ayresokum_settle(c.into())
}

pub fn convert(c: Case, source: &Room, luma: &mut Room, chroma: &mut Room) -> ConvertedNumbers
    ensures { result.refusal ≤ 18 }
{
    ayresokum::ayresokum_convert(
        c.into(),
        c.into(),
        &source[..within_room(c.source)],
        &mut luma[..within_room(c.luma)],
        &mut chroma[..within_room(c.chroma)],
    )
}
