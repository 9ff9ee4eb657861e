// One place of a plane: a word put there, and what the check then says.
ghost use Rattle.std.specs.Prelude.{◌≡◌, ◌≤◌, ◌↔◌, IsTrue, length};

use answer_numbers::CheckedNumbers;
use cases::case::Case;
use cases::draw::Room;
use cases::planes::{get, put};
use rules::Place;

// A place of a plane, and its index in the plane's buffer.
#[derive(Clone, Copy)]
pub struct Spot {
    pub place: Place,
    pub at: usize,
}

pub fn spot_at(plane: u32, row: u32, element: u32, at: usize) -> Spot
    ensures { (result.place.plane ≡ plane) × (result.at ≡ at) }
{
    Spot {
        place: Place {
            plane,
            row,
            element,
        },
        at,
    }
}

// Whether an answer names this very place.
pub fn named(t: CheckedNumbers, spot: Spot) -> bool
    ensures { IsTrue result ↔ ((t.refusal ≡ 0) × (t.wrong ≡ 1) × (t.place ≡ spot.place)) }
{
    t.refusal == 0 && t.wrong == 1 && t.place == spot.place
}

pub fn get_word(luma: &Room, chroma: &Room, spot: Spot) -> u16
    ensures { result ≤ 65535 }
{
    if spot.place.plane == 0 {
        return get(luma, spot.at);
    }
    get(chroma, spot.at)
}

pub fn put_word(luma: &mut Room, chroma: &mut Room, spot: Spot, v: u16)
    ensures { length luma.new ≡ length luma.old }
{
    if spot.place.plane == 0 {
        put(luma, spot.at, v);
    } else {
        put(chroma, spot.at, v);
    }
}

pub fn check_word(
    c: Case,
    source: &Room,
    luma: &mut Room,
    chroma: &mut Room,
    spot: Spot,
    v: u16,
) -> CheckedNumbers
    ensures { (result.refusal ≤ 18) × (result.wrong ≤ 1) }
{
    put_word(luma, chroma, spot, v);
    crate::check(c, source, luma, chroma)
}
