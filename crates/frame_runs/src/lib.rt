// A frame converted, the answer and both planes printed; then the planes checked: as written, with chroma spoiled, and with luma spoiled
// too.
#![tactic(auto)]

ghost use Rattle.std.specs.Prelude.{◌≤◌};

use cases::case::Case;
use cases::draw::Room;
use cases::planes::put;
use cases::{draw, text};

// One element of a plane, padding or not, is again what it was before the frame came. `as`, since no `From` takes a u32 to a usize.
fn spoil(plane: &mut Room, seed: u32) {
    put(plane, (seed % 13) as usize, 7);
}

// Runs a case in buffers of its own; hands back how many elements of luma there are.
pub fn run(c: Case) -> usize
    ensures { result ≤ 65540 }
{
    let source = draw::source_of(c);
    let mut luma = draw::room(7);
    let mut chroma = draw::room(7);
    text::converted(convert_calls::convert(c, &source, &mut luma, &mut chroma));
    let elements = text::planes(c, &luma, &chroma);
    check_calls::check_and_put(c, &source, &luma, &chroma);
    spoil(&mut chroma, c.seed);
    check_calls::check_and_put(c, &source, &luma, &chroma);
    spoil(&mut luma, c.seed);
    check_calls::check_and_put(c, &source, &luma, &chroma);
    elements
}
