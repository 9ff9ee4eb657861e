// What the walks through luma and through chroma have passed, the row parts that they look at, and the place at which they stop.
#![tactic(auto)]

ghost use Rattle.std.specs.Prelude.{◌≡◌, ◌≤◌};

use rules::{Found, Place};

// A place by numbers of 32 bits, which those of a frame fit.
pub fn place_of(plane: u32, found: Found) -> Place
    requires { (found.row ≤ 65536) × (found.element ≤ 65536) }
    ensures { (result.plane ≡ plane) × (result.row ≡ found.row) × (result.element ≡ found.element) }
{
    Place {
        plane,
        row: found.row as u32,
        element: found.element as u32,
    }
}
