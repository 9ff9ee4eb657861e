// One element of a plane.
ghost use Rattle.std.specs.Prelude.{◌≡◌, ◌*◌, ◌<◌, ◌≤◌, length, get_or};

use crate::draw::Room;

// An element changed, where there is one.
pub fn put(plane: &mut Room, at: usize, v: u16)
    ensures { length plane.new ≡ length plane.old }
{
    if at < plane.len() {
        plane[at] = v;
    }
}

// An element, or 0 where there is none.
pub fn get(plane: &Room, at: usize) -> u16
    ensures { at < 65540 → result ≡ get_or plane.now at 0 }
{
    plane.get(at).copied().unwrap_or(0)
}

// The index at which one of the first 32 rows starts.
pub fn start(stride: usize, row: usize) -> usize
    requires { row ≤ 32 }
    ensures { result ≤ 65536 * row }
{
    stride % 65536 * row
}

// The index of an element in one of the first rows.
pub fn index(stride: usize, row: usize, element: usize) -> usize
    requires { (row ≤ 32) × (element ≤ 65536) }
    ensures { result ≤ 2162688 }
{
    start(stride, row) + element
}
