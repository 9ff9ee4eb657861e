// Cases that sweep through the settings, each by its number, which is small: `as u32` loses nothing of it, and `try_from` would give a
// Result that is never an Err.
ghost use Rattle.std.specs.Prelude.{◌≡◌, ◌<◌, ◌≤◌};

use crate::case;
use crate::case::Case;

// Every subsampling at sizes from 1×1 to 5×5, the other settings changing from case to case.
pub fn size(t: usize) -> Case
    requires { t < 75 }
    ensures { (result.width ≤ 5) × (result.height ≤ 5) }
{
    let n = t as u32;
    let c = Case {
        depth: 10 + n % 7,
        matrix: n % 6,
        range: n / 2 % 2,
        subsampling: n / 25,
        order: n / 3 % 2,
        packing: n / 4 % 2,
        byte_order: n / 5 % 2,
        channels: n % 4,
        seed: n + 10,
        ..case::base()
    };
    case::laid(c, 1 + t % 5, 1 + t / 5 % 5, t % 3)
}

// Every range, subsampling, order, packing, byte order and channel layout, at 3×3.
pub fn layout(t: usize) -> Case
    requires { t < 192 }
    ensures { (result.width ≡ 3) × (result.height ≡ 3) }
{
    let n = t as u32;
    let c = Case {
        range: n % 2,
        order: n / 2 % 2,
        packing: n / 4 % 2,
        byte_order: n / 8 % 2,
        channels: n / 16 % 4,
        subsampling: n / 64,
        seed: n + 100,
        ..case::base()
    };
    case::laid(c, 3, 3, 1)
}

// Every depth, precision and range, at 2×2.
pub fn depth(t: usize) -> Case
    requires { t < 182 }
    ensures { (result.width ≡ 2) × (result.height ≡ 2) }
{
    let n = t as u32;
    let c = Case {
        depth: 10 + n % 7,
        precision: 1 + n / 7 % 13,
        range: n / 91,
        matrix: 1,
        seed: n + 300,
        ..case::base()
    };
    case::laid(c, 2, 2, 0)
}
