// The channel sums of a block of at most four pixels.
ghost use Rattle.std.specs.Prelude.{◌≡◌, [], ◌∷◌, ◌≤◌};
ghost use Rattle.fractions.specs.Sums.{sums_of, UpToFour};

use crate::Sums;
use rules::Pixel;

pub fn sums_of<const N: usize>(block: [Pixel; N]) -> Sums
    requires { N ≤ 4 }
    ensures { (result ≡ sums_of block.entry) × UpToFour result }
{
    let mut sums = Sums {
        red: 0,
        green: 0,
        blue: 0,
    };
    for Pixel { red, green, blue } in block {
        sums.red += u32::from(red);
        sums.green += u32::from(green);
        sums.blue += u32::from(blue);
    }
    sums
}

// The largest block that a frame has, with a contract that a wrong body for it alone breaks.
pub fn sums_of_four(p: Pixel, q: Pixel, u: Pixel, v: Pixel) -> Sums
    ensures { (result ≡ sums_of (p ∷ q ∷ u ∷ v ∷ [])) × UpToFour result }
{
    sums_of([p, q, u, v])
}
