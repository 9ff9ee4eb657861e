// The mean of a block of pixels, channel by channel.
#![tactic(auto)]

ghost use Rattle.std.specs.Prelude.{◌≡◌, [], ◌∷◌, ◌*◌, ◌≤◌};
ghost use Rattle.rules.specs.Blocks.{mean, averaged};

use rules::Pixel;

// The mean of n samples by their sum; an exact half is rounded up.
fn rounded(n: usize, sum: usize) -> u16
    requires { (1 ≤ n) × (n ≤ 4) × (sum ≤ n * 65535) }
    ensures { result ≡ mean n sum }
{
    ((sum + n / 2) / n) as u16
}

// The mean of one to four pixels.
pub fn mean<const N: usize>(block: [Pixel; N]) -> Pixel
    requires { (1 ≤ N) × (N ≤ 4) }
    ensures { result ≡ averaged block.entry }
{
    let mut reds = 0;
    let mut greens = 0;
    let mut blues = 0;
    for p in &block {
        let Pixel { red, green, blue } = *p;
        reds += usize::from(red);
        greens += usize::from(green);
        blues += usize::from(blue);
    }
    Pixel {
        red: rounded(N, reds),
        green: rounded(N, greens),
        blue: rounded(N, blues),
    }
}

// The blocks that a frame has, each with a contract that a wrong body for its size alone breaks.
pub fn mean_of_two(p: Pixel, q: Pixel) -> Pixel
    ensures { result ≡ averaged (p ∷ q ∷ []) }
{
    mean([p, q])
}

pub fn mean_of_four(p: Pixel, q: Pixel, u: Pixel, v: Pixel) -> Pixel
    ensures { result ≡ averaged (p ∷ q ∷ u ∷ v ∷ []) }
{
    mean([p, q, u, v])
}
