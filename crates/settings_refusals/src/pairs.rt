// Refusal 3: a custom pair that is not positive.
ghost use Rattle.std.specs.Prelude.{◌≡◌};
ghost use Rattle.rules.specs.Settle.{positive_pair, pair_off};

use rules::{Matrix, YuvBias};

// kr > 0, kb > 0 and kg > 0 in f32; a NaN fails.
pub fn positive_pair(k: YuvBias) -> bool
    ensures { result ≡ positive_pair k }
{
    let YuvBias { kr, kb } = k;
    let kg = 1.0f32 - kr - kb;
    kr > 0.0f32 && kb > 0.0f32 && kg > 0.0f32
}

// Refusal 3.
pub fn pair_off(matrix: Matrix) -> bool
    ensures { result ≡ pair_off matrix }
{
    match matrix {
        Matrix::Tabled(_) => false,
        Matrix::Own(k) => !positive_pair(k),
    }
}
