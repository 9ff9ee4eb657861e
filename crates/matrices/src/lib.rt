// Carried over from src/yuv_support.rs: the table of matrices, and the pair of floats that a matrix uses.
#![tactic(auto)]

ghost use Rattle.std.specs.Prelude.{◌≡◌, ◌≤◌};
ghost use Rattle.rules.specs.Matrices.{matrix_of};
ghost use Rattle.rules.specs.Weights.{nearest, pair_of};

use rules::{Matrix, Named, YuvBias, YuvStandardMatrix};

// A matrix's row of the table, in ten-thousandths, or its own pair.
pub fn matrix_of(matrix: YuvStandardMatrix) -> Matrix
    ensures { result ≡ matrix_of matrix }
{
    match matrix {
        YuvStandardMatrix::Bt601 => Matrix::Tabled(Named { kr: 2990, kb: 1140 }),
        YuvStandardMatrix::Bt709 => Matrix::Tabled(Named { kr: 2126, kb: 722 }),
        YuvStandardMatrix::Bt2020 => Matrix::Tabled(Named { kr: 2627, kb: 593 }),
        YuvStandardMatrix::Smpte240 => Matrix::Tabled(Named { kr: 2120, kb: 870 }),
        YuvStandardMatrix::Bt470_6 => Matrix::Tabled(Named { kr: 2990, kb: 1140 }),
        YuvStandardMatrix::Custom(kr, kb) => Matrix::Own(YuvBias { kr, kb }),
    }
}

// The 32-bit float nearest to n / 10000.
fn ten_thousandths(n: u32) -> f32
    requires { n ≤ 10000 }
    ensures { result ≡ nearest n }
{
    std::num::nearest_u32_to_f32(n) / 10000.0f32
}

// The pair of floats that a matrix uses.
pub fn get_kr_kb(matrix: YuvStandardMatrix) -> YuvBias
    ensures { result ≡ pair_of (matrix_of matrix) }
{
    match matrix_of(matrix) {
        Matrix::Tabled(k) => YuvBias {
            kr: ten_thousandths(k.kr),
            kb: ten_thousandths(k.kb),
        },
        Matrix::Own(own) => own,
    }
}
