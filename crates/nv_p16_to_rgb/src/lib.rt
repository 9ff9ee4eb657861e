// Two planes turned back into a frame of RGB samples, or refused with the RGB buffer as it was.
#![tactic(auto)]

ghost use Rattle.std.specs.Prelude.{◌≡◌, ◌∷◌, length};
ghost use Rattle.rules.specs.declared.Matrix.TheVariants.{Tabled};
ghost use Rattle.rules.specs.Matrices.{matrix_of};
ghost use Rattle.rules.specs.Inverse.{inverse_weights_of};
ghost use Rattle.rules.specs.Refusals.{first, line_of};
ghost use Rattle.rules.specs.Answers.{converted_answer};
ghost use Rattle.rules.specs.Check.{custom_line};
ghost use Rattle.rules.specs.ToRgb.{plane_lines, rgb_left, to_rgb, rgb_after};
ghost use Rattle.rule_laws.specs.Usable.{Reach};

use inverse_weights::inverse_weights_of;
use plane_refusals::planes_verdict;
use restored_frame::restore_frame;
use rules::{Frame, Matrix, Named, Refusal, Settings};
use settle::settle;

// For a row of the table of matrices: refusals 7, 12, 8, 9 and 13, then the frame.
fn restore_named(
    s: Settings,
    k: Named,
    f: Frame,
    luma: &[u16],
    chroma: &[u16],
    rgb: &mut [u16],
) -> Result<(), Refusal>
    requires { (Reach s) × (matrix_of s.matrix ≡ Tabled k) }
    ensures verdict { line_of result ≡ first (plane_lines s f luma.now chroma.now (length rgb.old)) }
    ensures rgb { rgb.new ≡ rgb_left (line_of result) s (inverse_weights_of s) f luma.now chroma.now rgb.old }
{
    planes_verdict(s, f, luma, chroma, rgb.len())?;
    restore_frame(s, inverse_weights_of(s), f, luma, chroma, rgb);
    Ok(())
}

// For settled settings: refusal 6 for a custom matrix, then the planes'.
fn restore_matrix(
    s: Settings,
    matrix: Matrix,
    f: Frame,
    luma: &[u16],
    chroma: &[u16],
    rgb: &mut [u16],
) -> Result<(), Refusal>
    requires { (Reach s) × (matrix ≡ matrix_of s.matrix) }
    ensures verdict { line_of result ≡ first (custom_line s ∷ plane_lines s f luma.now chroma.now (length rgb.old)) }
    ensures rgb { rgb.new ≡ rgb_left (line_of result) s (inverse_weights_of s) f luma.now chroma.now rgb.old }
{
    match matrix {
        Matrix::Own(_) => Err(Refusal::CustomUnchecked),
        Matrix::Tabled(k) => restore_named(s, k, f, luma, chroma, rgb),
    }
}

// Settles the settings, then turns the frame back: the first refusal that applies, or the RGB buffer written.
pub fn to_rgb(
    s: Settings,
    f: Frame,
    luma: &[u16],
    chroma: &[u16],
    rgb: &mut [u16],
) -> Result<(), Refusal>
    ensures answer { converted_answer result ≡ to_rgb s f luma.now chroma.now rgb.old }
    ensures rgb { rgb.new ≡ rgb_after s f luma.now chroma.now rgb.old }
{
    settle(s)?;
    restore_matrix(s, matrices::matrix_of(s.matrix), f, luma, chroma, rgb)
}
