// The check of a frame: every visible sample judged by its exact fraction, and the first wrong one named.
#![tactic(auto)]

ghost use Rattle.std.specs.Prelude.{◌≡◌, ◌+◌, ◌≤◌, length};
ghost use Rattle.rules.specs.declared.Matrix.TheVariants.{Tabled};
ghost use Rattle.rules.specs.Matrices.{matrix_of};
ghost use Rattle.rules.specs.Answers.{checked_answer};
ghost use Rattle.rules.specs.Frames.{shown};
ghost use Rattle.rules.specs.Check.{judged, check};
ghost use Rattle.rule_laws.specs.Usable.{Reach};
ghost use Rattle.frames.specs.Tests.{Ready};
ghost use Rattle.frame_check.specs.Stages.{from_matrix, from_frame};

use check_limits::judge::Judge;
use rules::{Frame, Matrix, Named, Place, Refusal, Settings};
use settle::settle;

// The first wrong sample, where no refusal is due: luma is walked first, and chroma only where luma is clean.
fn check_settled(
    s: Settings,
    k: Named,
    f: Frame,
    source: &[u16],
    luma: &[u16],
    chroma: &[u16],
) -> Option<Place>
    requires reach { Reach s }
    requires kb_bound { k.kr + k.kb ≤ 10000 }
    requires ready { Ready s f source.now (length luma.now) (length chroma.now) }
    ensures { checked_answer (Ok result) ≡ judged s k f (shown s f source.now) luma.now chroma.now }
{
    let judge = Judge::new(s, k);
    if let Some(found) = luma_walk::walk_luma(judge, f, source, luma) {
        return Some(walks::place_of(0, found));
    }
    let found = chroma_walk::walk_chroma(judge, f, source, chroma)?;
    Some(walks::place_of(1, found))
}

// The answer for a row of the table: refusals 7 to 10, then the judgement.
fn check_named(
    s: Settings,
    k: Named,
    f: Frame,
    source: &[u16],
    luma: &[u16],
    chroma: &[u16],
) -> Result<Option<Place>, Refusal>
    requires reach { Reach s }
    requires matrix_value { matrix_of s.matrix ≡ Tabled k }
    ensures { checked_answer result ≡ from_frame s f source.now luma.now chroma.now }
{
    frame_refusals::frame_verdict(s, f, source, luma.len(), chroma.len())?;
    Ok(check_settled(s, k, f, source, luma, chroma))
}

// The answer for settled settings: refusal 6 for a custom matrix, then the frame's.
fn check_matrix(
    s: Settings,
    matrix: Matrix,
    f: Frame,
    source: &[u16],
    luma: &[u16],
    chroma: &[u16],
) -> Result<Option<Place>, Refusal>
    requires reach { Reach s }
    requires matrix_value { matrix ≡ matrix_of s.matrix }
    ensures { checked_answer result ≡ from_matrix s f source.now luma.now chroma.now }
{
    match matrix {
        Matrix::Own(_) => Err(Refusal::CustomUnchecked),
        Matrix::Tabled(k) => check_named(s, k, f, source, luma, chroma),
    }
}

// Settles the settings, then checks the frame: the first refusal that applies, or the first wrong sample, or none where all are accepted.
pub fn check(
    s: Settings,
    f: Frame,
    source: &[u16],
    luma: &[u16],
    chroma: &[u16],
) -> Result<Option<Place>, Refusal>
    ensures { checked_answer result ≡ check s f source.now luma.now chroma.now }
{
    settle(s)?;
    check_matrix(s, matrices::matrix_of(s.matrix), f, source, luma, chroma)
}
