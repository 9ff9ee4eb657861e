// Refusals 7, 12, 8, 9 and 13: the first that applies to two planes and the RGB buffer that they are turned back into.
#![tactic(auto)]

ghost use Rattle.std.specs.Prelude.{◌≡◌, length};
ghost use Rattle.rules.specs.Refusals.{first, line_of};
ghost use Rattle.rules.specs.ToRgb.{malformed, malformed_line, plane_lines};
ghost use Rattle.rule_laws.specs.Usable.{Reach};
ghost use Rattle.frames.specs.Tests.{Sized, Laid, LaidOut};

use formed_search::first_malformed;
use layout_verdict::layout_verdict;
use rules::{Frame, Refusal, Settings};
use walks::place_of;

// Refusal 13 of planes that 7, 12, 8 and 9 pass: luma is searched first, and chroma only where all of luma is well formed.
fn formed_verdict(
    s: Settings,
    f: Frame,
    luma: &[u16],
    chroma: &[u16],
    rgb: usize,
) -> Result<(), Refusal>
    requires reach { Reach s }
    requires sized { (Sized f) × (Laid s f rgb (length luma.now) (length chroma.now)) }
    ensures { line_of result ≡ malformed_line (malformed s f luma.now chroma.now) }
{
    let subsampling = s.subsampling;
    if let Some(found) = first_malformed(s, f.luma_stride, f.width, f.height, luma) {
        return Err(Refusal::Malformed(place_of(0, found)));
    }
    let wide = blocks::chroma_width(subsampling, f.width);
    let rows = blocks::chroma_height(subsampling, f.height);
    if let Some(found) = first_malformed(s, f.chroma_stride, wide, rows, chroma) {
        return Err(Refusal::Malformed(place_of(1, found)));
    }
    Ok(())
}

// The first of refusals 7, 12, 8, 9 and 13 that applies, or none.
pub fn planes_verdict(
    s: Settings,
    f: Frame,
    luma: &[u16],
    chroma: &[u16],
    rgb: usize,
) -> Result<(), Refusal>
    requires { Reach s }
    ensures exact { line_of result ≡ first (plane_lines s f luma.now chroma.now rgb) }
    ensures laid { LaidOut s f rgb (length luma.now) (length chroma.now) result }
{
    layout_verdict(s, f, rgb, luma.len(), chroma.len())?;
    formed_verdict(s, f, luma, chroma, rgb)
}
