// The frame loop: both planes, a chroma row and the luma rows over it at a time.
#![tactic(auto)]

ghost use Rattle.std.specs.Prelude.{◌≡◌, ◌+◌, ◌<◌, length};
ghost use Rattle.rules.specs.Blocks.{chroma_height};
ghost use Rattle.rules.specs.Frames.{shown};
ghost use Rattle.rules.specs.Convert.{luma_written, chroma_written};
ghost use Rattle.rule_laws.specs.Usable.{Usable};
ghost use Rattle.frames.specs.Tests.{Ready};
ghost use Rattle.lent_rows.specs.Turns.{rows_over, LumaGrows, ChromaGrows};

use rules::{Frame, Settings, Weights};

// One chroma row and the luma rows over it: two at 4:2:0, but for an odd last row; else one.
fn turn(
    s: Settings,
    w: Weights,
    f: Frame,
    row: usize,
    source: &[u16],
    luma: &mut [u16],
    chroma: &mut [u16],
)
    requires usable { Usable s w }
    requires ready { Ready s f source.now (length luma.old) (length chroma.old) }
    requires row_bound { row < chroma_height s.subsampling f.height }
    ensures luma_grows { LumaGrows s w f source.now (rows_over s.subsampling f.height row) (rows_over s.subsampling f.height (row + 1)) luma.old luma.new }
    ensures chroma_grows { ChromaGrows s w f source.now row (row + 1) chroma.old chroma.new }
{
    let top = blocks::top(s.subsampling, row);
    let two = blocks::two(s.subsampling, f.height, top);
    lent_rows::lend_row(s, w, f, row, top, two, source, luma, chroma);
    if two {
        lent_rows::lend_luma_row(s, w, f, top + 1, chroma.len(), source, luma);
    }
}

// Both planes, a chroma row and the luma rows over it at a time.
pub fn convert_rows(
    s: Settings,
    w: Weights,
    f: Frame,
    source: &[u16],
    luma: &mut [u16],
    chroma: &mut [u16],
)
    requires usable { Usable s w }
    requires ready { Ready s f source.now (length luma.old) (length chroma.old) }
    ensures luma_after { luma.new ≡ luma_written s w f (shown s f source.now) luma.old }
    ensures chroma_after { chroma.new ≡ chroma_written s w f (shown s f source.now) chroma.old }
{
    for row in 0..blocks::chroma_height(s.subsampling, f.height) {
        turn(s, w, f, row, source, luma, chroma);
    }
}
