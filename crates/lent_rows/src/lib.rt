// Row parts of both planes lent to the row functions, with row parts from the middle of the source.
#![tactic(auto)]

ghost use Rattle.std.specs.Prelude.{◌+◌, ◌<◌, length};
ghost use Rattle.rule_laws.specs.Usable.{Usable};
ghost use Rattle.frames.specs.Tests.{Ready};
ghost use Rattle.lent_rows.specs.Turns.{Turn, LumaGrows, ChromaGrows};

use frames::rows::source_row;
use rules::{Frame, Settings, Weights};

// Luma row `top` and chroma row `row`, from source row `top`, and for chroma from the next one where there are two.
pub fn lend_row(
    s: Settings,
    w: Weights,
    f: Frame,
    row: usize,
    top: usize,
    two: bool,
    source: &[u16],
    luma: &mut [u16],
    chroma: &mut [u16],
)
    requires usable { Usable s w }
    requires ready { Ready s f source.now (length luma.old) (length chroma.old) }
    requires turn { Turn s f row top two }
    ensures luma_grows { LumaGrows s w f source.now top (top + 1) luma.old luma.new }
    ensures chroma_grows { ChromaGrows s w f source.now row (row + 1) chroma.old chroma.new }
{
    let width = f.width;
    let upper = source_row(s.channels, f, source, top);
    let lower = source_row(s.channels, f, source, blocks::second(two, top));
    let luma_start = top * f.luma_stride;
    let luma_end = luma_start + width;
    let chroma_start = row * f.chroma_stride;
    let chroma_end = chroma_start + blocks::chroma_width(s.subsampling, width);
    process_rows::process_row(
        s,
        w,
        width,
        two,
        &mut luma[luma_start..luma_end],
        &mut chroma[chroma_start..chroma_end],
        upper,
        lower,
    );
}

// Luma row `row` alone.
pub fn lend_luma_row(
    s: Settings,
    w: Weights,
    f: Frame,
    row: usize,
    chroma: usize,
    source: &[u16],
    luma: &mut [u16],
)
    requires usable { Usable s w }
    requires ready { (Ready s f source.now (length luma.old) chroma) × (row < f.height) }
    ensures { LumaGrows s w f source.now row (row + 1) luma.old luma.new }
{
    let width = f.width;
    let rgba = source_row(s.channels, f, source, row);
    let start = row * f.luma_stride;
    let end = start + width;
    process_rows::process_luma_row(s, w, width, &mut luma[start..end], rgba);
}
