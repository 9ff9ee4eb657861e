// The rows of one turn of the frame loop, each a plane's row without its padding.
#![tactic(auto)]

ghost use Rattle.std.specs.Prelude.{◌≡◌, true, false, ◌≤◌, length};
ghost use Rattle.rules.specs.Blocks.{chroma_width};
ghost use Rattle.rules.specs.Planes.{tabulate};
ghost use Rattle.rule_laws.specs.Usable.{Usable};
ghost use Rattle.blocks.specs.Tiles.{paired};
ghost use Rattle.frames.specs.Rows.{Convertible};
ghost use Rattle.last_column.specs.Words.{luma_words, chroma_words};
ghost use Rattle.last_column.specs.Columns.{RowLengths};

use column_pairs::{double_columns, halved_columns, luma_columns};
use last_column::{last_luma, last_pair};
use rules::{Settings, Weights};

// A luma row and a chroma row from one source row: 4:4:4, 4:2:2, and the odd last row of 4:2:0.
fn process_halved_row(
    s: Settings,
    w: Weights,
    width: usize,
    luma: &mut [u16],
    chroma: &mut [u16],
    rgba: &[u16],
)
    requires usable { Usable s w }
    requires row_lengths { RowLengths s width (length luma.old) (length chroma.old) }
    requires convertible { Convertible s width rgba.now }
    ensures luma_after { luma.new ≡ tabulate width (luma_words s w rgba.now) }
    ensures chroma_after { chroma.new ≡ tabulate (chroma_width s.subsampling width) (chroma_words s w width false rgba.now rgba.now) }
{
    halved_columns(s, w, width, luma, chroma, rgba);
    last_luma(s, w, width, luma, rgba);
    last_pair(s, w, width, false, chroma, rgba, rgba);
}

// The upper luma row and the chroma row from two source rows: 4:2:0.
fn process_double_row(
    s: Settings,
    w: Weights,
    width: usize,
    luma: &mut [u16],
    chroma: &mut [u16],
    upper: &[u16],
    lower: &[u16],
)
    requires usable { (Usable s w) × (paired s.subsampling ≡ true) }
    requires row_lengths { RowLengths s width (length luma.old) (length chroma.old) }
    requires convertible { (Convertible s width upper.now) × (Convertible s width lower.now) }
    ensures luma_after { luma.new ≡ tabulate width (luma_words s w upper.now) }
    ensures chroma_after { chroma.new ≡ tabulate (chroma_width s.subsampling width) (chroma_words s w width true upper.now lower.now) }
{
    double_columns(s, w, width, luma, chroma, upper, lower);
    last_luma(s, w, width, luma, upper);
    last_pair(s, w, width, true, chroma, upper, lower);
}

// A luma row and a chroma row, from two source rows where there are two.
pub fn process_row(
    s: Settings,
    w: Weights,
    width: usize,
    two: bool,
    luma: &mut [u16],
    chroma: &mut [u16],
    upper: &[u16],
    lower: &[u16],
)
    requires usable { (Usable s w) × (two ≡ true → paired s.subsampling ≡ true) }
    requires row_lengths { RowLengths s width (length luma.old) (length chroma.old) }
    requires convertible { (Convertible s width upper.now) × (Convertible s width lower.now) }
    ensures luma_after { luma.new ≡ tabulate width (luma_words s w upper.now) }
    ensures chroma_after { chroma.new ≡ tabulate (chroma_width s.subsampling width) (chroma_words s w width two upper.now lower.now) }
{
    if two {
        process_double_row(s, w, width, luma, chroma, upper, lower);
        return;
    }
    process_halved_row(s, w, width, luma, chroma, upper);
}

// A luma row alone: the lower one of two.
pub fn process_luma_row(s: Settings, w: Weights, width: usize, luma: &mut [u16], rgba: &[u16])
    requires usable { Usable s w }
    requires width_bound { (width ≤ 16384) × (length luma.old ≡ width) }
    requires convertible { Convertible s width rgba.now }
    ensures { luma.new ≡ tabulate width (luma_words s w rgba.now) }
{
    luma_columns(s, w, width, luma, rgba);
    last_luma(s, w, width, luma, rgba);
}
