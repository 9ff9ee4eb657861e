// All columns of a row but an odd last one: the words of a row two columns at a time, then a pass that exchanges their bytes for big endian.
#![tactic(auto)]

ghost use Rattle.std.specs.Prelude.{◌≡◌, true, false, ◌≤◌, length};
ghost use Rattle.rule_laws.specs.Usable.{Usable};
ghost use Rattle.blocks.specs.Tiles.{paired};
ghost use Rattle.plane_laws.specs.Rows.{Begun};
ghost use Rattle.frames.specs.Rows.{Convertible};
ghost use Rattle.last_column.specs.Words.{luma_words};
ghost use Rattle.last_column.specs.Columns.{even_columns, RowLengths};
ghost use Rattle.packed_store.specs.Pairs.{PackedWritten};
ghost use Rattle.column_pairs.specs.Columns.{ColumnsWritten, ColumnsExchanged};

use byte_exchange::exchange;
use last_column::elements_over;
use packed_blocks::{block_loop, luma_loop};
use packed_rows::{paired_loop, single_loop};
use rules::{Settings, Weights, YuvChromaSubsampling};

// A luma row and a chroma row from one source row, before the bytes are exchanged. The odd last row of 4:2:0 is a row of blocks whose
// second row is the first again.
fn halved_packed(
    s: Settings,
    w: Weights,
    width: usize,
    luma: &mut [u16],
    chroma: &mut [u16],
    rgba: &[u16],
)
    requires usable { Usable s w }
    requires row_lengths { RowLengths s width (length luma.old) (length chroma.old) }
    requires convertible { Convertible s width rgba.now }
    ensures { PackedWritten s w width false rgba.now rgba.now luma.old luma.new chroma.old chroma.new }
{
    match s.subsampling {
        YuvChromaSubsampling::Yuv420 => block_loop(s, w, width, luma, chroma, rgba, rgba),
        YuvChromaSubsampling::Yuv422 => paired_loop(s, w, width, luma, chroma, rgba),
        YuvChromaSubsampling::Yuv444 => single_loop(s, w, width, luma, chroma, rgba),
    }
}

// Big endian words have their bytes exchanged once all columns are written.
fn exchange_columns(s: Settings, width: usize, luma: &mut [u16], chroma: &mut [u16])
    requires { RowLengths s width (length luma.old) (length chroma.old) }
    ensures { ColumnsExchanged s width luma.old luma.new chroma.old chroma.new }
{
    let columns = 2 * (width / 2);
    exchange(s.endianness, columns, luma);
    exchange(s.endianness, elements_over(s.subsampling, columns), chroma);
}

// A luma row and a chroma row from one source row.
pub fn halved_columns(
    s: Settings,
    w: Weights,
    width: usize,
    luma: &mut [u16],
    chroma: &mut [u16],
    rgba: &[u16],
)
    requires usable { Usable s w }
    requires row_lengths { RowLengths s width (length luma.old) (length chroma.old) }
    requires convertible { Convertible s width rgba.now }
    ensures { ColumnsWritten s w width false rgba.now rgba.now luma.old luma.new chroma.old chroma.new }
{
    halved_packed(s, w, width, luma, chroma, rgba);
    exchange_columns(s, width, luma, chroma);
}

// The upper luma row and the chroma row from two source rows.
pub fn double_columns(
    s: Settings,
    w: Weights,
    width: usize,
    luma: &mut [u16],
    chroma: &mut [u16],
    upper: &[u16],
    lower: &[u16],
)
    requires usable { (Usable s w) × (paired s.subsampling ≡ true) }
    requires row_lengths { RowLengths s width (length luma.old) (length chroma.old) }
    requires convertible { (Convertible s width upper.now) × (Convertible s width lower.now) }
    ensures { ColumnsWritten s w width true upper.now lower.now luma.old luma.new chroma.old chroma.new }
{
    block_loop(s, w, width, luma, chroma, upper, lower);
    exchange_columns(s, width, luma, chroma);
}

// A luma row alone.
pub fn luma_columns(s: Settings, w: Weights, width: usize, luma: &mut [u16], rgba: &[u16])
    requires usable { Usable s w }
    requires width_bound { (width ≤ 16384) × (length luma.old ≡ width) }
    requires convertible { Convertible s width rgba.now }
    ensures { Begun (even_columns width) (luma_words s w rgba.now) luma.old luma.new }
{
    luma_loop(s, w, width, luma, rgba);
    exchange(s.endianness, 2 * (width / 2), luma);
}
