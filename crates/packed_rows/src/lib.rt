// One source row: a luma row and a chroma row, two columns in each turn, before the bytes are exchanged.
// Pixels are read as if they were Rgb, since the weights stand in source order. The loops here and in packed_blocks stay four: they read one
// row or two and write none, one or two pairs in a turn, and one loop with that as a parameter would be no plainer than each is.
#![tactic(auto)]

ghost use Rattle.std.specs.Prelude.{◌≡◌, true, false, length};
ghost use Rattle.rules.specs.declared.YuvChromaSubsampling.TheVariants.{Yuv444};
ghost use Rattle.rule_laws.specs.Usable.{Usable};
ghost use Rattle.blocks.specs.Tiles.{paired};
ghost use Rattle.frames.specs.Rows.{Convertible};
ghost use Rattle.last_column.specs.Columns.{RowLengths};
ghost use Rattle.packed_store.specs.Pairs.{PackedWritten};

use frames::pixels;
use joined_weights::frame_weights;
use packed_store::{put_luma, put_pair};
use rules::{Settings, Weights, YuvSourceChannels};
use yuv_support::channels::get_channels_count;

// 4:4:4: a chroma pair for each pixel.
pub fn single_loop(
    s: Settings,
    w: Weights,
    width: usize,
    luma: &mut [u16],
    chroma: &mut [u16],
    rgba: &[u16],
)
    requires usable { (Usable s w) × (s.subsampling ≡ Yuv444) }
    requires row_lengths { RowLengths s width (length luma.old) (length chroma.old) }
    requires convertible { Convertible s width rgba.now }
    ensures { PackedWritten s w width false rgba.now rgba.now luma.old luma.new chroma.old chroma.new }
{
    let n = get_channels_count(s.channels);
    let joined = frame_weights(s, w);
    for pair in 0..width / 2 {
        let x = 2 * pair;
        let i = x * n;
        let p = pixels::pixel_at(YuvSourceChannels::Rgb, rgba, i);
        let q = pixels::pixel_at(YuvSourceChannels::Rgb, rgba, i + n);
        put_luma(s, w, joined, luma, x, p, q);
        put_pair(s, w, joined, chroma, 2 * x, p);
        put_pair(s, w, joined, chroma, 2 * x + 2, q);
    }
}

// 4:2:2: a chroma pair for two pixels.
pub fn paired_loop(
    s: Settings,
    w: Weights,
    width: usize,
    luma: &mut [u16],
    chroma: &mut [u16],
    rgba: &[u16],
)
    requires usable { (Usable s w) × (paired s.subsampling ≡ true) }
    requires row_lengths { RowLengths s width (length luma.old) (length chroma.old) }
    requires convertible { Convertible s width rgba.now }
    ensures { PackedWritten s w width false rgba.now rgba.now luma.old luma.new chroma.old chroma.new }
{
    let n = get_channels_count(s.channels);
    let joined = frame_weights(s, w);
    for pair in 0..width / 2 {
        let x = 2 * pair;
        let i = x * n;
        let p = pixels::pixel_at(YuvSourceChannels::Rgb, rgba, i);
        let q = pixels::pixel_at(YuvSourceChannels::Rgb, rgba, i + n);
        put_luma(s, w, joined, luma, x, p, q);
        put_pair(s, w, joined, chroma, x, means::mean_of_two(p, q));
    }
}
