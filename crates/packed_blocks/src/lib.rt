// Two source rows at 4:2:0: the chroma row with the upper luma row, and the lower luma row by itself; two columns in each turn, before
// the bytes are exchanged. Pixels are read as if they were Rgb, since the weights stand in source order.
#![tactic(auto)]

ghost use Rattle.std.specs.Prelude.{◌≡◌, true, ◌≤◌, length};
ghost use Rattle.rule_laws.specs.Usable.{Usable};
ghost use Rattle.blocks.specs.Tiles.{paired};
ghost use Rattle.plane_laws.specs.Rows.{Begun};
ghost use Rattle.frames.specs.Rows.{Convertible};
ghost use Rattle.last_column.specs.Columns.{even_columns, RowLengths};
ghost use Rattle.packed_store.specs.Packed.{packed_luma_row};
ghost use Rattle.packed_store.specs.Pairs.{PackedWritten};

use frames::pixels;
use joined_weights::frame_weights;
use packed_store::{put_luma, put_pair};
use rules::{Settings, Weights, YuvSourceChannels};
use yuv_support::channels::get_channels_count;

// The chroma row and the upper luma row.
pub fn block_loop(
    s: Settings,
    w: Weights,
    width: usize,
    luma: &mut [u16],
    chroma: &mut [u16],
    upper: &[u16],
    lower: &[u16],
)
    requires usable { (Usable s w) × (paired s.subsampling ≡ true) }
    requires row_lengths { RowLengths s width (length luma.old) (length chroma.old) }
    requires convertible { (Convertible s width upper.now) × (Convertible s width lower.now) }
    ensures { PackedWritten s w width true upper.now lower.now luma.old luma.new chroma.old chroma.new }
{
    let n = get_channels_count(s.channels);
    let joined = frame_weights(s, w);
    for block in 0..width / 2 {
        let left = 2 * block;
        let i = left * n;
        let p = pixels::pixel_at(YuvSourceChannels::Rgb, upper, i);
        let q = pixels::pixel_at(YuvSourceChannels::Rgb, upper, i + n);
        put_luma(s, w, joined, luma, left, p, q);
        let u = pixels::pixel_at(YuvSourceChannels::Rgb, lower, i);
        let v = pixels::pixel_at(YuvSourceChannels::Rgb, lower, i + n);
        put_pair(s, w, joined, chroma, left, means::mean_of_four(p, q, u, v));
    }
}

// The lower luma row.
pub fn luma_loop(s: Settings, w: Weights, width: usize, luma: &mut [u16], rgba: &[u16])
    requires usable { Usable s w }
    requires width_bound { (width ≤ 16384) × (length luma.old ≡ width) }
    requires convertible { Convertible s width rgba.now }
    ensures { Begun (even_columns width) (packed_luma_row s w rgba.now) luma.old luma.new }
{
    let n = get_channels_count(s.channels);
    let joined = frame_weights(s, w);
    // not a `for` over pairs, by which converting to 4:2:0 takes 3 percent longer
    let mut x = 0;
    let mut i = 0;
    while i + 2 * n <= rgba.len() {
        let p = pixels::pixel_at(YuvSourceChannels::Rgb, rgba, i);
        let q = pixels::pixel_at(YuvSourceChannels::Rgb, rgba, i + n);
        put_luma(s, w, joined, luma, x, p, q);
        x += 2;
        i += 2 * n;
    }
}
