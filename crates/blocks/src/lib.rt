// Which pixels a chroma pair is made of: its first column and row, and whether it has a second of each.
#![tactic(auto)]

ghost use Rattle.std.specs.Prelude.{◌≡◌, ◌≤◌, ◌<◌};
ghost use Rattle.rules.specs.Blocks.{pair_over, chroma_row_over, chroma_width, chroma_height};
ghost use Rattle.blocks.specs.Tiles.{paired, left_of, wide_at, second_of, top_of, two_at};

use rules::YuvChromaSubsampling::{self, Yuv420, Yuv422, Yuv444};

// Chroma elements in a row.
pub fn chroma_width(subsampling: YuvChromaSubsampling, width: usize) -> usize
    requires { width ≤ 16384 }
    ensures { result ≡ chroma_width subsampling width }
{
    match subsampling {
        Yuv420 | Yuv422 => 2 * ((width + 1) / 2),
        Yuv444 => 2 * width,
    }
}

// Chroma rows.
pub fn chroma_height(subsampling: YuvChromaSubsampling, height: usize) -> usize
    requires { height ≤ 16384 }
    ensures { result ≡ chroma_height subsampling height }
{
    match subsampling {
        Yuv420 => (height + 1) / 2,
        Yuv422 | Yuv444 => height,
    }
}

// Whether a pair has two columns, but for an odd last one.
pub fn paired(subsampling: YuvChromaSubsampling) -> bool
    ensures { result ≡ paired subsampling }
{
    matches!(subsampling, Yuv420 | Yuv422)
}

// The first column of a pair.
pub fn left(subsampling: YuvChromaSubsampling, pair: usize) -> usize
    requires { pair ≤ 16384 }
    ensures { result ≡ left_of subsampling pair }
{
    match subsampling {
        Yuv420 | Yuv422 => 2 * pair,
        Yuv444 => pair,
    }
}

// Whether the pair at column x has a second column: an odd last column stands by itself.
pub fn wide(subsampling: YuvChromaSubsampling, width: usize, x: usize) -> bool
    requires { x < width }
    ensures { result ≡ wide_at subsampling width x }
{
    match subsampling {
        Yuv420 | Yuv422 => x + 1 < width,
        Yuv444 => false,
    }
}

// The first source row of a chroma row.
pub fn top(subsampling: YuvChromaSubsampling, row: usize) -> usize
    requires { row ≤ 16384 }
    ensures { result ≡ top_of subsampling row }
{
    match subsampling {
        Yuv420 => 2 * row,
        Yuv422 | Yuv444 => row,
    }
}

// Whether it has a second: an odd last row stands by itself.
pub fn two(subsampling: YuvChromaSubsampling, height: usize, top: usize) -> bool
    requires { top < height }
    ensures { result ≡ two_at subsampling height top }
{
    match subsampling {
        Yuv420 => top + 1 < height,
        Yuv422 | Yuv444 => false,
    }
}

// The chroma pair over a column.
pub fn pair_over(subsampling: YuvChromaSubsampling, x: usize) -> usize
    ensures { result ≡ pair_over subsampling x }
{
    match subsampling {
        Yuv420 | Yuv422 => x / 2,
        Yuv444 => x,
    }
}

// The chroma row over a row.
pub fn chroma_row(subsampling: YuvChromaSubsampling, row: usize) -> usize
    ensures { result ≡ chroma_row_over subsampling row }
{
    match subsampling {
        Yuv420 => row / 2,
        Yuv422 | Yuv444 => row,
    }
}

// The second row of a block, or its first again where it has but one.
pub fn second(two: bool, top: usize) -> usize
    requires { top < 18446744073709551615 }
    ensures { result ≡ second_of two top }
{
    if two { top + 1 } else { top }
}
