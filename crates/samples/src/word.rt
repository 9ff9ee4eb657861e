// The stored word of a pixel.
ghost use Rattle.std.specs.Prelude.{◌≡◌, ◌≤◌, pos};
ghost use Rattle.rules.specs.Ranges.{most, y_bias, uv_bias};
ghost use Rattle.rules.specs.Channels.{is_u};
ghost use Rattle.rules.specs.Weights.{luma_row};
ghost use Rattle.rules.specs.Sample.{signed_code};
ghost use Rattle.rules.specs.Convert.{word_of};
ghost use Rattle.rule_laws.specs.Codes.{Low, Between};
ghost use Rattle.rule_laws.specs.Usable.{Reach, Usable};
ghost use Rattle.tolerance_laws.specs.Chroma.{chroma_row};

use crate::code;
use rules::{Pixel, Settings, Triple, Weights, YuvNVOrder};
use yuv_support::{channels, ranges};

fn word_of(s: Settings, bias: u32, w: Triple, p: Pixel) -> u16
    requires reach { Reach s }
    requires bias_bound { bias ≤ 65535 }
    requires between { Between (pos 0) (pos (most s.depth)) (signed_code s.precision bias w p) }
    ensures { result ≡ word_of s bias w p }
{
    storage::word(
        s.packing,
        s.endianness,
        s.depth,
        code::code(s.precision, bias, w, p),
    )
}

// The word of a pixel's luma.
pub fn luma_word(s: Settings, w: Weights, p: Pixel) -> u16
    requires usable { Usable s w }
    requires low { Low (most s.depth) p }
    ensures { result ≡ word_of s (y_bias s.range s.depth) (luma_row w) p }
{
    let g = ranges::get_yuv_range(s.depth, s.range);
    word_of(s, g.bias_y, code::luma_row(w), p)
}

// Whether an element of a chroma row is a U.
pub fn is_u(order: YuvNVOrder, element: usize) -> bool
    ensures { result ≡ is_u order element }
{
    element % 2 == channels::get_u_position(order)
}

// Cb's weights for a U, Cr's for a V.
pub fn chroma_row(u: bool, w: Weights) -> Triple
    ensures { result ≡ chroma_row u w }
{
    if u { code::cb_row(w) } else { code::cr_row(w) }
}

// The word at an element of a chroma row, by the mean of its pixels.
pub fn chroma_word(s: Settings, w: Weights, p: Pixel, element: usize) -> u16
    requires usable { Usable s w }
    requires low { Low (most s.depth) p }
    ensures { result ≡ word_of s (uv_bias s.depth) (chroma_row (is_u s.order element) w) p }
{
    let g = ranges::get_yuv_range(s.depth, s.range);
    word_of(s, g.bias_uv, chroma_row(is_u(s.order, element), w), p)
}
