// Refusals 7, 12, 8, 11 and 9: the size, the window, the strides, the count of frames and the lengths, a function for each. No sum or
// product can wrap. A `Frame` is what C hands in, so it cannot keep what a test finds: each test requires what those before it left.
#![tactic(auto)]

ghost use Rattle.std.specs.Prelude.{◌≡◌, ◌≤◌};
ghost use Rattle.rules.specs.Refusals.{outside};
ghost use Rattle.rules.specs.Frames.{size_off, window_off, stride_off, length_off};
ghost use Rattle.frames.specs.Tests.{Sized, Windowed, Strided};

use rules::{Frame, Settings};
use yuv_support::channels;

// Refusal 7.
pub fn size_off(f: Frame) -> bool
    ensures { result ≡ size_off f }
{
    !(1..=16384).contains(&f.width) || !(1..=16384).contains(&f.height)
}

// Refusal 12. The first row is tested before the height is added to it.
pub fn window_off(f: Frame) -> bool
    requires { Sized f }
    ensures { result ≡ window_off f }
{
    !(0..=16384).contains(&f.first_column)
        || !(0..=16384).contains(&f.first_row)
        || !(0..=16384).contains(&f.source_rows)
        || f.source_rows < f.first_row + f.height
}

// Refusal 8.
pub fn stride_off(s: Settings, f: Frame) -> bool
    requires { (Sized f) × (Windowed f) }
    ensures { result ≡ stride_off s f }
{
    let covered = (f.first_column + f.width) * channels::get_channels_count(s.channels);
    let chroma = blocks::chroma_width(s.subsampling, f.width);
    !(covered..=65536).contains(&f.source_stride)
        || !(f.width..=65536).contains(&f.luma_stride)
        || !(chroma..=65536).contains(&f.chroma_stride)
}

// Refusal 11.
pub fn count_off(count: usize) -> bool
    ensures { result ≡ outside 1 64 count }
{
    !(1..=64).contains(&count)
}

// Refusal 9, of so many frames laid end to end.
pub fn length_off(
    s: Settings,
    f: Frame,
    count: usize,
    source: usize,
    luma: usize,
    chroma: usize,
) -> bool
    requires sized { (Sized f) × ((Windowed f) × (Strided s f)) }
    requires count_bound { count ≤ 64 }
    ensures { result ≡ length_off s f count source luma chroma }
{
    source != count * frame_sizes::source_size(s, f)
        || luma != count * frame_sizes::luma_size(s, f)
        || chroma != count * frame_sizes::chroma_size(s, f)
}
