// Stride × rows: how many elements one frame has in the source and in each plane. A `Frame` is what C hands in, so it cannot keep what the
// tests before these found, and each function requires it.
#![tactic(auto)]

ghost use Rattle.std.specs.Prelude.{◌≡◌, ◌≤◌};
ghost use Rattle.rules.specs.Frames.{source_size, luma_size, chroma_size};
ghost use Rattle.frames.specs.Tests.{Sized, Windowed, Strided};

use rules::{Frame, Settings};

pub fn source_size(s: Settings, f: Frame) -> usize
    requires { (Windowed f) × (Strided s f) }
    ensures value { result ≡ source_size f }
    ensures upper_bound { result ≤ 1073741824 }
{
    f.source_rows * f.source_stride
}

pub fn luma_size(s: Settings, f: Frame) -> usize
    requires { (Sized f) × (Strided s f) }
    ensures value { result ≡ luma_size f }
    ensures upper_bound { result ≤ 1073741824 }
{
    f.height * f.luma_stride
}

pub fn chroma_size(s: Settings, f: Frame) -> usize
    requires { (Sized f) × (Strided s f) }
    ensures value { result ≡ chroma_size s f }
    ensures upper_bound { result ≤ 1073741824 }
{
    blocks::chroma_height(s.subsampling, f.height) * f.chroma_stride
}
