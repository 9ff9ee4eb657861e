// Settings by numbers, as a caller from another language or a line of text has them.
#![tactic(auto)]

ghost use Rattle.std.specs.Prelude.{◌≡◌};
ghost use Rattle.numbers.specs.Numbers.{matrix_of, range_of, subsampling_of, order_of, packing_of, endianness_of, channels_of, up_to, settings_of};

use rules::{
    Settings, YuvBytesPacking, YuvChromaSubsampling, YuvEndianness, YuvNVOrder, YuvRange,
    YuvSourceChannels, YuvStandardMatrix,
};

// The matrices in the order of document 01's table, 5 for the pair kr, kb; the other enumerations by the Rust's numbers.
#[repr(C)]
#[derive(Clone, Copy)]
pub struct SettingsNumbers {
    pub depth: u32,
    pub precision: u32,
    pub matrix: u32,
    pub kr: f32,
    pub kb: f32,
    pub range: u32,
    pub subsampling: u32,
    pub order: u32,
    pub packing: u32,
    pub byte_order: u32,
    pub channels: u32,
}

// A number that names no case of its enumeration.
#[derive(Clone, Copy, Debug, PartialEq, Eq)]
pub struct Unnamed;

// Functions, since TryFrom<u32> of these enumerations would have to stand in `rules`, which knows nothing of the interface's numbers.
fn matrix_of(n: u32, kr: f32, kb: f32) -> Result<YuvStandardMatrix, Unnamed>
    ensures { result ≡ up_to 5 n (matrix_of n kr kb) }
{
    match n {
        0 => Ok(YuvStandardMatrix::Bt601),
        1 => Ok(YuvStandardMatrix::Bt709),
        2 => Ok(YuvStandardMatrix::Bt2020),
        3 => Ok(YuvStandardMatrix::Smpte240),
        4 => Ok(YuvStandardMatrix::Bt470_6),
        5 => Ok(YuvStandardMatrix::Custom(kr, kb)),
        _ => Err(Unnamed),
    }
}

fn range_of(n: u32) -> Result<YuvRange, Unnamed>
    ensures { result ≡ up_to 1 n (range_of n) }
{
    match n {
        0 => Ok(YuvRange::Limited),
        1 => Ok(YuvRange::Full),
        _ => Err(Unnamed),
    }
}

fn subsampling_of(n: u32) -> Result<YuvChromaSubsampling, Unnamed>
    ensures { result ≡ up_to 2 n (subsampling_of n) }
{
    match n {
        0 => Ok(YuvChromaSubsampling::Yuv420),
        1 => Ok(YuvChromaSubsampling::Yuv422),
        2 => Ok(YuvChromaSubsampling::Yuv444),
        _ => Err(Unnamed),
    }
}

fn order_of(n: u32) -> Result<YuvNVOrder, Unnamed>
    ensures { result ≡ up_to 1 n (order_of n) }
{
    match n {
        0 => Ok(YuvNVOrder::UV),
        1 => Ok(YuvNVOrder::VU),
        _ => Err(Unnamed),
    }
}

fn packing_of(n: u32) -> Result<YuvBytesPacking, Unnamed>
    ensures { result ≡ up_to 1 n (packing_of n) }
{
    match n {
        0 => Ok(YuvBytesPacking::MostSignificantBytes),
        1 => Ok(YuvBytesPacking::LeastSignificantBytes),
        _ => Err(Unnamed),
    }
}

fn endianness_of(n: u32) -> Result<YuvEndianness, Unnamed>
    ensures { result ≡ up_to 1 n (endianness_of n) }
{
    match n {
        0 => Ok(YuvEndianness::BigEndian),
        1 => Ok(YuvEndianness::LittleEndian),
        _ => Err(Unnamed),
    }
}

fn channels_of(n: u32) -> Result<YuvSourceChannels, Unnamed>
    ensures { result ≡ up_to 3 n (channels_of n) }
{
    match n {
        0 => Ok(YuvSourceChannels::Rgb),
        1 => Ok(YuvSourceChannels::Rgba),
        2 => Ok(YuvSourceChannels::Bgra),
        3 => Ok(YuvSourceChannels::Bgr),
        _ => Err(Unnamed),
    }
}

impl TryFrom<SettingsNumbers> for Settings {
    type Error = Unnamed;

    ghost try_from_gives = { λ n meant. meant ≡ settings_of n };

    fn try_from(n: SettingsNumbers) -> Result<Settings, Unnamed> {
        Ok(Settings::new(
            n.depth,
            n.precision,
            matrix_of(n.matrix, n.kr, n.kb)?,
            range_of(n.range)?,
            subsampling_of(n.subsampling)?,
            order_of(n.order)?,
            packing_of(n.packing)?,
            endianness_of(n.byte_order)?,
            channels_of(n.channels)?,
        ))
    }
}
