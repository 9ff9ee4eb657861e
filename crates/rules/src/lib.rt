// The types that document 01's rules speak of. The enumerations carry the names and numbers of yuvutils-rs.
#![tactic(auto)]

ghost use Rattle.std.specs.Prelude.{◌≡◌};
ghost use Rattle.rules.specs.Refusals.{number_of};

#[derive(Clone, Copy)]
pub enum YuvRange {
    Limited = 0,
    Full = 1,
}

// One of five names, or a custom pair: kr, then kb.
#[derive(Clone, Copy)]
pub enum YuvStandardMatrix {
    Bt601,
    Bt709,
    Bt2020,
    Smpte240,
    Bt470_6,
    Custom(f32, f32),
}

// Kr and Kb as 32-bit floats.
#[derive(Clone, Copy)]
pub struct YuvBias {
    pub kr: f32,
    pub kb: f32,
}

// Kr and Kb of a row of the table of matrices, in ten-thousandths.
#[derive(Clone, Copy)]
pub struct Named {
    pub kr: u32,
    pub kb: u32,
}

// What a matrix is given by: a row of the table, or a pair of floats.
#[derive(Clone, Copy)]
pub enum Matrix {
    Tabled(Named),
    Own(YuvBias),
}

#[derive(Clone, Copy)]
pub enum YuvChromaSubsampling {
    Yuv420 = 0,
    Yuv422 = 1,
    Yuv444 = 2,
}

#[derive(Clone, Copy)]
pub enum YuvNVOrder {
    UV = 0,
    VU = 1,
}

#[derive(Clone, Copy)]
pub enum YuvBytesPacking {
    MostSignificantBytes = 0,
    LeastSignificantBytes = 1,
}

#[derive(Clone, Copy)]
pub enum YuvEndianness {
    BigEndian = 0,
    LittleEndian = 1,
}

#[derive(Clone, Copy)]
pub enum YuvSourceChannels {
    Rgb = 0,
    Rgba = 1,
    Bgra = 2,
    Bgr = 3,
}

#[derive(Clone, Copy)]
pub struct Settings {
    pub depth: u32,
    pub precision: u32,
    pub matrix: YuvStandardMatrix,
    pub range: YuvRange,
    pub subsampling: YuvChromaSubsampling,
    pub order: YuvNVOrder,
    pub packing: YuvBytesPacking,
    pub endianness: YuvEndianness,
    pub channels: YuvSourceChannels,
}

impl Settings {
    pub const GREATEST_DEPTH: u32 = 16;

    pub const GREATEST_PRECISION: u32 = 13;

    pub fn new(
        depth: u32,
        precision: u32,
        matrix: YuvStandardMatrix,
        range: YuvRange,
        subsampling: YuvChromaSubsampling,
        order: YuvNVOrder,
        packing: YuvBytesPacking,
        endianness: YuvEndianness,
        channels: YuvSourceChannels,
    ) -> Settings
        ensures { result ≡ record { depth = depth; precision = precision; matrix = matrix; range = range; subsampling = subsampling; order = order; packing = packing; endianness = endianness; channels = channels } }
    {
        Settings {
            depth,
            precision,
            matrix,
            range,
            subsampling,
            order,
            packing,
            endianness,
            channels,
        }
    }
}

// A window on the rows of a source: its size in pixels, the strides of the three buffers in u16 elements, the window's corner in
// pixels and rows of the source, and how many rows the source has.
#[repr(C)]
#[derive(Clone, Copy)]
pub struct Frame {
    pub width: usize,
    pub height: usize,
    pub source_stride: usize,
    pub luma_stride: usize,
    pub chroma_stride: usize,
    pub first_column: usize,
    pub first_row: usize,
    pub source_rows: usize,
}

#[derive(Clone, Copy)]
pub struct Pixel {
    pub red: u16,
    pub green: u16,
    pub blue: u16,
}

// What a sample of a plane holds: luma, or one of the two chroma components.
#[derive(Clone, Copy)]
pub enum Component {
    Y,
    Cb,
    Cr,
}

// Three weights, for red, green and blue.
#[derive(Clone, Copy)]
pub struct Triple {
    pub red: i32,
    pub green: i32,
    pub blue: i32,
}

// The nine weights in 32-bit floats.
#[derive(Clone, Copy)]
pub struct CbCrForwardTransform {
    pub yr: f32,
    pub yg: f32,
    pub yb: f32,
    pub cb_r: f32,
    pub cb_g: f32,
    pub cb_b: f32,
    pub cr_r: f32,
    pub cr_g: f32,
    pub cr_b: f32,
}

// The nine weights times 2^P, as whole numbers.
#[repr(C)]
#[derive(Clone, Copy, Debug, Default, PartialEq, Eq)]
pub struct Weights {
    pub yr: i32,
    pub yg: i32,
    pub yb: i32,
    pub cb_r: i32,
    pub cb_g: i32,
    pub cb_b: i32,
    pub cr_r: i32,
    pub cr_g: i32,
    pub cr_b: i32,
}

// The five weights of the way back to RGB in 32-bit floats.
#[derive(Clone, Copy)]
pub struct CbCrInverseTransform {
    pub y_coef: f32,
    pub cr_coef: f32,
    pub cb_coef: f32,
    pub g_coeff_1: f32,
    pub g_coeff_2: f32,
}

// The five weights times 2^P, as whole numbers.
#[derive(Clone, Copy)]
pub struct InverseWeights {
    pub y_coef: i32,
    pub cr_coef: i32,
    pub cb_coef: i32,
    pub g_coeff_1: i32,
    pub g_coeff_2: i32,
}

// The codes that a pixel is restored from.
#[derive(Clone, Copy)]
pub struct Codes {
    pub y: u16,
    pub cb: u16,
    pub cr: u16,
}

// Where a colour sample of the source stands: rows and pixels count from 0, at the window's corner; channel 0 is red, 1 green and 2 blue.
#[repr(C)]
#[derive(Clone, Copy, Debug, Default, PartialEq, Eq)]
pub struct SourcePlace {
    pub row: u32,
    pub pixel: u32,
    pub channel: u32,
}

// Where a sample of a plane stands: plane 0 is luma and 1 chroma; rows and elements count from 0.
#[repr(C)]
#[derive(Clone, Copy, Debug, Default, PartialEq, Eq)]
pub struct Place {
    pub plane: u32,
    pub row: u32,
    pub element: u32,
}

#[derive(Clone, Copy, Debug, PartialEq, Eq)]
pub enum Refusal {
    Depth,
    Precision,
    CustomPair,
    WeightOff,
    CodeOutside,
    CustomUnchecked,
    Size,
    Stride,
    Length,
    TooLarge(SourcePlace),
    Count,
    Window,
    Malformed(Place),
}

impl Refusal {
    // Document 01's number.
    pub fn number(self) -> u32
        ensures { result ≡ number_of self }
    {
        match self {
            Refusal::Depth => 1,
            Refusal::Precision => 2,
            Refusal::CustomPair => 3,
            Refusal::WeightOff => 4,
            Refusal::CodeOutside => 5,
            Refusal::CustomUnchecked => 6,
            Refusal::Size => 7,
            Refusal::Stride => 8,
            Refusal::Length => 9,
            Refusal::TooLarge(_) => 10,
            Refusal::Count => 11,
            Refusal::Window => 12,
            Refusal::Malformed(_) => 13,
        }
    }
}

// Where a search through rows of samples finds one that fails.
#[derive(Clone, Copy, Debug, PartialEq, Eq)]
pub struct Found {
    pub row: usize,
    pub element: usize,
}

// What converting a ring answers: how many of its frames were written, and the refusal that ended it, if one did.
#[derive(Clone, Copy, Debug, PartialEq, Eq)]
pub struct Ringed {
    pub written: u32,
    pub ended: Result<(), Refusal>,
}
