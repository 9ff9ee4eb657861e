// A case by numbers.
ghost use Rattle.std.specs.Prelude.{◌≡◌, ◌+◌, ◌*◌, ◌≤◌};

use numbers::SettingsNumbers;
use rules::{Frame, YuvBias};

// Settings and a frame by numbers, whose window is last; the lengths of the buffers; a seed for the samples, 0 for document 01's row;
// and one sample put at an index, where a buffer has it. Kinds stand here by numbers, as in SettingsNumbers, which C's callers fill: a
// program also tries numbers that name no kind. What stands for none is a number too, since a case is printed as its numbers.
#[derive(Clone, Copy)]
pub struct Case {
    pub depth: u32,
    pub precision: u32,
    pub matrix: u32,
    pub range: u32,
    pub subsampling: u32,
    pub order: u32,
    pub packing: u32,
    pub byte_order: u32,
    pub channels: u32,
    pub width: usize,
    pub height: usize,
    pub source_stride: usize,
    pub luma_stride: usize,
    pub chroma_stride: usize,
    pub source: usize,
    pub luma: usize,
    pub chroma: usize,
    pub seed: u32,
    pub at: usize,
    pub sample: u16,
    pub first_column: usize,
    pub first_row: usize,
    pub source_rows: usize,
}

// J of document 01 at 4:2:0, RGB, UV, least-significant, little endian, with its 3×1 frame.
pub fn base() -> Case
    ensures { (result.width ≡ 3) × (result.height ≡ 1) }
{
    Case {
        depth: 10,
        precision: 13,
        matrix: 0,
        range: 1,
        subsampling: 0,
        order: 0,
        packing: 1,
        byte_order: 1,
        channels: 0,
        width: 3,
        height: 1,
        source_stride: 9,
        luma_stride: 4,
        chroma_stride: 6,
        source: 9,
        luma: 4,
        chroma: 6,
        seed: 0,
        at: 65540,
        sample: 0,
        first_column: 0,
        first_row: 0,
        source_rows: 1,
    }
}

// Stands for matrix 5 with the pair 0, 0, which settle refuses; 5 itself has the pair 1/4, 1/8, which it accepts.
pub const ZERO_PAIR: u32 = 55;

// Stands for matrix 5 with the pair 0.222, 0.0713, which Bt470_6 had before request Three of document 02.
pub const FORMER_PAIR: u32 = 54;

fn pair_of(matrix: u32) -> YuvBias {
    let (kr, kb) = match matrix {
        ZERO_PAIR => (0.0, 0.0),
        FORMER_PAIR => (0.222, 0.0713),
        _ => (0.25, 0.125),
    };
    YuvBias { kr, kb }
}

fn matrix_of(matrix: u32) -> u32 {
    match matrix {
        ZERO_PAIR | FORMER_PAIR => 5,
        _ => matrix,
    }
}

impl From<Case> for SettingsNumbers {
    ghost from_gives = { λ c s. (s.depth ≡ c.depth) × (s.precision ≡ c.precision) };

    fn from(c: Case) -> SettingsNumbers {
        let pair = pair_of(c.matrix);
        SettingsNumbers {
            depth: c.depth,
            precision: c.precision,
            matrix: matrix_of(c.matrix),
            kr: pair.kr,
            kb: pair.kb,
            range: c.range,
            subsampling: c.subsampling,
            order: c.order,
            packing: c.packing,
            byte_order: c.byte_order,
            channels: c.channels,
        }
    }
}

impl From<Case> for Frame {
    ghost from_gives = { λ c f. (f.width ≡ c.width) × (f.height ≡ c.height) };

    fn from(c: Case) -> Frame {
        Frame {
            width: c.width,
            height: c.height,
            source_stride: c.source_stride,
            luma_stride: c.luma_stride,
            chroma_stride: c.chroma_stride,
            first_column: c.first_column,
            first_row: c.first_row,
            source_rows: c.source_rows,
        }
    }
}

// The element of a source row that a pixel starts at.
pub fn first_element(channels: u32, column: usize) -> usize
    requires { column ≤ 20000 }
    ensures { result ≤ 4 * column }
{
    match channels {
        1 | 2 => 4 * column,
        _ => 3 * column,
    }
}

pub fn chroma_width(subsampling: u32, width: usize) -> usize
    requires { width ≤ 20000 }
    ensures { result ≤ 40002 }
{
    if subsampling == 2 {
        2 * width
    } else {
        width.div_ceil(2) * 2
    }
}

pub fn chroma_height(subsampling: u32, height: usize) -> usize
    requires { height ≤ 20000 }
    ensures { result ≤ 20001 }
{
    if subsampling == 0 {
        height.div_ceil(2)
    } else {
        height
    }
}

// The length of rows of a stride.
fn area(a: usize, b: usize) -> usize
    requires { (a ≤ 100000) × (b ≤ 100000) }
    ensures { result ≡ a * b }
{
    a * b
}

// Strides with some padding and exact lengths for a size.
pub fn laid(c: Case, width: usize, height: usize, pad: usize) -> Case
    requires { (width ≤ 20000) × (height ≤ 20000) × (pad ≤ 9) }
    ensures { (result.width ≡ width) × (result.height ≡ height) × (result.luma ≡ (width + pad) * height) }
{
    let source_stride = first_element(c.channels, width) + pad;
    let luma_stride = width + pad;
    let chroma_stride = chroma_width(c.subsampling, width) + pad;
    Case {
        width,
        height,
        source_stride,
        luma_stride,
        chroma_stride,
        source: area(source_stride, height),
        luma: area(luma_stride, height),
        chroma: area(chroma_stride, chroma_height(c.subsampling, height)),
        source_rows: height,
        ..c
    }
}

// A frame of that size as a window on a larger source: so many columns lie left and right of it, and so many rows above and below it.
pub fn windowed(c: Case, left: usize, right: usize, above: usize, below: usize, pad: usize) -> Case
    requires width_bound { (c.width ≤ 64) × (c.height ≤ 64) }
    requires left_bound { (left ≤ 64) × (right ≤ 64) × (above ≤ 64) × (below ≤ 64) × (pad ≤ 9) }
    ensures { (result.width ≡ c.width) × (result.height ≡ c.height) }
{
    let source_rows = above + c.height + below;
    let source_stride = first_element(c.channels, left + c.width + right) + pad;
    Case {
        source_stride,
        source: area(source_stride, source_rows),
        first_column: left,
        first_row: above,
        source_rows,
        ..c
    }
}
