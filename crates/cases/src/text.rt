// Lines of text on standard output: each function hands back how many numbers its line has. They go by the kit's io, which gives no error:
// std's println! gives a Result, and none of these functions can fail.
ghost use Rattle.std.specs.Prelude.{◌≡◌, ◌≤◌, ◌<◌, length};

use crate::case::Case;
use crate::draw::{Room, within_room};
use answer_numbers::{
    CheckedNumbers, ConvertedNumbers, RestoredNumbers, RingNumbers, SettledNumbers,
};
use rules::{SourcePlace, Weights};

const STANDARD_OUTPUT: i32 = 1;

fn put(text: &[u8]) {
    io::write_all(STANDARD_OUTPUT, text);
}

// `as`, since no `From` takes a usize to a u64.
fn put_number(n: usize) {
    put(b" ");
    io::print_decimal(STANDARD_OUTPUT, n as u64);
}

// A name and numbers.
pub fn line(name: &[u8], numbers: &[usize]) -> usize
    ensures { result ≡ length numbers.now }
{
    let mut printed = 0;
    put(name);
    for &n in numbers {
        put_number(n);
        printed += 1;
    }
    put(b"\n");
    printed
}

// A number of 32 bits. `as`, since no `From` takes a u32 to a usize.
pub fn small(n: u32) -> usize
    ensures { result ≡ n }
{
    n as usize
}

// A case, as its fields come, but for the window.
pub fn case(c: Case) -> usize
    ensures { result ≡ 20 }
{
    let numbers = [
        small(c.depth),
        small(c.precision),
        small(c.matrix),
        small(c.range),
        small(c.subsampling),
        small(c.order),
        small(c.packing),
        small(c.byte_order),
        small(c.channels),
        c.width,
        c.height,
        c.source_stride,
        c.luma_stride,
        c.chroma_stride,
        c.source,
        c.luma,
        c.chroma,
        small(c.seed),
        c.at,
        usize::from(c.sample),
    ];
    line(b"case", &numbers)
}

// The window of a case: its corner, and how many rows the source has.
pub fn window(c: Case) -> usize
    ensures { result ≡ 3 }
{
    line(b"window", &[c.first_column, c.first_row, c.source_rows])
}

// A refusal, or 0, with the sample that refusal 10 carries.
fn refusal(name: &[u8], number: u32, p: SourcePlace) -> usize
    ensures { result ≤ 4 }
{
    if number == 10 {
        return line(name, &[10, small(p.row), small(p.pixel), small(p.channel)]);
    }
    line(name, &[small(number)])
}

// The nine weights, with no name and no line's end.
pub fn weights(w: Weights) -> usize
    ensures { result ≡ 9 }
{
    let weights = [
        w.yr, w.yg, w.yb, w.cb_r, w.cb_g, w.cb_b, w.cr_r, w.cr_g, w.cr_b,
    ];
    let mut printed = 0;
    for weight in weights {
        put(if weight < 0 { b" -" } else { b" " });
        io::print_decimal(STANDARD_OUTPUT, u64::from(weight.unsigned_abs()));
        printed += 1;
    }
    printed
}

// Settle's answer, all its numbers.
pub fn settled(t: SettledNumbers) -> usize
    ensures { result ≡ 10 }
{
    put(b"settled");
    put_number(small(t.refusal));
    let n = weights(t.weights);
    put(b"\n");
    1 + n
}

// Convert's answer.
pub fn converted(t: ConvertedNumbers) -> usize
    ensures { result ≤ 4 }
{
    refusal(b"answer", t.refusal, t.sample)
}

// A ring's answer, all its numbers.
pub fn ringed(t: RingNumbers) -> usize
    ensures { result ≡ 5 }
{
    let p = t.sample;
    line(
        b"ringed",
        &[
            small(t.written),
            small(t.refusal),
            small(p.row),
            small(p.pixel),
            small(p.channel),
        ],
    )
}

// A check's answer.
pub fn answer(t: CheckedNumbers) -> usize
    ensures { result ≤ 4 }
{
    if t.refusal != 0 {
        return refusal(b"refused", t.refusal, t.sample);
    }
    if t.wrong != 0 {
        let p = t.place;
        return line(b"wrong", &[small(p.plane), small(p.row), small(p.element)]);
    }
    line(b"accepted", &[])
}

// The answer of a frame turned back to RGB, all its numbers.
pub fn restored(t: RestoredNumbers) -> usize
    ensures { result ≡ 4 }
{
    let p = t.place;
    line(
        b"restored",
        &[
            small(t.refusal),
            small(p.plane),
            small(p.row),
            small(p.element),
        ],
    )
}

// One step of a checksum.
pub fn mixed(sum: u32, n: u32) -> u32
    ensures { result < 65521 }
{
    (sum % 65521 * 31 + n % 65536 + 1) % 65521
}

fn checksum(elements: &[u16]) -> u32 {
    elements.iter().fold(0, |sum, &v| mixed(sum, u32::from(v)))
}

// The elements of a plane, or their checksum where they are many.
fn plane(name: &[u8], elements: &[u16]) {
    put(name);
    if elements.len() <= 256 {
        for &v in elements {
            put_number(usize::from(v));
        }
    } else {
        put(b" sum");
        put_number(small(checksum(elements)));
    }
    put(b"\n");
}

// Both planes of a case; hands back how many elements of luma there are.
pub fn planes(c: Case, luma: &Room, chroma: &Room) -> usize
    ensures { result ≤ 65540 }
{
    let m = within_room(c.luma);
    plane(b"luma", &luma[..m]);
    plane(b"chroma", &chroma[..within_room(c.chroma)]);
    m
}

// The RGB buffer of a case, which is as long as its source; hands back how many elements there are.
pub fn rgb(c: Case, buffer: &Room) -> usize
    ensures { result ≤ 65540 }
{
    let n = within_room(c.source);
    plane(b"rgb", &buffer[..n]);
    n
}
