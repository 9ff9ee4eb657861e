// The buffers of a case.
ghost use Rattle.std.specs.Prelude.{◌≡◌, ◌≤◌, ◌<◌, length};

use crate::case::Case;
use crate::planes;

// The next number of the sequence that samples are drawn from.
fn next(x: u32) -> u32
    requires { x < 65537 }
    ensures { result < 65537 }
{
    (x * 75 + 74) % 65537
}

// A buffer of every program: a case uses the first elements, as many as its length for that buffer says.
pub type Room = [u16; 65540];

// A buffer filled with one number.
pub fn room(v: u16) -> Room
    ensures { 65540 ≡ length result }
{
    [v; 65540]
}

// m of a depth; that of 10 where the depth is refused.
fn most_of(depth: u32) -> u32
    ensures { result ≤ 65535 }
{
    match depth {
        11..=16 => (1 << depth) - 1,
        _ => 1023,
    }
}

// A sample from 0 to m. `as` loses nothing of a remainder of 65536, where `try_from` would give a Result.
fn sample_of(m: u32, x: u32) -> u16
    requires { m ≤ 65535 }
{
    (x % (m + 1) % 65536) as u16
}

// Document 01's row: red, blue, white at depth 10.
const ROW: [u16; 9] = [1023, 0, 0, 0, 0, 1023, 1023, 1023, 1023];

// Document 01's row again and again.
fn rows() -> Room
    ensures { 65540 ≡ length result }
{
    std::array::from_fn(|i| ROW[i % 9])
}

// Samples of a depth, drawn from a sequence.
fn samples(depth: u32, seed: u32) -> Room
    ensures { 65540 ≡ length result }
{
    let m = most_of(depth);
    let mut source = room(0);
    let mut x = seed % 65537;
    for sample in &mut source {
        x = next(x);
        *sample = sample_of(m, x);
    }
    source
}

fn drawn(c: Case) -> Room
    ensures { 65540 ≡ length result }
{
    if c.seed == 0 {
        return rows();
    }
    samples(c.depth, c.seed)
}

// The samples that a case asks for, with one of them put at an index, where there is one.
pub fn source_of(c: Case) -> Room
    ensures { 65540 ≡ length result }
{
    let mut source = drawn(c);
    planes::put(&mut source, c.at, c.sample);
    source
}

// A length, or that of the room where it is greater.
pub fn within_room(length: usize) -> usize
    ensures { result ≤ 65540 }
{
    length.min(65540)
}
