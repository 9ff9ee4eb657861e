// Codes of a depth, and codes as they are stored in a plane.
ghost use Rattle.std.specs.Prelude.{◌≤◌};

use cases::case::Case;

// m of a depth.
pub(crate) fn most_of(depth: u32) -> u16 {
    u16::MAX >> (16 - depth.clamp(10, 16))
}

// 2^(depth − 10): m is one below 1024 times that.
pub(crate) fn scale_of(depth: u32) -> u16
    ensures { (1 ≤ result) × (result ≤ 64) }
{
    most_of(depth) / 1024 + 1
}

// How far apart the words of two neighbouring codes are: 2^(16 − depth), or 1.
fn step_of(packing: u32, depth: u32) -> u16
    ensures { result ≤ 64 }
{
    if packing == 1 {
        1
    } else {
        64 / scale_of(depth)
    }
}

// A word with its bytes in the case's order.
fn ordered(byte_order: u32, word: u16) -> u16 {
    if byte_order == 0 {
        word.swap_bytes()
    } else {
        word
    }
}

pub(crate) fn word_of(c: Case, code: u16) -> u16 {
    let word = code.wrapping_mul(step_of(c.packing, c.depth));
    ordered(c.byte_order, word)
}

// Words that are not well formed at any depth but 16. Most significant: the lowest bit set, the highest of the low bits set, and all bits
// set. Least significant: m + 1, the highest bit set, and all bits set.
pub(crate) fn malformed(c: Case) -> [u16; 3] {
    let (first, second) = if c.packing == 0 {
        (1, step_of(c.packing, c.depth) / 2)
    } else {
        (most_of(c.depth).wrapping_add(1), 0x8000)
    };
    [
        ordered(c.byte_order, first),
        ordered(c.byte_order, second),
        u16::MAX,
    ]
}
