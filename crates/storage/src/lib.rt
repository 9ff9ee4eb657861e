// A code as a stored word, and back.
#![tactic(auto)]

ghost use Rattle.storage.specs.PackingFactor.{packing_factor};
ghost use Rattle.std.specs.Prelude.{◌≡◌, ◌^◌, ◌<◌, ◌≤◌};
ghost use Rattle.rules.specs.Storage.{packed, exchanged, word, unpacked, stored, in_place, well_formed};

use rules::{YuvBytesPacking, YuvEndianness};

// A code in its place, before the bytes are exchanged; the shift loses nothing, since a code has at most `depth` bits.
fn packed(packing: YuvBytesPacking, depth: u32, code: u16) -> u16
    requires le_depth { (10 ≤ depth) × (depth ≤ 16) }
    requires code_bound { code < 2 ^ depth }
    ensures { result ≡ packed packing depth code }
{
    match packing {
        YuvBytesPacking::MostSignificantBytes => code << (16 - depth),
        YuvBytesPacking::LeastSignificantBytes => code,
    }
}

// The packing factor: 2^(16−d) or 1. A well-formed word, its bytes in order, is its code times it.
pub fn packing_factor(packing: YuvBytesPacking, depth: u32) -> u16
    requires { (10 ≤ depth) × (depth ≤ 16) }
    ensures { (result ≡ packing_factor packing depth) × (1 ≤ result) × (result ≤ 64) }
{
    match packing {
        YuvBytesPacking::MostSignificantBytes => (65536u32 >> depth) as u16,
        YuvBytesPacking::LeastSignificantBytes => 1,
    }
}

// The two bytes exchanged for big endian; doing it again undoes it.
pub fn exchanged(endianness: YuvEndianness, v: u16) -> u16
    ensures { result ≡ exchanged endianness v }
{
    match endianness {
        YuvEndianness::BigEndian => v.swap_bytes(),
        YuvEndianness::LittleEndian => v,
    }
}

// A code as it is stored. The packing, the order and the depth are fields of the settings, so a struct of the three would only be filled from
// those at each call.
pub fn word(packing: YuvBytesPacking, endianness: YuvEndianness, depth: u32, code: u16) -> u16
    requires le_depth { (10 ≤ depth) × (depth ≤ 16) }
    requires code_bound { code < 2 ^ depth }
    ensures { result ≡ word packing endianness depth code }
{
    exchanged(endianness, packed(packing, depth, code))
}

// The code at its place in `v`, the bytes exchanged back.
fn unpacked(packing: YuvBytesPacking, depth: u32, v: u16) -> u16
    requires { (10 ≤ depth) × (depth ≤ 16) }
    ensures { result ≡ unpacked packing depth v }
{
    match packing {
        YuvBytesPacking::MostSignificantBytes => v >> (16 - depth),
        YuvBytesPacking::LeastSignificantBytes => v,
    }
}

// The code that a word holds.
pub fn stored(packing: YuvBytesPacking, endianness: YuvEndianness, depth: u32, word: u16) -> u16
    requires { (10 ≤ depth) × (depth ≤ 16) }
    ensures { result ≡ stored packing endianness depth word }
{
    unpacked(packing, depth, exchanged(endianness, word))
}

// Whether no bit of `v` is set outside a code's place; 32 bits hold 2^depth at depth 16 too.
fn in_place(packing: YuvBytesPacking, depth: u32, v: u16) -> bool
    requires { (10 ≤ depth) × (depth ≤ 16) }
    ensures { result ≡ in_place packing depth v }
{
    match packing {
        YuvBytesPacking::MostSignificantBytes => v % (1 << (16 - depth)) == 0,
        YuvBytesPacking::LeastSignificantBytes => u32::from(v) <= (1 << depth) - 1,
    }
}

// Whether a word is one that some code is stored as.
pub fn well_formed(
    packing: YuvBytesPacking,
    endianness: YuvEndianness,
    depth: u32,
    word: u16,
) -> bool
    requires { (10 ≤ depth) × (depth ≤ 16) }
    ensures { result ≡ well_formed packing endianness depth word }
{
    in_place(packing, depth, exchanged(endianness, word))
}
