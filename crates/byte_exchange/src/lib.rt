// The two bytes of each of the first elements of a row, exchanged for big endian.
#![tactic(auto)]

ghost use Rattle.std.specs.Prelude.{◌≤◌, length};
ghost use Rattle.rules.specs.declared.YuvEndianness.TheVariants.{BigEndian};
ghost use Rattle.byte_exchange.specs.Exchanged.{Exchanged};

use rules::YuvEndianness;

fn exchange_all(n: usize, row: &mut [u16])
    requires { n ≤ length row.old }
    ensures { Exchanged BigEndian n row.old row.new }
{
    for word in &mut row[..n] {
        *word = word.swap_bytes();
    }
}

// Little endian leaves the row as it is.
pub fn exchange(endianness: YuvEndianness, n: usize, row: &mut [u16])
    requires { n ≤ length row.old }
    ensures { Exchanged endianness n row.old row.new }
{
    match endianness {
        YuvEndianness::BigEndian => exchange_all(n, row),
        YuvEndianness::LittleEndian => {}
    }
}
