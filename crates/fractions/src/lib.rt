// The test of one sample against its exact fraction, in 64 bits.
#![tactic(auto)]

ghost use Rattle.std.specs.Prelude.{◌≡◌};
ghost use Rattle.fractions.specs.Sums.{own_sum};

pub mod block;
pub mod value;

// The exact value bias + (plus − minus) / under.
#[derive(Clone, Copy)]
pub struct Exact {
    pub bias: u32,
    pub plus: u64,
    pub minus: u64,
    pub under: u64,
}

// The channel sums of a block. Their bound is the clause `UpToFour` and no ghost field: the definition `sums_of` has sums of any list.
#[derive(Clone, Copy)]
pub struct Sums {
    pub red: u32,
    pub green: u32,
    pub blue: u32,
}

impl Sums {
    // The sum of the channel that a chroma sample is named after: blue's for Cb, where `u` is true, red's for Cr. It is a bool, as the
    // definitions `own_sum` and `own_k` take it.
    pub fn own(self, u: bool) -> u32
        ensures { result ≡ own_sum u self }
    {
        if u { self.blue } else { self.red }
    }
}
