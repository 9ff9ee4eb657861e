// Refusals 1, 2 and 3, a function for each: the depth, the precision, and a custom pair.
#![tactic(auto)]

ghost use Rattle.std.specs.Prelude.{◌≡◌};
ghost use Rattle.rules.specs.Refusals.{outside};

pub mod pairs;

use rules::Settings;

// Refusal 1.
pub fn depth_off(depth: u32) -> bool
    ensures { result ≡ outside 10 16 depth }
{
    !(10..=Settings::GREATEST_DEPTH).contains(&depth)
}

// Refusal 2.
pub fn precision_off(precision: u32) -> bool
    ensures { result ≡ outside 1 13 precision }
{
    !(1..=Settings::GREATEST_PRECISION).contains(&precision)
}
