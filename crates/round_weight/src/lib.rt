// One rounding of a float weight by itself, for `make rounding` to time. The library has no such function.
#![tactic(auto)]

ghost use Rattle.std.specs.Prelude.{◌≡◌};
ghost use Rattle.rules.specs.Weights.{rounded};

#[unsafe(no_mangle)]
pub extern "C" fn round_weight(x: f32) -> i32
    ensures { result ≡ rounded x }
{
    weights::round_weight(x)
}
