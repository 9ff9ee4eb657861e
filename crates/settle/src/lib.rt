// Settings settled: the nine weights, or the first of refusals 1 to 5.
#![tactic(auto)]

ghost use Rattle.std.specs.Prelude.{◌≡◌};
ghost use Rattle.rules.specs.Answers.{settled_answer};
ghost use Rattle.rules.specs.Settle.{settle};
ghost use Rattle.settle.specs.Promised.{Promised};

use rules::{Refusal, Settings, Weights};
use settings_refusals::pairs;

// The nine weights of the settings, or the first of refusals 1 to 5 that applies.
pub fn settle(s: Settings) -> Result<Weights, Refusal>
    ensures exact { settled_answer result ≡ settle s }
    ensures usable { Promised s result }
{
    if settings_refusals::depth_off(s.depth) {
        return Err(Refusal::Depth);
    }
    if settings_refusals::precision_off(s.precision) {
        return Err(Refusal::Precision);
    }
    let standard = s.matrix;
    let matrix = matrices::matrix_of(standard);
    if pairs::pair_off(matrix) {
        return Err(Refusal::CustomPair);
    }
    let w = weights::weights_of(s);
    if weight_nearness::weight_off(s, matrix, w) {
        return Err(Refusal::WeightOff);
    }
    if code_refusals::some_code_off(s, w) {
        return Err(Refusal::CodeOutside);
    }
    Ok(w)
}
