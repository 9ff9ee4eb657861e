// Refusal 5: a code outside 0 to m.
#![tactic(auto)]

ghost use Rattle.std.specs.Prelude.{◌≡◌, ◌≤◌};
ghost use Rattle.rules.specs.Settle.{colour, code_off, some_code_off};
ghost use Rattle.rule_laws.specs.Usable.{Reach};

use rules::{Pixel, Settings, Triple, Weights};
use samples::code;
use yuv_support::ranges;

#[tactic(auto, unfolding(rules::specs::Settle::code_off))]
pub fn code_off(precision: u32, m: u32, bias: u32, w: Triple, p: Pixel) -> bool
    requires { (1 ≤ precision) × (precision ≤ 13) × (bias ≤ 65535) }
    ensures { result ≡ code_off precision m bias w p }
{
    !(0..=i64::from(m)).contains(&code::signed_code(precision, bias, w, p))
}

fn colour(red: u16, green: u16, blue: u16) -> Pixel
    ensures { result ≡ colour red green blue }
{
    Pixel { red, green, blue }
}

// Refusal 5.
#[tactic(auto, unfolding(rules::specs::Settle::some_code_off))]
pub fn some_code_off(s: Settings, w: Weights) -> bool
    requires { Reach s }
    ensures { result ≡ some_code_off s w }
{
    let m = ranges::most(s.depth);
    // `as`, since m fits and `try_from` would make it an Option
    let full = m as u16;
    let g = ranges::get_yuv_range(s.depth, s.range);
    let luma = code::luma_row(w);
    let cb = code::cb_row(w);
    let cr = code::cr_row(w);
    code_off(s.precision, m, g.bias_y, luma, colour(full, full, full))
        || code_off(s.precision, m, g.bias_uv, cb, colour(0, 0, full))
        || code_off(s.precision, m, g.bias_uv, cb, colour(full, full, 0))
        || code_off(s.precision, m, g.bias_uv, cr, colour(full, 0, 0))
        || code_off(s.precision, m, g.bias_uv, cr, colour(0, full, full))
}
