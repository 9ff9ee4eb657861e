// Whether all words of a row are well formed.
#![tactic(auto)]

ghost use Rattle.std.specs.Prelude.{◌≡◌, ◌&&◌};
ghost use Rattle.rule_laws.specs.Usable.{Reach};
ghost use Rattle.formed_rows.specs.Formed.{all_formed};

use rules::Settings;

// The loop has no exit, so that the compiler takes many words at once.
pub fn all_formed(s: Settings, part: &[u16]) -> bool
    requires { Reach s }
    ensures { result ≡ all_formed s part.now }
{
    let mut formed = true;
    for &word in part {
        formed &= storage::well_formed(s.packing, s.endianness, s.depth, word);
    }
    formed
}
