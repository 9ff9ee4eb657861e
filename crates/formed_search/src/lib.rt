// Refusal 13: the first sample of a plane that is not well formed, reading row by row.
#![tactic(auto)]

ghost use Rattle.std.specs.Prelude.{◌≡◌, length, get_or};
ghost use Rattle.rules.specs.Search.{first_below, failing, first_failing};
ghost use Rattle.rules.specs.ToRgb.{formed_test};
ghost use Rattle.rule_laws.specs.Usable.{Reach};
ghost use Rattle.formed_rows.specs.Formed.{is_formed};
ghost use Rattle.frames.specs.Rows.{Rows};

use rules::{Found, Settings};

// The first word of a row that is not well formed; a row whose words all are is not searched.
fn first_in_row(s: Settings, row: usize, part: &[u16]) -> Option<Found>
    requires { Reach s }
    ensures { result ≡ first_below (length part.now) (λ e. failing (is_formed s (get_or part.now e 0)) row e) }
{
    if formed_rows::all_formed(s, part) {
        return None;
    }
    for (element, &word) in part.iter().enumerate() {
        if !storage::well_formed(s.packing, s.endianness, s.depth, word) {
            return Some(Found { row, element });
        }
    }
    None
}

// The same of a plane: `rows` rows of `wide` words, `stride` apart.
pub fn first_malformed(
    s: Settings,
    stride: usize,
    wide: usize,
    rows: usize,
    words: &[u16],
) -> Option<Found>
    requires reach { Reach s }
    requires rows { Rows (length words.now) stride wide rows }
    ensures { result ≡ first_failing (formed_test s stride words.now) wide rows }
{
    for row in 0..rows {
        let from = row * stride;
        let to = from + wide;
        if let Some(found) = first_in_row(s, row, &words[from..to]) {
            return Some(found);
        }
    }
    None
}
