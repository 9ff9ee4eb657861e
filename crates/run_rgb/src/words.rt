// Words that are not well formed in the planes of a 3×3 frame with an element of padding in each row: one at the first, a middle and the
// last visible place of each plane or in padding, and two at once. Every subsampling, packing and byte order; at depth 16 every word is
// well formed.
ghost use Rattle.std.specs.Prelude.{◌<◌};

use crate::places::{chroma_at, last_chroma, last_luma, luma_at};
use crate::stored::malformed;
use crate::trial::{Trial, put_case};
use cases::case;
use cases::case::Case;
use check_calls::spot::Spot;

fn chroma_padding(c: Case) -> Spot {
    chroma_at(c, 0, if c.subsampling == 2 { 6 } else { 4 })
}

fn each(trial: &mut Trial, word: u16) {
    let c = trial.case;
    for spot in [
        luma_at(c, 0, 0),
        luma_at(c, 1, 1),
        last_luma(c),
        luma_at(c, 1, 3),
        chroma_at(c, 0, 0),
        chroma_at(c, 1, 2),
        last_chroma(c),
        chroma_padding(c),
    ] {
        trial.restore_with(spot, word);
    }
}

// The later place is changed first, so that the order of the changes is not that of the places.
fn pairs(trial: &mut Trial, word: u16) {
    let c = trial.case;
    for (later, earlier) in [
        (last_luma(c), luma_at(c, 0, 0)),
        (luma_at(c, 1, 0), luma_at(c, 0, 2)),
        (luma_at(c, 1, 2), luma_at(c, 1, 1)),
        (chroma_at(c, 0, 0), last_luma(c)),
        (last_chroma(c), luma_at(c, 2, 3)),
        (chroma_at(c, 1, 0), chroma_at(c, 0, 3)),
        (last_chroma(c), chroma_at(c, 1, 1)),
    ] {
        trial.restore_with_two(later, earlier, word);
    }
}

fn depth_of(t: usize) -> u32
    requires { t < 16 }
{
    if t < 12 {
        10 + ((t + t / 6 * 3) % 6) as u32
    } else {
        16
    }
}

// The window's corner does not count in the places, which are those of the planes.
fn layout(t: usize) -> Case
    requires { t < 16 }
{
    let c = Case {
        depth: depth_of(t),
        subsampling: (t % 3) as u32,
        packing: (t / 3 % 2) as u32,
        byte_order: (t / 6 % 2) as u32,
        order: (t / 2 % 2) as u32,
        seed: (t + 1200) as u32,
        ..case::base()
    };
    case::windowed(case::laid(c, 3, 3, 1), t % 2, 0, t / 2 % 2, 0, 0)
}

pub(crate) fn run() {
    for t in 0..16 {
        let c = layout(t);
        put_case(c);
        let mut trial = Trial::new(c);
        trial.convert();
        let words = malformed(c);
        for word in words {
            each(&mut trial, word);
        }
        pairs(&mut trial, words[0]);
    }
}
