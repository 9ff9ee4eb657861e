// Every one and every two elements of a converted frame, padding included, with their highest bits changed: the first wrong one is
// named, and padding is not judged.
use crate::trial::Trial;
use cases::case::Case;
use cases::draw::{Room, within_room};
use cases::planes::{get, put};
use cases::text;

fn flip(plane: &mut Room, at: usize) {
    let word = get(plane, at);
    put(plane, at, word ^ 0x8000);
}

// An element of the two planes laid end to end.
fn flip_at(trial: &mut Trial, at: usize) {
    let in_luma = trial.case.luma;
    if at < in_luma {
        flip(&mut trial.luma, at);
    } else {
        flip(&mut trial.chroma, at - in_luma);
    }
}

// A frame of 3×2 has at most 22 elements. The second of two is flipped where it is not the first again.
pub(crate) fn run(c: Case) {
    text::case(c);
    let mut trial = Trial::new(c);
    let count = within_room(c.luma) + within_room(c.chroma);
    for a in 0..count {
        for b in a..count {
            trial.convert();
            flip_at(&mut trial, a);
            if a != b {
                flip_at(&mut trial, b);
            }
            text::line(b"pair", &[a, b]);
            trial.check_and_put();
        }
    }
}
