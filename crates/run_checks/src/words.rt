// Each of the 65,536 words in turn at one place of a converted frame of 3×3 pixels with one element of padding in each row: how
// many are accepted, the first and the last of them, and for how many the check names that very place.
use crate::trial::Trial;
use answer_numbers::CheckedNumbers;
use cases::case::Case;
use cases::text;
use check_calls::spot::{Spot, named, spot_at};

#[derive(Clone, Copy, Default)]
struct Tally {
    accepted: usize,
    first: Option<u16>,
    last: Option<u16>,
    named: usize,
}

impl Tally {
    // One more word.
    fn add(&mut self, spot: Spot, t: CheckedNumbers, word: u16) {
        self.named = self.named.saturating_add(usize::from(named(t, spot)));
        if t.refusal == 0 && t.wrong == 0 {
            self.accepted = self.accepted.saturating_add(1);
            self.first = self.first.or(Some(word));
            self.last = Some(word);
        }
    }
}

// A word, or 0 where there is none.
fn number(word: Option<u16>) -> usize {
    word.map_or(0, usize::from)
}

fn try_words(trial: &mut Trial, spot: Spot) {
    trial.convert();
    let mut tally = Tally::default();
    for word in 0..=u16::MAX {
        let t = trial.check_word(spot, word);
        tally.add(spot, t, word);
    }
    text::line(
        b"words",
        &[
            text::small(spot.place.plane),
            text::small(spot.place.row),
            text::small(spot.place.element),
            tally.accepted,
            number(tally.first),
            number(tally.last),
            tally.named,
        ],
    );
}

// The last visible chroma element of a frame of 3×3.
fn last_chroma(subsampling: u32) -> Spot {
    match subsampling {
        0 => spot_at(1, 1, 3, 8),
        1 => spot_at(1, 2, 3, 13),
        _ => spot_at(1, 2, 5, 19),
    }
}

// At the first and the last place of each plane.
pub(crate) fn run(c: Case) {
    text::case(c);
    let mut trial = Trial::new(c);
    for spot in [
        spot_at(0, 0, 0, 0),
        spot_at(0, 2, 2, 10),
        spot_at(1, 0, 0, 0),
        last_chroma(c.subsampling),
    ] {
        try_words(&mut trial, spot);
    }
}
