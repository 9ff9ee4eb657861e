// One sample made too large at the first, the middle and the last pixel of each row: which frames are refused, and which are not, since
// the sample is alpha or padding.
ghost use Rattle.std.specs.Prelude.{◌≤◌};

use crate::trial::Trial;
use answer_numbers::{CheckedNumbers, ConvertedNumbers};
use cases::case::{Case, first_element};
use cases::planes::{get, index, put};
use cases::text;
use cases::text::mixed;
use rules::SourcePlace;

// Answers of one function: how many refuse as 10, how many take the frame or accept it, and a checksum of the places named.
#[derive(Clone, Copy, Default)]
struct Tally {
    refused: usize,
    passed: usize,
    places: u32,
}

impl Tally {
    fn add(&mut self, refusal: u32, passes: bool, p: SourcePlace) {
        self.passed = self.passed.saturating_add(usize::from(passes));
        if refusal == 10 {
            self.refused = self.refused.saturating_add(1);
            self.places = [p.row, p.pixel, p.channel]
                .into_iter()
                .fold(self.places, mixed);
        }
    }
}

// Converts and checks with a sample put at an index, and puts the old one back.
fn try_sample(trial: &mut Trial, at: usize, sample: u16) -> (ConvertedNumbers, CheckedNumbers) {
    let old = get(&trial.source, at);
    put(&mut trial.source, at, sample);
    let answers = trial.convert_and_check();
    put(&mut trial.source, at, old);
    answers
}

// At the samples of a pixel and what comes after it, five elements in all, both the least and the greatest sample that is too large.
fn try_row(trial: &mut Trial, row: usize, last: usize)
    requires { (row ≤ 32) × (last ≤ 64) }
{
    let c = trial.case;
    let mut convert = Tally::default();
    let mut check = Tally::default();
    for column in [0, last / 2, last] {
        let first = index(c.source_stride, row, first_element(c.channels, column));
        for at in first..first + 5 {
            for sample in [1 << c.depth.min(15), u16::MAX] {
                let (n, t) = try_sample(trial, at, sample);
                convert.add(n.refusal, n.refusal == 0, n.sample);
                check.add(t.refusal, t.refusal == 0 && t.wrong == 0, t.sample);
            }
        }
    }
    text::line(
        b"high",
        &[
            row,
            convert.refused,
            check.refused,
            convert.passed,
            check.passed,
            text::small(convert.places),
            text::small(check.places),
        ],
    );
}

// A frame of at most 32 rows and 64 columns.
pub(crate) fn run(c: Case) {
    let mut trial = Trial::new(c);
    let last = c.width.saturating_sub(1).min(64);
    for row in 0..c.height.min(32) {
        try_row(&mut trial, row, last);
    }
}
