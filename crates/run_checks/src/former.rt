// Frames written by the numbers that Bt470_6 had before request Three of document 02, judged by those that it has.
use crate::trial::Trial;
use cases::case::Case;
use cases::{case, text};

const BT470_6: u32 = 4;

pub(crate) fn run(c: Case, precision: u32) {
    for precision in [13, precision] {
        let now = Case {
            matrix: BT470_6,
            precision,
            ..c
        };
        text::case(now);
        let mut trial = Trial::new(Case {
            matrix: case::FORMER_PAIR,
            ..now
        });
        trial.convert();
        text::line(b"former", &[]);
        trial.case = now;
        trial.check_and_put();
    }
}
