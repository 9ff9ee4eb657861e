// Checks planes that nothing was written to, with settings and frames that are refused: each refusal alone, then two at once.
use crate::trial::Trial;
use cases::case::Case;
use cases::{case, text};

fn check(c: Case) {
    text::case(c);
    text::line(b"unwritten", &[]);
    Trial::new(c).check_and_put();
}

// 1, 2, 3, 5, 6 and none; each before the next, and all of them before a frame of no width.
fn settings() {
    for (depth, precision, matrix, width) in [
        (9, 13, 0, 3),
        (9, 14, 0, 3),
        (10, 14, 0, 3),
        (10, 14, case::ZERO_PAIR, 3),
        (10, 13, case::ZERO_PAIR, 3),
        (10, 13, case::ZERO_PAIR, 0),
        (13, 13, 3, 3),
        (13, 13, 3, 0),
        (10, 13, 5, 3),
        (10, 13, 5, 0),
        (10, 13, 0, 3),
    ] {
        check(Case {
            depth,
            precision,
            matrix,
            width,
            ..case::base()
        });
    }
}

// 7, 8, 9 and 10; each before the next; then none, and the first sample is named.
fn frames() {
    for (width, luma_stride, luma, sample) in [
        (0, 4, 4, 1023),
        (0, 2, 4, 1023),
        (3, 2, 2, 1023),
        (3, 2, 4, 1023),
        (3, 4, 3, 1023),
        (3, 4, 5, 1024),
        (3, 4, 0, 1023),
        (3, 4, 4, 1024),
        (3, 4, 4, 65535),
        (3, 4, 4, 1023),
    ] {
        check(Case {
            width,
            luma_stride,
            luma,
            at: 0,
            sample,
            ..case::base()
        });
    }
}

pub(crate) fn run() {
    settings();
    frames();
}
