// Rings of two whole frames: each refusal alone, and with the one that comes next in the order, which is 18, 1 to 5, 7, 8, 11, 9, 10.
// No settings are refused as 4, and no whole frame as 12.
use crate::call;
use cases::case;
use cases::case::Case;
use convert_calls::rings;

// 1, 2, 3 and 5; 1 with 2, 2 with 3, 3 with 5, and 5 with 7.
fn settings() {
    for (depth, precision, matrix, range, width) in [
        (9, 13, 0, 1, 3),
        (9, 14, 0, 1, 3),
        (10, 14, 0, 1, 3),
        (10, 14, case::ZERO_PAIR, 1, 3),
        (10, 13, case::ZERO_PAIR, 1, 3),
        (10, 1, case::ZERO_PAIR, 0, 3),
        (13, 13, 3, 1, 3),
        (13, 13, 3, 1, 0),
    ] {
        let c = Case {
            depth,
            precision,
            matrix,
            range,
            width,
            ..case::base()
        };
        call::run(rings::end_to_end(c, 2), 2);
    }
}

// 7, 8, 9, 10 and none; 7 with 8, 8 with 11, 11 with 9, and 9 with 10. A chroma plane of another length than 12 is not that of two frames;
// the sample is one of the second frame.
fn frames() {
    for (width, source_stride, count, chroma, sample) in [
        (0, 9, 2, 12, 1023),
        (0, 65537, 2, 12, 1023),
        (3, 65537, 2, 12, 1023),
        (3, 65537, 0, 12, 1023),
        (3, 65537, 65, 12, 1023),
        (3, 9, 0, 12, 1023),
        (3, 9, 65, 12, 1023),
        (3, 9, 2, 11, 1023),
        (3, 9, 2, 11, 1024),
        (3, 9, 2, 12, 1024),
        (3, 9, 2, 12, 1023),
    ] {
        let c = Case {
            width,
            source_stride,
            chroma,
            at: 9,
            sample,
            ..rings::end_to_end(case::base(), 2)
        };
        call::run(c, count);
    }
}

// 18; 18 with 1, and 18 with 11.
fn unnamed() {
    for (depth, count) in [(10, 2), (9, 2), (10, 0), (10, 65)] {
        let c = Case {
            depth,
            range: 2,
            ..case::base()
        };
        call::run(rings::end_to_end(c, 2), count);
    }
}

pub(crate) fn run() {
    settings();
    frames();
    unnamed();
}
