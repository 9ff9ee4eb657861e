// 12 alone, and with each refusal that it can meet: it comes after 18, 1 to 6 and 7, and before 8, 11, 9 and 10.
use crate::run;
use cases::case;
use cases::case::Case;
use convert_calls::rings::end_to_end;

// Document 01's 3×1 frame at the second of one source row, which is refused as 12.
fn twelve() -> Case {
    Case {
        first_row: 1,
        ..case::base()
    }
}

// With 1, 2, 3, 5, and 6, which check alone gives.
fn settings() {
    for (depth, precision, matrix) in [
        (9, 13, 0),
        (10, 14, 0),
        (10, 13, case::ZERO_PAIR),
        (13, 13, 3),
        (10, 13, 5),
    ] {
        run::frame(Case {
            depth,
            precision,
            matrix,
            ..twelve()
        });
    }
}

// Alone, and with 7, 8, 9 and 10; each also in a ring, where its count is right and where it is not.
fn frames() {
    for (width, source_stride, source, sample) in [
        (3, 9, 9, 1023),
        (0, 9, 9, 1023),
        (3, 8, 9, 1023),
        (3, 9, 8, 1023),
        (3, 9, 9, 1024),
        (0, 65537, 8, 1024),
        (3, 65537, 8, 1024),
    ] {
        let c = Case {
            width,
            source_stride,
            source,
            at: 0,
            sample,
            ..twelve()
        };
        run::frame(c);
        run::ring(end_to_end(c, 2), 2);
        run::ring(end_to_end(c, 2), 65);
    }
}

pub(crate) fn run() {
    settings();
    frames();
}
