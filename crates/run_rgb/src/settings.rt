// Both sides of each limit of the settings: depth, P, custom matrices, and numbers that name no case of their enumeration.
use crate::trial::run_converted;
use cases::case;
use cases::case::Case;

fn numbers() {
    for (depth, precision, matrix) in [
        (0, 13, 0),
        (9, 13, 0),
        (10, 13, 0),
        (16, 13, 0),
        (17, 13, 0),
        (u32::MAX, 13, 0),
        (10, 0, 0),
        (10, 1, 0),
        (10, 14, 0),
        (10, u32::MAX, 0),
        // Two custom pairs that settle takes and one that it does not; then P at which it refuses a named matrix, and a custom one, as 5; last the
        // numbers that name no matrix.
        (10, 13, 4),
        (10, 13, 5),
        (10, 13, case::FORMER_PAIR),
        (10, 13, case::ZERO_PAIR),
        (10, 3, 1),
        (10, 2, 5),
        (10, 13, 6),
        (10, 13, u32::MAX),
    ] {
        let c = Case {
            depth,
            precision,
            matrix,
            seed: 1300,
            ..case::base()
        };
        run_converted(case::laid(c, 3, 2, 0));
    }
}

// The last number that names a case, of each enumeration; then one of them past its last, and the largest.
fn names() {
    for (range, subsampling, order, packing, byte_order, channels) in [
        (1, 2, 1, 1, 1, 3),
        (2, 2, 1, 1, 1, 3),
        (1, 3, 1, 1, 1, 3),
        (1, 2, 2, 1, 1, 3),
        (1, 2, 1, 2, 1, 3),
        (1, 2, 1, 1, 2, 3),
        (1, 2, 1, 1, 1, 4),
        (u32::MAX, 2, 1, 1, 1, 3),
        (1, u32::MAX, 1, 1, 1, 3),
        (1, 2, u32::MAX, 1, 1, 3),
        (1, 2, 1, u32::MAX, 1, 3),
        (1, 2, 1, 1, u32::MAX, 3),
        (1, 2, 1, 1, 1, u32::MAX),
    ] {
        let c = Case {
            range,
            subsampling,
            order,
            packing,
            byte_order,
            channels,
            seed: 1301,
            ..case::base()
        };
        run_converted(case::laid(c, 3, 2, 0));
    }
}

pub(crate) fn run() {
    numbers();
    names();
}
