// Refusals that meet: each one with each that comes after it, and with planes that hold a word that is not well formed. The first in the
// order 18, 1 to 5, 6, 7, 12, 8, 9, 13 is given.
use crate::trial::run_unwritten;
use cases::case;
use cases::case::Case;

// A 3×2 frame: most significant 7 is not well formed, least significant it is.
fn base(packing: u32) -> Case {
    let c = Case {
        packing,
        ..case::base()
    };
    case::laid(c, 3, 2, 0)
}

pub(crate) fn run() {
    // What makes a refusal due, in the order of the refusals: 18, 1, 2, 3, 5, 6, 7, 12, 8, 9. The matrix that is refused as 5 is a custom one.
    let faults: [fn(Case) -> Case; 10] = [
        |c| Case { order: 2, ..c },
        |c| Case { depth: 9, ..c },
        |c| Case { precision: 14, ..c },
        |c| Case {
            matrix: case::ZERO_PAIR,
            ..c
        },
        |c| Case {
            precision: 2,
            matrix: 5,
            ..c
        },
        |c| Case { matrix: 5, ..c },
        |c| Case { width: 0, ..c },
        |c| Case { first_row: 1, ..c },
        |c| Case {
            luma_stride: 2,
            ..c
        },
        |c| Case { chroma: 3, ..c },
    ];
    run_unwritten(base(1));
    run_unwritten(base(0));
    // Each alone, where the planes are well formed.
    for fault in faults {
        run_unwritten(fault(base(1)));
    }
    // The later fault first: where both change a number, the earlier has it.
    for (turn, fault) in faults.into_iter().enumerate() {
        for later in faults.into_iter().skip(turn) {
            run_unwritten(fault(later(base(0))));
        }
    }
}
