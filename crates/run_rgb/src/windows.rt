// Both sides of each limit of a window's numbers, and the largest numbers.
use crate::trial::run_converted;
use cases::case;
use cases::case::Case;

// A frame of one pixel, with a luma stride of 4 and a chroma stride of 6.
fn pixels() {
    for (source_stride, source, first_column, first_row, source_rows) in [
        (49155, 49155, 16384, 0, 1),
        (49154, 49154, 16384, 0, 1),
        (49158, 49158, 16385, 0, 1),
        (3, 3, usize::MAX, 0, 1),
        (3, 49152, 0, 16383, 16384),
        (3, 49152, 0, 0, 16384),
        (3, 49152, 0, 16384, 16384),
        (3, 49155, 0, 16384, 16385),
        (3, 49155, 0, 0, 16385),
        (3, 49155, 0, 16385, 16385),
        (3, 3, 0, usize::MAX, 1),
        (3, 3, 0, 0, usize::MAX),
        (3, 3, usize::MAX, usize::MAX, usize::MAX),
        // As many rows as the window ends with, one more, one fewer, and none.
        (3, 15, 0, 4, 5),
        (3, 18, 0, 4, 6),
        (3, 12, 0, 4, 4),
        (3, 0, 0, 0, 0),
    ] {
        run_converted(Case {
            width: 1,
            seed: 1500,
            source_stride,
            source,
            first_column,
            first_row,
            source_rows,
            ..case::base()
        });
    }
}

// The same of three rows.
fn high() {
    let c = Case {
        seed: 1501,
        ..case::base()
    };
    let d = case::windowed(case::laid(c, 2, 3, 0), 1, 1, 1, 1, 0);
    for (first_row, source_rows) in [(1, 5), (2, 5), (3, 5), (1, 4), (1, 3)] {
        run_converted(Case {
            first_row,
            source_rows,
            ..d
        });
    }
}

pub(crate) fn run() {
    pixels();
    high();
}
