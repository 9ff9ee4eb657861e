// Both sides of the limits of the window's numbers, and the largest numbers: alone, and together.
use crate::run;
use cases::case;
use cases::case::Case;

// A frame of one pixel, with a luma stride of 4 and a chroma stride of 6.
fn pixel(source_stride: usize, source: usize) -> Case {
    Case {
        width: 1,
        source_stride,
        source,
        ..case::base()
    }
}

fn run_window(c: Case, first_column: usize, first_row: usize, source_rows: usize) {
    run::frame(Case {
        first_column,
        first_row,
        source_rows,
        ..c
    });
}

// The first column at 16,384 and one over it; a stride that covers the window and one that does not.
fn columns() {
    for (stride, first_column) in [
        (49155, 16384),
        (49154, 16384),
        (49158, 16385),
        (49158, usize::MAX),
    ] {
        run_window(pixel(stride, stride), first_column, 0, 1);
    }
}

// The first row and the source rows at 16,384 and one over it.
fn rows() {
    for (source, first_row, source_rows) in [
        (49152, 16383, 16384),
        (49152, 0, 16384),
        (49152, 16384, 16384),
        (49155, 16384, 16385),
        (49155, 0, 16385),
        (49155, 16385, 16385),
        (3, usize::MAX, 1),
        (3, 0, usize::MAX),
        (3, usize::MAX, usize::MAX),
    ] {
        run_window(pixel(3, source), 0, first_row, source_rows);
    }
}

// As many source rows as the window ends with, one more, one fewer, and none.
fn ends() {
    for (source, first_row, source_rows) in [
        (15, 4, 5),
        (18, 4, 6),
        (12, 4, 4),
        (3, 0, 1),
        (0, 0, 0),
        (0, 1, 0),
    ] {
        run_window(pixel(3, source), 0, first_row, source_rows);
    }
}

// Sums that would come back to a small number if they wrapped, and every number at its largest.
fn sums() {
    const MAX: usize = usize::MAX;
    run_window(pixel(3, 3), MAX, MAX, 1);
    run_window(pixel(3, 3), MAX - 2, MAX, MAX);
    let strides = Case {
        luma_stride: MAX,
        chroma_stride: MAX,
        ..pixel(MAX, 3)
    };
    run_window(strides, MAX, MAX, MAX);
    let size = Case {
        width: MAX,
        height: MAX,
        ..strides
    };
    run_window(size, MAX, MAX, MAX);
    let large = Case {
        width: 16384,
        height: 16384,
        ..strides
    };
    run_window(large, 16384, 16384, 16384);
    run_window(large, 16384, 0, 16384);
    let longest = Case {
        source_stride: 65536,
        luma_stride: 16384,
        chroma_stride: 16384,
        ..large
    };
    run_window(longest, 0, 0, 16384);
}

// A source stride that covers the window, one element more and one fewer, in each channel layout; the longest and one over it.
fn strides() {
    for (channels, stride) in [
        (0, 9),
        (0, 14),
        (0, 15),
        (0, 16),
        (1, 19),
        (1, 20),
        (2, 19),
        (2, 20),
        (3, 14),
        (3, 15),
        (0, 65536),
        (0, 65537),
    ] {
        let c = Case {
            channels,
            seed: 12,
            source_stride: stride,
            source: stride,
            ..case::base()
        };
        run_window(c, 2, 0, 1);
    }
}

// A source of the window's rows alone, of all rows, and an element more and fewer than those.
fn lengths() {
    for source in [9, 18, 26, 27, 28, 0] {
        let c = Case {
            seed: 13,
            source,
            ..case::base()
        };
        run_window(c, 0, 1, 3);
    }
}

pub(crate) fn run() {
    columns();
    rows();
    ends();
    sums();
    strides();
    lengths();
}
