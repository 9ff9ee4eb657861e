// Both sides of each limit of the strides and the lengths of the three buffers.
use crate::trial::run_converted;
use cases::case;
use cases::case::Case;

// Strides and lengths of a row of three pixels.
fn row(subsampling: u32, channels: u32) -> Case {
    let c = Case {
        subsampling,
        channels,
        seed: 1600,
        ..case::base()
    };
    case::laid(c, 3, 1, 0)
}

// The stride covers the pixels left of the window too.
fn rgb_strides() {
    for (channels, first_column, stride) in [
        (0, 0, 8),
        (0, 0, 9),
        (0, 0, 10),
        (1, 0, 11),
        (1, 0, 12),
        (2, 2, 19),
        (2, 2, 20),
        (3, 2, 14),
        (3, 2, 15),
        (0, 0, 0),
        (0, 0, 65536),
        (0, 0, 65537),
        (0, 0, usize::MAX),
    ] {
        run_converted(Case {
            first_column,
            source_stride: stride,
            source: stride,
            ..row(0, channels)
        });
    }
}

fn luma_strides() {
    for stride in [0, 2, 3, 4, 65536, 65537, usize::MAX] {
        run_converted(Case {
            luma_stride: stride,
            luma: stride,
            ..row(0, 0)
        });
    }
}

fn chroma_strides() {
    for (subsampling, stride) in [
        (0, 0),
        (0, 3),
        (0, 4),
        (1, 3),
        (1, 4),
        (2, 5),
        (2, 6),
        (2, 7),
        (0, 65536),
        (0, 65537),
        (0, usize::MAX),
    ] {
        run_converted(Case {
            chroma_stride: stride,
            chroma: stride,
            ..row(subsampling, 0)
        });
    }
}

// Five rows of 16 elements, three of 4 and two of 5 are right.
fn lengths() {
    let c = case::windowed(case::laid(row(0, 0), 3, 3, 1), 1, 1, 1, 1, 1);
    for (source, luma, chroma) in [
        (80, 12, 10),
        (79, 12, 10),
        (81, 12, 10),
        (48, 12, 10),
        (0, 12, 10),
        (80, 11, 10),
        (80, 13, 10),
        (80, 0, 10),
        (80, 12, 9),
        (80, 12, 11),
        (80, 12, 15),
        (80, 12, 0),
    ] {
        run_converted(Case {
            source,
            luma,
            chroma,
            ..c
        });
    }
}

pub(crate) fn run() {
    rgb_strides();
    luma_strides();
    chroma_strides();
    lengths();
}
