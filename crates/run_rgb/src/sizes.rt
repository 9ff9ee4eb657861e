// Both sides of each limit of a frame's width and height.
ghost use Rattle.std.specs.Prelude.{◌≤◌};

use crate::trial::run_converted;
use cases::case;
use cases::case::Case;

// Strides and lengths are those of the size.
fn laid(subsampling: u32, width: usize, height: usize) -> Case
    requires { (width ≤ 20000) × (height ≤ 20000) }
{
    let c = Case {
        subsampling,
        seed: 1400,
        ..case::base()
    };
    case::laid(c, width, height, 0)
}

fn run_laid() {
    for subsampling in 0..3 {
        run_converted(laid(subsampling, 1, 1));
    }
    for (width, height) in [(0, 1), (1, 0), (0, 0)] {
        run_converted(laid(0, width, height));
    }
    for subsampling in 0..3 {
        run_converted(laid(subsampling, 16384, 1));
    }
    run_converted(laid(0, 16385, 1));
    for subsampling in 0..3 {
        run_converted(laid(subsampling, 1, 16384));
    }
    run_converted(laid(0, 1, 16385));
}

// Strides and lengths are those of the case.
fn run_sized(c: Case, width: usize, height: usize) {
    run_converted(Case {
        width,
        height,
        source_rows: height,
        ..c
    });
}

pub(crate) fn run() {
    run_laid();
    let small = Case {
        seed: 1400,
        ..case::base()
    };
    for (width, height) in [
        (0, 1),
        (3, 0),
        (usize::MAX, 1),
        (3, usize::MAX),
        (usize::MAX, usize::MAX),
    ] {
        run_sized(small, width, height);
    }
    // Strides are those of 16,384 pixels, and lengths those of 3×1.
    let large = Case {
        source: 9,
        luma: 4,
        chroma: 6,
        ..laid(0, 16384, 1)
    };
    for (width, height) in [(16384, 16384), (16385, 16384), (16384, 16385)] {
        run_sized(large, width, height);
    }
}
