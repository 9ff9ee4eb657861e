// Converts frames, checks them, and prints each case with its answers and both planes; compare/frames.py works every line out
// afresh.
#![tactic(auto)]

ghost use Rattle.std.specs.Prelude.{◌≤◌};

use cases::case::Case;
use cases::{case, sweeps, text};

mod from;
mod high;
mod trial;

// One case, printed and run.
fn run(c: Case) {
    text::case(c);
    frame_runs::run(c);
}

// Document 01's whole frames: 3×1 and 3×2.
fn whole_frames() {
    run(case::base());
    run(Case {
        height: 2,
        source_rows: 2,
        source: 18,
        luma: 8,
        ..case::base()
    });
}

fn run_laid(subsampling: u32, width: usize, height: usize)
    requires { (width ≤ 20000) × (height ≤ 20000) }
{
    let c = Case {
        subsampling,
        seed: 1,
        ..case::base()
    };
    run(case::laid(c, width, height, 0));
}

// Both sides of the limits of a size, and the largest number.
fn sizes() {
    for (width, height) in [(0, 1), (1, 0), (0, 0), (1, 1)] {
        run_laid(0, width, height);
    }
    for subsampling in 0..3 {
        run_laid(subsampling, 16384, 1);
    }
    run_laid(0, 16385, 1);
    for subsampling in 0..3 {
        run_laid(subsampling, 1, 16384);
    }
    run_laid(0, 1, 16385);
    run(Case {
        width: usize::MAX,
        ..case::base()
    });
    run(Case {
        height: usize::MAX,
        source_rows: usize::MAX,
        ..case::base()
    });
}

// Each stride one short, as short as it may be, at 65,536, one over it, and the largest number.
fn strides() {
    for (source_stride, source) in [
        (8, 8),
        (9, 9),
        (65536, 65536),
        (65537, 65537),
        (usize::MAX, 9),
    ] {
        run(Case {
            source_stride,
            source,
            ..case::base()
        });
    }
    for (luma_stride, luma) in [
        (2, 2),
        (3, 3),
        (65536, 65536),
        (65537, 65537),
        (usize::MAX, 4),
    ] {
        run(Case {
            luma_stride,
            luma,
            ..case::base()
        });
    }
    for (chroma_stride, chroma) in [
        (3, 3),
        (4, 4),
        (65536, 65536),
        (65537, 65537),
        (usize::MAX, 6),
    ] {
        run(Case {
            chroma_stride,
            chroma,
            ..case::base()
        });
    }
}

// Each length one short and one long, and each buffer empty.
fn lengths() {
    for source in [8, 10, 0] {
        run(Case {
            source,
            ..case::base()
        });
    }
    for luma in [3, 5, 0] {
        run(Case {
            luma,
            ..case::base()
        });
    }
    for chroma in [5, 7, 0] {
        run(Case {
            chroma,
            ..case::base()
        });
    }
}

// A sample put at an index of a 3×2 frame with one element of padding in each row: m and m + 1 in each channel of the first and of the
// last visible pixel; then in padding and in alpha, where it does not matter.
fn samples() {
    for (channels, at, sample) in [
        (0, 0, 1023),
        (0, 0, 1024),
        (0, 1, 1024),
        (0, 2, 1024),
        (0, 16, 1023),
        (0, 16, 1024),
        (0, 17, 1024),
        (0, 18, 1024),
        (3, 2, 1024),
        (1, 21, 1023),
        (1, 21, 1024),
        (0, 9, 65535),
        (0, 19, 65535),
        (1, 3, 65535),
        (1, 24, 65535),
        (2, 3, 65535),
        (2, 12, 65535),
    ] {
        let c = Case {
            channels,
            seed: 5,
            ..case::base()
        };
        run(Case {
            at,
            sample,
            ..case::laid(c, 3, 2, 1)
        });
    }
}

// The last sample of the widest and of the highest frame too large, and of a frame of one pixel.
fn last_samples() {
    let c = Case {
        seed: 6,
        ..case::base()
    };
    for (width, height) in [(16384, 1), (1, 16384), (1, 1)] {
        run(Case {
            at: 3 * width * height - 1,
            sample: 1024,
            ..case::laid(c, width, height, 0)
        });
    }
}

// A 3×3 frame with padding in each channel layout, at 10 bits; then at 15 and at 16, where no sample is too large.
fn first_samples() {
    for (depth, channels) in [(10, 0), (10, 1), (10, 2), (10, 3), (15, 1), (16, 1)] {
        let c = Case {
            depth,
            channels,
            matrix: 1,
            seed: 7,
            ..case::base()
        };
        let d = case::laid(c, 3, 3, 2);
        run(d);
        from::run(d);
    }
}

// Settings that are refused, alone and with a size of 0; then each refusal of a frame with the next one.
fn orders() {
    for (depth, precision, matrix, width) in [
        (9, 13, 0, 3),
        (17, 14, 0, 0),
        (10, 0, 0, 3),
        (10, 14, case::ZERO_PAIR, 0),
        (10, 13, case::ZERO_PAIR, 0),
        (12, 13, 3, 3),
        (13, 13, 3, 0),
        (10, 13, 5, 3),
        (10, 13, 5, 0),
    ] {
        run(Case {
            depth,
            precision,
            matrix,
            width,
            ..case::base()
        });
    }
    run(Case {
        width: 0,
        source_stride: 65537,
        ..case::base()
    });
    run(Case {
        luma_stride: 2,
        source: 8,
        ..case::base()
    });
    run(Case {
        chroma: 5,
        at: 0,
        sample: 1024,
        ..case::base()
    });
}

fn sweep() {
    for t in 0..75 {
        run(sweeps::size(t));
    }
    for t in 0..192 {
        run(sweeps::layout(t));
    }
    for t in 0..182 {
        run(sweeps::depth(t));
    }
}

// The width and height of one of five frames.
fn size_of(n: usize) -> (usize, usize)
    ensures { (result.0 ≤ 37) × (result.1 ≤ 21) }
{
    match n {
        0 => (37, 9),
        1 => (8, 21),
        2 => (19, 6),
        3 => (33, 7),
        _ => (16, 8),
    }
}

// Frames of five sizes in each channel layout, from 8×21 to 37×9, as they are and then with one sample too large.
fn sweep_high() {
    for t in 0..20 {
        let c = Case {
            depth: 10 + (t % 6) as u32,
            matrix: (t % 5) as u32,
            range: 0,
            subsampling: (t % 3) as u32,
            order: (t / 3 % 2) as u32,
            packing: (t / 2 % 2) as u32,
            byte_order: (t / 5 % 2) as u32,
            channels: (t % 4) as u32,
            seed: (t + 500) as u32,
            ..case::base()
        };
        let (width, height) = size_of(t / 4);
        let d = case::laid(c, width, height, 1);
        run(d);
        high::run(d);
    }
}

fn main() {
    whole_frames();
    sizes();
    strides();
    lengths();
    samples();
    orders();
    sweep();
    sweep_high();
    last_samples();
    first_samples();
}
