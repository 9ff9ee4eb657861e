// Converts document 01's whole frames and frames of every combination that yuvutils-rs 0.8.3 can be driven with, and prints them as
// its loops leave them, the one named fault included. The file `stdout` was written by those loops (docs/CRATE.md).
#![tactic(auto)]

ghost use Rattle.std.specs.Prelude.{◌<◌};

use cases::case;
use cases::case::Case;

mod run;

// Document 01's whole frames: 3×1, and 3×2 with that source row twice.
fn whole_frames() {
    let c = case::base();
    run::run(c);
    run::run(Case {
        height: 2,
        source_rows: 2,
        source: 18,
        luma: 8,
        ..c
    });
}

// Every depth, channel layout, subsampling, order, packing and byte order; the rest changes from frame to frame.
fn combination(t: usize) -> Case
    requires { t < 672 }
{
    // `as` loses nothing of so small a number, where `try_from` would give a Result.
    let n = t as u32;
    Case {
        depth: 10 + n % 7,
        channels: n / 7 % 4,
        subsampling: n / 28 % 3,
        order: n / 84 % 2,
        packing: n / 168 % 2,
        byte_order: n / 336,
        precision: 13 - n % 13,
        matrix: n % 6,
        range: n / 2 % 2,
        seed: n + 1000,
        ..case::base()
    }
}

// Sizes from 1×1 to 9×7, with 0, 1 or 2 elements of padding in each row; where a frame is
// refused, the limited range at P = 13.
fn run_combination(t: usize)
    requires { t < 672 }
{
    let c = case::laid(combination(t), 1 + t % 9, 1 + t / 9 % 7, t % 3);
    if !run::run(c) {
        run::run(Case {
            range: 0,
            precision: 13,
            ..c
        });
    }
}

fn main() {
    whole_frames();
    for t in 0..672 {
        run_combination(t);
    }
}
