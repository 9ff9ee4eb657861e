// Frames of one chroma block, given by the block's channel sums: the codes accepted as luma of its first pixel and as both chroma samples.
// The extremes of every range; sums at which a code lies exactly at the tolerance, or next to it; and sums at which one lies the least step beyond it.
ghost use Rattle.std.specs.Prelude.{◌≤◌};

use crate::edges::accepted_at;
use crate::trial::Trial;
use cases::case::Case;
use cases::planes::put;
use cases::{case, draw, text};
use check_calls::spot::spot_at;

// The share of one of n pixels in a sum: the first ones have what is left over.
fn share(sum: usize, n: usize, pixel: usize) -> u16
    requires { 1 ≤ n }
{
    (sum.saturating_sub(pixel).div_ceil(n) % 65536) as u16
}

// A block by its settings, the number of its pixels, and the sums of their channels.
fn run_block(settings: Case, pixels: usize, sums: [usize; 3]) {
    // One pixel at 4:4:4, two at 4:2:2, four at 4:2:0.
    let (subsampling, width, height) = match pixels {
        4 => (0, 2, 2),
        2 => (1, 2, 1),
        _ => (2, 1, 1),
    };
    let c = Case {
        subsampling,
        ..settings
    };
    let mut trial = Trial::with_source(case::laid(c, width, height, 0), draw::room(0));
    for pixel in 0..4 {
        for (channel, sum) in sums.into_iter().enumerate() {
            put(
                &mut trial.source,
                3 * pixel + channel,
                share(sum, width * height, pixel),
            );
        }
    }
    trial.convert();
    let y = accepted_at(&mut trial, spot_at(0, 0, 0, 0));
    let first = accepted_at(&mut trial, spot_at(1, 0, 0, 0));
    let second = accepted_at(&mut trial, spot_at(1, 0, 1, 1));
    let [red, green, blue] = sums;
    text::line(
        b"block",
        &[
            text::small(settings.depth),
            text::small(settings.precision),
            text::small(settings.matrix),
            text::small(settings.range),
            pixels,
            red,
            green,
            blue,
            y.low,
            y.high,
            first.low,
            first.high,
            second.low,
            second.high,
            y.named + first.named + second.named,
        ],
    );
}

// Black, white, and the four colours at the ends of Cb and Cr, at P = 13.
fn run_extremes() {
    for depth in 10..17 {
        let m = (1 << depth) - 1;
        for range in 0..2 {
            let settings = Case {
                depth,
                precision: 13,
                matrix: 0,
                range,
                ..case::base()
            };
            for sums in [
                [0, 0, 0],
                [m, m, m],
                [0, 0, m],
                [m, m, 0],
                [m, 0, 0],
                [0, m, m],
            ] {
                run_block(settings, 1, sums);
            }
        }
    }
}

// Depth, P, matrix, range, the number of pixels, and the sums of their channels.
const BLOCKS: [(u32, u32, u32, u32, usize, [usize; 3]); 14] = [
    // A luma code lies exactly at the tolerance, above the exact value and below it. It does so at P = 1 and 2 alone, and no chroma code of named
    // settings that settle does (compare/at_tolerance.py).
    (10, 1, 0, 1, 1, [1, 44, 77]),
    (10, 1, 0, 1, 1, [889, 1020, 996]),
    (10, 1, 1, 1, 1, [1, 245, 422]),
    (10, 1, 1, 1, 1, [447, 1023, 906]),
    (10, 2, 2, 1, 1, [7, 845, 952]),
    (10, 2, 2, 1, 1, [2, 548, 417]),
    // A chroma code lies next to the tolerance: Cr of two pixels within it by less than 10^-7, Cb of four pixels within it by some 10^-6, then beyond it by less than
    // 10^-6, above the exact value and below it.
    (10, 13, 2, 0, 2, [0, 1914, 443]),
    (12, 13, 3, 0, 4, [14160, 16370, 0]),
    (12, 13, 3, 0, 4, [15568, 16218, 0]),
    (12, 13, 3, 0, 4, [15906, 16169, 0]),
    // A luma code lies beyond the tolerance by one in the numerator over 10000·m, above it and below it.
    (11, 13, 2, 0, 1, [4, 2033, 1507]),
    (11, 13, 2, 0, 1, [3, 1484, 1400]),
    (13, 11, 1, 0, 1, [0, 6908, 5639]),
    (13, 11, 1, 0, 1, [0, 1749, 7874]),
];

pub(crate) fn run() {
    run_extremes();
    for (depth, precision, matrix, range, pixels, sums) in BLOCKS {
        let settings = Case {
            depth,
            precision,
            matrix,
            range,
            ..case::base()
        };
        run_block(settings, pixels, sums);
    }
}
