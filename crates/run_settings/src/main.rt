// Settles all 910 named settings, both sides of the limits of depth and precision, and custom pairs, and prints each answer.
#![tactic(auto)]

use cases::text;
use rules::{
    Settings, YuvBytesPacking, YuvChromaSubsampling, YuvEndianness, YuvNVOrder, YuvRange,
    YuvSourceChannels, YuvStandardMatrix,
};
use std::num::f32_from_bits_with_nan;

mod pairs;

const STANDARD_OUTPUT: i32 = 1;

// The kit's io gives no error: std's println! gives a Result, and no function here can fail. So names are matched below, where a derived
// Debug would print by a Formatter, which can fail.
fn put(text: &[u8]) {
    io::write_all(STANDARD_OUTPUT, text);
}

fn put_number(n: u32) {
    io::print_decimal(STANDARD_OUTPUT, u64::from(n));
}

// The rest of a line: depth, precision, range, and the answer at them.
fn put_settled(matrix: YuvStandardMatrix, range: YuvRange, depth: u32, precision: u32) {
    match range {
        YuvRange::Limited => put(b" limited "),
        YuvRange::Full => put(b" full "),
    }
    put_number(depth);
    put(b" ");
    put_number(precision);
    put(b":");
    let s = Settings::new(
        depth,
        precision,
        matrix,
        range,
        YuvChromaSubsampling::Yuv420,
        YuvNVOrder::UV,
        YuvBytesPacking::LeastSignificantBytes,
        YuvEndianness::LittleEndian,
        YuvSourceChannels::Rgb,
    );
    match settle::settle(s) {
        Ok(w) => {
            text::weights(w);
        }
        Err(r) => {
            put(b" refused ");
            put_number(r.number());
        }
    }
    put(b"\n");
}

fn put_name(matrix: YuvStandardMatrix) {
    match matrix {
        YuvStandardMatrix::Bt601 => put(b"Bt601"),
        YuvStandardMatrix::Bt709 => put(b"Bt709"),
        YuvStandardMatrix::Bt2020 => put(b"Bt2020"),
        YuvStandardMatrix::Smpte240 => put(b"Smpte240"),
        YuvStandardMatrix::Bt470_6 => put(b"Bt470_6"),
        YuvStandardMatrix::Custom(_, _) => put(b"Custom"),
    }
}

// Every depth and precision in one range.
fn settle_range(matrix: YuvStandardMatrix, range: YuvRange) {
    for depth in 10..=16 {
        for precision in 1..=13 {
            put_name(matrix);
            put_settled(matrix, range, depth, precision);
        }
    }
}

fn settle_named() {
    for matrix in [
        YuvStandardMatrix::Bt601,
        YuvStandardMatrix::Bt709,
        YuvStandardMatrix::Bt2020,
        YuvStandardMatrix::Smpte240,
        YuvStandardMatrix::Bt470_6,
    ] {
        settle_range(matrix, YuvRange::Limited);
        settle_range(matrix, YuvRange::Full);
    }
}

// Both sides of the limits of depth and precision, and the smallest and the largest number.
fn settle_limits(matrix: YuvStandardMatrix) {
    for depth in [0, 9, 10, 16, 17, u32::MAX] {
        for precision in [0, 1, 13, 14, u32::MAX] {
            put_name(matrix);
            put_settled(matrix, YuvRange::Limited, depth, precision);
        }
    }
}

fn put_pair(kr: u32, kb: u32) {
    put(b"Custom ");
    io::print_hex(STANDARD_OUTPUT, u64::from(kr), 8);
    put(b" ");
    io::print_hex(STANDARD_OUTPUT, u64::from(kb), 8);
}

// A custom pair, given by the bits of its two floats.
fn settle_pair(kr: u32, kb: u32) {
    let matrix = YuvStandardMatrix::Custom(f32_from_bits_with_nan(kr), f32_from_bits_with_nan(kb));
    for (range, depth, precision) in [
        (YuvRange::Full, 10, 13),
        (YuvRange::Limited, 16, 13),
        (YuvRange::Full, 13, 7),
        (YuvRange::Limited, 10, 1),
    ] {
        put_pair(kr, kb);
        put_settled(matrix, range, depth, precision);
    }
}

fn settle_pairs() {
    for (kr, kb) in pairs::PAIRS {
        settle_pair(kr, kb);
    }
}

fn main() {
    settle_named();
    settle_limits(YuvStandardMatrix::Bt709);
    settle_limits(YuvStandardMatrix::Custom(0.0, 0.0));
    settle_pairs();
}
