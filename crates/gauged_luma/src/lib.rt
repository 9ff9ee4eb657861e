// How many samples of a luma row pass by their gauge, from the first on; `pixels` is the source row.
#![tactic(auto)]

ghost use Rattle.std.specs.Prelude.{◌*◌, ◌≤◌, length};
ghost use Rattle.rules.specs.Channels.{count};
ghost use Rattle.gauges.specs.Gauges.{SharesBounded, GaugeBounded};
ghost use Rattle.gauged_luma.specs.Runs.{LumaPassed};

use frames::pixels;
use gauges::gauge::{Gauge, Shares};
use gauges::near;
use rules::{YuvEndianness, YuvSourceChannels};

fn run(
    channels: YuvSourceChannels,
    endianness: YuvEndianness,
    h: Shares,
    g: Gauge,
    width: usize,
    pixels: &[u16],
    luma: &[u16],
) -> usize
    requires gauge_bounded { (GaugeBounded g) × (SharesBounded h) }
    requires width_in_bounds { (width ≤ length luma.now) × (width * count channels ≤ length pixels.now) }
    ensures { LumaPassed channels endianness g h pixels.now luma.now width result }
{
    for e in 0..width {
        let p = pixels::row_pixel(channels, pixels, width, e);
        if !near::luma_near(g, h, p, storage::exchanged(endianness, luma[e])) {
            return e;
        }
    }
    width
}

// The byte order is told apart before the loop, so that the compiler makes one loop for each. By one closure that tests a sample, handed to a
// loop that luma and chroma share, a check takes 4 to 12 percent longer.
pub fn luma_run(
    channels: YuvSourceChannels,
    endianness: YuvEndianness,
    h: Shares,
    g: Gauge,
    width: usize,
    pixels: &[u16],
    luma: &[u16],
) -> usize
    requires gauge_bounded { (GaugeBounded g) × (SharesBounded h) }
    requires width_in_bounds { (width ≤ length luma.now) × (width * count channels ≤ length pixels.now) }
    ensures { LumaPassed channels endianness g h pixels.now luma.now width result }
{
    match endianness {
        YuvEndianness::BigEndian => {
            run(
                channels,
                YuvEndianness::BigEndian,
                h,
                g,
                width,
                pixels,
                luma,
            )
        }
        YuvEndianness::LittleEndian => {
            run(
                channels,
                YuvEndianness::LittleEndian,
                h,
                g,
                width,
                pixels,
                luma,
            )
        }
    }
}
