// The first colour sample of a row that exceeds m.
#![tactic(auto)]

ghost use Rattle.std.specs.Prelude.{◌≡◌, ◌*◌, ◌<◌, ◌≤◌, leb, length};
ghost use Rattle.rules.specs.Channels.{count};
ghost use Rattle.rules.specs.Search.{first_below, failing};
ghost use Rattle.rules.specs.Frames.{channel_of};
ghost use Rattle.row_search.specs.RowSamples.{sample_of};

use frames::pixels;
use rules::{Found, Pixel, YuvSourceChannels};

// Channel 0 of a pixel is red, 1 green and 2 blue.
fn channel_of(channel: usize, p: Pixel) -> u16
    ensures { result ≡ channel_of channel p }
{
    match channel {
        0 => p.red,
        1 => p.green,
        _ => p.blue,
    }
}

// Colour sample i of a row part: red, green and blue of the first pixel, then of the next.
fn colour_sample(channels: YuvSourceChannels, part: &[u16], width: usize, i: usize) -> u16
    requires { (i < 3 * width) × (width * count channels ≤ length part.now) }
    ensures { result ≡ sample_of channels part.now i }
{
    channel_of(i % 3, pixels::row_pixel(channels, part, width, i / 3))
}

// The first colour sample of a row that exceeds m, by the row part that shows it; a row whose bound is at most m is not searched.
pub fn first_high(
    m: u16,
    channels: YuvSourceChannels,
    width: usize,
    row: usize,
    part: &[u16],
) -> Option<Found>
    requires { (width ≤ 16384) × (length part.now ≡ width * count channels) }
    ensures { result ≡ first_below (3 * width) (λ i. failing (leb (sample_of channels part.now i) m) row i) }
{
    if row_bounds::four_rows(channels, part, part, part, part) <= u64::from(m) {
        return None;
    }
    let samples = 3 * width;
    for element in 0..samples {
        if m < colour_sample(channels, part, width, element) {
            return Some(Found { row, element });
        }
    }
    None
}
