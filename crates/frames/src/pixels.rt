// The pixels of a buffer and of a row part of it.
ghost use Rattle.std.specs.Prelude.{◌≡◌, ◌+◌, ◌*◌, ◌<◌, ◌≤◌, length};
ghost use Rattle.rules.specs.Channels.{count, pixel_at};
ghost use Rattle.frames.specs.Rows.{row_pixel};

use rules::{Pixel, YuvSourceChannels};
use yuv_support::channels;

// The pixel whose samples start at an index; alpha is never read.
pub fn pixel_at(channels: YuvSourceChannels, source: &[u16], at: usize) -> Pixel
    requires { at + count channels ≤ length source.now }
    ensures { result ≡ pixel_at channels source.now at }
{
    let i = at + channels::get_r_channel_offset(channels);
    let j = at + channels::get_g_channel_offset(channels);
    let k = at + channels::get_b_channel_offset(channels);
    Pixel {
        red: source[i],
        green: source[j],
        blue: source[k],
    }
}

// Pixel x of a row part that shows `width` pixels.
pub fn row_pixel(channels: YuvSourceChannels, row: &[u16], width: usize, x: usize) -> Pixel
    requires { (x < width) × (width * count channels ≤ length row.now) }
    ensures { result ≡ row_pixel channels row.now x }
{
    pixel_at(channels, row, x * channels::get_channels_count(channels))
}
