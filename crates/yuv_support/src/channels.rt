// Where a pixel's samples stand in the source, and U and V in a chroma pair. Each function is a row of the rule's tables, under the name that it
// has in src/yuv_support.rs: one function of a row's number would be no plainer.
ghost use Rattle.std.specs.Prelude.{◌≡◌};
ghost use Rattle.rules.specs.Channels.{count, red_at, green_at, blue_at, has_alpha, alpha_at, u_at, v_at};

use rules::{YuvNVOrder, YuvSourceChannels};

pub fn get_channels_count(channels: YuvSourceChannels) -> usize
    ensures { result ≡ count channels }
{
    match channels {
        YuvSourceChannels::Rgb | YuvSourceChannels::Bgr => 3,
        YuvSourceChannels::Rgba | YuvSourceChannels::Bgra => 4,
    }
}

pub fn get_r_channel_offset(channels: YuvSourceChannels) -> usize
    ensures { result ≡ red_at channels }
{
    match channels {
        YuvSourceChannels::Rgb | YuvSourceChannels::Rgba => 0,
        YuvSourceChannels::Bgra | YuvSourceChannels::Bgr => 2,
    }
}

pub fn get_g_channel_offset(channels: YuvSourceChannels) -> usize
    ensures { result ≡ green_at channels }
{
    match channels {
        YuvSourceChannels::Rgb
        | YuvSourceChannels::Rgba
        | YuvSourceChannels::Bgra
        | YuvSourceChannels::Bgr => 1,
    }
}

pub fn get_b_channel_offset(channels: YuvSourceChannels) -> usize
    ensures { result ≡ blue_at channels }
{
    match channels {
        YuvSourceChannels::Rgb | YuvSourceChannels::Rgba => 2,
        YuvSourceChannels::Bgra | YuvSourceChannels::Bgr => 0,
    }
}

pub fn has_alpha(channels: YuvSourceChannels) -> bool
    ensures { result ≡ has_alpha channels }
{
    matches!(channels, YuvSourceChannels::Rgba | YuvSourceChannels::Bgra)
}

// 0 where there is no alpha.
pub fn get_a_channel_offset(channels: YuvSourceChannels) -> usize
    ensures { result ≡ alpha_at channels }
{
    if has_alpha(channels) { 3 } else { 0 }
}

pub fn get_u_position(order: YuvNVOrder) -> usize
    ensures { result ≡ u_at order }
{
    match order {
        YuvNVOrder::UV => 0,
        YuvNVOrder::VU => 1,
    }
}

pub fn get_v_position(order: YuvNVOrder) -> usize
    ensures { result ≡ v_at order }
{
    match order {
        YuvNVOrder::UV => 1,
        YuvNVOrder::VU => 0,
    }
}
