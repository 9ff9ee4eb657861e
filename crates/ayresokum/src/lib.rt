// The services as callers from other languages have them: numbers in place of enumerations, structs by value, slices. `ayresokum_c` exports them.
#![tactic(auto)]

ghost use Rattle.std.specs.Prelude.{◌≡◌};
ghost use Rattle.numbers.specs.Numbers.{settings_of};
ghost use Rattle.ayresokum.specs.Calls.{version, SettleCall, ConvertCall, luma_call, chroma_call, RingCall, luma_ring_call, chroma_ring_call, CheckCall, ToRgbCall, rgb_call};

use answer_numbers::{
    CheckedNumbers, ConvertedNumbers, RestoredNumbers, RingNumbers, SettledNumbers,
};
use numbers::SettingsNumbers;
use rules::{Frame, Settings};

// The number of this interface, for a caller to compare with the one that it was written for.
pub fn ayresokum_version() -> u32
    ensures { result ≡ version }
{
    2
}

pub fn ayresokum_settle(settings: SettingsNumbers) -> SettledNumbers
    ensures { SettleCall (settings_of settings) result }
{
    match Settings::try_from(settings) {
        Ok(s) => SettledNumbers::from(settle::settle(s)),
        Err(unnamed) => SettledNumbers::from(unnamed),
    }
}

pub fn ayresokum_convert(
    settings: SettingsNumbers,
    frame: Frame,
    source: &[u16],
    luma: &mut [u16],
    chroma: &mut [u16],
) -> ConvertedNumbers
    ensures answer { ConvertCall (settings_of settings) frame source.now luma.old chroma.old result }
    ensures luma { luma.new ≡ luma_call (settings_of settings) frame source.now luma.old chroma.old }
    ensures chroma { chroma.new ≡ chroma_call (settings_of settings) frame source.now luma.old chroma.old }
{
    match Settings::try_from(settings) {
        Ok(s) => ConvertedNumbers::from(rgb_to_nv_p16::convert(s, frame, source, luma, chroma)),
        Err(unnamed) => ConvertedNumbers::from(unnamed),
    }
}

pub fn ayresokum_convert_ring(
    settings: SettingsNumbers,
    frame: Frame,
    count: usize,
    source: &[u16],
    luma: &mut [u16],
    chroma: &mut [u16],
) -> RingNumbers
    ensures answer { RingCall (settings_of settings) frame count source.now luma.old chroma.old result }
    ensures luma { luma.new ≡ luma_ring_call (settings_of settings) frame count source.now luma.old chroma.old }
    ensures chroma { chroma.new ≡ chroma_ring_call (settings_of settings) frame count source.now luma.old chroma.old }
{
    match Settings::try_from(settings) {
        Ok(s) => RingNumbers::from(ring::convert_ring(s, frame, count, source, luma, chroma)),
        Err(unnamed) => RingNumbers::from(unnamed),
    }
}

pub fn ayresokum_check(
    settings: SettingsNumbers,
    frame: Frame,
    source: &[u16],
    luma: &[u16],
    chroma: &[u16],
) -> CheckedNumbers
    ensures { CheckCall (settings_of settings) frame source.now luma.now chroma.now result }
{
    match Settings::try_from(settings) {
        Ok(s) => CheckedNumbers::from(frame_check::check(s, frame, source, luma, chroma)),
        Err(unnamed) => CheckedNumbers::from(unnamed),
    }
}

pub fn ayresokum_to_rgb(
    settings: SettingsNumbers,
    frame: Frame,
    luma: &[u16],
    chroma: &[u16],
    rgb: &mut [u16],
) -> RestoredNumbers
    ensures answer { ToRgbCall (settings_of settings) frame luma.now chroma.now rgb.old result }
    ensures rgb { rgb.new ≡ rgb_call (settings_of settings) frame luma.now chroma.now rgb.old }
{
    match Settings::try_from(settings) {
        Ok(s) => RestoredNumbers::from(nv_p16_to_rgb::to_rgb(s, frame, luma, chroma, rgb)),
        Err(unnamed) => RestoredNumbers::from(unnamed),
    }
}
