// The functions that C links: each calls the function of its name in `ayresokum`, and promises what that one promises.
#![tactic(auto)]

ghost use Rattle.std.specs.Prelude.{◌≡◌};
ghost use Rattle.numbers.specs.Numbers.{settings_of};
ghost use Rattle.ayresokum.specs.Calls.{version, SettleCall, ConvertCall, luma_call, chroma_call, RingCall, luma_ring_call, chroma_ring_call, CheckCall, ToRgbCall, rgb_call};

use answer_numbers::{
    CheckedNumbers, ConvertedNumbers, RestoredNumbers, RingNumbers, SettledNumbers,
};
use numbers::SettingsNumbers;
use rules::Frame;

#[unsafe(no_mangle)]
pub extern "C" fn ayresokum_version() -> u32
    ensures { result ≡ version }
{
    ayresokum::ayresokum_version()
}

#[unsafe(no_mangle)]
pub extern "C" fn ayresokum_settle(settings: SettingsNumbers) -> SettledNumbers
    ensures { SettleCall (settings_of settings) result }
{
    ayresokum::ayresokum_settle(settings)
}

#[unsafe(no_mangle)]
pub extern "C" fn ayresokum_convert(
    settings: SettingsNumbers,
    frame: Frame,
    source: &[u16],
    luma: &mut [u16],
    chroma: &mut [u16],
) -> ConvertedNumbers
    ensures answer { ConvertCall (settings_of settings) frame source.now luma.old chroma.old result }
    ensures luma { luma.new ≡ luma_call (settings_of settings) frame source.now luma.old chroma.old }
    ensures chroma { chroma.new ≡ chroma_call (settings_of settings) frame source.now luma.old chroma.old }
{
    ayresokum::ayresokum_convert(settings, frame, source, luma, chroma)
}

#[unsafe(no_mangle)]
pub extern "C" fn ayresokum_convert_ring(
    settings: SettingsNumbers,
    frame: Frame,
    count: usize,
    source: &[u16],
    luma: &mut [u16],
    chroma: &mut [u16],
) -> RingNumbers
    ensures answer { RingCall (settings_of settings) frame count source.now luma.old chroma.old result }
    ensures luma { luma.new ≡ luma_ring_call (settings_of settings) frame count source.now luma.old chroma.old }
    ensures chroma { chroma.new ≡ chroma_ring_call (settings_of settings) frame count source.now luma.old chroma.old }
{
    ayresokum::ayresokum_convert_ring(settings, frame, count, source, luma, chroma)
}

#[unsafe(no_mangle)]
pub extern "C" fn ayresokum_check(
    settings: SettingsNumbers,
    frame: Frame,
    source: &[u16],
    luma: &[u16],
    chroma: &[u16],
) -> CheckedNumbers
    ensures { CheckCall (settings_of settings) frame source.now luma.now chroma.now result }
{
    ayresokum::ayresokum_check(settings, frame, source, luma, chroma)
}

#[unsafe(no_mangle)]
pub extern "C" fn ayresokum_to_rgb(
    settings: SettingsNumbers,
    frame: Frame,
    luma: &[u16],
    chroma: &[u16],
    rgb: &mut [u16],
) -> RestoredNumbers
    ensures answer { ToRgbCall (settings_of settings) frame luma.now chroma.now rgb.old result }
    ensures rgb { rgb.new ≡ rgb_call (settings_of settings) frame luma.now chroma.now rgb.old }
{
    ayresokum::ayresokum_to_rgb(settings, frame, luma, chroma, rgb)
}
