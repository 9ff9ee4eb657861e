// The answers of the services as numbers, for callers from other languages. What does not apply is 0.
#![tactic(auto)]

ghost use Rattle.std.specs.Prelude.{◌≡◌};
ghost use Rattle.answer_numbers.specs.AnswerNumbers.{unnamed, weightless, settled_numbers, no_sample, sample_of, refused_for, converted_numbers, ring_told, ring_numbers, no_place, told, checked_numbers, place_of, restored_for, restored_numbers};

use numbers::Unnamed;
use rules::{Place, Refusal, Ringed, SourcePlace, Weights};

// Refusal 0 is success; the nine weights are 0 on a refusal.
#[repr(C)]
#[derive(Clone, Copy)]
pub struct SettledNumbers {
    pub refusal: u32,
    pub weights: Weights,
}

// Refusal 0 is done; refusal 10 gives the sample that is too large.
#[repr(C)]
#[derive(Clone, Copy)]
pub struct ConvertedNumbers {
    pub refusal: u32,
    pub sample: SourcePlace,
}

// Refusal 0 means that every frame was written; refusal 10 gives the sample that is too large, of the frame after those written.
#[repr(C)]
#[derive(Clone, Copy)]
pub struct RingNumbers {
    pub written: u32,
    pub refusal: u32,
    pub sample: SourcePlace,
}

// Refusal 0 and wrong 0 is accepted; wrong 1 gives the place; refusal 10 gives the sample that is too large.
#[repr(C)]
#[derive(Clone, Copy)]
pub struct CheckedNumbers {
    pub refusal: u32,
    pub wrong: u32,
    pub place: Place,
    pub sample: SourcePlace,
}

// Refusal 0 is done; refusal 13 gives the place of the sample that is not well formed.
#[repr(C)]
#[derive(Clone, Copy)]
pub struct RestoredNumbers {
    pub refusal: u32,
    pub place: Place,
}

// The refusal where a number of the settings names no case of its enumeration.
const UNNAMED: u32 = 18;

fn weightless(refusal: u32) -> SettledNumbers
    ensures { result ≡ weightless refusal }
{
    SettledNumbers {
        refusal,
        weights: Weights::default(),
    }
}

impl From<Result<Weights, Refusal>> for SettledNumbers {
    ghost from_gives = { λ answer numbers. numbers ≡ settled_numbers answer };

    fn from(answer: Result<Weights, Refusal>) -> Self {
        match answer {
            Ok(weights) => SettledNumbers {
                refusal: 0,
                weights,
            },
            Err(r) => weightless(r.number()),
        }
    }
}

impl From<Unnamed> for SettledNumbers {
    ghost from_gives = { λ _ numbers. numbers ≡ weightless unnamed };

    fn from(_unnamed: Unnamed) -> Self {
        weightless(UNNAMED)
    }
}

// The sample that a refusal carries.
fn sample_of(r: Refusal) -> SourcePlace
    ensures { result ≡ sample_of r }
{
    match r {
        Refusal::TooLarge(p) => p,
        _ => SourcePlace::default(),
    }
}

fn refused_for(refusal: u32, sample: SourcePlace) -> ConvertedNumbers
    ensures { result ≡ refused_for refusal sample }
{
    ConvertedNumbers { refusal, sample }
}

impl From<Result<(), Refusal>> for ConvertedNumbers {
    ghost from_gives = { λ answer numbers. numbers ≡ converted_numbers answer };

    fn from(answer: Result<(), Refusal>) -> Self {
        match answer {
            Ok(()) => refused_for(0, SourcePlace::default()),
            Err(r) => refused_for(r.number(), sample_of(r)),
        }
    }
}

impl From<Unnamed> for ConvertedNumbers {
    ghost from_gives = { λ _ numbers. numbers ≡ refused_for unnamed no_sample };

    fn from(_unnamed: Unnamed) -> Self {
        refused_for(UNNAMED, SourcePlace::default())
    }
}

fn ring_told(written: u32, refusal: u32, sample: SourcePlace) -> RingNumbers
    ensures { result ≡ ring_told written refusal sample }
{
    RingNumbers {
        written,
        refusal,
        sample,
    }
}

impl From<Ringed> for RingNumbers {
    ghost from_gives = { λ answer numbers. numbers ≡ ring_numbers answer };

    fn from(answer: Ringed) -> Self {
        match answer.ended {
            Ok(()) => ring_told(answer.written, 0, SourcePlace::default()),
            Err(r) => ring_told(answer.written, r.number(), sample_of(r)),
        }
    }
}

impl From<Unnamed> for RingNumbers {
    ghost from_gives = { λ _ numbers. numbers ≡ ring_told 0 unnamed no_sample };

    fn from(_unnamed: Unnamed) -> Self {
        ring_told(0, UNNAMED, SourcePlace::default())
    }
}

fn told(refusal: u32, wrong: u32, place: Place, sample: SourcePlace) -> CheckedNumbers
    ensures { result ≡ told refusal wrong place sample }
{
    CheckedNumbers {
        refusal,
        wrong,
        place,
        sample,
    }
}

impl From<Result<Option<Place>, Refusal>> for CheckedNumbers {
    ghost from_gives = { λ answer numbers. numbers ≡ checked_numbers answer };

    fn from(answer: Result<Option<Place>, Refusal>) -> Self {
        match answer {
            Ok(None) => told(0, 0, Place::default(), SourcePlace::default()),
            Ok(Some(p)) => told(0, 1, p, SourcePlace::default()),
            Err(r) => told(r.number(), 0, Place::default(), sample_of(r)),
        }
    }
}

impl From<Unnamed> for CheckedNumbers {
    ghost from_gives = { λ _ numbers. numbers ≡ told unnamed 0 no_place no_sample };

    fn from(_unnamed: Unnamed) -> Self {
        told(UNNAMED, 0, Place::default(), SourcePlace::default())
    }
}

// The place in a plane that a refusal carries.
fn place_of(r: Refusal) -> Place
    ensures { result ≡ place_of r }
{
    match r {
        Refusal::Malformed(p) => p,
        _ => Place::default(),
    }
}

fn restored_for(refusal: u32, place: Place) -> RestoredNumbers
    ensures { result ≡ restored_for refusal place }
{
    RestoredNumbers { refusal, place }
}

impl From<Result<(), Refusal>> for RestoredNumbers {
    ghost from_gives = { λ answer numbers. numbers ≡ restored_numbers answer };

    fn from(answer: Result<(), Refusal>) -> Self {
        match answer {
            Ok(()) => restored_for(0, Place::default()),
            Err(r) => restored_for(r.number(), place_of(r)),
        }
    }
}

impl From<Unnamed> for RestoredNumbers {
    ghost from_gives = { λ _ numbers. numbers ≡ restored_for unnamed no_place };

    fn from(_unnamed: Unnamed) -> Self {
        restored_for(UNNAMED, Place::default())
    }
}
