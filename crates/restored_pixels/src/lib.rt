// One pixel of the way back: a chroma pair's terms once for all pixels over it, then each pixel by its luma.
#![tactic(auto)]

ghost use Rattle.std.specs.Prelude.{◌≡◌, ◌+◌, ◌-◌, ◌^◌, ◌≤◌, pos, nat_abs, ◌+ℤ◌, ◌-ℤ◌, ◌*ℤ◌};
ghost use Rattle.std.specs.Int.Signed.{shr_z};
ghost use Rattle.rules.specs.ToRgb.{held};
ghost use Rattle.restoring_weights.specs.RestoringWeights.{SmallWeights};
ghost use Rattle.restored_pixels.specs.Terms.{chroma_terms, pixel_by, SmallTerms, OnlyUpTo};

use restoring_weights::{RestoringWeights, weigh};
use rules::Pixel;

// What a chroma pair adds to the sums of a pixel's first element, of green and of its third. SmallTerms stands in clauses: as a ghost
// field it would need a proof in `chroma_terms` of specs/, which takes any weights.
#[derive(Clone, Copy)]
pub struct ChromaTerms {
    pub first: i64,
    pub green: i64,
    pub third: i64,
}

pub fn chroma_terms(r: RestoringWeights, a: u16, b: u16) -> ChromaTerms
    requires { SmallWeights r }
    ensures { (result ≡ chroma_terms r a b) × (SmallTerms result) }
{
    let x = r.first;
    let z = r.third;
    ChromaTerms {
        first: x.start + weigh(x.own, u32::from(a)),
        green: r.green_start - weigh(x.green, u32::from(a)) - weigh(z.green, u32::from(b)),
        third: z.start + weigh(z.own, u32::from(b)),
    }
}

// A sum divided by 2^19, rounded down.
fn divided(luma: i64, chroma: i64) -> i64
    requires { (nat_abs luma ≤ 137438953472) × (nat_abs chroma ≤ 2199023255552) }
    ensures { result ≡ shr_z (luma +ℤ chroma) 524288 }
{
    (luma + chroma) >> 19
}

// The greatest code of a depth.
#[derive(Clone, Copy)]
struct Greatest {
    depth: u32,
    code: u16,
    ghost deep: { depth ≤ 16 },
    ghost whole: { code ≡ 2 ^ depth - 1 },
}

impl Greatest {
    // v held to 0 to the greatest code.
    fn held(self, v: i64) -> u16
        ensures { result ≡ held self.code v }
    {
        v.clamp(0, i64::from(self.code)) as u16
    }

    // Whether all three are 0 to 2^n - 1: a number that is not has a bit outside that, and a negative one has many.
    fn all_up_to(self, a: i64, b: i64, c: i64) -> bool
        ensures { OnlyUpTo self.code a b c result }
    {
        let outside = -1 - i64::from(self.code);
        (a | b | c) & outside == 0
    }

    // The three colour elements; few pixels leave 0 to the greatest code, so that one test for all three is the shortest.
    fn held_pixel(self, a: i64, b: i64, c: i64) -> Pixel
        ensures { result ≡ record { red = held self.code a; green = held self.code b; blue = held self.code c } }
    {
        if self.all_up_to(a, b, c) {
            return Pixel {
                red: a as u16,
                green: b as u16,
                blue: c as u16,
            };
        }
        Pixel {
            red: self.held(a),
            green: self.held(b),
            blue: self.held(c),
        }
    }
}

// The elements of a pixel as they stand in the buffer, as if that were Rgb.
pub fn pixel_by(depth: u32, m: u16, r: RestoringWeights, y: u16, chroma: ChromaTerms) -> Pixel
    requires depth_bound { (depth ≤ 16) × (m ≡ 2 ^ depth - 1) }
    requires small_weights { (SmallWeights r) × (SmallTerms chroma) }
    ensures { result ≡ pixel_by m r y chroma }
{
    let greatest = Greatest { depth, code: m };
    let luma = weigh(r.luma, u32::from(y));
    let first = divided(luma, chroma.first);
    let green = divided(luma, chroma.green);
    let third = divided(luma, chroma.third);
    greatest.held_pixel(first, green, third)
}
