// Each row of a plane at fault by itself, well formed as it is: every luma sample holds the first one's word, every chroma pair the first
// pair's, or every chroma code lies as far on the other side of grey.
ghost use Rattle.std.specs.Prelude.{◌≤◌};

use crate::answers::Answers;
use crate::edges::ordered;
use crate::rows::End;
use crate::trial::Trial;
use cases::case::Case;
use cases::draw::Room;
use cases::planes::{get, index, put};
use cases::text;

#[derive(Clone, Copy)]
pub(crate) enum Fault {
    StuckLuma,
    StuckChroma,
    MirroredChroma,
}

impl From<Fault> for usize {
    fn from(fault: Fault) -> usize {
        match fault {
            Fault::StuckLuma => 0,
            Fault::StuckChroma => 1,
            Fault::MirroredChroma => 2,
        }
    }
}

// Elements from one index on hold the words of the first ones, of which there are so many, in turn.
fn stick(plane: &mut Room, from: usize, last: usize, held: usize)
    requires { (from ≤ 4000000) × (last ≤ 64) × (1 ≤ held) × (held ≤ 2) }
{
    for i in 0..=last {
        let word = get(plane, from + i % held);
        put(plane, from + i, word);
    }
}

// A word as far on the other side of the middle one, where there is such a word.
fn turned(c: Case, word: u16) -> u16 {
    let unused_bits = if c.packing == 0 {
        0
    } else {
        16 - c.depth.clamp(10, 16)
    };
    let greatest = u16::MAX >> unused_bits;
    if word <= greatest {
        word.wrapping_neg() & greatest
    } else {
        word
    }
}

fn mirror(c: Case, plane: &mut Room, from: usize, last: usize)
    requires { (from ≤ 4000000) × (last ≤ 64) }
{
    for at in from..=from + last {
        let word = ordered(c.byte_order, get(plane, at));
        put(plane, at, ordered(c.byte_order, turned(c, word)));
    }
}

fn spoil(trial: &mut Trial, fault: Fault, row: usize, last: usize)
    requires { (row ≤ 32) × (last ≤ 64) }
{
    let c = trial.case;
    let luma_from = index(c.luma_stride, row, 0);
    let chroma_from = index(c.chroma_stride, row, 0);
    match fault {
        Fault::StuckLuma => stick(&mut trial.luma, luma_from, last, 1),
        Fault::StuckChroma => stick(&mut trial.chroma, chroma_from, last, 2),
        Fault::MirroredChroma => mirror(c, &mut trial.chroma, chroma_from, last),
    }
}

// Each row of a plane from the first to the last.
pub(crate) fn run(trial: &mut Trial, fault: Fault, end: End) {
    let mut all = Answers::default();
    for row in 0..=end.row {
        trial.convert();
        spoil(trial, fault, row, end.element);
        all.add(trial.check());
    }
    text::line(
        b"faults",
        &[fault.into(), all.accepted, all.wrong, text::small(all.sum)],
    );
}
