// Planes of 8×2 pixels that hold extreme codes, in two patterns. In the first, Cb and Cr are 0 and m in all four ways, and each of these
// four chroma pairs meets luma 0, m, just below black and just above white. In the second, chroma lies at grey, next to it and at the ends
// of the limited range, and luma at black, at white and just beyond them.
use crate::stored::{most_of, scale_of, word_of};
use crate::trial::Trial;
use cases::planes::{index, put};

#[derive(Clone, Copy)]
pub(crate) enum Code {
    Zero,
    Most,
    BelowBlack,
    AboveWhite,
    // Also where the limited range of chroma begins.
    Black,
    White,
    Grey,
    // The end of the limited range of chroma.
    ChromaEnd,
    BelowGrey,
    AboveGrey,
}

impl Code {
    fn at(self, depth: u32) -> u16 {
        let scale = scale_of(depth);
        match self {
            Code::Zero => 0,
            Code::Most => most_of(depth),
            Code::BelowBlack => 64 * scale - 1,
            Code::AboveWhite => 940 * scale + 1,
            Code::Black => 64 * scale,
            Code::White => 940 * scale,
            Code::Grey => 512 * scale,
            Code::ChromaEnd => 960 * scale,
            Code::BelowGrey => 512 * scale - 1,
            Code::AboveGrey => 512 * scale + 1,
        }
    }
}

// Luma of two rows, of the first and the second column of a chroma pair, and Cb and Cr of four pairs.
#[derive(Clone, Copy)]
pub(crate) struct Pattern {
    luma: [[Code; 2]; 2],
    pairs: [(Code, Code); 4],
}

pub(crate) const PATTERNS: [Pattern; 2] = [
    Pattern {
        luma: [
            [Code::Zero, Code::Most],
            [Code::BelowBlack, Code::AboveWhite],
        ],
        pairs: [
            (Code::Zero, Code::Zero),
            (Code::Most, Code::Zero),
            (Code::Zero, Code::Most),
            (Code::Most, Code::Most),
        ],
    },
    Pattern {
        luma: [
            [Code::BelowBlack, Code::AboveWhite],
            [Code::Black, Code::White],
        ],
        pairs: [
            (Code::Grey, Code::Grey),
            (Code::Black, Code::ChromaEnd),
            (Code::ChromaEnd, Code::Black),
            (Code::BelowGrey, Code::AboveGrey),
        ],
    },
];

// A row has four chroma pairs, each for two columns side by side; at 4:4:4 each pair comes a second time, four columns on.
pub(crate) fn put_pattern(trial: &mut Trial, pattern: Pattern) {
    let c = trial.case;
    for row in 0..2 {
        let chroma_row = if c.subsampling == 0 { 0 } else { row };
        for column in 0..8 {
            let (pair, turn) = if c.subsampling == 2 {
                (column, column / 4)
            } else {
                (column / 2, column % 2)
            };
            let luma = pattern.luma[row][turn];
            put(
                &mut trial.luma,
                index(c.luma_stride, row, column),
                word_of(c, luma.at(c.depth)),
            );
            let (cb, cr) = pattern.pairs[pair % 4];
            let (first, second) = if c.order == 0 { (cb, cr) } else { (cr, cb) };
            let at = index(c.chroma_stride, chroma_row, 2 * pair);
            put(&mut trial.chroma, at, word_of(c, first.at(c.depth)));
            put(&mut trial.chroma, at + 1, word_of(c, second.at(c.depth)));
        }
    }
}
