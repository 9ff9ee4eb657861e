// Wider and higher frames, odd and even, of every subsampling and channel layout: as they were converted, and with a word that is not well
// formed in the middle and at the end of each plane.
ghost use Rattle.std.specs.Prelude.{◌<◌};

use crate::places::{chroma_at, last_chroma, last_luma, luma_at};
use crate::stored::malformed;
use crate::trial::{Trial, put_case};
use cases::case;
use cases::case::Case;

fn wide(t: usize) -> Case
    requires { t < 24 }
{
    let c = Case {
        depth: 10 + (t % 7) as u32,
        matrix: (t % 3) as u32,
        range: (t / 12) as u32,
        subsampling: (t % 3) as u32,
        channels: (t / 3 % 4) as u32,
        order: (t / 2 % 2) as u32,
        packing: (t / 5 % 2) as u32,
        byte_order: (t / 7 % 2) as u32,
        seed: (t + 1100) as u32,
        ..case::base()
    };
    let d = case::laid(c, 32 + t % 6, 7 + t % 5, t % 4);
    case::windowed(d, t % 2, 1, 1, t % 2, 2)
}

pub(crate) fn run() {
    for t in 0..24 {
        let c = wide(t);
        put_case(c);
        let mut trial = Trial::new(c);
        trial.convert();
        trial.restore();
        let word = malformed(c)[t / 3 % 3];
        for spot in [
            luma_at(c, 3, 17),
            last_luma(c),
            chroma_at(c, 2, 21),
            last_chroma(c),
        ] {
            trial.restore_with(spot, word);
        }
    }
}
