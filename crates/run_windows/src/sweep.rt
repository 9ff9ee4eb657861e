// Every corner from column 0 to 3 and row 0 to 3 with every subsampling and channel layout, the other settings and the size changing from
// case to case.
ghost use Rattle.std.specs.Prelude.{◌≡◌, ◌≤◌, ◌<◌};

use crate::run;
use cases::case;
use cases::case::Case;

// A frame of its size that fills its source.
fn whole(t: usize) -> Case
    requires { t < 192 }
    ensures { (result.width ≤ 4) × (result.height ≤ 4) }
{
    // `as` loses nothing of so small a number, where `try_from` would give a Result.
    let n = t as u32;
    let c = Case {
        depth: 10 + n % 7,
        matrix: n % 5,
        range: n / 2 % 2,
        subsampling: n / 64,
        order: n / 3 % 2,
        packing: n / 5 % 2,
        byte_order: n / 7 % 2,
        channels: n / 16 % 4,
        seed: n + 500,
        ..case::base()
    };
    case::laid(c, 2 + (t + t / 4) % 3, 2 + (t + t / 16) % 3, t % 2)
}

pub(crate) fn window(t: usize) -> Case
    requires { t < 192 }
    ensures { (result.width ≤ 4) × (result.height ≤ 4) }
{
    case::windowed(whole(t), t % 4, t % 3, t / 4 % 4, t / 3 % 3, t % 3)
}

pub(crate) fn run() {
    for t in 0..192 {
        run::frame(window(t));
    }
}
