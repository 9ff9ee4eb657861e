// Rings of three frames with windows of every corner, subsampling and channel layout.
ghost use Rattle.std.specs.Prelude.{◌<◌};

use crate::{run, sweep};
use cases::case::Case;
use convert_calls::rings::{end_to_end, start_of};

// Frame number t % 4 has 65,535 at an element that changes from ring to ring, in the window or outside it; number 3 lies past the last.
fn run_ring(t: usize)
    requires { t < 192 }
{
    let c = sweep::window(t);
    let d = Case {
        at: start_of(c.source, t % 4) + t * 7 % 60,
        sample: 65535,
        ..end_to_end(c, 3)
    };
    run::ring(d, 3);
}

pub(crate) fn run() {
    for t in 0..192 {
        run_ring(t);
    }
}
