// Checks small frames with one or two words changed, frames with rows left over from another, frames written by the former numbers of
// Bt470_6, and settings and frames that are refused; compare/checks.py works every line out afresh.
#![tactic(auto)]

ghost use Rattle.std.specs.Prelude.{◌<◌};

use cases::case;
use cases::case::Case;

mod former;
mod leftover;
mod pairs;
mod trial;
mod unwritten;
mod words;

// Every subsampling with every packing and byte order, at a depth and a matrix of its own.
fn layout(t: usize) -> Case
    requires { t < 12 }
{
    Case {
        depth: 10 + (t % 7) as u32,
        matrix: (t % 5) as u32,
        range: ((t + 1) / 2 % 2) as u32,
        subsampling: (t % 3) as u32,
        order: (t / 6) as u32,
        packing: (t / 3 % 2) as u32,
        byte_order: (t / 6) as u32,
        channels: (t % 4) as u32,
        seed: (t + 40) as u32,
        ..case::base()
    }
}

fn main() {
    for t in 0..12 {
        let c = layout(t);
        words::run(case::laid(c, 3, 3, 1));
        pairs::run(case::laid(c, 3, 2, 1));
        leftover::run(case::laid(c, 5, 4, 1), 91);
        former::run(case::laid(c, 5, 4, 1), (t + 1) as u32);
    }
    // A row left over from the same frame cannot be told from one that was written.
    leftover::run(case::laid(layout(0), 5, 4, 1), 40);
    unwritten::run();
}
