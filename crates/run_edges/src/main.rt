// Checks where acceptance ends: the codes accepted at places of frames whose rows are judged at once, whole rows at fault, pixels that are
// lost from a block, and single blocks with codes at and beyond the tolerance; compare/checks.py works every line out afresh.
#![tactic(auto)]

use cases::case;
use cases::case::Case;

mod answers;
mod edges;
mod faults;
mod lost;
mod pixels;
mod rows;
mod trial;

// Frames of 16 or 17 columns and 5 or 6 rows: every subsampling, packing, byte order and channel layout, at P from 10 to 13. A pixel is lost
// in every seventh of them.
fn run_wide() {
    for t in 0..48 {
        let c = Case {
            depth: 10 + (t % 7) as u32,
            precision: 13 - (t % 4) as u32,
            matrix: (t % 5) as u32,
            // Smpte240 is refused at the full range from depth 13 on.
            range: if t % 5 == 3 { 0 } else { (t / 2 % 2) as u32 },
            subsampling: (t % 3) as u32,
            order: (t / 2 % 2) as u32,
            packing: (t / 3 % 2) as u32,
            byte_order: (t / 6 % 2) as u32,
            channels: (t / 12) as u32,
            seed: (t + 700) as u32,
            ..case::base()
        };
        let d = case::laid(c, 16 + t % 2, 5 + t / 2 % 2, 1);
        rows::run(d);
        if t % 7 == 0 {
            lost::run(d);
        }
    }
}

fn main() {
    run_wide();
    pixels::run();
}
