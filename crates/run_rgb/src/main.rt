// Turns planes back to RGB and prints each case with its window, what was done to its planes, the answer and the RGB buffer after;
// compare/rgb.py works every line out afresh.
#![tactic(auto)]

use cases::case;

mod buffers;
mod codes;
mod greys;
mod orders;
mod patterns;
mod places;
mod settings;
mod sizes;
mod stored;
mod sweep;
mod trial;
mod wide;
mod windows;
mod words;

// Document 01's frame comes first.
fn main() {
    trial::run_converted(case::base());
    sweep::run();
    wide::run();
    codes::run();
    greys::run();
    words::run();
    settings::run();
    sizes::run();
    windows::run();
    buffers::run();
    orders::run();
}
