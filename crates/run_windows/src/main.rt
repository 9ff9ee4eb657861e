// Converts and checks windows, alone and in rings, and prints each case with its window, the answers and both planes; compare/windows.py
// works every line out afresh.
#![tactic(auto)]

mod edges;
mod elements;
mod limits;
mod orders;
mod rings;
mod run;
mod sweep;

fn main() {
    sweep::run();
    edges::run();
    elements::run();
    limits::run();
    orders::run();
    rings::run();
}
