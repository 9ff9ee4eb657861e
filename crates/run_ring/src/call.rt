// One call: a ring of frames converted, the answer and both planes printed.
use cases::case::Case;
use cases::text;
use convert_calls::rings::run_ring;

// Runs a ring of so many frames in buffers of its own.
pub(crate) fn run(c: Case, count: usize) {
    text::case(c);
    text::line(b"ring", &[count]);
    run_ring(c, count);
}
