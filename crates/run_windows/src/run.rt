// One case with its window, printed and run: as a frame, and as a ring.
use cases::case::Case;
use cases::text;
use convert_calls::rings::run_ring;

pub(crate) fn frame(c: Case) {
    text::case(c);
    text::window(c);
    frame_runs::run(c);
}

// The buffers of the case are those of all the frames.
pub(crate) fn ring(c: Case, count: usize) {
    text::case(c);
    text::window(c);
    text::line(b"ring", &[count]);
    run_ring(c, count);
}
