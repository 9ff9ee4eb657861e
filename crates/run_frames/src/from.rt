// All samples from an index on made too large: which sample convert and check then name.
use crate::trial::Trial;
use cases::case::Case;
use cases::draw::within_room;
use cases::planes::put;
use cases::text;
use cases::text::small;

fn convert_and_check(trial: &mut Trial, at: usize) {
    let (n, t) = trial.convert_and_check();
    let p = n.sample;
    let q = t.sample;
    text::line(
        b"from",
        &[
            at,
            small(n.refusal),
            small(p.row),
            small(p.pixel),
            small(p.channel),
            small(t.refusal),
            small(q.row),
            small(q.pixel),
            small(q.channel),
        ],
    );
}

// From the end of the source on, then from each element before it.
pub(crate) fn run(c: Case) {
    let mut trial = Trial::new(c);
    let length = within_room(c.source);
    convert_and_check(&mut trial, length);
    for at in (0..length).rev() {
        put(&mut trial.source, at, u16::MAX);
        convert_and_check(&mut trial, at);
    }
}
