// Many answers of the check in three numbers: how many accept, how many name a sample, and a checksum of all of them.
use answer_numbers::CheckedNumbers;
use cases::text::mixed;

#[derive(Clone, Copy, Default)]
pub(crate) struct Answers {
    pub accepted: usize,
    pub wrong: usize,
    pub sum: u32,
}

impl Answers {
    pub(crate) fn add(&mut self, t: CheckedNumbers) {
        if t.refusal == 0 && t.wrong == 0 {
            self.accepted = self.accepted.saturating_add(1);
        }
        if t.refusal == 0 && t.wrong == 1 {
            self.wrong = self.wrong.saturating_add(1);
        }
        let p = t.place;
        self.sum = [t.refusal, t.wrong, p.plane, p.row, p.element]
            .into_iter()
            .fold(self.sum, mixed);
    }
}
