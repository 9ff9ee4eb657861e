// A case in buffers of its own.
use answer_numbers::CheckedNumbers;
use cases::case::Case;
use cases::draw;
use cases::draw::Room;
use check_calls::spot;
use check_calls::spot::Spot;

#[derive(Drop)]
pub(crate) struct Trial {
    pub case: Case,
    pub source: Room,
    pub luma: Room,
    pub chroma: Room,
}

impl Trial {
    pub(crate) fn new(case: Case) -> Trial {
        Trial::with_source(case, draw::source_of(case))
    }

    // A case's samples take most of the time that its buffers take, so they are drawn only where they are read.
    pub(crate) fn with_source(case: Case, source: Room) -> Trial {
        Trial {
            case,
            source,
            luma: draw::room(7),
            chroma: draw::room(7),
        }
    }

    pub(crate) fn convert(&mut self) {
        convert_calls::convert(self.case, &self.source, &mut self.luma, &mut self.chroma);
    }

    pub(crate) fn check(&self) -> CheckedNumbers {
        check_calls::check(self.case, &self.source, &self.luma, &self.chroma)
    }

    pub(crate) fn check_word(&mut self, spot: Spot, word: u16) -> CheckedNumbers {
        spot::check_word(
            self.case,
            &self.source,
            &mut self.luma,
            &mut self.chroma,
            spot,
            word,
        )
    }
}
