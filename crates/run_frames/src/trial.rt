// A case in buffers of its own.
use answer_numbers::{CheckedNumbers, ConvertedNumbers};
use cases::case::Case;
use cases::draw;
use cases::draw::Room;

#[derive(Drop)]
pub(crate) struct Trial {
    pub case: Case,
    pub source: Room,
    pub luma: Room,
    pub chroma: Room,
}

impl Trial {
    pub(crate) fn new(case: Case) -> Trial {
        Trial {
            case,
            source: draw::source_of(case),
            luma: draw::room(7),
            chroma: draw::room(7),
        }
    }

    // Converts, then checks the planes as they are after that.
    pub(crate) fn convert_and_check(&mut self) -> (ConvertedNumbers, CheckedNumbers) {
        let converted = convert_calls::convert(
            self.case,
            &self.source,
            &mut self.luma,
            &mut self.chroma,
        );
        let checked = check_calls::check(self.case, &self.source, &self.luma, &self.chroma);
        (converted, checked)
    }
}
