// A case in buffers of its own.
use cases::case::Case;
use cases::draw::Room;
use cases::{draw, text};
use check_calls::spot::{Spot, get_word, put_word};

// A case with its window.
pub(crate) fn put_case(c: Case) {
    text::case(c);
    text::window(c);
}

// The planes hold 7 in every element before the case's source is converted, and where that is refused.
#[derive(Drop)]
pub(crate) struct Trial {
    pub case: Case,
    pub source: Room,
    pub luma: Room,
    pub chroma: Room,
}

impl Trial {
    pub(crate) fn new(case: Case) -> Trial {
        Trial::with_source(case, draw::source_of(case))
    }

    // A case's samples take most of the time that its buffers take, so they are drawn only where they are read.
    pub(crate) fn with_source(case: Case, source: Room) -> Trial {
        Trial {
            case,
            source,
            luma: draw::room(7),
            chroma: draw::room(7),
        }
    }

    pub(crate) fn convert(&mut self) {
        convert_calls::convert(self.case, &self.source, &mut self.luma, &mut self.chroma);
    }

    pub(crate) fn restore(&self) {
        rgb_calls::run(self.case, &self.luma, &self.chroma);
    }

    // Puts a word at one place, says so, and hands back the old one.
    fn put_and_say(&mut self, spot: Spot, word: u16) -> u16 {
        let old = get_word(&self.luma, &self.chroma, spot);
        put_word(&mut self.luma, &mut self.chroma, spot, word);
        text::line(
            b"put",
            &[
                text::small(spot.place.plane),
                text::small(spot.place.row),
                text::small(spot.place.element),
                usize::from(word),
            ],
        );
        old
    }

    // Turns the planes back with a word at one place, and leaves them as they were.
    pub(crate) fn restore_with(&mut self, spot: Spot, word: u16) {
        let old = self.put_and_say(spot, word);
        self.restore();
        put_word(&mut self.luma, &mut self.chroma, spot, old);
    }

    // The same with a word at two places.
    pub(crate) fn restore_with_two(&mut self, a: Spot, b: Spot, word: u16) {
        let old = self.put_and_say(a, word);
        self.restore_with(b, word);
        put_word(&mut self.luma, &mut self.chroma, a, old);
    }
}

// The planes are those that the case's source is converted to.
pub(crate) fn run_converted(c: Case) {
    put_case(c);
    let mut trial = Trial::new(c);
    trial.convert();
    trial.restore();
}

pub(crate) fn run_unwritten(c: Case) {
    put_case(c);
    text::line(b"unwritten", &[]);
    Trial::with_source(c, draw::room(0)).restore();
}
