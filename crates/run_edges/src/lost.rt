// Chroma made from a picture in which one pixel is its neighbour's again, beside the right luma: the check names the first sample of the
// block that the pixel is lost from.
ghost use Rattle.std.specs.Prelude.{◌≤◌};

use crate::answers::Answers;
use crate::trial::Trial;
use answer_numbers::CheckedNumbers;
use cases::case::{Case, first_element};
use cases::draw::Room;
use cases::planes::{get, index, put};
use cases::{draw, text};

// The other one of a pair of rows or columns, or the same where there is none.
fn partner(n: usize, size: usize) -> usize
    requires { n ≤ 31 }
    ensures { result ≤ 32 }
{
    if n % 2 == 1 {
        n - 1
    } else if n + 1 < size {
        n + 1
    } else {
        n
    }
}

fn pixel_at(c: Case, row: usize, column: usize) -> usize
    requires { (row ≤ 32) × (column ≤ 32) }
    ensures { result ≤ 2162688 }
{
    index(c.source_stride, row, first_element(c.channels, column))
}

// The three colour samples of a pixel.
fn copy(changed: &mut Room, source: &Room, to: usize, from: usize)
    requires { (to ≤ 2162688) × (from ≤ 2162688) }
{
    for channel in 0..3 {
        put(changed, to + channel, get(source, from + channel));
    }
}

// A converted frame, its picture with one pixel changed, which chroma is made from, and a spare plane for the luma of that.
#[derive(Drop)]
struct Lost {
    trial: Trial,
    changed: Room,
    spare: Room,
}

impl Lost {
    // A pixel taken from another, and put back.
    fn try_pixel(&mut self, to: usize, from: usize) -> CheckedNumbers
        requires { (to ≤ 2162688) × (from ≤ 2162688) }
    {
        copy(&mut self.changed, &self.trial.source, to, from);
        convert_calls::convert(
            self.trial.case,
            &self.changed,
            &mut self.spare,
            &mut self.trial.chroma,
        );
        copy(&mut self.changed, &self.trial.source, to, to);
        self.trial.check()
    }

    // Sixteen pictures of a row have a pixel lost: two for each of two columns of four, in which it is the pixel beside it, then the one above
    // or below it.
    fn try_row(&mut self, row: usize)
        requires { row ≤ 31 }
    {
        let c = self.trial.case;
        let mut all = Answers::default();
        for column in [0, 1, 4, 5, 8, 9, 12, 13] {
            let to = pixel_at(c, row, column);
            let beside = pixel_at(c, row, partner(column, c.width));
            all.add(self.try_pixel(to, beside));
            let across = pixel_at(c, partner(row, c.height), column);
            all.add(self.try_pixel(to, across));
        }
        text::line(
            b"lost",
            &[row, all.accepted, all.wrong, text::small(all.sum)],
        );
    }
}

// A frame of at least 16 columns.
pub(crate) fn run(c: Case) {
    let mut lost = Lost {
        trial: Trial::new(c),
        changed: draw::source_of(c),
        spare: draw::room(7),
    };
    lost.trial.convert();
    for row in 0..c.height.min(32) {
        lost.try_row(row);
    }
}
