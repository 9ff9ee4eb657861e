// Refusal 10: the first visible colour sample that exceeds m, reading row by row.
#![tactic(auto)]

ghost use Rattle.std.specs.Prelude.{◌≡◌, ◌<◌, ◌≤◌, length};
ghost use Rattle.rules.specs.Frames.{window, too_large};
ghost use Rattle.frames.specs.Rows.{LowPicture};
ghost use Rattle.frames.specs.SourceRows.{WindowRows};
ghost use Rattle.scan.specs.Fours.{LowFour};
ghost use Rattle.scan.specs.RowSearch.{search_row};
ghost use Rattle.frames.specs.Tests.{Sized};

use frames::rows;
use rules::{Found, Frame, YuvSourceChannels};

// A number that no colour sample of the four rows from `row` on exceeds; past the last row, that row is taken again.
fn bound_from(channels: YuvSourceChannels, f: Frame, source: &[u16], row: usize) -> u64
    requires sized { Sized f }
    requires window_rows { WindowRows channels f (length source.now) }
    requires row_lt_height { row < f.height }
    ensures { LowFour result (window channels f source.now) f.width f.height row }
{
    let last = f.height - 1;
    let a = rows::source_row(channels, f, source, row);
    let b = rows::source_row(channels, f, source, (row + 1).min(last));
    let c = rows::source_row(channels, f, source, (row + 2).min(last));
    let e = rows::source_row(channels, f, source, (row + 3).min(last));
    row_bounds::four_rows(channels, a, b, c, e)
}

// How many rows, from the first on, surely have no colour sample that exceeds m: all, or those above the first four rows in which one does.
fn rows_low(m: u16, channels: YuvSourceChannels, f: Frame, source: &[u16]) -> usize
    requires sized { Sized f }
    requires window_rows { WindowRows channels f (length source.now) }
    ensures upper_bound { result ≤ f.height }
    ensures low_picture { LowPicture m (window channels f source.now) f.width result }
{
    for four in 0..f.height.div_ceil(4) {
        let row = 4 * four;
        if u64::from(m) < bound_from(channels, f, source, row) {
            return row;
        }
    }
    f.height
}

// The first colour sample of a row that exceeds m.
fn search_row(
    m: u16,
    channels: YuvSourceChannels,
    f: Frame,
    source: &[u16],
    row: usize,
) -> Option<Found>
    requires sized { Sized f }
    requires window_rows { WindowRows channels f (length source.now) }
    requires row_lt_height { row < f.height }
    ensures { result ≡ search_row m f (window channels f source.now) row }
{
    let width = f.width;
    let part = rows::source_row(channels, f, source, row);
    row_search::first_high(m, channels, width, row, part)
}

// Refusal 10.
pub fn too_large(m: u16, channels: YuvSourceChannels, f: Frame, source: &[u16]) -> Option<Found>
    requires sized { Sized f }
    requires window_rows { WindowRows channels f (length source.now) }
    ensures { result ≡ too_large m f (window channels f source.now) }
{
    // no sample of 16 bits exceeds this m
    if m == 65535 {
        return None;
    }
    for row in rows_low(m, channels, f, source)..f.height {
        if let Some(found) = search_row(m, channels, f, source, row) {
            return Some(found);
        }
    }
    None
}
