// The walk through luma, row by row and element by element, left at the first wrong sample.
#![tactic(auto)]

ghost use Rattle.std.specs.Prelude.{◌≡◌, length};
ghost use Rattle.frames.specs.Rows.{Rows};
ghost use Rattle.frames.specs.SourceRows.{WindowRows};
ghost use Rattle.frames.specs.Tests.{Sized};
ghost use Rattle.walks.specs.Walks.{wrong_luma};

use check_limits::judge::Judge;
use frames::rows;
use row_check::passed;
use rules::{Found, Frame};
use sample_check::row;

// Through luma: each element is judged by the pixel of its column.
pub fn walk_luma(judge: Judge, f: Frame, source: &[u16], luma: &[u16]) -> Option<Found>
    requires sized { Sized f }
    requires window_rows { WindowRows judge.settings.channels f (length source.now) }
    requires rows { Rows (length luma.now) f.luma_stride f.width f.height }
    ensures { result ≡ wrong_luma judge.settings judge.named f source.now luma.now }
{
    let channels = judge.settings.channels;
    let width = f.width;
    let stride = f.luma_stride;
    'walk: {
        for row in 0..f.height {
            let pixels = rows::source_row(channels, f, source, row);
            let from = row * stride;
            let to = from + width;
            let samples = &luma[from..to];
            let passed = passed::luma_passed(judge, width, pixels, samples);
            for element in passed..width {
                if !row::luma_at(judge, width, pixels, samples, element) {
                    break 'walk Some(Found { row, element });
                }
            }
        }
        None
    }
}
