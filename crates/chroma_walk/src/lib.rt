// The walk through chroma, row by row and element by element, left at the first wrong sample.
#![tactic(auto)]

ghost use Rattle.std.specs.Prelude.{◌≡◌, length};
ghost use Rattle.rules.specs.Blocks.{chroma_width, chroma_height};
ghost use Rattle.frames.specs.Rows.{Rows};
ghost use Rattle.frames.specs.SourceRows.{WindowRows};
ghost use Rattle.frames.specs.Tests.{Sized};
ghost use Rattle.walks.specs.Walks.{wrong_chroma};

use check_limits::judge::Judge;
use frames::rows;
use row_check::passed;
use rules::{Found, Frame};
use sample_check::row;

// Through chroma: each element is judged by the pixels of its block, in one or two source rows.
pub fn walk_chroma(judge: Judge, f: Frame, source: &[u16], chroma: &[u16]) -> Option<Found>
    requires sized { Sized f }
    requires window_rows { WindowRows judge.settings.channels f (length source.now) }
    requires rows { Rows (length chroma.now) f.chroma_stride (chroma_width judge.settings.subsampling f.width) (chroma_height judge.settings.subsampling f.height) }
    ensures { result ≡ wrong_chroma judge.settings judge.named f source.now chroma.now }
{
    let channels = judge.settings.channels;
    let subsampling = judge.settings.subsampling;
    let width = f.width;
    let height = f.height;
    let wide = blocks::chroma_width(subsampling, width);
    'walk: {
        for row in 0..blocks::chroma_height(subsampling, height) {
            let t = blocks::top(subsampling, row);
            let two = blocks::two(subsampling, height, t);
            let top = rows::source_row(channels, f, source, t);
            let low = rows::source_row(channels, f, source, blocks::second(two, t));
            let from = row * f.chroma_stride;
            let to = from + wide;
            let samples = &chroma[from..to];
            let passed = passed::chroma_passed(judge, width, two, top, low, samples);
            for element in passed..wide {
                if !row::chroma_at(judge, width, two, top, low, samples, element) {
                    break 'walk Some(Found { row, element });
                }
            }
        }
        None
    }
}
