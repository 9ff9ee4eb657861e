// A row of pixels from a row of luma and the row of chroma over it, two columns at a time.
#![tactic(auto)]

ghost use Rattle.std.specs.Prelude.{◌≡◌, ◌+◌, ◌*◌, ◌%◌, ◌<◌, ◌≤◌, length, get_or};
ghost use Rattle.rules.specs.Ranges.{most};
ghost use Rattle.rules.specs.Channels.{count};
ghost use Rattle.rules.specs.Blocks.{pair_over, chroma_width};
ghost use Rattle.rules.specs.Planes.{tabulate};
ghost use Rattle.rules.specs.Storage.{exchanged};
ghost use Rattle.rule_laws.specs.Usable.{Reach};
ghost use Rattle.restoring_weights.specs.RestoringWeights.{SmallWeights};
ghost use Rattle.restored_pixels.specs.Terms.{chroma_terms, pixel_by, SmallTerms};
ghost use Rattle.restored_rows.specs.Columns.{terms_in, column_pixel, row_by, put_pixel, put_column, RowsFit};

use restored_pixels::{ChromaTerms, chroma_terms, pixel_by};
use restoring_weights::RestoringWeights;
use rules::{Pixel, Settings, YuvEndianness, YuvSourceChannels};
use storage::exchanged;
use yuv_support::{channels, ranges};

// The elements of a pixel from an index on, and alpha where there is one.
fn put_pixel(channels: YuvSourceChannels, m: u16, rgb: &mut [u16], at: usize, p: Pixel)
    requires { at + count channels ≤ length rgb.old }
    ensures { rgb.new ≡ put_pixel channels m rgb.old at p }
{
    rgb[at] = p.red;
    rgb[at + 1] = p.green;
    rgb[at + 2] = p.blue;
    if channels::has_alpha(channels) {
        rgb[at + 3] = m;
    }
}

// What rows are turned back by: the settings, the weights, and the greatest code of the depth.
#[derive(Clone, Copy)]
struct Restorer {
    settings: Settings,
    weights: RestoringWeights,
    greatest: u16,
    ghost reach: { Reach settings },
    ghost small: { SmallWeights weights },
    ghost greatest_is: { greatest ≡ most settings.depth },
}

impl Restorer {
    // The terms of the chroma pair that starts at element k.
    fn terms_at(self, endianness: YuvEndianness, chroma: &[u16], k: usize) -> ChromaTerms
        requires { k + 2 ≤ length chroma.now }
        ensures exact { result ≡ chroma_terms self.weights (exchanged endianness (get_or chroma.now (k + self.weights.first.at) 0)) (exchanged endianness (get_or chroma.now (k + self.weights.third.at) 0)) }
        ensures small { SmallTerms result }
    {
        let a = exchanged(endianness, chroma[k + self.weights.first.at]);
        let b = exchanged(endianness, chroma[k + self.weights.third.at]);
        chroma_terms(self.weights, a, b)
    }

    // One column by its luma and the terms of its chroma.
    #[inline(always)]
    fn put_column(
        self,
        endianness: YuvEndianness,
        terms: ChromaTerms,
        luma: &[u16],
        rgb: &mut [u16],
        x: usize,
    )
        requires small { SmallTerms terms }
        requires x_in_bounds { (x < length luma.now) × (x * count self.settings.channels + count self.settings.channels ≤ length rgb.old) }
        ensures { rgb.new ≡ put_column self.settings rgb.old x (pixel_by (most self.settings.depth) self.weights (exchanged endianness (get_or luma.now x 0)) terms) }
    {
        let y = exchanged(endianness, luma[x]);
        let at = x * channels::get_channels_count(self.settings.channels);
        let p = pixel_by(self.settings.depth, self.greatest, self.weights, y, terms);
        put_pixel(self.settings.channels, self.greatest, rgb, at, p);
    }

    // The terms of a column.
    fn column_terms(
        self,
        endianness: YuvEndianness,
        width: usize,
        chroma: &[u16],
        x: usize,
    ) -> ChromaTerms
        requires order { endianness ≡ self.settings.endianness }
        requires width_bound { (width ≤ 16384) × (length chroma.now ≡ chroma_width self.settings.subsampling width) }
        requires x_lt_width { x < width }
        ensures exact { result ≡ terms_in self.settings self.weights chroma.now (2 * pair_over self.settings.subsampling x) }
        ensures small { SmallTerms result }
    {
        let pair = blocks::pair_over(self.settings.subsampling, x);
        self.terms_at(endianness, chroma, 2 * pair)
    }

    // The terms of the column after an even one: the same ones where the two share a chroma pair.
    fn second_terms(
        self,
        endianness: YuvEndianness,
        width: usize,
        chroma: &[u16],
        x: usize,
        terms: ChromaTerms,
    ) -> ChromaTerms
        requires order { endianness ≡ self.settings.endianness }
        requires width_bound { (width ≤ 16384) × (length chroma.now ≡ chroma_width self.settings.subsampling width) }
        requires x_bound { (x + 1 < width) × (x % 2 ≡ 0) }
        requires terms_value { (terms ≡ terms_in self.settings self.weights chroma.now (2 * pair_over self.settings.subsampling x)) × (SmallTerms terms) }
        ensures exact { result ≡ terms_in self.settings self.weights chroma.now (2 * pair_over self.settings.subsampling (x + 1)) }
        ensures small { SmallTerms result }
    {
        if blocks::paired(self.settings.subsampling) {
            terms
        } else {
            self.column_terms(endianness, width, chroma, x + 1)
        }
    }

    // Two columns, the first one even.
    #[inline(always)]
    fn put_two_columns(
        self,
        endianness: YuvEndianness,
        width: usize,
        luma: &[u16],
        chroma: &[u16],
        rgb: &mut [u16],
        x: usize,
    )
        requires order { endianness ≡ self.settings.endianness }
        requires rows_fit { RowsFit self.settings width (length luma.now) (length chroma.now) (length rgb.old) }
        requires x_bound { (x + 1 < width) × (x % 2 ≡ 0) }
        ensures { rgb.new ≡ put_column self.settings (put_column self.settings rgb.old x (column_pixel self.settings self.weights luma.now chroma.now x)) (x + 1) (column_pixel self.settings self.weights luma.now chroma.now (x + 1)) }
    {
        let first = self.column_terms(endianness, width, chroma, x);
        self.put_column(endianness, first, luma, rgb, x);
        let second = self.second_terms(endianness, width, chroma, x, first);
        self.put_column(endianness, second, luma, rgb, x + 1);
    }

    // All columns: two at a time, and an odd last one by itself. It and what it calls are inlined, so once for each order of bytes, and no loop
    // tests the order.
    #[inline(always)]
    fn put_columns(
        self,
        endianness: YuvEndianness,
        width: usize,
        luma: &[u16],
        chroma: &[u16],
        rgb: &mut [u16],
    )
        requires order { endianness ≡ self.settings.endianness }
        requires rows_fit { RowsFit self.settings width (length luma.now) (length chroma.now) (length rgb.old) }
        ensures { rgb.new ≡ tabulate (width * count self.settings.channels) (row_by self.settings self.weights luma.now chroma.now) }
    {
        for i in 0..width / 2 {
            self.put_two_columns(endianness, width, luma, chroma, rgb, 2 * i);
        }
        if width % 2 == 1 {
            let x = width - 1;
            let terms = self.column_terms(endianness, width, chroma, x);
            self.put_column(endianness, terms, luma, rgb, x);
        }
    }
}

// docs/PROMISES.md names this function, so it takes what it took, and makes the restorer itself.
pub fn restore_row(
    s: Settings,
    r: RestoringWeights,
    width: usize,
    luma: &[u16],
    chroma: &[u16],
    rgb: &mut [u16],
)
    requires reach { (Reach s) × (SmallWeights r) }
    requires rows_fit { RowsFit s width (length luma.now) (length chroma.now) (length rgb.old) }
    ensures { rgb.new ≡ tabulate (width * count s.channels) (row_by s r luma.now chroma.now) }
{
    let restorer = Restorer {
        settings: s,
        weights: r,
        greatest: ranges::most(s.depth) as u16,
    };
    match s.endianness {
        YuvEndianness::BigEndian => {
            restorer.put_columns(YuvEndianness::BigEndian, width, luma, chroma, rgb)
        }
        YuvEndianness::LittleEndian => {
            restorer.put_columns(YuvEndianness::LittleEndian, width, luma, chroma, rgb)
        }
    }
}
