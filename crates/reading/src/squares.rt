//! Modules read as QR symbols.
ghost use Rattle.std.specs.Prelude.{◌≡◌, ◌<◌, ◌≤◌, ◌+◌, ◌-◌, ◌&&◌, ℕ, MatchOption, nat_lt, option_map, slice_index};
ghost use Rattle.qrmatrix.specs.Bits.{bit};
ghost use Rattle.labelcore.specs.declared.symbology.Symbology.TheVariants.{Qr};
ghost use Rattle.picture.specs.Picture.{Picture};
ghost use Rattle.picture.specs.Reading.{raster};
ghost use Rattle.reading.specs.Found.{quarter};
ghost use Rattle.reading.specs.Labels.{read_label};
ghost use Rattle.reading.specs.Private.{IsNoSquare, Packs};

use crate::packed::Packed;
use picture::Grid;
use qr_reading::{SymbolData, read};
use qrmatrix::SIDE;

/// Returns the modules of a row as the bits of a number, column 0 the lowest.
fn row_word<G: Grid>(modules: &G, y: usize) -> u64
    requires wide { (G.picture modules.now).width ≤ SIDE }
    requires high { y < (G.picture modules.now).height }
    ensures { (x : ℕ) → bit result x ≡ (nat_lt x (G.picture modules.now).width && (G.picture modules.now).dark x y) }
{
    let width = modules.width();
    let mut row = 0;
    for place in 0..width {
        row = 2 * row + u64::from(modules.dark(width - 1 - place, y));
    }
    row
}

impl Packed {
    /// Packs modules. `None`: they are no square, or a wider one than any symbol.
    pub fn of<G: Grid>(modules: &G) -> Option<Packed>
        ensures { MatchOption result (IsNoSquare (G.picture modules.now)) (Packs (G.picture modules.now)) }
    {
        let side = modules.width();
        if side != modules.height() || side > SIDE {
            return None;
        }
        let mut rows = [0; SIDE];
        for y in 0..side {
            rows[y] = row_word(modules, y);
        }
        Some(Packed { side, rows })
    }

    /// Returns the modules of a column as the bits of a number, the last row the lowest.
    fn column_word(&self, x: usize) -> u64
        requires { x < SIDE }
        ensures { (i : ℕ) → bit result i
            ≡ (nat_lt i self.now.side && bit (slice_index self.now.rows (self.now.side - 1 - i)) x) }
    {
        let mut column = 0;
        for y in 0..self.side {
            column = 2 * column + (self.rows[y] >> x & 1);
        }
        column
    }

    /// Returns the modules of a column and of the three after it, as `column_word` does.
    fn four_column_words(&self, x: usize) -> [u64; 4]
        requires { x + 3 < SIDE }
        ensures { (k i : ℕ) → k < 4 → bit (slice_index result k) i
            ≡ (nat_lt i self.now.side && bit (slice_index self.now.rows (self.now.side - 1 - i)) (x + k)) }
    {
        let mut first = 0;
        let mut second = 0;
        let mut third = 0;
        let mut fourth = 0;
        for y in 0..self.side {
            let row = self.rows[y] >> x;
            first = 2 * first + (row & 1);
            second = 2 * second + (row >> 1 & 1);
            third = 2 * third + (row >> 2 & 1);
            fourth = 2 * fourth + (row >> 3 & 1);
        }
        [first, second, third, fourth]
    }

    /// Turns the square clockwise by a quarter turn.
    pub fn turn(&mut self)
        ensures { (p : Picture) → Packs p self.old → Packs (quarter p) self.new }
    {
        let mut rows = [0; SIDE];
        let most = self.side / 4 * 4;
        for block in 0..self.side / 4 {
            let columns = self.four_column_words(4 * block);
            rows[4 * block] = columns[0];
            rows[4 * block + 1] = columns[1];
            rows[4 * block + 2] = columns[2];
            rows[4 * block + 3] = columns[3];
        }
        for y in most..self.side {
            rows[y] = self.column_word(y);
        }
        self.rows = rows;
    }

    /// Reads the modules as a QR symbol: its data.
    pub fn read(&self) -> Option<SymbolData>
        ensures { (p : Picture) → Packs p self.now
            → option_map (λ bytes. bytes.items) result ≡ read_label Qr (raster p).rows }
    {
        read(&self.rows[..self.side])
    }
}

/// Reads modules as a QR symbol, which is a square: its data.
pub fn read_square<G: Grid>(modules: &G) -> Option<SymbolData>
    ensures { option_map (λ bytes. bytes.items) result ≡ read_label Qr (raster (G.picture modules.now)).rows }
{
    Packed::of(modules)?.read()
}
