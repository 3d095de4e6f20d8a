//! A drawn symbol.
ghost use Rattle.std.specs.Prelude.{◌≡◌, ℕ, ◌<◌, ◌≤◌, ◌&&◌, length};
ghost use Rattle.std.specs.Prelude.{slice_index};
ghost use Rattle.labelcore.specs.Ranges.{IsMask};
ghost use Rattle.qrdata.specs.Versions.{side_of, total_codewords};
ghost use Rattle.qrmatrix.specs.Bits.{bit};
ghost use Rattle.qrmatrix.specs.Modules.{is_inside};
ghost use Rattle.qrmatrix.specs.Penalty;
ghost use Rattle.qrmatrix.specs.Symbol.{IsSymbolOf, Symbol, is_dark};
ghost use Rattle.qrmatrix.specs.Private.Squares.{IsWithin};

use crate::penalty::penalty;
use crate::square::{SIDE, Square};
use crate::unmasked::{Masked, Unmasked};
use labelcore::Level;
use qrdata::{Mask, Version, Words, are_bytes};
use std::marker::Model;

/// The width of the quiet zone on each side of a symbol, in modules (ISO/IEC 18004, 9.1).
pub const QUIET_ZONE: usize = 4;

/// The modules of a QR Code symbol.
#[derive(Drop)]
pub struct Matrix {
    side: usize,
    mask: Mask,
    modules: Square,
}

impl Model for Matrix {
    ghost Value = { Symbol };

    ghost view = { λ m. record { side = m.side; mask = m.mask; rows = m.modules } };

    ghost invariant = { λ m. record {
      least : 21 ≤ m.side;
      most : m.side ≤ side_of 10;
      within : IsWithin m.side m.modules;
    } };
}

impl Matrix {
    /// Draws the codewords of a symbol under the given mask, 0 to 7, or else under the mask of the lowest penalty,
    /// the first of several (ISO/IEC 18004, 7.7 to 7.10). The modules read back as the version, the level and the
    /// codewords.
    pub fn draw(version: Version, level: Level, mask: Option<u8>, words: &Words) -> Matrix
        requires words { length words.now.items ≡ total_codewords version }
        requires mask { IsMask mask }
        ensures { IsSymbolOf version level mask words.now.items result }
    {
        are_bytes(words);
        // Symbols are drawn where they stay: one that a function returns is copied.
        let mut unmasked = Unmasked {
            version,
            level,
            free: Square::new(),
            modules: Square::new(),
        };
        unmasked.draw(words);
        let mut masked = Masked::blank();
        match mask {
            Some(number) => unmasked.draw_under(Mask::of(number), &mut masked),
            None => unmasked.draw_under_best_mask(&mut masked),
        }
        Matrix {
            side: version.side(),
            mask: masked.mask,
            modules: masked.modules,
        }
    }

    /// Returns whether the module at column `x` and row `y` is dark.
    pub fn dark(&self, x: usize, y: usize) -> bool
        requires column { x < self.now.side }
        requires row { y < self.now.side }
        ensures { result ≡ is_dark self.now x y }
    {
        self.modules.get(x, y)
    }

    /// Returns the rows: bit x of number y is the module at column x and row y, and the bits from the side on are 0.
    pub fn rows(&self) -> &[u64; SIDE]
        ensures bits { (x y : ℕ) → bit (slice_index result.now y) x
            ≡ (is_inside self.now.side x y && is_dark self.now x y) }
        ensures bound { self.now.side ≤ side_of 10 }
    {
        self.modules.rows()
    }

    /// Returns the number of modules on a side, 21 to 57.
    pub fn side(&self) -> usize
        ensures value { result ≡ self.now.side }
        ensures bound { result ≤ side_of 10 }
    {
        self.side
    }

    /// Returns the number of the mask, 0 to 7.
    pub fn mask(&self) -> u8
        ensures value { result ≡ self.now.mask }
        ensures known { result < 8 }
    {
        self.mask.number()
    }

    /// Returns the penalty of the modules (in the manner of ISO/IEC 18004, 7.8.3).
    pub fn penalty(&self) -> u32
        ensures { result ≡ Penalty.penalty self.now.side (is_dark self.now) }
    {
        penalty(&self.modules, self.side) as u32
    }
}
