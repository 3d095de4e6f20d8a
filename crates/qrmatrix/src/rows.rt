//! The rows of a symbol: 64 bits each, or 32 bits each in versions 1 to 3, which have at most 29 modules on a side.
ghost use Rattle.std.specs.Prelude.{◌≡◌, ℕ, ◌<◌, Bool};
ghost use Rattle.qrmatrix.specs.Private.Narrow.{narrow_at};
ghost use Rattle.qrmatrix.specs.Square.{value_at};

use crate::square::{SIDE, Square};
use crate::word::Word;

/// The rows of a symbol.
pub trait Rows {
    type Row: Word;

    // The module at a column and a row.
    ghost module_at: { Self → ℕ → ℕ → Bool };

    /// Returns the bits of row `y`.
    fn row_at(&self, y: usize) -> Self::Row
        requires side { y < SIDE }
        requires width { y < Self.Row.width }
        ensures { (x : ℕ) → Self.Row.bits result x ≡ module_at self.now x y };
}

impl Rows for Square {
    type Row = u64;

    ghost module_at = { value_at };

    fn row_at(&self, y: usize) -> u64 {
        self.row(y)
    }
}

impl Rows for [u32; 32] {
    type Row = u32;

    ghost module_at = { narrow_at };

    fn row_at(&self, y: usize) -> u32 {
        self[y]
    }
}

/// Returns the first 32 columns of the first 32 rows.
pub fn narrow_rows(modules: &Square) -> [u32; 32]
    ensures { (x y : ℕ) → x < 32 → y < 32 → narrow_at result x y ≡ value_at modules.now x y }
{
    let mut rows = [0; 32];
    for y in 0..32 {
        rows[y] = (modules.row(y) & 0xFFFFFFFF) as u32;
    }
    rows
}
