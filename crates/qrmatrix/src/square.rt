//! A square of truth values, 64 bits a row.
ghost use Rattle.std.specs.Prelude.{◌≡◌, ℕ, ◌^◌, ◌<◌, Bool, ◌&&◌, ◌==◌, if◌then◌else◌, List, false, map};
ghost use Rattle.std.specs.Prelude.{slice_index, All};
ghost use Rattle.qrmatrix.specs.Bits.{bit};
ghost use Rattle.qrmatrix.specs.Private.Squares.{flip_if};
ghost use Rattle.qrmatrix.specs.Private.RowBits.{low_bits, AreRows};
ghost use Rattle.qrmatrix.specs.Square.{value_at};

use std::marker::Model;

/// The modules of a side of the largest symbol, version 10 (ISO/IEC 18004, Table 1).
pub const SIDE: usize = 57;

/// A truth value for each column and row: bit x of row y is the value at column x.
#[derive(Drop)]
pub struct Square {
    rows: [u64; SIDE],
}

impl Model for Square {
    ghost Value = { List (List Bool) };

    ghost view = { λ s. map low_bits s.rows };

    ghost invariant = { λ s. AreRows s.rows };
}

impl Square {
    /// Makes a square of false values.
    pub fn new() -> Square
        ensures { (x y : ℕ) → value_at result x y ≡ false }
    {
        Square { rows: [0; SIDE] }
    }

    /// Takes over the values of another square.
    pub fn copy_from(&mut self, other: &Square)
        ensures { self.new ≡ other.now }
    {
        self.rows = other.rows;
    }

    /// Returns the value at column `x` and row `y`.
    pub fn get(&self, x: usize, y: usize) -> bool
        requires { (x < SIDE) × (y < SIDE) }
        ensures { result ≡ value_at self.now x y }
    {
        (self.rows[y] >> x) & 1 == 1
    }

    /// Returns the bits of row `y`.
    #[tactic(auto, using(crate::proofs::SquareLaws::rows_seen, crate::proofs::SquareLaws::narrow_at))]
    pub fn row(&self, y: usize) -> u64
        requires { y < SIDE }
        ensures bits { (x : ℕ) → bit result x ≡ value_at self.now x y }
        ensures bound { result < 2 ^ SIDE }
    {
        self.rows[y]
    }

    /// Writes the values of row `y`.
    #[tactic(auto, using(crate::proofs::SquareLaws::row_put))]
    pub fn put(&mut self, y: usize, row_bits: u64)
        requires row { y < SIDE }
        requires row_bits { row_bits < 2 ^ SIDE }
        ensures { (a b : ℕ) → value_at self.new a b ≡ (if b == y then bit row_bits a else value_at self.old a b) }
    {
        self.rows[y] = row_bits;
    }

    /// Turns over the values of row `y` at the places of the ones of `row_bits`.
    #[tactic(auto, using(crate::proofs::SquareLaws::row_flipped, crate::proofs::SquareLaws::flipped_rows))]
    pub fn flip(&mut self, y: usize, row_bits: u64)
        requires row { y < SIDE }
        requires row_bits { row_bits < 2 ^ SIDE }
        ensures { (a b : ℕ) → value_at self.new a b
            ≡ flip_if (b == y && bit row_bits a) (value_at self.old a b) }
    {
        self.rows[y] ^= row_bits;
    }

    /// Returns the bits of all rows.
    #[tactic(auto, using(crate::proofs::SquareLaws::rows_seen))]
    pub fn rows(&self) -> &[u64; SIDE]
        ensures bits { (x y : ℕ) → bit (slice_index result.now y) x ≡ value_at self.now x y }
        ensures narrow { All (λ w. w < 2 ^ SIDE) result.now }
    {
        &self.rows
    }
}
