//! Squares of modules, 64 bits a row.
ghost use Rattle.std.specs.Prelude.{◌≤◌};
ghost use Rattle.qrmatrix.specs.declared.square.TheConstants.{SIDE};

use qrmatrix::SIDE;

/// The modules of a square that is no wider than any symbol: bit x of number y is the module at column x and row y.
#[derive(Drop)]
pub struct Packed {
    pub side: usize,
    pub rows: [u64; SIDE],
    ghost narrow: { side ≤ SIDE },
}
