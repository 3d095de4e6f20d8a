//! The bounds of the options that are numbers: one table for all who read a number.
ghost use Rattle.std.specs.Prelude.{◌≡◌};
ghost use Rattle.std.specs.Int.{is_in_range};

/// The numbers from `low` to `high`.
#[derive(Clone, Copy)]
pub struct Bounds {
    pub low: u32,
    pub high: u32,
}

/// How many pixels wide and high a module is.
pub const SCALE: Bounds = Bounds { low: 1, high: 8 };
/// How many modules high a linear symbol is.
pub const HEIGHT: Bounds = Bounds { low: 1, high: 500 };
/// The smallest version that a QR symbol may have.
pub const MIN_VERSION: Bounds = Bounds { low: 1, high: 10 };
/// The mask of a QR symbol.
pub const MASK: Bounds = Bounds { low: 0, high: 7 };

impl Bounds {
    /// Returns whether a number is within these bounds.
    pub fn has(self, number: u32) -> bool
        ensures { result ≡ is_in_range self.low self.high number }
    {
        self.low <= number && number <= self.high
    }
}
