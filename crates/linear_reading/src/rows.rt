//! Reading of rows by the rule of one symbology.
ghost use Rattle.std.specs.Prelude.{◌≡◌, ◌≤◌, length, option_map};
ghost use Rattle.linear.specs.declared.limits.TheConstants.{MAX_MODULES};
ghost use Rattle.linear_reading.specs.Reading.{read_row};

use arrayvec::ArrayVec;
use linear::{Linear, MAX_MODULES, MAX_VALUES, MIN_MODULES};

/// The most bytes that a row is read as: two digits for each value of a Code 128 symbol.
pub const MAX_FULL_DATA: usize = 2 * MAX_VALUES;

/// The full data that a row is read as. The longest are the digits of a Code 128 symbol in set C.
pub type FullData = ArrayVec<u8, MAX_FULL_DATA>;

/// A linear symbology whose rows are read.
pub trait LinearReading: Linear {
    /// Reads a row that is no longer than [`MAX_MODULES`], as [`LinearReading::read`] does.
    fn read_short(row: &[bool]) -> Option<FullData>
        requires { length row.now ≤ MAX_MODULES }
        ensures { option_map (λ full. full.items) result ≡ Self.reading row.now };

    /// Reads a row of modules: its full data where it is a symbol of this symbology, with no correction. A row that is
    /// shorter than [`MIN_MODULES`] or longer than [`MAX_MODULES`] is not read.
    fn read(row: &[bool]) -> Option<FullData>
        ensures { option_map (λ full. full.items) result ≡ read_row Self.reading row.now }
    {
        if row.len() < MIN_MODULES || row.len() > MAX_MODULES {
            return None;
        }
        Self::read_short(row)
    }
}
