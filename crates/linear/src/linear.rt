//! What every linear symbology does.
ghost use Rattle.std.specs.Prelude.{◌≡◌, ◌≢◌, ℕ, Bool, Option, Result, Err, List, [], IsOk, IfOk, IfErr};
ghost use Rattle.labelcore.specs.declared.fault.Fault.{Fault as Refused};
ghost use Rattle.linear.specs.Drawing.{IsDrawn};

use crate::row::Row;
use labelcore::Fault;

/// A linear symbology: which data it takes, and the row of modules of such data.
pub trait Linear {
    /// The full data of a symbol, which has its check digit, or why there is no symbol.
    ghost full_data: { List ℕ → Result (List ℕ) Refused };

    /// The row of modules of full data.
    ghost row_of: { List ℕ → List Bool };

    /// The full data that a row is read as, if it is a symbol.
    ghost reading: { List Bool → Option (List ℕ) };

    /// How many modules of a row may be turned, dark for light or light for dark, so that it is never read.
    ghost turned_limit: { ℕ };

    ghost QUIET_LEFT: { ℕ };

    ghost QUIET_RIGHT: { ℕ };

    /// How wide the quiet zone is that a reader needs before the row, in modules.
    const QUIET_LEFT: usize;

    /// How wide the quiet zone is that a reader needs after the row, in modules.
    const QUIET_RIGHT: usize;

    /// Draws the symbol of `data` into `row`, whose old content is dropped.
    ///
    /// # Errors
    ///
    /// Why the data has no symbol in this symbology. The row is empty then.
    fn encode(data: &[u8], row: &mut Row) -> Result<(), Fault>
        requires { «data».now ≢ [] }
        ensures drawn { IfOk (full_data «data».now)
            (λ full. IsOk result × IsDrawn row_of reading turned_limit full row.new.items) }
        ensures refused { IfErr (full_data «data».now)
            (λ refusal. (result ≡ Err refusal) × (row.new.items ≡ [])) };
}
