//! The place of a level in the tables of this crate.
ghost use Rattle.qrdata.specs.Private.Blocks.{place_of};
ghost use Rattle.std.specs.Prelude.{◌≡◌};

use labelcore::Level;

/// Returns the place of a level in a row of a table, 0 to 3.
pub fn place_of(level: Level) -> usize
    ensures { result ≡ place_of level }
{
    match level {
        Level::L => 0,
        Level::M => 1,
        Level::Q => 2,
        Level::H => 3,
    }
}
