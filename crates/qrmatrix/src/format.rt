//! The format information of a symbol.
ghost use Rattle.std.specs.Prelude.{◌≡◌, ◌<◌, ◌≤◌};
ghost use Rattle.qrmatrix.specs.Private.Drawing.{ShowsFormat};
ghost use Rattle.qrmatrix.specs.Private.FunctionRows;

use crate::information::format_information;
use crate::square::{SIDE, Square};
use labelcore::Level;
use qrdata::{Mask, Version};

/// Returns the row of the module in column 8 that has bit `i` of the format information (ISO/IEC 18004, 7.9).
#[tactic(auto, unfolding(crate::specs::Private::FunctionRows::row_of_bit))]
fn row_of_bit(side: usize, i: usize) -> usize
    requires side { (21 ≤ side) × (side ≤ SIDE) }
    requires bit { i < 15 }
    ensures value { result ≡ FunctionRows.row_of_bit side i }
    ensures inside { result < side }
{
    if i < 6 {
        i
    } else if i < 8 {
        // Row 6 has the timing pattern.
        i + 1
    } else {
        side + i - 15
    }
}

/// Returns the column of the module in row 8 that has bit `i` of the format information (ISO/IEC 18004, 7.9).
#[tactic(auto, unfolding(crate::specs::Private::FunctionRows::column_of_bit))]
fn column_of_bit(side: usize, i: usize) -> usize
    requires side { (21 ≤ side) × (side ≤ SIDE) }
    requires bit { i < 15 }
    ensures value { result ≡ FunctionRows.column_of_bit side i }
    ensures inside { result < side }
{
    if i < 8 {
        side - 1 - i
    } else if i == 8 {
        // Column 6 has the timing pattern.
        7
    } else {
        14 - i
    }
}

/// Draws the format information for a mask over modules that are light: each bit in column 8 and in row 8.
pub fn draw_format(version: Version, level: Level, mask: Mask, modules: &mut Square)
    ensures { ShowsFormat version level mask modules.old modules.new }
{
    let information = format_information(level, mask);
    let side = version.side();
    for i in 0..15 {
        let dark = u64::from((information >> i) & 1);
        modules.flip(row_of_bit(side, i), dark << 8);
        modules.flip(8, dark << column_of_bit(side, i));
    }
}
