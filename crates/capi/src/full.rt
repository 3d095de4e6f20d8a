//! The full data of a symbol into a caller's room.
ghost use Rattle.std.specs.Prelude.{◌≤◌, IfOk};
ghost use Rattle.labelcore.specs.OptionValues.{LabelValues};
ghost use Rattle.linear.specs.Digits.{full_digits};
ghost use Rattle.filter.specs.Symbol.{symbol_of};
ghost use Rattle.capi.specs.Full.{IsFullPut};

use crate::room::put;
use labelcore::Symbology;
use linear::full_digits;

/// Puts the full data of a symbol into a room, as much as there is room for. Returns the length of the whole.
pub fn put_full(symbology: Symbology, bytes: &[u8], room: &mut [u8]) -> usize
    ensures { (label : LabelValues) → IfOk (symbol_of label symbology bytes.now)
        (λ symbol. IsFullPut symbol.full room.old room.new result) }
{
    match symbology {
        Symbology::Ean13 => put_digits(12, bytes, room),
        Symbology::Ean8 => put_digits(7, bytes, room),
        Symbology::UpcA => put_digits(11, bytes, room),
        Symbology::Code128 => put_whole(bytes, room),
        Symbology::Qr => put_whole(bytes, room),
    }
}

/// Puts digits with their check digit, which is appended or already there: then it is not computed again.
fn put_digits(count: usize, bytes: &[u8], room: &mut [u8]) -> usize
    requires { count ≤ 12 }
    ensures { IfOk (full_digits count bytes.now) (λ full. IsFullPut full room.old room.new result) }
{
    if bytes.len() == count + 1 {
        return put_whole(bytes, room);
    }
    match full_digits(count, bytes) {
        Ok(full) => put_whole(&full, room),
        Err(_) => 0,
    }
}

/// Puts bytes.
fn put_whole(bytes: &[u8], room: &mut [u8]) -> usize
    ensures { IsFullPut bytes.now room.old room.new result }
{
    put(room, 0, bytes);
    bytes.len()
}
