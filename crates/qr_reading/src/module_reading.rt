//! The reading of a symbol's modules, with no correction (ISO/IEC 18004, 12).
ghost use Rattle.std.specs.Prelude.{◌≡◌, ◌≤◌, ◌<◌, ◌==◌, IfSome, length, option_map, slice_index};
ghost use Rattle.std.specs.List.{find, list_all, range_with_len};
ghost use Rattle.qrdata.specs.Versions.{side_of};
ghost use Rattle.qrmatrix.specs.Bits.{bit};
ghost use Rattle.qrmatrix.specs.Private.Squares.{IsBlank};
ghost use Rattle.qrmatrix.specs.Reading.{read_square};
ghost use Rattle.qrmatrix.specs.Square.{value_at};
ghost use Rattle.qr_reading.specs.Private.Walking.{DrawsPatterns, format_named, shows_row};

use crate::block_reading::read_data;
use crate::segment_reading::SymbolData;
use crate::walk::read_codewords;
use labelcore::Level;
use qrdata::{Mask, Version};
use qrmatrix::{SIDE, Square, draw_format, draw_functions};

/// Returns the version whose symbols have this many modules on a side.
fn version_of_side(side: usize) -> Option<Version>
    ensures found { result ≡ find (λ v. side_of v == side) (range_with_len 1 10) }
    ensures side { IfSome result (λ v. side ≡ side_of v) }
{
    if side < 21 || side > SIDE || side % 4 != 1 {
        return None;
    }
    Some(Version::of((side / 4 - 4) as u8))
}

/// Returns whether the module at a place is dark.
#[inline(always)]
fn is_dark(rows: &[u64], x: usize, y: usize) -> bool
    requires { (x < SIDE) × (y < length rows.now) }
    ensures { result ≡ bit (slice_index rows.now y) x }
{
    (rows[y] >> x) % 2 == 1
}

/// Returns the level and the mask that the five highest bits of the format information name. They are the first five
/// modules of row 8 (ISO/IEC 18004, 7.9).
fn format_in(rows: &[u64]) -> (Level, Mask)
    requires { 8 < length rows.now }
    ensures { result ≡ format_named (λ x. bit (slice_index rows.now 8) x) }
{
    let level = match (is_dark(rows, 0, 8), is_dark(rows, 1, 8)) {
        (true, true) => Level::L,
        (true, false) => Level::M,
        (false, true) => Level::Q,
        (false, false) => Level::H,
    };
    let high = 4 * u8::from(!is_dark(rows, 2, 8));
    let low = 2 * u8::from(is_dark(rows, 3, 8)) + u8::from(!is_dark(rows, 4, 8));
    (level, Mask::of(high + low))
}

/// Draws the patterns of a symbol with its format information on two blank squares: the modules that the codewords choose,
/// and those of the others that are dark.
#[tactic(auto, using(crate::proofs::Laws::PatternReadingLaws::role_drawn), unfolding(qrmatrix::specs::Functions::fixed_module, qrmatrix::specs::Functions::is_free))]
fn draw_patterns(version: Version, level: Level, mask: Mask, free: &mut Square, dark: &mut Square)
    requires { IsBlank free.old × IsBlank dark.old }
    ensures { DrawsPatterns version level mask free.new dark.new }
{
    draw_functions(version, free, dark);
    draw_format(version, level, mask, dark);
}

/// Returns whether a row has the patterns.
fn is_row_shown(free: &Square, dark: &Square, rows: &[u64], y: usize) -> bool
    requires { (y < length rows.now) × (length rows.now ≤ SIDE) }
    ensures { result ≡ shows_row (length rows.now) (bit (slice_index rows.now y)) (λ x. value_at free.now x y)
        (λ x. value_at dark.now x y) }
{
    let free = free.row(y);
    let dark = dark.row(y);
    let inside = (1 << rows.len()) - 1;
    (rows[y] ^ dark) & !free & inside == 0
}

/// Returns whether rows have the patterns.
fn are_shown(free: &Square, dark: &Square, rows: &[u64]) -> bool
    requires { length rows.now ≤ SIDE }
    ensures { result ≡ list_all (λ y. shows_row (length rows.now) (bit (slice_index rows.now y))
        (λ x. value_at free.now x y) (λ x. value_at dark.now x y)) (range_with_len 0 (length rows.now)) }
{
    (0..rows.len()).all(|y| is_row_shown(free, dark, rows, y))
}

/// Reads a square of modules as a symbol, with no correction (ISO/IEC 18004, 12): the data of its codewords. Both copies
/// of the format and version information and every module of the other patterns have to be right. There are as many
/// rows as modules on a side, and bit x of number y is the module at column x and row y, dark where set; the bits from
/// the side on are not read.
#[tactic(auto, using(crate::proofs::Laws::SymbolReadingLaws::unknown_side))]
pub fn read(rows: &[u64]) -> Option<SymbolData>
    ensures { option_map (λ bytes. bytes.items) result
        ≡ read_square (length rows.now) (λ x y. bit (slice_index rows.now y) x) }
{
    let version = version_of_side(rows.len())?;
    let (level, mask) = format_in(rows);
    let mut free = Square::new();
    let mut dark = Square::new();
    draw_patterns(version, level, mask, &mut free, &mut dark);
    if !are_shown(&free, &dark, rows) {
        return None;
    }
    read_data(version, level, &read_codewords(version, &free, rows, mask))
}
