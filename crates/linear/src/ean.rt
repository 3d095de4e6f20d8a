//! EAN and UPC symbols (ISO/IEC 15420).
ghost use Rattle.std.specs.Prelude.{◌≡◌, ◌∷◌, ◌+◌, ◌*◌, ◌≤◌, ◌<◌, length, flat_map};
ghost use Rattle.std.specs.Char.{IsAsciiDigit};
ghost use Rattle.arrayvec.specs.ArrayVec.{array_vec_len};
ghost use Rattle.linear.specs.declared.limits.TheConstants.{MAX_MODULES};
ghost use Rattle.linear.specs.Digits.{digit_value};
ghost use Rattle.linear.specs.Ean.{pattern, patterns, symbol, ean8_row, ean13_row};
ghost use Rattle.linear.specs.Private.Data.{AreDigits, IsHalf};
ghost use Rattle.linear.specs.Private.Lists.{Appends};

use crate::digits::full_digits;
use crate::linear::Linear;
use crate::row::{Row, push_modules};
use crate::tables::{CENTRE_GUARD, LEFT_SETS, NORMAL_GUARD, SET_A, SET_B, SET_C};
use labelcore::Fault;

/// A number set: each digit has a pattern of seven modules in each of the three.
#[derive(Clone, Copy)]
pub enum NumberSet {
    A,
    B,
    C,
}

/// Returns the modules of a digit in a number set.
pub fn modules_of(set: NumberSet, digit: u8) -> [bool; 7]
    requires digit { digit < 10 }
    ensures { result ≡ pattern set digit }
{
    let index = usize::from(digit);
    match set {
        NumberSet::A => SET_A[index],
        NumberSet::B => SET_B[index],
        NumberSet::C => SET_C[index],
    }
}

/// Appends a digit in a number set.
fn push_digit(row: &mut Row, set: NumberSet, digit: u8)
    requires digit { digit < 10 }
    requires room { array_vec_len row.old + 7 ≤ MAX_MODULES }
    ensures { Appends row.old.items row.new.items (pattern set digit) 7 }
{
    push_modules(row, &modules_of(set, digit));
}

/// Appends digits, each in its number set.
fn push_left(row: &mut Row, sets: &[NumberSet], digits: &[u8])
    requires same { length sets.now ≡ length digits.now }
    requires half { IsHalf digits.now }
    requires room { array_vec_len row.old + 42 ≤ MAX_MODULES }
    ensures { Appends row.old.items row.new.items (patterns sets.now digits.now)
        (7 * length digits.now) }
{
    for (i, digit) in digits.iter().enumerate() {
        push_digit(row, sets[i], *digit - b'0');
    }
}

/// Appends digits in number set C.
fn push_right(row: &mut Row, digits: &[u8])
    requires half { IsHalf digits.now }
    requires room { array_vec_len row.old + 42 ≤ MAX_MODULES }
    ensures { Appends row.old.items row.new.items
        (flat_map (λ byte. pattern NumberSet.C (digit_value byte)) digits.now)
        (7 * length digits.now) }
{
    for digit in digits {
        push_digit(row, NumberSet::C, *digit - b'0');
    }
}

/// Appends a symbol: a left half in these sets, and a right half in set C, between guards.
fn push_symbol(row: &mut Row, sets: &[NumberSet], left: &[u8], right: &[u8])
    requires same { length sets.now ≡ length left.now }
    requires left { IsHalf left.now }
    requires right { IsHalf right.now }
    requires room { array_vec_len row.old + 95 ≤ MAX_MODULES }
    ensures { Appends row.old.items row.new.items (symbol sets.now left.now right.now) 95 }
{
    push_modules(row, &NORMAL_GUARD);
    push_left(row, sets, left);
    push_modules(row, &CENTRE_GUARD);
    push_right(row, right);
    push_modules(row, &NORMAL_GUARD);
}

/// Appends the symbol of eight digits.
fn push_ean8(row: &mut Row, full: &[u8])
    requires digits { AreDigits 8 full.now }
    requires room { array_vec_len row.old + 95 ≤ MAX_MODULES }
    ensures { Appends row.old.items row.new.items (ean8_row full.now) 95 }
{
    let (left, right) = full.split_at(4);
    push_symbol(row, &[NumberSet::A; 4], left, right);
}

/// EAN-8 (ISO/IEC 15420): seven digits, or eight that end in their check digit, drawn as 67 modules.
///
/// It refuses a byte that is no digit as `NotADigit`, else another number of digits as `WrongNumberOfDigits`, and else
/// a wrong last digit as `WrongCheckDigit`.
pub struct Ean8;

impl Linear for Ean8 {
    ghost use Rattle.linear.specs.Digits.{full_digits};
    ghost use Rattle.linear.specs.Ean.{ean8_row};
    ghost use Rattle.linear.specs.EanReading.{read_ean8};

    ghost full_data = { full_digits 7 };

    ghost row_of = { ean8_row };

    ghost reading = { read_ean8 };

    ghost turned_limit = { 3 };

    ghost QUIET_LEFT = { 7 };

    ghost QUIET_RIGHT = { 7 };

    const QUIET_LEFT: usize = 7;

    const QUIET_RIGHT: usize = 7;

    fn encode(data: &[u8], row: &mut Row) -> Result<(), Fault> {
        row.clear();
        let full = full_digits(7, data)?;
        push_ean8(row, &full);
        Ok(())
    }
}

/// Appends the symbol of a first digit and the twelve after it.
#[tactic(auto, unfolding(crate::specs::Tables::left_half_sets))]
fn push_ean13(row: &mut Row, first: u8, rest: &[u8])
    requires first { IsAsciiDigit first }
    requires rest { AreDigits 12 rest.now }
    requires room { array_vec_len row.old + 95 ≤ MAX_MODULES }
    ensures { Appends row.old.items row.new.items (ean13_row (first ∷ rest.now)) 95 }
{
    let sets = &LEFT_SETS[usize::from(first - b'0')];
    let (left, right) = rest.split_at(6);
    push_symbol(row, sets, left, right);
}

/// EAN-13 (ISO/IEC 15420): twelve digits, or thirteen that end in their check digit, drawn as 95 modules.
///
/// It refuses data as [`Ean8`] does.
pub struct Ean13;

impl Linear for Ean13 {
    ghost use Rattle.linear.specs.Digits.{full_digits};
    ghost use Rattle.linear.specs.Ean.{ean13_row};
    ghost use Rattle.linear.specs.EanReading.{read_ean13};

    ghost full_data = { full_digits 12 };

    ghost row_of = { ean13_row };

    ghost reading = { read_ean13 };

    ghost turned_limit = { 1 };

    ghost QUIET_LEFT = { 11 };

    ghost QUIET_RIGHT = { 7 };

    const QUIET_LEFT: usize = 11;

    const QUIET_RIGHT: usize = 7;

    fn encode(data: &[u8], row: &mut Row) -> Result<(), Fault> {
        row.clear();
        let full = full_digits(12, data)?;
        push_ean13(row, full[0], &full[1..]);
        Ok(())
    }
}

/// UPC-A (ISO/IEC 15420): eleven digits, or twelve that end in their check digit, drawn as 95 modules: those of EAN-13
/// for the same digits after a 0.
///
/// It refuses data as [`Ean8`] does.
pub struct UpcA;

impl Linear for UpcA {
    ghost use Rattle.linear.specs.Digits.{full_digits};
    ghost use Rattle.linear.specs.Ean.{upca_row};
    ghost use Rattle.linear.specs.EanReading.{read_upca};

    ghost full_data = { full_digits 11 };

    ghost row_of = { upca_row };

    ghost reading = { read_upca };

    ghost turned_limit = { 3 };

    ghost QUIET_LEFT = { 9 };

    ghost QUIET_RIGHT = { 9 };

    const QUIET_LEFT: usize = 9;

    const QUIET_RIGHT: usize = 9;

    fn encode(data: &[u8], row: &mut Row) -> Result<(), Fault> {
        row.clear();
        let full = full_digits(11, data)?;
        push_ean13(row, b'0', &full);
        Ok(())
    }
}
