//! Reading of EAN and UPC symbols (ISO/IEC 15420).
ghost use Rattle.std.specs.Prelude.{◌≡◌, ◌+◌, ◌*◌, ◌≤◌, ◌<◌, Bool, IfSome, List, Option, length};
ghost use Rattle.std.specs.Prelude.{option_map, position, true};
ghost use Rattle.std.specs.Result.{result_ok};
ghost use Rattle.std.specs.Str.{bytes_eq};
ghost use Rattle.linear.specs.Digits.{with_check_digit};
ghost use Rattle.linear.specs.EanReading.{digit_in, digit_in_a_or_b, has_guards, read_halves};
ghost use Rattle.linear.specs.EanReading.{with_first_digit};
ghost use Rattle.linear.specs.Private.Data.{AreDigits};
ghost use Rattle.linear.specs.Tables.{left_half_sets};
ghost use Rattle.linear_reading.specs.Private.Groups.{Finds, TakesGroups};

use crate::groups::{each_group, number_of, same_modules};
use crate::rows::{FullData, LinearReading};
use crate::tables::{DIGITS, LEFT_LETTERS};
use arrayvec::ArrayVec;
use linear::{CENTRE_GUARD, Digits, Ean8, Ean13, NORMAL_GUARD, NumberSet, UpcA, with_check_digit};

/// What is found in the groups of a half.
type Half<Y> = ArrayVec<Y, 6>;

/// Returns the digit whose pattern in this number set is the group.
#[inline(always)]
#[tactic(auto, using(crate::proofs::FoundLaws::digits_listed))]
fn digit_in(set: NumberSet, group: &[bool]) -> Option<u8>
    requires { length group.now ≡ 7 }
    ensures { result ≡ digit_in set group.now }
{
    let listed = DIGITS[usize::from(number_of(group) % 128)];
    match (set, listed / 16) {
        (NumberSet::A, 1) | (NumberSet::B, 2) | (NumberSet::C, 3) => Some(b'0' + listed % 16),
        _ => None,
    }
}

/// Returns the letter of the number set in which a left group is found, `A` or `B`, and its digit there.
fn digit_in_a_or_b(group: &[bool]) -> Option<(u8, u8)>
    requires { length group.now ≡ 7 }
    ensures { result ≡ digit_in_a_or_b group.now }
{
    let in_a = digit_in(NumberSet::A, group).map(|digit| (b'A', digit));
    in_a.or(digit_in(NumberSet::B, group).map(|digit| (b'B', digit)))
}

/// Returns whether a row of two halves of this many digits has its guards, with nothing after the last.
fn has_guards(half: usize, row: &[bool]) -> bool
    requires { half ≤ 6 }
    ensures guards { result ≡ has_guards half row.now }
    ensures long { result ≡ true → length row.now ≡ 11 + 14 * half }
{
    if row.len() != 11 + 14 * half {
        return false;
    }
    let centre = 3 + 7 * half;
    let last = 8 + 14 * half;
    same_modules(&row[..3], &NORMAL_GUARD)
        && same_modules(&row[centre..centre + 5], &CENTRE_GUARD)
        && same_modules(&row[last..], &NORMAL_GUARD)
}

/// Returns what is found in the left groups of a symbol, and the digits of its right half.
fn halves<Y: Copy + Default, F: Fn(&[bool]) -> Option<Y>>(
    found: F,
    half: usize,
    row: &[bool],
) -> Option<(Half<Y>, Half<u8>)>
    requires half { half ≤ 6 }
    requires callable { TakesGroups F.Fn found 7 }
    ensures { (rule : List Bool → Option Y) → Finds F.Fn found 7 rule
        → option_map (λ halves. (halves.0.items, halves.1.items)) result ≡ read_halves half rule row.now }
{
    if !has_guards(half, row) {
        return None;
    }
    let left = each_group(found, 7, half, &row[3..]);
    let right = each_group(
        |group| digit_in(NumberSet::C, group),
        7,
        half,
        &row[8 + 7 * half..],
    );
    left.zip(right)
}

/// Returns the first digit that the letters of a left half stand for.
#[tactic(auto, unfolding(linear::specs::Tables::left_half_sets))]
fn first_digit(letters: &[u8]) -> Option<usize>
    ensures found { result ≡ position (bytes_eq letters.now) left_half_sets }
    ensures low { IfSome result (λ digit. digit < 10) }
{
    LEFT_LETTERS
        .iter()
        .position(|row| letters == row.as_slice())
}

/// Returns the digits of two halves after the first digit that the left one stands for.
fn with_first_digit(left: &[(u8, u8)], right: &[u8]) -> Option<Digits>
    requires { (length left.now ≤ 6) × (length right.now ≤ 6) }
    ensures { option_map (λ digits. digits.items) result ≡ with_first_digit (left.now, right.now) }
{
    let mut letters = Half::new();
    let mut digits = Digits::new();
    for (letter, digit) in left {
        letters.push(*letter);
        digits.push(*digit);
    }
    let first = first_digit(&letters)?;
    digits.insert(0, b'0' + first as u8);
    // There is space for them, so that it cannot fail.
    let _ = digits.try_extend_from_slice(right);
    Some(digits)
}

/// Returns digits as full data, if the last one is the check digit of those before it.
fn checked(count: usize, digits: &[u8]) -> Option<FullData>
    requires count { count ≤ 12 }
    requires digits { AreDigits (count + 1) digits.now }
    ensures { option_map (λ full. full.items) result ≡ result_ok (with_check_digit count digits.now) }
{
    let full = with_check_digit(count, digits).ok()?;
    // There is space for them, so that it cannot fail.
    FullData::try_from(full.as_slice()).ok()
}

impl LinearReading for Ean13 {
    fn read_short(row: &[bool]) -> Option<FullData> {
        let (left, right) = halves(digit_in_a_or_b, 6, row)?;
        checked(12, &with_first_digit(&left, &right)?)
    }
}

impl LinearReading for Ean8 {
    fn read_short(row: &[bool]) -> Option<FullData> {
        let (left, right) = halves(|group| digit_in(NumberSet::A, group), 4, row)?;
        let mut digits = Digits::new();
        // There is space for them, so that it cannot fail.
        let _ = digits.try_extend_from_slice(&left);
        let _ = digits.try_extend_from_slice(&right);
        checked(7, &digits)
    }
}

impl LinearReading for UpcA {
    fn read_short(row: &[bool]) -> Option<FullData> {
        match Ean13::read_short(row)?.as_slice() {
            [b'0', rest @ ..] => FullData::try_from(rest).ok(),
            _ => None,
        }
    }
}
