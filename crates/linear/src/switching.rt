//! Code sets, and the rule by which data changes between them (ISO/IEC 15417).
ghost use Rattle.std.specs.Prelude.{◌≡◌, [], ◌∷◌, ◌+◌, ◌≤◌, ◌<◌, ◌||◌, find, nat_le, nat_lt};
ghost use Rattle.std.specs.Char.{IsAsciiDigit};
ghost use Rattle.arrayvec.specs.ArrayVec.{array_vec_len};
ghost use Rattle.linear.specs.declared.limits.TheConstants.{MAX_VALUES};
ghost use Rattle.linear.specs.CodeSets.{set_has, character_value, start_value, change_value, leading_digits};
ghost use Rattle.linear.specs.CodeSets.{is_next, picked_set, is_pair_next, pair_values};
ghost use Rattle.linear.specs.CodeSets.{byte_values, data_values, start_set};
ghost use Rattle.linear.specs.Private.Data.{IsCode128Data};
ghost use Rattle.linear.specs.Private.Lists.{Appends};

use crate::digits::first_not_digit;
use crate::limits::MAX_VALUES;
use arrayvec::ArrayVec;

/// A code set of Code 128: A has the control characters, B the lower case, and C pairs of digits.
#[derive(Clone, Copy)]
pub enum CodeSet {
    A,
    B,
    C,
}

/// The values of a symbol between its start and check value.
pub type Values = ArrayVec<u8, MAX_VALUES>;

/// The value that shifts the next character alone to the other of sets A and B.
const SHIFT: u8 = 98;

/// Returns the number of digits that the bytes begin with.
#[tactic(auto, using(crate::proofs::Laws::DigitLaws::of_leading_digits))]
fn leading_digits(bytes: &[u8]) -> usize
    ensures { result ≡ leading_digits bytes.now }
{
    first_not_digit(bytes).unwrap_or(bytes.len())
}

/// Returns the first byte that only one of sets A and B has.
fn next_special_byte(bytes: &[u8]) -> Option<u8>
    ensures { result ≡ find (λ byte. nat_lt byte 32 || nat_le 96 byte) bytes.now }
{
    bytes.iter().copied().find(|byte| *byte < 32 || *byte >= 96)
}

/// Returns whether the next byte that only one of sets A and B has is of this set.
fn is_next(set: CodeSet, bytes: &[u8]) -> bool
    ensures { result ≡ is_next set bytes.now }
{
    match next_special_byte(bytes) {
        Some(byte) => set_has(set, byte),
        None => false,
    }
}

/// Returns the one of sets A and B to change to for these bytes.
fn picked_set(bytes: &[u8]) -> CodeSet
    ensures { result ≡ picked_set bytes.now }
{
    if is_next(CodeSet::A, bytes) {
        CodeSet::A
    } else {
        CodeSet::B
    }
}

/// Returns whether the next two digits are to be one value of set C.
fn is_pair_next(set: CodeSet, bytes: &[u8]) -> bool
    ensures { result ≡ is_pair_next set bytes.now }
{
    let digits = leading_digits(bytes);
    match set {
        CodeSet::C => digits >= 2,
        _ => digits % 2 == 0 && (digits >= 6 || (digits >= 4 && digits == bytes.len())),
    }
}

/// Returns the set to start in.
pub fn start_set(bytes: &[u8]) -> CodeSet
    ensures { result ≡ start_set bytes.now }
{
    let digits = leading_digits(bytes);
    if digits >= 4 || (digits == 2 && bytes.len() == 2) {
        CodeSet::C
    } else {
        picked_set(bytes)
    }
}

/// Returns the value that starts a symbol in a set.
pub fn start_value(set: CodeSet) -> u8
    ensures { result ≡ start_value set }
{
    match set {
        CodeSet::A => 103,
        CodeSet::B => 104,
        CodeSet::C => 105,
    }
}

/// Returns the value that changes to a set.
fn change_value(set: CodeSet) -> u8
    ensures { result ≡ change_value set }
{
    match set {
        CodeSet::A => 101,
        CodeSet::B => 100,
        CodeSet::C => 99,
    }
}

/// Returns whether a set has a byte as a character of its own.
fn set_has(set: CodeSet, byte: u8) -> bool
    ensures { result ≡ set_has set byte }
{
    match set {
        CodeSet::A => byte < 96,
        CodeSet::B => byte >= 32,
        CodeSet::C => false,
    }
}

/// Returns the value of a byte in set A or B.
fn character_value(byte: u8) -> u8
    requires { byte < 128 }
    ensures { result ≡ character_value byte }
{
    if byte < 32 { byte + 64 } else { byte - 32 }
}

/// Appends two values.
fn push_two(values: &mut Values, first: u8, second: u8)
    requires { array_vec_len values.old + 2 ≤ MAX_VALUES }
    ensures { Appends values.old.items values.new.items (first ∷ second ∷ []) 2 }
{
    values.push(first);
    values.push(second);
}

/// Appends the value of two digits, after a change to set C where another one holds.
fn push_pair(values: &mut Values, set: CodeSet, first: u8, second: u8)
    requires first { IsAsciiDigit first }
    requires second { IsAsciiDigit second }
    requires room { array_vec_len values.old + 2 ≤ MAX_VALUES }
    ensures { Appends values.old.items values.new.items (pair_values set first second) 2 }
{
    if !matches!(set, CodeSet::C) {
        values.push(change_value(CodeSet::C));
    }
    values.push((first - b'0') * 10 + (second - b'0'));
}

/// Appends the values of a byte before `rest`, and returns the set that holds after them.
fn push_byte(values: &mut Values, set: CodeSet, byte: u8, rest: &[u8]) -> CodeSet
    requires ascii { byte < 128 }
    requires room { array_vec_len values.old + 2 ≤ MAX_VALUES }
    ensures values { Appends values.old.items values.new.items (byte_values set byte rest.now).0 2 }
    ensures set { result ≡ (byte_values set byte rest.now).1 }
{
    if set_has(set, byte) {
        values.push(character_value(byte));
        return set;
    }
    if is_next(set, rest) {
        push_two(values, SHIFT, character_value(byte));
        return set;
    }
    let next = picked_set_of(byte, rest);
    push_two(values, change_value(next), character_value(byte));
    next
}

/// Returns the set to change to for a byte before `rest`.
fn picked_set_of(byte: u8, rest: &[u8]) -> CodeSet
    ensures { result ≡ picked_set (byte ∷ rest.now) }
{
    if byte < 32 {
        CodeSet::A
    } else if byte >= 96 {
        CodeSet::B
    } else {
        picked_set(rest)
    }
}

/// Appends the values of data from a set on: at most two for each byte.
pub fn push_values(values: &mut Values, data: &[u8], start: CodeSet)
    requires valid { IsCode128Data «data».now }
    requires blank { values.old.items ≡ [] }
    ensures { values.new.items ≡ data_values start «data».now }
{
    let mut set = start;
    let mut rest = data;
    while let Some((first, after)) = rest.split_first() {
        if is_pair_next(set, rest) {
            push_pair(values, set, *first, after[0]);
            set = CodeSet::C;
            rest = &after[1..];
        } else {
            set = push_byte(values, set, *first, after);
            rest = after;
        }
    }
}
