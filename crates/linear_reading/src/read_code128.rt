//! Reading of Code 128 symbols (ISO/IEC 15417).
ghost use Rattle.std.specs.Prelude.{◌≡◌, ◌∷◌, ◌+◌, ◌*◌, ◌≤◌, ◌&&◌, ◌==◌, length, option_map, ◌++◌, [], false};
ghost use Rattle.std.specs.Prelude.{drop, if◌then◌else◌};
ghost use Rattle.std.specs.Str.{bytes_eq};
ghost use Rattle.linear.specs.declared.limits.TheConstants.{MAX_VALUES};
ghost use Rattle.linear_reading.specs.declared.rows.TheConstants.{MAX_FULL_DATA};
ghost use Rattle.arrayvec.specs.ArrayVec.{array_vec_len};
ghost use Rattle.linear.specs.Code128.{character_modules, with_check};
ghost use Rattle.linear.specs.Code128Reading.{meaning, other_set, read_values, symbol_data};
ghost use Rattle.linear.specs.Modules.{same_modules};
ghost use Rattle.linear_reading.specs.Private.Meanings.{group_value, meant, set_in, step};

use crate::groups::{each_group, number_of, same_modules};
use crate::rows::{FullData, LinearReading};
use crate::tables::VALUES;
use linear::{CHARACTERS, Code128, CodeSet, MAX_VALUES, STOP, check_value, start_value};

/// The most values of a symbol before the stop character: with the start and the check value.
const MOST: usize = MAX_VALUES + 2;

/// What a value means between the start and the check value.
#[derive(Clone, Copy)]
pub enum Meaning {
    Character(u8),
    Pair(u8, u8),
    Change(CodeSet),
    Shift,
    Nothing,
}

/// Returns the meaning of a value while a set holds.
fn meaning_of(set: CodeSet, value: u8) -> Meaning
    ensures { meant result ≡ meaning set value }
{
    match (set, value) {
        (CodeSet::A, 0..96) => Meaning::Character((value + 32) % 96),
        (CodeSet::B, 0..96) => Meaning::Character(value + 32),
        (CodeSet::C, 0..100) => Meaning::Pair(b'0' + value / 10, b'0' + value % 10),
        (CodeSet::A | CodeSet::B, 98) => Meaning::Shift,
        (CodeSet::A | CodeSet::B, 99) => Meaning::Change(CodeSet::C),
        (CodeSet::A | CodeSet::C, 100) => Meaning::Change(CodeSet::B),
        (CodeSet::B | CodeSet::C, 101) => Meaning::Change(CodeSet::A),
        _ => Meaning::Nothing,
    }
}

/// Reads a value in the set that holds, or after a shift in the other one of A and B, and appends its text. Returns the
/// set that holds after it, and whether the next value is shifted.
fn read_value(
    full: &mut FullData,
    set: CodeSet,
    is_shifted: bool,
    value: u8,
) -> Option<(CodeSet, bool)>
    requires { array_vec_len full.old + 2 ≤ MAX_FULL_DATA }
    ensures read { option_map (λ next. (full.new.items, next)) result
        ≡ step full.old.items set is_shifted (meaning (if is_shifted then other_set set else set) value) }
    ensures len { array_vec_len full.new ≤ array_vec_len full.old + 2 }
{
    let set_here = match (set, is_shifted) {
        (CodeSet::A, true) => CodeSet::B,
        (CodeSet::B, true) => CodeSet::A,
        _ => set,
    };
    match meaning_of(set_here, value) {
        Meaning::Character(byte) => {
            full.push(byte);
            Some((set, false))
        }
        Meaning::Pair(first, second) => {
            full.push(first);
            full.push(second);
            Some((set, false))
        }
        Meaning::Change(next) if !is_shifted => Some((next, false)),
        Meaning::Shift if !is_shifted => Some((set, true)),
        _ => None,
    }
}

/// Returns the bytes of values, from a set on.
#[tactic(auto, using(crate::proofs::ValueStepLaws::nothing_before, crate::proofs::ValueStepLaws::value_read, crate::proofs::ValueStepLaws::no_value_read, crate::proofs::ValueStepLaws::all_read))]
fn read_values(start: CodeSet, values: &[u8]) -> Option<FullData>
    requires { length values.now ≤ MAX_VALUES }
    ensures { option_map (λ full. full.items) result ≡ read_values start false values.now }
{
    let mut full = FullData::new();
    let mut set = start;
    let mut is_shifted = false;
    for value in values {
        let next = read_value(&mut full, set, is_shifted, *value)?;
        set = next.0;
        is_shifted = next.1;
    }
    (!is_shifted).then_some(full)
}

/// Returns whether the values of a symbol before the stop character begin and end as they do in this set: with its start
/// value, and with the check value.
#[tactic(auto, using(crate::proofs::SymbolDataLaws::by_ends))]
fn is_in(set: CodeSet, start: u8, inner: &[u8], check: u8) -> bool
    requires { length inner.now ≤ MAX_VALUES }
    ensures { result ≡ bytes_eq (with_check set inner.now) (start ∷ (inner.now ++ check ∷ [])) }
{
    start_value(set) == start && check_value(start, inner) == check
}

/// Returns the set that the values of a symbol before the stop character start in.
fn set_of(start: u8, inner: &[u8], check: u8) -> Option<CodeSet>
    requires { length inner.now ≤ MAX_VALUES }
    ensures { result ≡ set_in inner.now (start ∷ (inner.now ++ check ∷ [])) }
{
    [CodeSet::A, CodeSet::B, CodeSet::C]
        .iter()
        .copied()
        .find(|set| is_in(*set, start, inner, check))
}

/// Returns the bytes of the values before the stop character: a start value, those of the data, and the check value.
fn symbol_data(values: &[u8]) -> Option<FullData>
    requires { length values.now ≤ MAX_VALUES + 2 }
    ensures { option_map (λ full. full.items) result ≡ symbol_data values.now }
{
    match values {
        [start, inner @ .., check] => read_values(set_of(*start, inner, *check)?, inner),
        _ => None,
    }
}

/// Returns the value whose character is the group of eleven modules.
#[inline(always)]
#[tactic(auto, using(crate::proofs::FoundLaws::values_low, crate::proofs::FoundLaws::value_found))]
fn value_of(group: &[bool]) -> Option<u8>
    requires { length group.now ≡ 11 }
    ensures { result ≡ group_value group.now }
{
    let value = VALUES[usize::from(number_of(&group[2..10]))];
    same_modules(group, &CHARACTERS[usize::from(value)]).then_some(value)
}

/// Returns whether modules are the stop character.
#[tactic(auto, using(linear::proofs::Laws::TableLaws::stop_character))]
fn is_stop(modules: &[bool]) -> bool
    ensures { result ≡ same_modules modules.now (character_modules 106) }
{
    same_modules(modules, &STOP)
}

/// Returns whether a row has this many characters of eleven modules, and the stop character after them.
fn is_stopped(count: usize, row: &[bool]) -> bool
    requires { 11 * count ≤ length row.now }
    ensures { result ≡ (length row.now == 11 * count + 13
        && same_modules (drop (11 * count) row.now) (character_modules 106)) }
{
    row.len() == 11 * count + 13 && is_stop(&row[11 * count..])
}

impl LinearReading for Code128 {
    fn read_short(row: &[bool]) -> Option<FullData> {
        let count = row.len().saturating_sub(13) / 11;
        if !is_stopped(count, row) {
            return None;
        }
        symbol_data(&each_group::<u8, _, MOST>(value_of, 11, count, row)?)
    }
}
