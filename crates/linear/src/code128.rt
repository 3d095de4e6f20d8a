//! Code 128 symbols (ISO/IEC 15417).
ghost use Rattle.std.specs.Prelude.{◌≡◌, [], ◌+◌, ◌*◌, ◌≤◌, ◌<◌, All, Ok, Err, OnOk, MatchResult, length};
ghost use Rattle.std.specs.Prelude.{flat_map, position, nat_le, nat_lt};
ghost use Rattle.std.specs.List.{list_all};
ghost use Rattle.arrayvec.specs.ArrayVec.{array_vec_len};
ghost use Rattle.linear.specs.declared.limits.TheConstants.{MAX_VALUES, MAX_MODULES};
ghost use Rattle.linear.specs.Code128.{check_value, character_modules, full_code128, code128_row};
ghost use Rattle.linear.specs.Private.Data.{IsCode128Data};
ghost use Rattle.linear.specs.Private.Lists.{Appends};

use crate::limits::MAX_BYTES;
use crate::linear::Linear;
use crate::row::{Row, push_modules};
use crate::switching::{Values, push_values, start_set, start_value};
use crate::tables::{CHARACTERS, STOP};
use labelcore::Fault;

/// Returns the check value of a start value and the values after it, from 0 to 102.
pub fn check_value(start: u8, values: &[u8]) -> u8
    requires { length values.now ≤ MAX_VALUES }
    ensures { result ≡ check_value start values.now }
{
    let mut sum = u32::from(start);
    let mut place = 1;
    for value in values {
        sum += place * u32::from(*value);
        place += 1;
    }
    (sum % 103) as u8
}

/// Returns the modules of a value, from 0 to 105.
fn modules_of(value: u8) -> [bool; 11]
    requires { value < 106 }
    ensures { result ≡ character_modules value }
{
    CHARACTERS[usize::from(value)]
}

/// Appends the character of a value.
fn push_character(row: &mut Row, value: u8)
    requires value { value < 106 }
    requires room { array_vec_len row.old + 11 ≤ MAX_MODULES }
    ensures { Appends row.old.items row.new.items (character_modules value) 11 }
{
    push_modules(row, &modules_of(value));
}

/// Appends the characters of values, from left to right.
fn push_characters(row: &mut Row, values: &[u8])
    requires values { All (λ value. value < 106) values.now }
    requires room { array_vec_len row.old + 11 * length values.now ≤ MAX_MODULES }
    ensures { Appends row.old.items row.new.items (flat_map character_modules values.now)
        (11 * length values.now) }
{
    for value in values {
        push_character(row, *value);
    }
}

/// Appends the stop character.
#[tactic(auto, using(crate::proofs::Laws::TableLaws::stop_character))]
fn push_stop(row: &mut Row)
    requires { array_vec_len row.old + 13 ≤ MAX_MODULES }
    ensures { Appends row.old.items row.new.items (character_modules 106) 13 }
{
    push_modules(row, &STOP);
}

/// Appends the symbol of data: its start value, the values of the data, the check value and the stop character.
fn push_code128(row: &mut Row, data: &[u8])
    requires valid { IsCode128Data «data».now }
    requires blank { row.old.items ≡ [] }
    ensures { Appends row.old.items row.new.items (code128_row «data».now) MAX_MODULES }
{
    let set = start_set(data);
    let start = start_value(set);
    let mut values = Values::new();
    push_values(&mut values, data, set);
    push_character(row, start);
    push_characters(row, &values);
    push_character(row, check_value(start, &values));
    push_stop(row);
}

/// Checks that data can be a symbol: at most 80 bytes, all of them ASCII.
///
/// # Errors
///
/// `DataTooLong`, or else `NotAscii` with the place of the first byte from 128 on.
#[tactic(auto, using(crate::proofs::Laws::Code128Laws::all_ascii_from_None))]
fn check_data(data: &[u8]) -> Result<(), Fault>
    ensures answer { MatchResult result (λ _. full_code128 «data».now ≡ Ok «data».now)
        (λ refusal. full_code128 «data».now ≡ Err refusal) }
    ensures valid { OnOk result (IsCode128Data «data».now) }
{
    if data.len() > MAX_BYTES {
        return Err(Fault::DataTooLong);
    }
    if let Some(index) = first_not_ascii(data) {
        return Err(Fault::NotAscii(index + 1));
    }
    Ok(())
}

/// Returns whether each byte is ASCII. It looks at all of them, so that the compiler can test many at once.
fn are_ascii(bytes: &[u8]) -> bool
    ensures { result ≡ list_all (λ byte. nat_lt byte 128) bytes.now }
{
    let mut all = true;
    for byte in bytes {
        all &= *byte < 128;
    }
    all
}

/// Returns the index of the first byte that is not ASCII.
#[tactic(auto, using(crate::proofs::Laws::Code128Laws::None_from_ascii))]
fn first_not_ascii(bytes: &[u8]) -> Option<usize>
    ensures { result ≡ position (λ byte. nat_le 128 byte) bytes.now }
{
    if are_ascii(bytes) {
        return None;
    }
    bytes.iter().position(|byte| *byte >= 128)
}

/// Code 128 (ISO/IEC 15417): 1 to 80 ASCII bytes, drawn as at most 1,795 modules.
///
/// It refuses more than 80 bytes as `DataTooLong`, and else a byte from 128 on as `NotAscii`.
pub struct Code128;

impl Linear for Code128 {
    ghost use Rattle.linear.specs.Code128.{full_code128, code128_row};
    ghost use Rattle.linear.specs.Code128Reading.{read_code128};

    ghost full_data = { full_code128 };

    ghost row_of = { code128_row };

    ghost reading = { read_code128 };

    ghost turned_limit = { 1 };

    ghost QUIET_LEFT = { 10 };

    ghost QUIET_RIGHT = { 10 };

    const QUIET_LEFT: usize = 10;

    const QUIET_RIGHT: usize = 10;

    fn encode(data: &[u8], row: &mut Row) -> Result<(), Fault> {
        row.clear();
        check_data(data)?;
        push_code128(row, data);
        Ok(())
    }
}
