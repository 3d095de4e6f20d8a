//! Segments read from the bits of data codewords (ISO/IEC 18004, 7.4 and 12).
ghost use Rattle.arrayvec.specs.ArrayVec.{array_vec_len};
ghost use Rattle.qr_reading.specs.Private.Groups.{group_bytes, next_group};
ghost use Rattle.qr_reading.specs.Private.ReadSoFar.{HasRoom, Leaves, after};
ghost use Rattle.qrdata.specs.Reading.{alphanumeric_character, payload_at, segment_at, segments_at};
ghost use Rattle.std.specs.Prelude.{◌≡◌, ◌++◌, ◌+◌, ◌*◌, ◌≤◌, ◌<◌, IfSome, length, option_map};

use crate::bits::{is_end, number_at};
use arrayvec::ArrayVec;
use qrdata::{Mode, Version, power_of_two};

/// The most bytes that a symbol holds: digits of version 10 at level L, three in ten of its 2192 data bits.
const MAX_DATA: usize = 657;

/// The data that the codewords of a symbol hold.
pub type SymbolData = ArrayVec<u8, MAX_DATA>;

/// The 45 characters of the alphanumeric mode, in the order of their values.
const CHARACTERS: [u8; 45] = *b"0123456789ABCDEFGHIJKLMNOPQRSTUVWXYZ $%*+-./:";

/// Returns the character of a value. The first ten are the digits.
#[tactic(auto, using(crate::proofs::PayloadStepLaws::digit_character), unfolding(qrdata::specs::Segments::alphanumeric_characters))]
fn character_of(value: u32) -> u8
    requires { value < 45 }
    ensures character { result ≡ alphanumeric_character value }
    ensures digit { value < 10 → result ≡ 48 + value }
{
    CHARACTERS[value as usize]
}

/// Characters of a payload that one number stands for.
#[derive(Clone, Copy)]
struct Group {
    /// How many characters there are.
    size: usize,
    /// The least number that stands for none.
    limit: u32,
    /// The width of the number in bits.
    width: usize,
}

/// Returns the next group, where `left` characters are left.
fn next_group(mode: Mode, left: usize) -> Group
    requires { 0 < left }
    ensures value { result ≡ next_group mode left }
    ensures inside { result.size ≤ left }
    ensures room { 10 * result.size ≤ 3 * result.width }
    ensures narrow { result.width ≤ 16 }
{
    let (size, limit, width) = match (mode, left) {
        (Mode::Numeric, 1) => (1, 10, 4),
        (Mode::Numeric, 2) => (2, 100, 7),
        (Mode::Numeric, _) => (3, 1000, 10),
        (Mode::Alphanumeric, 1) => (1, 45, 6),
        (Mode::Alphanumeric, _) => (2, 2025, 11),
        (Mode::Byte, _) => (1, 256, 8),
    };
    Group { size, limit, width }
}

/// Appends the characters of a group to the data.
fn append_group(mode: Mode, left: usize, number: u32, out: &mut SymbolData)
    requires below { number < (next_group mode left).limit }
    requires room { array_vec_len out.old + (next_group mode left).size ≤ MAX_DATA }
    requires some { 0 < left }
    ensures bytes { out.new.items ≡ out.old.items ++ group_bytes mode left number }
    ensures len { array_vec_len out.new ≡ array_vec_len out.old + (next_group mode left).size }
{
    match (mode, left) {
        (Mode::Byte, _) => out.push(number as u8),
        (_, 1) => out.push(character_of(number)),
        (Mode::Numeric, 2) => {
            out.push(character_of(number / 10));
            out.push(character_of(number % 10));
        }
        (Mode::Numeric, _) => {
            out.push(character_of(number / 100));
            out.push(character_of(number / 10 % 10));
            out.push(character_of(number % 10));
        }
        (Mode::Alphanumeric, _) => {
            out.push(character_of(number / 45));
            out.push(character_of(number % 45));
        }
    }
}

/// Reads the payload of characters of a mode, appends these to the data, and returns the bits after it.
#[tactic(auto, using(crate::proofs::PayloadStepLaws::one_group, crate::proofs::PayloadStepLaws::no_group, crate::proofs::PayloadStepLaws::all_groups))]
fn read_payload<'a>(
    bits: &'a [bool],
    mode: Mode,
    count: usize,
    out: &mut SymbolData,
) -> Option<&'a [bool]>
    requires { HasRoom out.old.items bits.now }
    ensures read { option_map (λ end. (out.new.items, end.now)) result
        ≡ after out.old.items (payload_at mode count bits.now) }
    ensures left { IfSome result (λ end. Leaves out.new.items bits.now end.now) }
{
    let mut rest = bits;
    let mut left = count;
    while left > 0 {
        let group = next_group(mode, left);
        let (number, end) = number_at(group.limit, group.width, rest)?;
        append_group(mode, left, number, out);
        rest = end;
        left -= group.size;
    }
    Some(rest)
}

/// Reads a segment, appends its bytes to the data, and returns the bits after it.
#[tactic(auto, unfolding(qrdata::specs::Reading::segment_at, crate::specs::Private::ReadSoFar::after))]
fn read_segment<'a>(version: Version, bits: &'a [bool], out: &mut SymbolData) -> Option<&'a [bool]>
    requires { HasRoom out.old.items bits.now }
    ensures read { option_map (λ end. (out.new.items, end.now)) result
        ≡ after out.old.items (segment_at version bits.now) }
    ensures room { IfSome result (λ end. HasRoom out.new.items end.now) }
    ensures less { IfSome result (λ end. length end.now + 4 ≤ length bits.now) }
{
    let (indicator, rest) = number_at(16, 4, bits)?;
    let mode = match indicator {
        1 => Mode::Numeric,
        2 => Mode::Alphanumeric,
        4 => Mode::Byte,
        _ => return None,
    };
    let width = mode.count_width(version);
    let (count, rest) = number_at(power_of_two(width), width, rest)?;
    read_payload(rest, mode, count as usize, out)
}

/// Reads segments to their end, and returns their bytes.
#[tactic(auto, using(crate::proofs::SegmentStepLaws::no_segment, crate::proofs::SegmentStepLaws::all_segments))]
pub(crate) fn read_segments(version: Version, bits: &[bool]) -> Option<SymbolData>
    requires { length bits.now ≤ 2192 }
    ensures { option_map (λ bytes. bytes.items) result ≡ segments_at version (length bits.now) bits.now }
{
    let mut out = SymbolData::new();
    let mut rest = bits;
    while !is_end(rest) {
        rest = read_segment(version, rest, &mut out)?;
    }
    Some(out)
}
