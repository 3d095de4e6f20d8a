//! A table of the best first segment of each rest of the bytes, from the shortest rest to all the bytes.
ghost use Rattle.qrdata.specs.Private.ChoiceView.{segment_in};
ghost use Rattle.qrdata.specs.Private.Table.{IsSmall, AreSmallDigits, AreSmallCharacters, AreSmall, NamesFirsts};
ghost use Rattle.qrdata.specs.Private.Table.{absent_characters, absent_choice, absent_digits, better_choice};
ghost use Rattle.qrdata.specs.Private.Table.{best_choice, byte_choices, choices_of, fewest_bits, longer_choice};
ghost use Rattle.qrdata.specs.Private.Table.{next_characters, next_choices, next_digits, no_choices, short_choice};
ghost use Rattle.qrdata.specs.Segments.{alphanumeric_value};
ghost use Rattle.std.specs.Prelude.{length, drop, ◌≡◌, ◌+◌, ◌^◌, ◌≤◌, ◌<◌, slice_index};

use crate::firsts::{Firsts, MAX_BYTES};
use crate::mode::{Mode, rank_of, value_of};
use crate::version::Version;
use std::marker::Model;

/// The bits of an absent choice: more than the best segments of `MAX_BYTES` bytes have.
const ABSENT: usize = 65536;

/// A first segment of a rest of the bytes, and the bits of the list of it and of the best segments of what comes
/// after it.
#[derive(Drop)]
struct Choice {
    /// 4096 times the bits of the list, plus 4 times 1023 less the length of the segment, plus the rank of its mode. The
    /// choice of the lower key has fewer bits, or as many and a longer segment, or one as long and a mode of lower rank.
    key: usize,
}

impl Model for Choice {
    ghost use Rattle.std.specs.Prelude.{◌%◌, ◌<◌};
    ghost use Rattle.qrdata.specs.Private.ChoiceView.{ChoiceView, choice_in};

    ghost Value = { ChoiceView };

    ghost view = { λ c. choice_in c.key };

    ghost invariant = { λ c. c.key % 4 < 3 };
}

impl Choice {
    /// Returns the segment as a number.
    #[inline(always)]
    fn code(&self) -> u16
        ensures { segment_in result ≡ self.now.segment }
    {
        (self.key % 65536) as u16
    }

    /// Returns the bits of the list.
    #[inline(always)]
    fn bits(&self) -> usize
        ensures { result ≡ self.now.bits }
    {
        self.key / 4096
    }

    #[inline(always)]
    fn copied(&self) -> Choice
        ensures { result ≡ self.now }
    {
        Choice { key: self.key }
    }
}

/// The best choices in numeric mode, by how many digits are over threes: what one digit more costs depends on it, and
/// adding it to all choices of a kind leaves their order as it is.
#[derive(Drop)]
struct Digits {
    none_over: Choice,
    one_over: Choice,
    two_over: Choice,
}

/// The best choices in alphanumeric mode, by how many characters are over twos.
#[derive(Drop)]
struct Characters {
    none_over: Choice,
    one_over: Choice,
}

/// The best choices of one rest of the bytes.
#[derive(Drop)]
struct Choices {
    digits: Digits,
    characters: Characters,
    bytes: Choice,
    /// The best of them all. With no bytes it is empty.
    best: Choice,
}

/// Returns an absent choice of a mode.
#[inline(always)]
fn absent(mode: Mode) -> Choice
    ensures { result ≡ absent_choice mode }
{
    Choice {
        key: 4096 * ABSENT + 4092 + rank_of(mode),
    }
}

/// Returns the choice of one byte, where the best segments of what comes after it have `after` bits.
#[inline(always)]
fn short(version: Version, mode: Mode, after: usize) -> Choice
    requires { after < 2 ^ 20 }
    ensures { result ≡ short_choice version mode after }
{
    let added = 4 + mode.count_width(version) + mode.payload_length(1);
    // The compiler adds up what is the same for all bytes once.
    Choice {
        key: 4096 * after + (4096 * added + 4088 + rank_of(mode)),
    }
}

/// Returns a choice with one byte more at the front, which adds `added` bits.
#[inline(always)]
fn longer(choice: &Choice, added: usize) -> Choice
    requires choice { IsSmall choice.now }
    requires some { 0 < added }
    requires added { added ≤ 8 }
    ensures { result ≡ longer_choice choice.now added }
{
    Choice {
        key: choice.key + (4096 * added - 4),
    }
}

/// Returns the choice of fewer bits, of equally many bits that of the longer segment, and of equally long ones that of the
/// mode of lower rank.
#[inline(always)]
fn better(first: &Choice, second: &Choice) -> Choice
    ensures { result ≡ better_choice first.now second.now }
{
    if second.key < first.key {
        second.copied()
    } else {
        first.copied()
    }
}

/// Returns the choices in numeric mode of a byte and a rest, whose best segments have `after` bits. The second of three
/// digits adds three bits, and so does the third.
#[inline(always)]
#[tactic(auto, unfolding(crate::specs::Private::Table::next_digits))]
fn with_digit(version: Version, byte: u8, rest: &Digits, after: usize) -> Digits
    requires rest { AreSmallDigits rest.now }
    requires after { after < 2 ^ 20 }
    ensures { result ≡ next_digits version byte after rest.now }
{
    if !byte.is_ascii_digit() {
        return no_digits();
    }
    Digits {
        none_over: longer(&rest.two_over, 3),
        one_over: better(
            &longer(&rest.none_over, 4),
            &short(version, Mode::Numeric, after),
        ),
        two_over: longer(&rest.one_over, 3),
    }
}

/// Returns the choices in alphanumeric mode of one of its characters and a rest, whose best segments have `after` bits.
#[inline(always)]
#[tactic(auto, unfolding(crate::specs::Private::Table::next_characters))]
fn with_character(version: Version, character: u8, rest: &Characters, after: usize) -> Characters
    requires character { alphanumeric_value character < 45 }
    requires rest { AreSmallCharacters rest.now }
    requires after { after < 2 ^ 20 }
    ensures { result ≡ next_characters version character after rest.now }
{
    Characters {
        none_over: longer(&rest.one_over, 5),
        one_over: better(
            &longer(&rest.none_over, 6),
            &short(version, Mode::Alphanumeric, after),
        ),
    }
}

/// Returns the best of the choices in all modes.
#[inline(always)]
#[tactic(auto, unfolding(crate::specs::Private::Table::best_choice))]
fn best_of(digits: &Digits, characters: &Characters, bytes: &Choice) -> Choice
    ensures { result ≡ best_choice digits.now characters.now bytes.now }
{
    let ends = better(&digits.none_over, &digits.one_over);
    let numeric = better(&ends, &digits.two_over);
    let alphanumeric = better(&characters.none_over, &characters.one_over);
    better(&better(&numeric, &alphanumeric), bytes)
}

/// Returns the choice in byte mode of a byte and a rest.
#[inline(always)]
fn with_byte(version: Version, rest: &Choices) -> Choice
    requires { AreSmall rest.now }
    ensures { result ≡ better_choice (longer_choice rest.now.bytes 8) (short_choice version Mode.Byte rest.now.best.bits) }
{
    better(
        &longer(&rest.bytes, 8),
        &short(version, Mode::Byte, rest.best.bits()),
    )
}

/// Returns the choices of an alphanumeric character and a rest.
#[inline(always)]
#[tactic(auto, unfolding(crate::specs::Private::Table::next_choices))]
fn of_all_modes(version: Version, character: u8, rest: &Choices) -> Choices
    requires character { alphanumeric_value character < 45 }
    requires rest { AreSmall rest.now }
    ensures { result ≡ next_choices version character rest.now }
{
    let after = rest.best.bits();
    let digits = with_digit(version, character, &rest.digits, after);
    let characters = with_character(version, character, &rest.characters, after);
    let bytes = with_byte(version, rest);
    let best = best_of(&digits, &characters, &bytes);
    Choices {
        digits,
        characters,
        bytes,
        best,
    }
}

/// Returns the choices of a byte that only byte mode has, where `bytes` is that in byte mode.
#[inline(always)]
fn only_bytes(bytes: Choice) -> Choices
    ensures { result ≡ byte_choices bytes }
{
    let best = bytes.copied();
    Choices {
        digits: no_digits(),
        characters: no_characters(),
        bytes,
        best,
    }
}

/// Returns absent choices in numeric mode.
#[inline(always)]
fn no_digits() -> Digits
    ensures { result ≡ absent_digits }
{
    Digits {
        none_over: absent(Mode::Numeric),
        one_over: absent(Mode::Numeric),
        two_over: absent(Mode::Numeric),
    }
}

/// Returns absent choices in alphanumeric mode.
#[inline(always)]
fn no_characters() -> Characters
    ensures { result ≡ absent_characters }
{
    Characters {
        none_over: absent(Mode::Alphanumeric),
        one_over: absent(Mode::Alphanumeric),
    }
}

/// Returns the choices of no bytes.
fn without_bytes() -> Choices
    ensures { result ≡ no_choices }
{
    Choices {
        digits: no_digits(),
        characters: no_characters(),
        bytes: absent(Mode::Byte),
        best: Choice { key: 4094 },
    }
}

/// The first bytes of a rest that only byte mode has.
#[derive(Drop)]
struct Run {
    place: usize,
    /// The choice in byte mode.
    first: Choice,
}

/// Writes the first of the best segments of each rest that begins in a run of bytes that only byte mode has, the last of
/// them at `last`. Returns where the run begins. A byte more in front of them never begins a segment of its own.
#[inline(always)]
fn write_run(
    version: Version,
    bytes: &[u8],
    last: usize,
    rest: &Choices,
    firsts: &mut Firsts,
) -> Run
    requires few { length bytes.now ≤ MAX_BYTES }
    requires inside { last < length bytes.now }
    requires byte { 45 ≤ alphanumeric_value (slice_index bytes.now last) }
    requires rest { rest.now ≡ choices_of version (drop (last + 1) bytes.now) }
    requires firsts { NamesFirsts version bytes.now (last + 1) firsts.old }
    ensures place { result.place ≤ last }
    ensures choices { byte_choices result.first ≡ choices_of version (drop result.place bytes.now) }
    ensures firsts { NamesFirsts version bytes.now result.place firsts.new }
{
    let mut place = last;
    let mut first = with_byte(version, rest);
    firsts.put(place, first.code());
    while place > 0 && value_of(bytes[place - 1]) >= 45 {
        place -= 1;
        first = longer(&first, 8);
        firsts.put(place, first.code());
    }
    Run { place, first }
}

/// Writes the first of the best segments of each rest of the bytes into a table. Returns the bits of the best segments of
/// all the bytes. The limits of the character counts are left out, because no segments that fit reach them. The time
/// grows with the number of bytes.
pub(crate) fn fill(version: Version, bytes: &[u8], firsts: &mut Firsts) -> usize
    requires few { length bytes.now ≤ MAX_BYTES }
    ensures bits { result ≡ fewest_bits version bytes.now }
    ensures firsts { NamesFirsts version bytes.now 0 firsts.new }
{
    let mut choices = without_bytes();
    let mut place = bytes.len();
    while place > 0 {
        place -= 1;
        let byte = bytes[place];
        if value_of(byte) < 45 {
            choices = of_all_modes(version, byte, &choices);
            firsts.put(place, choices.best.code());
        } else {
            let run = write_run(version, bytes, place, &choices, firsts);
            place = run.place;
            choices = only_bytes(run.first);
        }
    }
    choices.best.bits()
}
