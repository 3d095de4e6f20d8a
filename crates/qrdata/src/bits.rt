//! The bits of segments, and the data codewords that they fill (ISO/IEC 18004, 7.4).
ghost use Rattle.arrayvec.specs.ArrayVec.{array_vec_len};
ghost use Rattle.qrdata.specs.Bits.{bits_of, codewords_of};
ghost use Rattle.qrdata.specs.Codewords.{with_zeros, pad_codewords, with_terminator};
ghost use Rattle.qrdata.specs.Segments.{IsSegmentation, alphanumeric_bits, byte_bits, cost, count_width, digit_value};
ghost use Rattle.qrdata.specs.Segments.{has_character, numeric_bits, payload_bits, payload_length, segment_bits};
ghost use Rattle.qrdata.specs.Segments.{segments_bits};
ghost use Rattle.qrdata.specs.declared.mode.Mode.TheVariants.{Alphanumeric, Numeric};
ghost use Rattle.std.specs.Char.{is_ascii_digit};
ghost use Rattle.std.specs.List.{list_all};
ghost use Rattle.std.specs.Prelude.{◌≡◌, ◌+◌, ◌*◌, ◌/◌, ◌^◌, ◌<◌, ◌≤◌, [], ◌++◌, All, IsTrue, length, slice_index};
ghost use Rattle.std.specs.Prelude.{if◌then◌else◌, ◌%◌, ◌==◌};

use crate::blocks::{MAX_CODEWORDS, Words};
use crate::mode::{Mode, Segment, value_of};
use crate::version::Version;

/// The most bits that the modules of a symbol hold: its codewords, and less than eight bits more.
pub const MAX_BITS: usize = 8 * MAX_CODEWORDS + 7;

/// Bits in their order: whole codewords, and the bits after them.
#[derive(Drop)]
pub struct Bits {
    /// The codewords, the first bits.
    pub codewords: Words,
    rest: Rest,
}

/// Bits that do not fill a codeword.
#[derive(Clone, Copy)]
struct Rest {
    /// The number that these bits represent, the high bit first.
    number: u32,
    /// How many bits there are.
    count: usize,
    ghost few: { count < 8 },
    ghost small: { number < 2 ^ count },
}

/// Returns 2^n.
#[inline(always)]
pub fn power_of_two(n: usize) -> u32
    requires { n ≤ 23 }
    ensures { result ≡ 2 ^ n }
{
    1 << n
}

/// Returns the value of the digit at a place.
#[inline(always)]
fn digit_at(digits: &[u8], place: usize) -> u32
    requires digits { IsTrue (list_all is_ascii_digit digits.now) }
    requires inside { place < length digits.now }
    ensures value { result ≡ digit_value (slice_index digits.now place) }
    ensures small { result ≤ 9 }
{
    u32::from(digits[place]) - u32::from(b'0')
}

impl Bits {
    ghost use Rattle.qrdata.specs.Private.BitsInCodewords.{bits_in};

    /// Makes an empty list of bits.
    #[tactic(auto, unfolding(crate::specs::Segments::byte_bits, crate::specs::Bits::bits_of))]
    pub fn new() -> Bits
        ensures { bits_in result ≡ [] }
    {
        Bits {
            codewords: Words::new(),
            rest: Rest {
                number: 0,
                count: 0,
            },
        }
    }

    /// Writes the lowest `width` bits of a number at the end, the high bit first.
    #[inline(always)]
    pub fn push_number(&mut self, number: u32, width: usize)
        requires narrow { width ≤ 16 }
        requires room { length (bits_in self.old) + width ≤ MAX_BITS }
        ensures { bits_in self.new ≡ bits_in self.old ++ bits_of width number }
    {
        let unit = power_of_two(width);
        let value = self.rest.number * unit + number % unit;
        let mut count = self.rest.count + width;
        while count >= 8 {
            count -= 8;
            self.codewords
                .push((value / power_of_two(count) % 256) as u8);
        }
        self.rest = Rest {
            number: value % power_of_two(count),
            count,
        };
    }

    /// Writes digits: three in ten bits, two that are left in seven, one in four.
    fn push_digits(&mut self, digits: &[u8])
        requires digits { IsTrue (list_all is_ascii_digit digits.now) }
        requires room { length (bits_in self.old)
            + payload_length Numeric (length digits.now) ≤ MAX_BITS }
        ensures { bits_in self.new ≡ bits_in self.old ++ numeric_bits digits.now }
    {
        let mut place = 0;
        while digits.len() - place >= 3 {
            self.push_number(
                100 * digit_at(digits, place)
                    + 10 * digit_at(digits, place + 1)
                    + digit_at(digits, place + 2),
                10,
            );
            place += 3;
        }
        match digits.len() - place {
            2 => self.push_number(
                10 * digit_at(digits, place) + digit_at(digits, place + 1),
                7,
            ),
            1 => self.push_number(digit_at(digits, place), 4),
            _ => {}
        }
    }

    /// Writes alphanumeric characters: two in eleven bits, one that is left in six.
    fn push_characters(&mut self, characters: &[u8])
        requires room { length (bits_in self.old)
            + payload_length Alphanumeric (length characters.now) ≤ MAX_BITS }
        ensures { bits_in self.new ≡ bits_in self.old ++ alphanumeric_bits characters.now }
    {
        let mut place = 0;
        while characters.len() - place >= 2 {
            self.push_number(
                45 * value_of(characters[place]) + value_of(characters[place + 1]),
                11,
            );
            place += 2;
        }
        if characters.len() - place == 1 {
            self.push_number(value_of(characters[place]), 6);
        }
    }

    /// Writes each byte in eight bits. As many bits as before are left over.
    fn push_bytes(&mut self, bytes: &[u8])
        requires room { length (bits_in self.old) + 8 * length bytes.now ≤ MAX_BITS }
        ensures { bits_in self.new ≡ bits_in self.old ++ byte_bits bytes.now }
    {
        let count = self.rest.count;
        let unit = power_of_two(count);
        let mut number = self.rest.number;
        for byte in bytes {
            let value = number * 256 + u32::from(*byte);
            self.codewords.push((value / unit % 256) as u8);
            number = value % unit;
        }
        self.rest = Rest { number, count };
    }

    /// Writes a payload in its mode.
    fn push_payload(&mut self, mode: Mode, bytes: &[u8])
        requires characters { IsTrue (list_all (has_character mode) bytes.now) }
        requires room { length (bits_in self.old)
            + payload_length mode (length bytes.now) ≤ MAX_BITS }
        ensures { bits_in self.new ≡ bits_in self.old ++ payload_bits mode bytes.now }
    {
        match mode {
            Mode::Numeric => self.push_digits(bytes),
            Mode::Alphanumeric => self.push_characters(bytes),
            Mode::Byte => self.push_bytes(bytes),
        }
    }

    /// Writes a segment: its mode indicator, its character count indicator and its payload.
    fn push_segment(&mut self, version: Version, mode: Mode, bytes: &[u8])
        requires characters { IsTrue (list_all (has_character mode) bytes.now) }
        requires room { length (bits_in self.old)
            + (4 + count_width version mode + payload_length mode (length bytes.now)) ≤ MAX_BITS }
        ensures { bits_in self.new ≡ bits_in self.old ++ segment_bits version mode bytes.now }
    {
        self.push_number(mode.indicator(), 4);
        self.push_number(bytes.len() as u32, mode.count_width(version));
        self.push_payload(mode, bytes);
    }

    /// Writes the segments of the data, one after another.
    pub(crate) fn push_segments(&mut self, version: Version, segments: &[Segment], bytes: &[u8])
        requires cut { IsSegmentation version segments.now bytes.now }
        requires room { length (bits_in self.old) + cost version segments.now ≤ MAX_BITS }
        ensures { bits_in self.new
            ≡ bits_in self.old ++ segments_bits version segments.now bytes.now }
    {
        let mut place = 0;
        for segment in segments {
            let end = place + usize::from(segment.len);
            self.push_segment(version, segment.mode, &bytes[place..end]);
            place = end;
        }
    }

    /// Returns how many bits there are.
    fn len(&self) -> usize
        ensures { result ≡ length (bits_in self.now) }
    {
        8 * self.codewords.len() + self.rest.count
    }

    /// Writes the terminator, which is four zeros or as many as are left in `size` codewords, and zeros to the end of a
    /// codeword.
    pub(crate) fn end(&mut self, size: usize)
        requires fits { length (bits_in self.old) ≤ 8 * size }
        requires size { size ≤ MAX_BITS / 8 }
        ensures bits { bits_in self.new ≡ with_zeros (with_terminator (8 * size) (bits_in self.old)) }
        ensures codewords { self.new.codewords.items
            ≡ codewords_of (length (bits_in self.new) / 8) (bits_in self.new) }
        ensures count { array_vec_len self.new.codewords ≤ size }
    {
        let left = 8 * size - self.len();
        self.push_number(0, left.min(4));
        self.push_number(0, (8 - self.rest.count) % 8);
        are_bytes(self.codewords.as_slice());
    }
}

/// Proves that each number of a slice of bytes is below 256: a proof sees the slice as a list of numbers, which has no
/// such bound. It does nothing when it runs.
pub fn are_bytes(bytes: &[u8])
    ensures { All (λ b. b < 256) bytes.now }
{}

/// Returns the pad codeword of a place: two of them in turn.
#[inline(always)]
fn pad_codeword(place: usize) -> u8
    ensures { result ≡ if place % 2 == 0 then 0xEC else 0x11 }
{
    if place % 2 == 0 { 0xEC } else { 0x11 }
}

/// Writes `count` pad codewords.
pub(crate) fn push_padding(count: usize, codewords: &mut Words)
    requires room { array_vec_len codewords.old + count ≤ MAX_CODEWORDS }
    ensures { codewords.new.items ≡ codewords.old.items ++ pad_codewords count }
{
    for place in 0..count {
        codewords.push(pad_codeword(place));
    }
}
