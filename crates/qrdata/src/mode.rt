//! Modes and segments (ISO/IEC 18004, 7.3 and 7.4).
ghost use Rattle.qrdata.specs.Private.ChoiceView.{mode_at, rank_of};
ghost use Rattle.qrdata.specs.Segments.{alphanumeric_value, count_width, mode_indicator, payload_length};
ghost use Rattle.std.specs.Prelude.{◌≡◌, ◌<◌, ◌≤◌};

use crate::version::Version;

/// How the bytes of a segment are written.
#[derive(Clone, Copy, Default, PartialEq, Eq)]
pub enum Mode {
    /// Digits: three in ten bits.
    #[default]
    Numeric,
    /// The 45 characters of the alphanumeric mode: two in eleven bits.
    Alphanumeric,
    /// Any bytes: each in eight bits.
    Byte,
}

/// A segment of the data: a mode and a number of bytes.
#[derive(Clone, Copy, Default, PartialEq, Eq)]
pub struct Segment {
    /// How the bytes are written.
    pub mode: Mode,
    /// The number of bytes. In the numeric mode these are digits, in the alphanumeric mode its characters.
    pub len: u16,
}

impl Mode {
    /// Returns the mode indicator, a number of four bits.
    pub(crate) fn indicator(self) -> u32
        ensures { result ≡ mode_indicator self }
    {
        match self {
            Mode::Numeric => 1,
            Mode::Alphanumeric => 2,
            Mode::Byte => 4,
        }
    }

    /// Returns the width of the character count indicator in a version, in bits.
    pub fn count_width(self, version: Version) -> usize
        ensures { result ≡ count_width version self }
    {
        let short = version.number() < 10;
        match self {
            Mode::Numeric => if short { 10 } else { 12 },
            Mode::Alphanumeric => if short { 9 } else { 11 },
            Mode::Byte => if short { 8 } else { 16 },
        }
    }

    /// Returns the number of bits of a payload of `len` bytes.
    pub(crate) fn payload_length(self, len: usize) -> usize
        requires { len < 65536 }
        ensures { result ≡ payload_length self len }
    {
        match self {
            Mode::Numeric => (10 * len + 2) / 3,
            Mode::Alphanumeric => (11 * len + 1) / 2,
            Mode::Byte => 8 * len,
        }
    }
}

/// Returns the rank of a mode in the order that decides ties.
#[inline(always)]
pub(crate) fn rank_of(mode: Mode) -> usize
    ensures { result ≡ rank_of mode }
{
    match mode {
        Mode::Numeric => 0,
        Mode::Alphanumeric => 1,
        Mode::Byte => 2,
    }
}

/// Returns the mode of a rank.
#[inline(always)]
pub(crate) fn mode_at(rank: u16) -> Mode
    ensures { result ≡ mode_at rank }
{
    match rank {
        0 => Mode::Numeric,
        1 => Mode::Alphanumeric,
        _ => Mode::Byte,
    }
}

/// The values of all bytes as characters of the alphanumeric mode, 45 where a byte is none.
const VALUES: [u8; 256] = [
    45, 45, 45, 45, 45, 45, 45, 45, 45, 45, 45, 45, 45, 45, 45, 45, 45, 45, 45, 45, 45, 45, 45, 45,
    45, 45, 45, 45, 45, 45, 45, 45, 36, 45, 45, 45, 37, 38, 45, 45, 45, 45, 39, 40, 45, 41, 42, 43,
    0, 1, 2, 3, 4, 5, 6, 7, 8, 9, 44, 45, 45, 45, 45, 45, 45, 10, 11, 12, 13, 14, 15, 16, 17, 18,
    19, 20, 21, 22, 23, 24, 25, 26, 27, 28, 29, 30, 31, 32, 33, 34, 35, 45, 45, 45, 45, 45, 45, 45,
    45, 45, 45, 45, 45, 45, 45, 45, 45, 45, 45, 45, 45, 45, 45, 45, 45, 45, 45, 45, 45, 45, 45, 45,
    45, 45, 45, 45, 45, 45, 45, 45, 45, 45, 45, 45, 45, 45, 45, 45, 45, 45, 45, 45, 45, 45, 45, 45,
    45, 45, 45, 45, 45, 45, 45, 45, 45, 45, 45, 45, 45, 45, 45, 45, 45, 45, 45, 45, 45, 45, 45, 45,
    45, 45, 45, 45, 45, 45, 45, 45, 45, 45, 45, 45, 45, 45, 45, 45, 45, 45, 45, 45, 45, 45, 45, 45,
    45, 45, 45, 45, 45, 45, 45, 45, 45, 45, 45, 45, 45, 45, 45, 45, 45, 45, 45, 45, 45, 45, 45, 45,
    45, 45, 45, 45, 45, 45, 45, 45, 45, 45, 45, 45, 45, 45, 45, 45, 45, 45, 45, 45, 45, 45, 45, 45,
    45, 45, 45, 45, 45, 45, 45, 45, 45, 45, 45, 45, 45, 45,
];

/// Returns the value of a character of the alphanumeric mode, 0 to 44, and 45 for any other byte.
#[inline(always)]
pub(crate) fn value_of(character: u8) -> u32
    ensures value { result ≡ alphanumeric_value character }
    ensures small { result ≤ 45 }
{
    u32::from(VALUES[usize::from(character)])
}
