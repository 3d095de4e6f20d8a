//! The full data of a symbol of which nothing is told, read from bits into a caller's room.
ghost use Rattle.std.specs.Prelude.{◌≡◌, ◌^◌, ◌<◌, Ok, IfSome, List, ℕ, option_map};
ghost use Rattle.capi.specs.Read.{AnswersFound, DeclinesFound, bits_asked, region_numbered};
ghost use Rattle.reading.specs.Found.{found_of};

use crate::draw::declined;
use crate::numbers::{
    Answer, BAD_OPTION, CallRegion, FoundInfo, are_unused, flag_numbered, number_of,
};
use crate::read::{NOT_READ, offer};
use reading::{BitRegion, Bits, Reading, read_any};

/// What a call answers that reads bits, and what it tells of the symbol: nothing where none is read.
#[derive(Clone, Copy, Drop)]
pub struct ToldFound {
    pub answer: Answer,
    pub info: FoundInfo,
}

/// Returns the region that these numbers mean.
fn region_of(numbers: &CallRegion) -> Option<BitRegion>
    ensures { result ≡ region_numbered numbers.now }
{
    let dark = flag_numbered(numbers.dark)?;
    are_unused(&numbers.reserved).then_some(BitRegion {
        stride: numbers.stride,
        left: numbers.left,
        top: numbers.top,
        width: numbers.width,
        height: numbers.height,
        dark,
    })
}

/// Returns the answer of a call that reads nothing.
fn nothing_found(code: u32) -> ToldFound
    ensures { (room : List ℕ) → DeclinesFound room room result.answer result.info code }
{
    ToldFound {
        answer: declined(code),
        info: FoundInfo {
            symbology: 0,
            scale: 0,
            turns: 0,
            reserved: [0; 5],
        },
    }
}

/// Puts the full data of what was read into a room, and tells what it was.
fn found(read: Option<Reading>, room: &mut [u8]) -> ToldFound
    requires { IfSome read (λ reading. reading.scale < 2 ^ 32) }
    ensures { AnswersFound room.old room.new result.answer result.info (Ok (option_map found_of read)) }
{
    match read {
        Some(reading) => ToldFound {
            answer: offer(reading.data.as_slice(), room),
            info: FoundInfo {
                symbology: number_of(reading.symbology),
                scale: reading.scale as u32,
                turns: u32::from(reading.turns),
                reserved: [0; 5],
            },
        },
        None => nothing_found(NOT_READ),
    }
}

/// Reads the dots of a region of bits as a symbol of any symbology, at any scale and in any direction, in its quiet zone,
/// and puts its full data into `out`, as [`crate::read_into`] does.
#[tactic(auto, unfolding(crate::specs::Read::bits_asked))]
pub fn read_bits_into(region: &CallRegion, bits: &[u8], out: &mut [u8]) -> ToldFound
    ensures { AnswersFound out.old out.new result.answer result.info (bits_asked region.now bits.now) }
{
    let Some(region) = region_of(region) else {
        return nothing_found(BAD_OPTION);
    };
    match Bits::new(region, bits) {
        Some(dots) => found(read_any(&dots), out),
        None => nothing_found(BAD_OPTION),
    }
}
