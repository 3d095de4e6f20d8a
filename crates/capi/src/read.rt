//! The full data of a symbol that is read back from its dots, into a caller's room.
ghost use Rattle.std.specs.Prelude.{Ok, option_map};
ghost use Rattle.capi.specs.Calls.{PutsWhole};
ghost use Rattle.capi.specs.Read.{AnswersRead, modules_asked, read_asked, room_alone};

use crate::draw::declined;
use crate::numbers::{Answer, BAD_OPTION, BAD_SYMBOLOGY, DONE, NO_ROOM, symbology_numbered};
use crate::room::put;
use qr_reading::SymbolData;
use reading::Dots;

/// The dots are no symbol of the symbology.
pub const NOT_READ: u32 = 17;

/// Puts bytes into a room, as many as there is room for, and answers with the length of the whole.
pub fn offer(bytes: &[u8], room: &mut [u8]) -> Answer
    ensures { PutsWhole (room_alone room.old room.new) result bytes.now }
{
    let size = room.len();
    put(room, 0, bytes);
    Answer {
        code: if bytes.len() <= size { DONE } else { NO_ROOM },
        reserved: 0,
        length: bytes.len(),
        at: 0,
        message_length: 0,
    }
}

/// Puts the full data of what was read into a room; nothing where that is nothing.
fn answered(read: Option<SymbolData>, room: &mut [u8]) -> Answer
    ensures { AnswersRead room.old room.new result (Ok (option_map (λ bytes. bytes.items) read)) }
{
    match read {
        Some(bytes) => offer(bytes.as_slice(), room),
        None => declined(NOT_READ),
    }
}

/// Reads modules, without quiet zones, as a symbol of a symbology, and puts its full data into `out`, as [`read_into`]
/// does. `modules` has `width` times `rows` bytes, row by row, 1 where dark, else 0.
#[tactic(auto, unfolding(crate::specs::Read::modules_asked))]
pub fn read_modules_into(
    symbology: u32,
    width: u32,
    rows: u32,
    modules: &[u8],
    out: &mut [u8],
) -> Answer
    ensures { AnswersRead out.old out.new result (modules_asked symbology width rows modules.now) }
{
    let Some(symbology) = symbology_numbered(symbology) else {
        return declined(BAD_SYMBOLOGY);
    };
    match Dots::new(0, 1, width as usize, rows as usize, modules) {
        Some(modules) => answered(reading::read_modules(symbology, &modules), out),
        None => declined(NOT_READ),
    }
}

/// Reads the dots of a picture as a symbol of a symbology in its quiet zone, each module `scale` dots wide, and puts
/// its full data into `out`. `dots` has `width` times `height` bytes, row by row: the digit 1 where dark, else 0. Of data
/// that are too long it puts what there is room for, and answers with the length of the whole.
#[tactic(auto, unfolding(crate::specs::Read::read_asked))]
pub fn read_into(
    symbology: u32,
    scale: u32,
    width: u32,
    height: u32,
    dots: &[u8],
    out: &mut [u8],
) -> Answer
    ensures { AnswersRead out.old out.new result (read_asked symbology scale width height dots.now) }
{
    if scale == 0 {
        return declined(BAD_OPTION);
    }
    let Some(symbology) = symbology_numbered(symbology) else {
        return declined(BAD_SYMBOLOGY);
    };
    match Dots::new(b'0', b'1', width as usize, height as usize, dots) {
        Some(dots) => answered(reading::read(symbology, &dots, scale as usize), out),
        None => declined(NOT_READ),
    }
}
