//! Numbers in place of enums, as C has them.
ghost use Rattle.std.specs.Prelude.{◌≡◌, ℕ, List, Some};
ghost use Rattle.capi.specs.Numbers.{are_unused, code_of, flag_numbered, format_numbered, level_numbered, place_of};
ghost use Rattle.capi.specs.Calls.{Declines};
ghost use Rattle.capi.specs.Modules.{DeclinesModules, ModuleRooms};
ghost use Rattle.capi.specs.Numbers.{options_numbered, symbology_numbered};

use labelcore::{Fault, Format, HEIGHT, Level, MASK, MIN_VERSION, Options, SCALE, Symbology};

/// The call was done.
pub const DONE: u32 = 0;
/// The caller's room is too small.
pub const NO_ROOM: u32 = 1;
/// An option is out of its range.
pub const BAD_OPTION: u32 = 2;
/// The number names no symbology.
pub const BAD_SYMBOLOGY: u32 = 3;
/// There is no data.
pub const NO_DATA: u32 = 4;
/// The line is empty or a comment.
pub const SKIPPED: u32 = 14;
/// The text is more than one line.
pub const NOT_ONE_LINE: u32 = 15;

/// The number of no mask of the caller's: the one with the lowest penalty is taken.
const NO_MASK: u32 = 8;

/// The options of a call: `labels_options` of `lib/labels.h`. The spare words are 0.
#[repr(C)]
#[derive(Clone, Copy, Drop)]
pub struct CallOptions {
    pub format: u32,
    pub scale: u32,
    pub height: u32,
    pub level: u32,
    pub min_version: u32,
    pub mask: u32,
    pub escapes: u32,
    pub reserved: [u32; 5],
}

/// What a call answers: a code, the length of what was put or would have been, the place of what is wrong, and the length
/// of the message. It is the head of `labels_answer`. The spare word is 0.
#[repr(C)]
#[derive(Clone, Copy, Drop)]
pub struct Answer {
    pub code: u32,
    pub reserved: u32,
    pub length: usize,
    pub at: usize,
    pub message_length: usize,
}

/// A symbol's symbology, its width, the rows that were put and how high they are drawn, in modules, its quiet zones, and
/// of a QR symbol its version, level and mask; and the length of its full data: the head of `labels_symbol_info`. The
/// spare words are 0.
#[repr(C)]
#[derive(Clone, Copy, Drop)]
pub struct SymbolInfo {
    pub symbology: u32,
    pub width: u32,
    pub rows: u32,
    pub height: u32,
    pub left: u32,
    pub right: u32,
    pub top: u32,
    pub bottom: u32,
    pub version: u32,
    pub level: u32,
    pub mask: u32,
    pub reserved: [u32; 5],
    pub data_length: usize,
}

/// A region of a bitmap: `labels_region`. The spare words are 0.
#[repr(C)]
#[derive(Clone, Copy, Drop)]
pub struct CallRegion {
    pub stride: usize,
    pub left: u32,
    pub top: u32,
    pub width: u32,
    pub height: u32,
    pub dark: u32,
    pub reserved: [u32; 3],
}

/// What bits are read as: the symbology, how many dots wide a module is, and after how many quarter turns clockwise. It
/// is `labels_found`. The spare words are 0.
#[repr(C)]
#[derive(Clone, Copy, Drop)]
pub struct FoundInfo {
    pub symbology: u32,
    pub scale: u32,
    pub turns: u32,
    pub reserved: [u32; 5],
}

/// What a call for modules answers, and what it tells of the symbol: nothing where none is drawn.
#[derive(Clone, Copy, Drop)]
pub struct Told {
    pub answer: Answer,
    pub info: SymbolInfo,
}

/// What a call for a bitmap answers, and how many columns and rows of dots it has: 0 where none is drawn, as in
/// `labels_dots`.
#[derive(Clone, Copy, Drop)]
pub struct ToldBitmap {
    pub answer: Answer,
    pub width: u32,
    pub height: u32,
}

/// Returns the answer of a call that tells nothing of a symbol.
#[tactic(auto, unfolding(crate::specs::Modules::is_nothing))]
pub fn told_nothing(answer: Answer) -> Told
    ensures { (rooms : ModuleRooms) (code place : ℕ) (text : List ℕ) → rooms.modules_after ≡ rooms.modules
        → ((out : List ℕ) → Declines (record {
          out = out;
          out_after = out;
          message = rooms.message;
          message_after = rooms.message_after;
        }) answer code place text) → DeclinesModules rooms result.answer result.info code place text }
{
    Told {
        answer,
        info: SymbolInfo {
            symbology: 0,
            width: 0,
            rows: 0,
            height: 0,
            left: 0,
            right: 0,
            top: 0,
            bottom: 0,
            version: 0,
            level: 0,
            mask: 0,
            reserved: [0; 5],
            data_length: 0,
        },
    }
}

/// Returns the options that these numbers name.
///
/// # Errors
///
/// The number of the first option that is out of its range, from 1 on; 8 for a spare word that is not 0.
#[tactic(auto, unfolding(crate::specs::Numbers::options_numbered))]
pub fn options_of(numbers: &CallOptions) -> Result<Options, usize>
    ensures { result ≡ options_numbered numbers.now }
{
    let Some(format) = format_numbered(numbers.format) else {
        return Err(1);
    };
    if !SCALE.has(numbers.scale) {
        return Err(2);
    }
    if !HEIGHT.has(numbers.height) {
        return Err(3);
    }
    let Some(level) = level_numbered(numbers.level) else {
        return Err(4);
    };
    if !MIN_VERSION.has(numbers.min_version) {
        return Err(5);
    }
    if numbers.mask != NO_MASK && !MASK.has(numbers.mask) {
        return Err(6);
    }
    let Some(escapes) = flag_numbered(numbers.escapes) else {
        return Err(7);
    };
    if !are_unused(&numbers.reserved) {
        return Err(8);
    }
    let mask = if numbers.mask == NO_MASK {
        None
    } else {
        Some(numbers.mask as u8)
    };
    let options = Options::new(
        format,
        numbers.scale as u8,
        numbers.height as u16,
        level,
        numbers.min_version as u8,
        mask,
        escapes,
    );
    options.ok_or(0)
}

/// Returns whether the spare words are 0.
pub fn are_unused(words: &[u32]) -> bool
    ensures { result ≡ are_unused words.now }
{
    words.iter().all(|word| *word == 0)
}

/// Returns the truth value of this number.
pub fn flag_numbered(number: u32) -> Option<bool>
    ensures { result ≡ flag_numbered number }
{
    match number {
        0 => Some(false),
        1 => Some(true),
        _ => None,
    }
}

/// Returns the format of this number.
fn format_numbered(number: u32) -> Option<Format>
    ensures { result ≡ format_numbered number }
{
    match number {
        0 => Some(Format::Pbm),
        1 => Some(Format::Ascii),
        _ => None,
    }
}

/// Returns the level of this number.
fn level_numbered(number: u32) -> Option<Level>
    ensures { result ≡ level_numbered number }
{
    match number {
        0 => Some(Level::L),
        1 => Some(Level::M),
        2 => Some(Level::Q),
        3 => Some(Level::H),
        _ => None,
    }
}

/// Returns the symbology of this number.
pub fn symbology_numbered(number: u32) -> Option<Symbology>
    ensures { result ≡ symbology_numbered number }
{
    match number {
        0 => Some(Symbology::Ean13),
        1 => Some(Symbology::Ean8),
        2 => Some(Symbology::UpcA),
        3 => Some(Symbology::Code128),
        4 => Some(Symbology::Qr),
        _ => None,
    }
}

/// Returns the code of a refusal.
pub fn code_of(fault: &Fault) -> u32
    ensures { result ≡ code_of fault.now }
{
    match fault {
        Fault::NoData => NO_DATA,
        Fault::NotADigit(_) => 5,
        Fault::WrongNumberOfDigits(_) => 6,
        Fault::WrongCheckDigit { .. } => 7,
        Fault::DataTooLong => 8,
        Fault::NotAscii(_) => 9,
        Fault::DoesNotFit(_) => 10,
        Fault::LineTooLong => 11,
        Fault::UnknownSymbology => BAD_SYMBOLOGY,
        Fault::UnknownSetting(_) | Fault::BadValue(_) => 12,
        Fault::BadEscape(_) => 13,
    }
}

/// Returns the place of the wrong byte of a refusal, or of the wrong setting, from 1 on; 0 of others.
pub fn place_of(fault: &Fault) -> usize
    ensures { result ≡ place_of fault.now }
{
    match fault {
        Fault::NotADigit(place) | Fault::NotAscii(place) | Fault::BadEscape(place) => *place,
        Fault::UnknownSetting(number) | Fault::BadValue(number) => *number,
        _ => 0,
    }
}

/// Returns the number of a symbology.
pub fn number_of(symbology: Symbology) -> u32
    ensures { symbology_numbered result ≡ Some symbology }
{
    match symbology {
        Symbology::Ean13 => 0,
        Symbology::Ean8 => 1,
        Symbology::UpcA => 2,
        Symbology::Code128 => 3,
        Symbology::Qr => 4,
    }
}

/// Returns the number of a level.
pub fn number_of_level(level: Level) -> u32
    ensures { level_numbered result ≡ Some level }
{
    match level {
        Level::L => 0,
        Level::M => 1,
        Level::Q => 2,
        Level::H => 3,
    }
}
