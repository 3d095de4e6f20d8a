//! The exports of the C library, which `lib/labels.c` calls: each states the clauses of the call that it makes.
//!
//! What C must uphold: each pointer is not null and points to as many elements as the length after it says; what is
//! written overlaps nothing else that is passed; each byte of `modules` is 0 or 1 when the call begins.
#![tactic(auto)]

ghost use Rattle.capi.specs.Bitmap.{AnswersBitmap, ReadsBitmap};
ghost use Rattle.capi.specs.Calls.{AnswersImage, ReadsImage, asked, line_asked};
ghost use Rattle.capi.specs.Full.{PutsFull};
ghost use Rattle.capi.specs.Layout.{AnswersLayout};
ghost use Rattle.capi.specs.Modules.{AnswersModules, NumbersAsked, ReadsModules};
ghost use Rattle.capi.specs.Numbers.{symbology_numbered};
ghost use Rattle.capi.specs.Read.{AnswersFound, AnswersRead, bits_asked, modules_asked, read_asked};

use capi::{Answer, CallOptions, CallRegion, FoundInfo, Layout, SymbolInfo};

/// Puts the image of one symbol into `out`, or the reason why there is none into `message`.
#[unsafe(no_mangle)]
pub extern "C" fn labels_proved_draw(
    options: &CallOptions,
    symbology: u32,
    bytes: &[u8],
    out: &mut [u8],
    message: &mut [u8],
    answer: &mut Answer,
)
    ensures answers { AnswersImage (record {
      out = out.old;
      out_after = out.new;
      message = message.old;
      message_after = message.new;
    }) answer.new (asked options.now symbology bytes.now) }
    ensures read { ReadsImage (asked options.now symbology bytes.now) }
{
    *answer = capi::draw_into(options, symbology, bytes, out, message);
}

/// Puts the modules of one symbol into `modules`, or the reason why there is none into `message`.
#[unsafe(no_mangle)]
pub extern "C" fn labels_proved_symbol(
    options: &CallOptions,
    symbology: u32,
    bytes: &[u8],
    modules: &mut [bool],
    message: &mut [u8],
    full: &mut [u8],
    info: &mut SymbolInfo,
    answer: &mut Answer,
)
    ensures answers { AnswersModules (record {
      modules = modules.old;
      modules_after = modules.new;
      message = message.old;
      message_after = message.new;
    }) answer.new info.new (asked options.now symbology bytes.now) }
    ensures read { ReadsModules (asked options.now symbology bytes.now) }
    ensures numbers { NumbersAsked info.new (asked options.now symbology bytes.now) }
    ensures full { PutsFull full.old full.new info.new.data_length (asked options.now symbology bytes.now) }
{
    let told = capi::symbol_into(options, symbology, bytes, modules, message, full);
    *info = told.info;
    *answer = told.answer;
}

/// Puts the bitmap of one symbol into `bits`, or the reason why there is none into `message`.
#[unsafe(no_mangle)]
pub extern "C" fn labels_proved_bitmap(
    options: &CallOptions,
    symbology: u32,
    bytes: &[u8],
    bits: &mut [u8],
    stride: usize,
    message: &mut [u8],
    width: &mut u32,
    height: &mut u32,
    answer: &mut Answer,
)
    ensures answers { AnswersBitmap (record {
      out = bits.old;
      out_after = bits.new;
      message = message.old;
      message_after = message.new;
    }) stride (record { answer = answer.new; width = width.new; height = height.new })
        (asked options.now symbology bytes.now) }
    ensures read { ReadsBitmap (asked options.now symbology bytes.now) }
{
    let told = capi::bitmap_into(options, symbology, bytes, bits, stride, message);
    *width = told.width;
    *height = told.height;
    *answer = told.answer;
}

/// Puts the modules of the symbol that a line of text draws into `modules`, or the reason why there is none into
/// `message`.
#[unsafe(no_mangle)]
pub extern "C" fn labels_proved_line(
    options: &CallOptions,
    text: &[u8],
    modules: &mut [bool],
    message: &mut [u8],
    full: &mut [u8],
    info: &mut SymbolInfo,
    answer: &mut Answer,
)
    ensures answers { AnswersModules (record {
      modules = modules.old;
      modules_after = modules.new;
      message = message.old;
      message_after = message.new;
    }) answer.new info.new (line_asked options.now text.now) }
    ensures read { ReadsModules (line_asked options.now text.now) }
    ensures numbers { NumbersAsked info.new (line_asked options.now text.now) }
    ensures full { PutsFull full.old full.new info.new.data_length (line_asked options.now text.now) }
{
    let told = capi::line_into(options, text, modules, message, full);
    *info = told.info;
    *answer = told.answer;
}

/// Puts the image of what a line of text asks for into `out`, or the reason why there is none into `message`.
#[unsafe(no_mangle)]
pub extern "C" fn labels_proved_draw_line(
    options: &CallOptions,
    text: &[u8],
    out: &mut [u8],
    message: &mut [u8],
    answer: &mut Answer,
)
    ensures answers { AnswersImage (record {
      out = out.old;
      out_after = out.new;
      message = message.old;
      message_after = message.new;
    }) answer.new (line_asked options.now text.now) }
    ensures read { ReadsImage (line_asked options.now text.now) }
{
    *answer = capi::draw_line_into(options, text, out, message);
}

/// Puts the bitmap of what a line of text asks for into `bits`, or the reason why there is none into `message`.
#[unsafe(no_mangle)]
pub extern "C" fn labels_proved_bitmap_line(
    options: &CallOptions,
    text: &[u8],
    bits: &mut [u8],
    stride: usize,
    message: &mut [u8],
    width: &mut u32,
    height: &mut u32,
    answer: &mut Answer,
)
    ensures answers { AnswersBitmap (record {
      out = bits.old;
      out_after = bits.new;
      message = message.old;
      message_after = message.new;
    }) stride (record { answer = answer.new; width = width.new; height = height.new })
        (line_asked options.now text.now) }
    ensures read { ReadsBitmap (line_asked options.now text.now) }
{
    let told = capi::bitmap_line_into(options, text, bits, stride, message);
    *width = told.width;
    *height = told.height;
    *answer = told.answer;
}

/// Reads the dots of a picture, a digit `0` or `1` each, as a symbol, and puts its full data into `out`.
#[unsafe(no_mangle)]
pub extern "C" fn labels_proved_read(
    symbology: u32,
    scale: u32,
    width: u32,
    height: u32,
    dots: &[u8],
    out: &mut [u8],
    answer: &mut Answer,
)
    ensures { AnswersRead out.old out.new answer.new (read_asked symbology scale width height dots.now) }
{
    *answer = capi::read_into(symbology, scale, width, height, dots, out);
}

/// Reads the modules of a symbol, a byte 0 or 1 each, and puts its full data into `out`.
#[unsafe(no_mangle)]
pub extern "C" fn labels_proved_read_modules(
    symbology: u32,
    width: u32,
    rows: u32,
    modules: &[u8],
    out: &mut [u8],
    answer: &mut Answer,
)
    ensures { AnswersRead out.old out.new answer.new (modules_asked symbology width rows modules.now) }
{
    *answer = capi::read_modules_into(symbology, width, rows, modules, out);
}

/// Reads a region of bits as a symbol of which nothing is told, puts its full data into `out`, and tells what it is.
#[unsafe(no_mangle)]
pub extern "C" fn labels_proved_read_bits(
    region: &CallRegion,
    bits: &[u8],
    out: &mut [u8],
    found: &mut FoundInfo,
    answer: &mut Answer,
)
    ensures { AnswersFound out.old out.new answer.new found.new (bits_asked region.now bits.now) }
{
    let told = capi::read_bits_into(region, bits, out);
    *found = told.info;
    *answer = told.answer;
}

/// Tells where the longer bars and the printed digits of a symbology are. Returns the code.
#[unsafe(no_mangle)]
pub extern "C" fn labels_proved_layout(symbology: u32, layout: &mut Layout) -> u32
    ensures { AnswersLayout result layout.new (symbology_numbered symbology) }
{
    let told = capi::layout_told(symbology);
    *layout = told.layout;
    told.code
}
