//! The bitmap of one symbol into a caller's room.
ghost use Rattle.std.specs.Prelude.{IfOk, ◌≢◌, ◌+◌, ◌≤◌, ℕ, List, []};
ghost use Rattle.labelcore.specs.ItemView.{item_seen};
ghost use Rattle.labelcore.specs.LineItem.{outcome_of};
ghost use Rattle.labelcore.specs.declared.symbology.Symbology.TheVariants.{Qr};
ghost use Rattle.picture.specs.Picture.{enlargement, with_quiet_zone, zone_with};
ghost use Rattle.filter.specs.Symbol.{symbol_of};
ghost use Rattle.capi.specs.Calls.{Declines, Rooms, asked, line_asked};
ghost use Rattle.capi.specs.Bitmap.{AnswersBitmap, AnswersBitmapOutcome, DeclinesBitmap, PutsBitmap, ReadsBitmap};
ghost use Rattle.capi.specs.Bitmap.{ReadsBitmapOutcome};
ghost use Rattle.capi.specs.Private.Asking.{HasBytes, asked_seen};

use crate::asked::{Asked, Reason, asked_of, line_asked};
use crate::bit_rows::{put_dots, row_step, rows_size};
use crate::draw::{declined, declined_at, refused};
use crate::numbers::{Answer, CallOptions, DONE, NO_ROOM, SKIPPED, ToldBitmap};
use filter::{matrix_of, row_of, zone_of};
use labelcore::{Item, LabelOptions, LineBuf, Options, RunOptions, Scratch, Symbology};
use linear::Row;
use picture::{Bars, Framed, Grid, QuietZone, Scaled};
use reading::{labels_are_read, readings_are_alone};

/// Puts the bitmap of one symbol into `bits`, in its quiet zone and enlarged: a bit for each dot, 1 where dark, in rows
/// that begin `stride` bytes after one another. Or puts the reason why there is none into `message`. The format is of no
/// matter.
pub fn bitmap_into(
    options: &CallOptions,
    symbology: u32,
    bytes: &[u8],
    bits: &mut [u8],
    stride: usize,
    message: &mut [u8],
) -> ToldBitmap
    ensures answers { AnswersBitmap (record {
      out = bits.old;
      out_after = bits.new;
      message = message.old;
      message_after = message.new;
    }) stride result (asked options.now symbology bytes.now) }
    ensures read { ReadsBitmap (asked options.now symbology bytes.now) }
{
    put_bitmap(&asked_of(options, symbology, bytes), bits, stride, message)
}

/// Puts the bitmap of what a line asks for into `bits`, as `bitmap_into` does, or the reason why there is none into
/// `message`. A text with an LF is refused.
pub fn bitmap_line_into(
    options: &CallOptions,
    text: &[u8],
    bits: &mut [u8],
    stride: usize,
    message: &mut [u8],
) -> ToldBitmap
    ensures answers { AnswersBitmap (record {
      out = bits.old;
      out_after = bits.new;
      message = message.old;
      message_after = message.new;
    }) stride result (line_asked options.now text.now) }
    ensures read { ReadsBitmap (line_asked options.now text.now) }
{
    let mut line = LineBuf::new();
    let mut scratch = Scratch::new();
    put_bitmap(
        &line_asked(options, text, &mut line, &mut scratch),
        bits,
        stride,
        message,
    )
}

/// Puts the bitmap of what a call asks for.
fn put_bitmap(
    asked: &Result<Asked<'_>, Reason>,
    bits: &mut [u8],
    stride: usize,
    message: &mut [u8],
) -> ToldBitmap
    requires { IfOk asked.now (λ a. HasBytes (item_seen a.item)) }
    ensures answers { AnswersBitmap (record {
      out = bits.old;
      out_after = bits.new;
      message = message.old;
      message_after = message.new;
    }) stride result (asked_seen asked.now) }
    ensures read { ReadsBitmap (asked_seen asked.now) }
{
    let Asked { run, item } = match asked {
        Ok(asked) => asked,
        Err(reason) => return no_bitmap(declined_at(*reason)),
    };
    match *item {
        Item::Skip => no_bitmap(declined(SKIPPED)),
        Item::Refuse(fault) => no_bitmap(refused(&fault, message)),
        Item::Draw(symbology, Options { label, .. }, bytes) => {
            bitmap_is_read(run, &label, symbology, bytes);
            match symbology {
                Symbology::Qr => square_bitmap(run, &label, bytes, bits, stride, message),
                _ => row_bitmap(run, &label, symbology, bytes, bits, stride, message),
            }
        }
    }
}

/// Returns the answer of a call that draws nothing.
fn no_bitmap(answer: Answer) -> ToldBitmap
    ensures { (rooms : Rooms) (code place : ℕ) (text : List ℕ) → Declines rooms answer code place text
        → DeclinesBitmap rooms result code place text }
{
    ToldBitmap {
        answer,
        width: 0,
        height: 0,
    }
}

/// What is put is read: the bitmap of a symbol that is drawn reads as its full data. It does nothing when it runs.
fn bitmap_is_read(run: &RunOptions, label: &LabelOptions, symbology: Symbology, bytes: &[u8])
    requires { bytes.now ≢ [] }
    ensures { ReadsBitmapOutcome run.now (outcome_of (symbol_of label.now symbology bytes.now)) }
{
    Options::prove_ranges(run, label);
    let options = Options {
        run: *run,
        label: *label,
    };
    labels_are_read(&options, symbology, bytes);
    readings_are_alone();
}

/// Puts the bitmap of a linear symbol.
fn row_bitmap(
    run: &RunOptions,
    label: &LabelOptions,
    symbology: Symbology,
    bytes: &[u8],
    bits: &mut [u8],
    stride: usize,
    message: &mut [u8],
) -> ToldBitmap
    requires some { bytes.now ≢ [] }
    requires linear { symbology ≢ Qr }
    ensures { AnswersBitmapOutcome (record {
      out = bits.old;
      out_after = bits.new;
      message = message.old;
      message_after = message.new;
    }) stride result run.now (outcome_of (symbol_of label.now symbology bytes.now)) }
{
    Options::prove_ranges(run, label);
    let mut row = Row::new();
    match row_of(symbology, bytes, &mut row) {
        Ok(()) => {
            let bars = Bars::new(row.as_slice(), usize::from(label.height()));
            offer_bitmap(run, bars, zone_of(symbology), bits, stride)
        }
        Err(fault) => no_bitmap(refused(&fault, message)),
    }
}

/// Puts the bitmap of a QR symbol.
fn square_bitmap(
    run: &RunOptions,
    label: &LabelOptions,
    bytes: &[u8],
    bits: &mut [u8],
    stride: usize,
    message: &mut [u8],
) -> ToldBitmap
    ensures { AnswersBitmapOutcome (record {
      out = bits.old;
      out_after = bits.new;
      message = message.old;
      message_after = message.new;
    }) stride result run.now (outcome_of (symbol_of label.now Qr bytes.now)) }
{
    let options = Options {
        run: *run,
        label: *label,
    };
    match matrix_of(&options, bytes) {
        Ok(matrix) => offer_bitmap(run, matrix, zone_of(Symbology::Qr), bits, stride),
        Err(fault) => no_bitmap(refused(&fault, message)),
    }
}

/// Puts the bitmap of a grid in its quiet zone, enlarged by the scale of the run, where there is room for all of it, in
/// rows that begin `stride` bytes after one another: 0 asks for rows without a gap.
fn offer_bitmap<G: Grid + Drop>(
    run: &RunOptions,
    grid: G,
    zone: QuietZone,
    bits: &mut [u8],
    stride: usize,
) -> ToldBitmap
    requires width { zone.left + (G.picture grid).width + zone.right ≤ 1815 }
    requires height { zone.top + (G.picture grid).height + zone.bottom ≤ 500 }
    ensures { (message : List ℕ) → PutsBitmap (record {
      out = bits.old;
      out_after = bits.new;
      message = message;
      message_after = message;
    }) stride result (enlargement (with_quiet_zone (G.picture grid)
        (zone_with zone.left zone.right zone.top zone.bottom)) run.now.scale) }
{
    let picture = Scaled::new(
        Framed::new(grid, zone.left, zone.right, zone.top, zone.bottom),
        usize::from(run.scale()),
    );
    let width = picture.width();
    let height = picture.height();
    let size = width.div_ceil(8);
    let stride = row_step(stride, size);
    let length = rows_size(height, stride, size);
    let code = if size <= stride && length <= bits.len() {
        put_dots(&picture, stride, bits);
        DONE
    } else {
        NO_ROOM
    };
    ToldBitmap {
        answer: Answer {
            code,
            reserved: 0,
            length,
            at: 0,
            message_length: 0,
        },
        width: width as u32,
        height: height as u32,
    }
}
