//! The image of one symbol, the text of its picture, into a caller's room.
ghost use Rattle.std.specs.Prelude.{◌≡◌, ◌≢◌, ◌-◌, ◌^◌, [], Err, IsOk, MatchResult, length, min};
ghost use Rattle.capi.specs.Room.{put_text};
ghost use Rattle.labelcore.specs.LineItem.{drawn, outcome_of};
ghost use Rattle.labelcore.specs.Message.{fault_text};
ghost use Rattle.filter.specs.Symbol.{symbol_of};
ghost use Rattle.filter.specs.Readback.{IsRead};
ghost use Rattle.filter.specs.Output.{image_of};
ghost use Rattle.std.specs.Prelude.{IfOk, List, ℕ};
ghost use Rattle.labelcore.specs.ItemView.{item_seen};
ghost use Rattle.capi.specs.Calls.{AnswersImage, AnswersImageOutcome, Declines, ReadsImage, ReadsImageOutcome, asked, line_asked};
ghost use Rattle.capi.specs.Private.Asking.{HasBytes, asked_seen};
ghost use Rattle.capi.specs.Numbers.{code_of as number_of, place_of as place_told};

use crate::asked::{Asked, Reason, asked_of, line_asked};
use crate::numbers::{Answer, CallOptions, DONE, NO_ROOM, SKIPPED, code_of, place_of};
use crate::slice_sink::SliceSink;
use filter::draw;
use labelcore::{
    Fault, Item, LabelOptions, LineBuf, Options, RunOptions, Scratch, Symbology, write_reason,
};

/// Puts the image of one symbol into `out`, or the reason why there is none into `message`. Of a text that is too long it
/// puts what there is room for, and answers with the length of the whole.
pub fn draw_into(
    options: &CallOptions,
    symbology: u32,
    bytes: &[u8],
    out: &mut [u8],
    message: &mut [u8],
) -> Answer
    ensures answers { AnswersImage (record {
      out = out.old;
      out_after = out.new;
      message = message.old;
      message_after = message.new;
    }) result (asked options.now symbology bytes.now) }
    ensures read { ReadsImage (asked options.now symbology bytes.now) }
{
    put_image(&asked_of(options, symbology, bytes), out, message)
}

/// Puts the image of what a line asks for into `out`, or the reason why there is none into `message`. A text with an LF
/// is refused.
pub fn draw_line_into(
    options: &CallOptions,
    text: &[u8],
    out: &mut [u8],
    message: &mut [u8],
) -> Answer
    ensures answers { AnswersImage (record {
      out = out.old;
      out_after = out.new;
      message = message.old;
      message_after = message.new;
    }) result (line_asked options.now text.now) }
    ensures read { ReadsImage (line_asked options.now text.now) }
{
    let mut line = LineBuf::new();
    let mut scratch = Scratch::new();
    put_image(
        &line_asked(options, text, &mut line, &mut scratch),
        out,
        message,
    )
}

/// Puts the image of what a call asks for.
fn put_image(asked: &Result<Asked<'_>, Reason>, out: &mut [u8], message: &mut [u8]) -> Answer
    requires { IfOk asked.now (λ a. HasBytes (item_seen a.item)) }
    ensures answers { AnswersImage (record {
      out = out.old;
      out_after = out.new;
      message = message.old;
      message_after = message.new;
    }) result (asked_seen asked.now) }
    ensures read { ReadsImage (asked_seen asked.now) }
{
    let Asked { run, item } = match asked {
        Ok(asked) => asked,
        Err(reason) => return declined_at(*reason),
    };
    match *item {
        Item::Skip => declined(SKIPPED),
        Item::Refuse(fault) => refused(&fault, message),
        Item::Draw(symbology, Options { label, .. }, bytes) => {
            symbol_image(run, &label, symbology, bytes, out, message)
        }
    }
}

/// The answer of a call that draws nothing for this reason.
pub fn declined_at(reason: Reason) -> Answer
    ensures { (out message : List ℕ) → Declines (record {
      out = out;
      out_after = out;
      message = message;
      message_after = message;
    }) result reason.code reason.at [] }
{
    Answer {
        code: reason.code,
        reserved: 0,
        length: 0,
        at: reason.at,
        message_length: 0,
    }
}

/// The answer of a call that draws nothing and has no message.
pub fn declined(code: u32) -> Answer
    ensures { (out message : List ℕ) → Declines (record {
      out = out;
      out_after = out;
      message = message;
      message_after = message;
    }) result code 0 [] }
{
    declined_at(Reason { code, at: 0 })
}

/// Puts the image of one symbol.
fn symbol_image(
    run: &RunOptions,
    label: &LabelOptions,
    symbology: Symbology,
    bytes: &[u8],
    out: &mut [u8],
    message: &mut [u8],
) -> Answer
    requires { bytes.now ≢ [] }
    ensures answers { AnswersImageOutcome (record {
      out = out.old;
      out_after = out.new;
      message = message.old;
      message_after = message.new;
    }) result run.now (outcome_of (symbol_of label.now symbology bytes.now)) }
    ensures read { ReadsImageOutcome run.now (outcome_of (symbol_of label.now symbology bytes.now)) }
{
    let room = out.len();
    match drawn_into(run, label, symbology, bytes, out) {
        Ok(length) => Answer {
            code: if length <= room { DONE } else { NO_ROOM },
            reserved: 0,
            length,
            at: 0,
            message_length: 0,
        },
        Err(fault) => refused(&fault, message),
    }
}

/// Puts the image of one symbol into a room. Returns its length, or why there is none.
fn drawn_into(
    run: &RunOptions,
    label: &LabelOptions,
    symbology: Symbology,
    bytes: &[u8],
    out: &mut [u8],
) -> Result<usize, Fault>
    requires { bytes.now ≢ [] }
    ensures put { out.new ≡ put_text out.old 0
        (image_of run.now (outcome_of (symbol_of label.now symbology bytes.now))) }
    ensures size { IfOk result (λ size. size ≡ min (length (image_of run.now
        (outcome_of (symbol_of label.now symbology bytes.now)))) (2 ^ 64 - 1)) }
    ensures refusal { MatchResult result (λ _. IsOk (symbol_of label.now symbology bytes.now))
        (λ fault. symbol_of label.now symbology bytes.now ≡ Err fault) }
    ensures read { IfOk (symbol_of label.now symbology bytes.now) (λ symbol.
        IsRead run.now.format run.now.scale (image_of run.now (drawn symbol)) symbol) }
{
    let mut sink = SliceSink::new(out);
    let drawn = draw(run, label, symbology, bytes, &mut sink);
    let length = sink.count();
    match drawn {
        Ok(Ok(())) => Ok(length),
        Ok(Err(fault)) => Err(fault),
        Err(_) => Ok(0),
    }
}

/// Puts the reason of a refusal.
pub fn refused(fault: &Fault, message: &mut [u8]) -> Answer
    ensures { (out : List ℕ) → Declines (record { out = out; out_after = out; message = message.old; message_after = message.new })
        result (number_of fault.now) (place_told fault.now) (fault_text fault.now) }
{
    let mut sink = SliceSink::new(message);
    let _ = write_reason(fault, &mut sink);
    Answer {
        code: code_of(fault),
        reserved: 0,
        length: 0,
        at: place_of(fault),
        message_length: sink.count(),
    }
}
