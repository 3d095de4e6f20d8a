//! What a call asks for: the symbol of its data, or what the filter does with its line.
ghost use Rattle.std.specs.Prelude.{◌≡◌, [], IfOk};
ghost use Rattle.labelcore.specs.HeldLine.{held_line};
ghost use Rattle.labelcore.specs.ItemView.{item_seen};
ghost use Rattle.capi.specs.Calls.{asked, line_asked, options_asked};
ghost use Rattle.capi.specs.Private.Asking.{HasBytes, asked_seen};

use crate::numbers::{
    BAD_OPTION, BAD_SYMBOLOGY, CallOptions, NO_DATA, NOT_ONE_LINE, options_of, symbology_numbered,
};
use labelcore::{Item, LineBuf, Options, RunOptions, Scratch, parse};

/// What a call asks for: the options of a run, and what is drawn with them.
#[derive(Clone, Copy)]
pub struct Asked<'a> {
    pub run: RunOptions,
    pub item: Item<'a>,
}

/// Why a call draws nothing: a code, and where it is that of an option out of its range, the number of that option; else 0.
#[derive(Clone, Copy, Drop)]
pub struct Reason {
    pub code: u32,
    pub at: usize,
}

/// Returns the options that the numbers of a call mean.
///
/// # Errors
///
/// The code of an option out of its range, and its number.
#[tactic(auto, unfolding(crate::specs::Calls::options_asked))]
fn options_asked(options: &CallOptions) -> Result<Options, Reason>
    ensures { result ≡ options_asked options.now }
{
    match options_of(options) {
        Ok(found) => Ok(found),
        Err(at) => Err(Reason {
            code: BAD_OPTION,
            at,
        }),
    }
}

/// Returns what the numbers of a call ask for.
///
/// # Errors
///
/// The code of an option out of its range, else of a number that names no symbology, else of data without bytes.
#[tactic(auto, unfolding(crate::specs::Calls::asked))]
pub fn asked_of<'a>(
    options: &CallOptions,
    symbology: u32,
    bytes: &'a [u8],
) -> Result<Asked<'a>, Reason>
    ensures asked { asked_seen result ≡ asked options.now symbology bytes.now }
    ensures some { IfOk result (λ a. HasBytes (item_seen a.item)) }
{
    let options = options_asked(options)?;
    let symbology = symbology_numbered(symbology).ok_or(Reason {
        code: BAD_SYMBOLOGY,
        at: 0,
    })?;
    if bytes.is_empty() {
        return Err(Reason {
            code: NO_DATA,
            at: 0,
        });
    }
    Ok(Asked {
        run: options.run,
        item: Item::Draw(symbology, options, bytes),
    })
}

/// Returns what the numbers of a call and a line ask for. The line is held in `line`, which is empty before.
///
/// # Errors
///
/// That of an option out of its range, else that of a text with an LF.
#[tactic(auto, unfolding(crate::specs::Calls::line_asked))]
pub fn line_asked<'a>(
    options: &CallOptions,
    text: &[u8],
    line: &'a mut LineBuf,
    scratch: &'a mut Scratch,
) -> Result<Asked<'a>, Reason>
    requires { line.old ≡ held_line [] }
    ensures asked { asked_seen result ≡ line_asked options.now text.now }
    ensures some { IfOk result (λ a. HasBytes (item_seen a.item)) }
{
    let options = options_asked(options)?;
    if text.contains(&b'\n') {
        return Err(Reason {
            code: NOT_ONE_LINE,
            at: 0,
        });
    }
    line.extend(text);
    Ok(Asked {
        run: options.run,
        item: parse(&options, line, scratch),
    })
}
