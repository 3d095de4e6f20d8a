//! The modules of one symbol into a caller's room.
ghost use Rattle.std.specs.Prelude.{◌≡◌, ◌≢◌, ◌*◌, ◌^◌, ◌<◌, ◌≤◌, ◌++◌, ℕ, List, [], IfOk, length, take, drop};
ghost use Rattle.labelcore.specs.ItemView.{item_seen};
ghost use Rattle.labelcore.specs.LineItem.{outcome_of};
ghost use Rattle.labelcore.specs.declared.symbology.Symbology.TheVariants.{Qr};
ghost use Rattle.filter.specs.Symbol.{Symbol as Drawn, symbol_of};
ghost use Rattle.picture.specs.Text.{pixel_row};
ghost use Rattle.capi.specs.Calls.{asked, line_asked};
ghost use Rattle.capi.specs.Full.{PutsFull, PutsFullOutcome};
ghost use Rattle.capi.specs.Modules.{AnswersModules, AnswersModulesOutcome, HasNumbers, HasQrNumbers, IsDrawnAs, IsSizeOf};
ghost use Rattle.capi.specs.Modules.{NumbersAsked, PutsModules, ReadsModules, ReadsModulesOutcome, modules_of};
ghost use Rattle.capi.specs.Private.Asking.{HasBytes, asked_seen};

use crate::asked::{Asked, Reason, asked_of, line_asked};
use crate::draw::{declined, declined_at, refused};
use crate::full::put_full;
use crate::numbers::{
    Answer, CallOptions, DONE, NO_ROOM, SKIPPED, SymbolInfo, Told, number_of, number_of_level,
    told_nothing,
};
use filter::{matrix_of, row_of, zone_of};
use labelcore::{Item, LabelOptions, LineBuf, Options, RunOptions, Scratch, Symbology};
use linear::Row;
use picture::{Bars, Grid, bits_of, read_pixels};

/// The bits of a row.
const BITS: usize = 64;

/// Puts the modules of a grid at the front of a room that has space for them.
fn put_grid<G: Grid>(grid: &G, modules: &mut [bool])
    requires { (G.picture grid.now).width * (G.picture grid.now).height ≤ length modules.old }
    ensures { modules.new ≡ modules_of (G.picture grid.now)
        ++ drop ((G.picture grid.now).width * (G.picture grid.now).height) modules.old }
{
    let width = grid.width();
    let height = grid.height();
    let all = width * height;
    let mut at = 0;
    for y in 0..height {
        put_row(grid, y, &mut modules[at..all]);
        at += width;
    }
}

/// Puts a row of a grid at the front of `room`. What is behind the row there may change: the bits of a row are put all
/// at once where there is room for them.
fn put_row<G: Grid>(grid: &G, y: usize, room: &mut [bool])
    requires in_height { y < (G.picture grid.now).height }
    requires in_room { (G.picture grid.now).width ≤ length room.old }
    ensures { take (G.picture grid.now).width room.new ≡ pixel_row (G.picture grid.now) y }
{
    let width = grid.width();
    match grid.row_bits(y) {
        Some(row) if width <= BITS && BITS <= room.len() => {
            room[..BITS].copy_from_slice(&bits_of(row));
        }
        _ => read_pixels(grid, y, &mut room[..width]),
    }
}

/// Puts the modules of a grid where there is room for all.
fn offer_grid<G: Grid>(grid: &G, modules: &mut [bool]) -> Answer
    requires { ((G.picture grid.now).width ≤ 1795) × ((G.picture grid.now).height ≤ 57) }
    ensures { (message : List ℕ) → PutsModules (record {
      modules = modules.old;
      modules_after = modules.new;
      message = message;
      message_after = message;
    }) result (G.picture grid.now) }
{
    let length = grid.width() * grid.height();
    let code = if length <= modules.len() {
        put_grid(grid, modules);
        DONE
    } else {
        NO_ROOM
    };
    Answer {
        code,
        reserved: 0,
        length,
        at: 0,
        message_length: 0,
    }
}

/// Puts the modules of one symbol into `modules` and its full data into `full`, or the reason why there is none into
/// `message`. A linear symbol has one row, so the height is of no matter, nor are format and scale.
pub fn symbol_into(
    options: &CallOptions,
    symbology: u32,
    bytes: &[u8],
    modules: &mut [bool],
    message: &mut [u8],
    full: &mut [u8],
) -> Told
    ensures answers { AnswersModules (record {
      modules = modules.old;
      modules_after = modules.new;
      message = message.old;
      message_after = message.new;
    }) result.answer result.info (asked options.now symbology bytes.now) }
    ensures read { ReadsModules (asked options.now symbology bytes.now) }
    ensures numbers { NumbersAsked result.info (asked options.now symbology bytes.now) }
    ensures full { PutsFull full.old full.new result.info.data_length (asked options.now symbology bytes.now) }
{
    put_modules(&asked_of(options, symbology, bytes), modules, message, full)
}

/// Puts the modules of the symbol that a line draws into `modules` and its full data into `full`, or the reason why there
/// is none into `message`. Of a linear symbol it puts one row. Format and scale are of no matter. A text with an LF is
/// refused.
pub fn line_into(
    options: &CallOptions,
    text: &[u8],
    modules: &mut [bool],
    message: &mut [u8],
    full: &mut [u8],
) -> Told
    ensures answers { AnswersModules (record {
      modules = modules.old;
      modules_after = modules.new;
      message = message.old;
      message_after = message.new;
    }) result.answer result.info (line_asked options.now text.now) }
    ensures read { ReadsModules (line_asked options.now text.now) }
    ensures numbers { NumbersAsked result.info (line_asked options.now text.now) }
    ensures full { PutsFull full.old full.new result.info.data_length (line_asked options.now text.now) }
{
    let mut line = LineBuf::new();
    let mut scratch = Scratch::new();
    put_modules(
        &line_asked(options, text, &mut line, &mut scratch),
        modules,
        message,
        full,
    )
}

/// Puts the modules of what a call asks for.
fn put_modules(
    asked: &Result<Asked<'_>, Reason>,
    modules: &mut [bool],
    message: &mut [u8],
    full: &mut [u8],
) -> Told
    requires { IfOk asked.now (λ a. HasBytes (item_seen a.item)) }
    ensures answers { AnswersModules (record {
      modules = modules.old;
      modules_after = modules.new;
      message = message.old;
      message_after = message.new;
    }) result.answer result.info (asked_seen asked.now) }
    ensures read { ReadsModules (asked_seen asked.now) }
    ensures numbers { NumbersAsked result.info (asked_seen asked.now) }
    ensures full { PutsFull full.old full.new result.info.data_length (asked_seen asked.now) }
{
    let Asked { run, item } = match asked {
        Ok(asked) => asked,
        Err(reason) => return told_nothing(declined_at(*reason)),
    };
    match *item {
        Item::Skip => told_nothing(declined(SKIPPED)),
        Item::Refuse(fault) => told_nothing(refused(&fault, message)),
        Item::Draw(symbology, Options { label, .. }, bytes) => {
            modules_are_read(run, &label, symbology, bytes);
            match symbology {
                Symbology::Qr => square_modules(run, &label, bytes, modules, message, full),
                _ => row_modules(&label, symbology, bytes, modules, message, full),
            }
        }
    }
}

/// What is put is read: the modules of a symbol that is drawn read as its full data. It does nothing when it runs.
fn modules_are_read(run: &RunOptions, label: &LabelOptions, symbology: Symbology, bytes: &[u8])
    requires { bytes.now ≢ [] }
    ensures { ReadsModulesOutcome (outcome_of (symbol_of label.now symbology bytes.now)) }
{
    Options::prove_ranges(run, label);
}

/// Puts the row of a linear symbol.
fn row_modules(
    label: &LabelOptions,
    symbology: Symbology,
    bytes: &[u8],
    modules: &mut [bool],
    message: &mut [u8],
    full: &mut [u8],
) -> Told
    requires some { bytes.now ≢ [] }
    requires linear { symbology ≢ Qr }
    ensures answers { AnswersModulesOutcome (record {
      modules = modules.old;
      modules_after = modules.new;
      message = message.old;
      message_after = message.new;
    }) result.answer result.info (outcome_of (symbol_of label.now symbology bytes.now)) }
    ensures numbers { IfOk (symbol_of label.now symbology bytes.now) (λ symbol.
        HasNumbers label.now symbology bytes.now result.info) }
    ensures full { PutsFullOutcome full.old full.new result.info.data_length
        (outcome_of (symbol_of label.now symbology bytes.now)) }
{
    let mut row = Row::new();
    match row_of(symbology, bytes, &mut row) {
        Ok(()) => {
            let height = usize::from(label.height());
            let length = put_full(symbology, bytes, full);
            Told {
                answer: offer_grid(&Bars::new(row.as_slice(), 1), modules),
                info: info_of(symbology, row.len(), 1, height, length),
            }
        }
        Err(fault) => told_nothing(refused(&fault, message)),
    }
}

/// Puts the modules of a QR symbol.
fn square_modules(
    run: &RunOptions,
    label: &LabelOptions,
    bytes: &[u8],
    modules: &mut [bool],
    message: &mut [u8],
    full: &mut [u8],
) -> Told
    ensures answers { AnswersModulesOutcome (record {
      modules = modules.old;
      modules_after = modules.new;
      message = message.old;
      message_after = message.new;
    }) result.answer result.info (outcome_of (symbol_of label.now Qr bytes.now)) }
    ensures numbers { IfOk (symbol_of label.now Qr bytes.now) (λ symbol.
        HasQrNumbers label.now bytes.now result.info) }
    ensures full { PutsFullOutcome full.old full.new result.info.data_length
        (outcome_of (symbol_of label.now Qr bytes.now)) }
{
    let options = Options {
        run: *run,
        label: *label,
    };
    match matrix_of(&options, bytes) {
        Ok(matrix) => {
            let side = matrix.side();
            let length = put_full(Symbology::Qr, bytes, full);
            let info = info_of(Symbology::Qr, side, side, side, length);
            Told {
                answer: offer_grid(&matrix, modules),
                info: SymbolInfo {
                    version: (side as u32).saturating_sub(17) / 4,
                    level: number_of_level(label.level()),
                    mask: u32::from(matrix.mask()),
                    ..info
                },
            }
        }
        Err(fault) => told_nothing(refused(&fault, message)),
    }
}

/// Returns what is told of a symbol: its size, of which so many rows are put, and how long its full data is.
fn info_of(
    symbology: Symbology,
    width: usize,
    rows: usize,
    height: usize,
    data_length: usize,
) -> SymbolInfo
    requires { (width < 2 ^ 32) × ((rows < 2 ^ 32) × (height < 2 ^ 32)) }
    ensures size { (symbol : Drawn) → symbol.symbology ≡ symbology → symbol.modules.width ≡ width
        → symbol.modules.height ≡ rows → IsSizeOf symbol result }
    ensures drawn { (symbol : Drawn) → symbol.symbology ≡ symbology → symbol.modules.height ≡ height
        → IsDrawnAs symbol result }
    ensures length { result.data_length ≡ data_length }
    ensures zeros { (result.version ≡ 0) × ((result.level ≡ 0) × (result.mask ≡ 0)) }
{
    let zone = zone_of(symbology);
    SymbolInfo {
        symbology: number_of(symbology),
        width: width as u32,
        rows: rows as u32,
        height: height as u32,
        left: zone.left as u32,
        right: zone.right as u32,
        top: zone.top as u32,
        bottom: zone.bottom as u32,
        version: 0,
        level: 0,
        mask: 0,
        reserved: [0; 5],
        data_length,
    }
}
