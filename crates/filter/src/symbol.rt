//! Drawing the symbol of a line.
ghost use Rattle.std.specs.Prelude.{◌≡◌, ◌≢◌, ◌+◌, ◌≤◌, IfOk, IfErr, Err, Ok, []};
ghost use Rattle.device.specs.Writing.{WritesText};
ghost use Rattle.labelcore.specs.LineItem.{drawn, outcome_of};
ghost use Rattle.labelcore.specs.OptionValues.{LabelValues};
ghost use Rattle.labelcore.specs.declared.symbology.Symbology.{Symbology as Symbologies};
ghost use Rattle.labelcore.specs.declared.symbology.Symbology.TheVariants.{Qr};
ghost use Rattle.picture.specs.Picture.{bars, symbol_picture, zone_with};
ghost use Rattle.filter.specs.Filter.{DrawsOutcome};
ghost use Rattle.filter.specs.Output.{image_of, text_of};
ghost use Rattle.filter.specs.Readback.{IsRead};
ghost use Rattle.filter.specs.Private.{HasModules, IsMatrixOf, image_in};
ghost use Rattle.filter.specs.Symbol.{linear_symbol, quiet_zone, symbol_of};

use device::{IoFault, Sink};
use labelcore::{Fault, Format, LabelOptions, Options, RunOptions, Symbology};
use linear::{Code128, Ean8, Ean13, Linear, Row, UpcA};
use picture::{Bars, Framed, Grid, QuietZone, Scaled, write_ascii, write_pbm};
use qrdata::{Words, choose, codewords};
use qrmatrix::{Matrix, QUIET_ZONE};

/// Draws one symbol: writes the image of `bytes` in a symbology, under the options of a run and of a label, and flushes
/// nothing. `bytes` is not empty. The inner result is the fault where the data is refused; nothing is written then.
///
/// The image reads back as the full data of the symbol: the data and, for EAN and UPC, the check digit.
///
/// # Errors
///
/// [`IoFault`] where a write fails: the sink took a beginning of the image.
pub fn draw<O: Sink>(
    run: &RunOptions,
    label: &LabelOptions,
    symbology: Symbology,
    bytes: &[u8],
    out: &mut O,
) -> Result<Result<(), Fault>, IoFault>
    requires { bytes.now ≢ [] }
    ensures drawn { DrawsOutcome O.Sink out.old out.new run.now
        (outcome_of (symbol_of label.now symbology bytes.now)) result }
    ensures read { IfOk (symbol_of label.now symbology bytes.now) (λ symbol.
        IsRead run.now.format run.now.scale (image_of run.now (drawn symbol)) symbol) }
{
    let mut row = Row::new();
    draw_in(run, label, symbology, bytes, &mut row, out)
}

/// Draws one symbol, as [`draw`] does, with `row` as room for the modules of a linear one.
pub fn draw_in<O: Sink>(
    run: &RunOptions,
    label: &LabelOptions,
    symbology: Symbology,
    bytes: &[u8],
    row: &mut Row,
    out: &mut O,
) -> Result<Result<(), Fault>, IoFault>
    requires { bytes.now ≢ [] }
    ensures drawn { DrawsOutcome O.Sink out.old out.new run.now
        (outcome_of (symbol_of label.now symbology bytes.now)) result }
    ensures read { IfOk (symbol_of label.now symbology bytes.now) (λ symbol.
        IsRead run.now.format run.now.scale (image_of run.now (drawn symbol)) symbol) }
{
    Options::prove_ranges(run, label);
    match symbology {
        Symbology::Qr => draw_square(run, label, bytes, out),
        _ => draw_row(run, label, symbology, bytes, row, out),
    }
}

/// Draws a linear symbol.
fn draw_row<O: Sink>(
    run: &RunOptions,
    label: &LabelOptions,
    symbology: Symbology,
    bytes: &[u8],
    row: &mut Row,
    out: &mut O,
) -> Result<Result<(), Fault>, IoFault>
    requires some { bytes.now ≢ [] }
    requires linear { symbology ≢ Qr }
    ensures { DrawsOutcome O.Sink out.old out.new run.now
        (outcome_of (symbol_of label.now symbology bytes.now)) result }
{
    Options::prove_ranges(run, label);
    match row_of(symbology, bytes, row) {
        Ok(()) => {
            let bars = Bars::new(row.as_slice(), usize::from(label.height()));
            write_picture(run, bars, zone_of(symbology), out)?;
            Ok(Ok(()))
        }
        Err(fault) => Ok(Err(fault)),
    }
}

/// Draws a QR symbol.
fn draw_square<O: Sink>(
    run: &RunOptions,
    label: &LabelOptions,
    bytes: &[u8],
    out: &mut O,
) -> Result<Result<(), Fault>, IoFault>
    ensures { DrawsOutcome O.Sink out.old out.new run.now
        (outcome_of (symbol_of label.now Qr bytes.now)) result }
{
    let options = Options {
        run: *run,
        label: *label,
    };
    match matrix_of(&options, bytes) {
        Ok(matrix) => {
            write_picture(run, matrix, zone_of(Symbology::Qr), out)?;
            Ok(Ok(()))
        }
        Err(fault) => Ok(Err(fault)),
    }
}

/// Draws the row of a linear symbol of `bytes`, which is not empty, into `row`.
///
/// # Errors
///
/// The fault where the data is refused. The row is empty then.
pub fn row_of(symbology: Symbology, bytes: &[u8], row: &mut Row) -> Result<(), Fault>
    requires some { bytes.now ≢ [] }
    requires linear { symbology ≢ Qr }
    ensures drawn { (label : LabelValues) → IfOk result (λ _.
        HasModules (symbol_of label symbology bytes.now) symbology (bars row.new.items label.height)) }
    ensures refused { (label : LabelValues) → IfErr result (λ fault.
        symbol_of label symbology bytes.now ≡ Err fault) }
    ensures empty { IfErr result (λ _. row.new.items ≡ []) }
{
    match symbology {
        Symbology::Ean13 => linear_row::<Ean13>(bytes, row),
        Symbology::Ean8 => linear_row::<Ean8>(bytes, row),
        Symbology::UpcA => linear_row::<UpcA>(bytes, row),
        Symbology::Code128 => linear_row::<Code128>(bytes, row),
        Symbology::Qr => Ok(()),
    }
}

/// Draws the row of a linear symbol.
fn linear_row<L: Linear>(bytes: &[u8], row: &mut Row) -> Result<(), Fault>
    requires { bytes.now ≢ [] }
    ensures drawn { (symbology : Symbologies) (label : LabelValues) → IfOk result (λ _.
        HasModules (linear_symbol symbology L.row_of label (L.full_data bytes.now)) symbology
        (bars row.new.items label.height)) }
    ensures refused { (symbology : Symbologies) (label : LabelValues) → IfErr result (λ fault.
        linear_symbol symbology L.row_of label (L.full_data bytes.now) ≡ Err fault) }
    ensures empty { IfErr result (λ _. row.new.items ≡ []) }
{
    L::encode(bytes, row)
}

/// Returns the QR symbol of `bytes`.
///
/// # Errors
///
/// The fault where the data is refused.
#[tactic(auto, unfolding(crate::specs::Symbol::symbol_of, crate::specs::Symbol::qr_modules))]
pub fn matrix_of(options: &Options, bytes: &[u8]) -> Result<Matrix, Fault>
    ensures symbol { IfOk result (λ matrix. symbol_of options.now.label Qr bytes.now
        ≡ Ok (record { symbology = Qr; full = bytes.now; modules = symbol_picture matrix })) }
    ensures refused { IfErr result (λ fault. symbol_of options.now.label Qr bytes.now ≡ Err fault) }
    ensures side { IfOk result (λ matrix. matrix.side ≤ 57) }
    ensures numbers { IfOk result (λ matrix. IsMatrixOf options.now.label bytes.now matrix) }
{
    let plan = choose(options, bytes)?;
    let mut written = Words::new();
    codewords(&plan, bytes, &mut written);
    Ok(Matrix::draw(plan.version(), plan.level(), options.mask(), &written))
}

/// Returns the quiet zone of a symbology.
pub fn zone_of(symbology: Symbology) -> QuietZone
    ensures zone { result ≡ quiet_zone symbology }
    ensures narrow { result.left + result.right ≤ 20 }
    ensures low { symbology ≢ Qr → result.top + result.bottom ≡ 0 }
{
    match symbology {
        Symbology::Ean13 => zone_beside(Ean13::QUIET_LEFT, Ean13::QUIET_RIGHT),
        Symbology::Ean8 => zone_beside(Ean8::QUIET_LEFT, Ean8::QUIET_RIGHT),
        Symbology::UpcA => zone_beside(UpcA::QUIET_LEFT, UpcA::QUIET_RIGHT),
        Symbology::Code128 => zone_beside(Code128::QUIET_LEFT, Code128::QUIET_RIGHT),
        Symbology::Qr => QuietZone {
            left: QUIET_ZONE,
            right: QUIET_ZONE,
            top: QUIET_ZONE,
            bottom: QUIET_ZONE,
        },
    }
}

/// Returns the quiet zone beside a row, with nothing above and below it.
fn zone_beside(left: usize, right: usize) -> QuietZone
    ensures { result ≡ zone_with left right 0 0 }
{
    QuietZone {
        left,
        right,
        top: 0,
        bottom: 0,
    }
}

/// Writes the image of a grid in its quiet zone, enlarged by the scale of the run.
fn write_picture<G: Grid + Drop, O: Sink>(
    run: &RunOptions,
    grid: G,
    zone: QuietZone,
    out: &mut O,
) -> Result<(), IoFault>
    requires width { zone.left + (G.picture grid).width + zone.right ≤ 1815 }
    requires height { zone.top + (G.picture grid).height + zone.bottom ≤ 500 }
    ensures { WritesText O.Sink out.old out.new (image_in zone run.now (G.picture grid)) result }
{
    let picture = Scaled::new(
        Framed::new(grid, zone.left, zone.right, zone.top, zone.bottom),
        usize::from(run.scale()),
    );
    write_text(run.format(), &picture, out)
}

/// Writes the text of a picture in a format.
fn write_text<G: Grid, O: Sink>(format: Format, picture: &G, out: &mut O) -> Result<(), IoFault>
    ensures { WritesText O.Sink out.old out.new (text_of format (G.picture picture.now)) result }
{
    match format {
        Format::Pbm => write_pbm(picture, out),
        Format::Ascii => write_ascii(picture, out),
    }
}
