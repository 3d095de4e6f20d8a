//! From bytes to the modules of a QR symbol.
ghost use Rattle.std.specs.Prelude.{◌≡◌, ◌≤◌, Some, Ok, Err, option_and_then, IfOk, IfErr};
ghost use Rattle.filter.specs.Symbol.{symbol_of};
ghost use Rattle.labelcore.specs.declared.symbology.Symbology.TheVariants.{Qr};
ghost use Rattle.picture.specs.Picture.{symbol_picture};
ghost use Rattle.qrdata.specs.Reading.{data_in};
ghost use Rattle.qrmatrix.specs.Reading.{read_matrix};
ghost use Rattle.qrmatrix.specs.Symbol.{is_dark};

use labelcore::{Fault, Options};
use qrdata::{Words, choose, codewords};
use qrmatrix::Matrix;

/// Returns the QR symbol of the bytes, in the smallest version that holds them at the level of the options. Its modules
/// read back as the bytes.
///
/// # Errors
///
/// `DoesNotFit` where the bytes fit no version.
#[tactic(auto, unfolding(filter::specs::Symbol::symbol_of, filter::specs::Symbol::qr_modules))]
pub fn matrix_of(options: &Options, bytes: &[u8]) -> Result<Matrix, Fault>
    // The filter draws the same symbol of these bytes, and refuses the same bytes.
    ensures symbol { IfOk result (λ matrix. symbol_of options.now.label Qr bytes.now
        ≡ Ok (record { symbology = Qr; full = bytes.now; modules = symbol_picture matrix })) }
    ensures refusal { IfErr result (λ fault. symbol_of options.now.label Qr bytes.now ≡ Err fault) }
    ensures read { IfOk result (λ matrix.
        option_and_then (λ symbol. data_in symbol.version symbol.level symbol.codewords)
        (read_matrix matrix.side (is_dark matrix)) ≡ Some bytes.now) }
    ensures side { IfOk result (λ matrix. matrix.side ≤ 57) }
{
    let plan = choose(options, bytes)?;
    let mut written = Words::new();
    codewords(&plan, bytes, &mut written);
    Ok(Matrix::draw(plan.version(), plan.level(), options.mask(), &written))
}
