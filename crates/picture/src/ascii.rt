//! Text pictures.
ghost use Rattle.std.specs.Prelude.{◌≡◌, ◌*◌, ◌<◌, ◌≤◌, Some, [], ◌∷◌, flat_map, length, take};
ghost use Rattle.device.specs.Writing.{WritesText};
ghost use Rattle.picture.specs.Reading.{ascii_pixels, raster};
ghost use Rattle.picture.specs.Text.{ascii_pixel, ascii_text};

use crate::grid::Grid;
use crate::pixel_text::{PixelText, write_rows};
use device::{IoFault, Sink, write_whole};

/// Writes the grid as text: a line for each row, with `##` for a dark pixel and two spaces for a light one, and then an
/// empty line.
///
/// # Errors
///
/// The sink's error. A beginning of the text is written then.
pub fn write_ascii<G: Grid, S: Sink>(grid: &G, sink: &mut S) -> Result<(), IoFault>
    ensures writes { WritesText S.Sink sink.old sink.new (ascii_text (G.picture grid.now)) result }
    // The text, read back, has the grid's pixels.
    ensures read { 0 < (G.picture grid.now).height
        → ascii_pixels (ascii_text (G.picture grid.now)) ≡ Some (raster (G.picture grid.now)) }
{
    write_rows::<AsciiPixels, G, S>(grid, sink)?;
    write_whole(b"\n", sink)
}

/// Writes two letters for each pixel, and a line feed after each row.
struct AsciiPixels;

impl PixelText for AsciiPixels {
    ghost use Rattle.std.specs.Prelude.{flat_map, codes};

    ghost text = { λ pixels. flat_map ascii_pixel pixels };

    ghost row_end = { codes "\n" };

    // It writes two halves, so that no text is longer than 70 bytes.
    fn write_piece<S: Sink>(pixels: &[bool], len: usize, sink: &mut S) -> Result<(), IoFault> {
        let half = len / 2;
        write_letters(&pixels[..half], sink)?;
        write_letters(&pixels[half..len], sink)
    }

    fn row_end() -> &'static [u8] {
        b"\n"
    }

    #[tactic(auto, using(crate::proofs::LengthLaws::length_of_ascii_row))]
    fn row_len(width: usize) -> usize {
        2 * width + 1
    }
}

/// Writes the letters of at most 35 pixels.
fn write_letters<S: Sink>(pixels: &[bool], sink: &mut S) -> Result<(), IoFault>
    requires { length pixels.now ≤ 35 }
    ensures { WritesText S.Sink sink.old sink.new (flat_map ascii_pixel pixels.now) result }
{
    let text = letters(pixels);
    write_whole(&text[..2 * pixels.len()], sink)
}

/// Returns the letters of at most 35 pixels, and then spaces.
#[tactic(auto, using(crate::proofs::LetterLaws::letters_step, crate::proofs::LetterLaws::letters_all))]
fn letters(pixels: &[bool]) -> [u8; 70]
    requires { length pixels.now ≤ 35 }
    ensures { take (2 * length pixels.now) result ≡ flat_map ascii_pixel pixels.now }
{
    let mut text = [b' '; 70];
    for i in 0..pixels.len() {
        let letter = letter(pixels[i]);
        text[2 * i] = letter;
        text[2 * i + 1] = letter;
    }
    text
}

/// Returns the letter of a pixel.
fn letter(dark: bool) -> u8
    ensures { ascii_pixel dark ≡ result ∷ result ∷ [] }
{
    if dark { b'#' } else { b' ' }
}
