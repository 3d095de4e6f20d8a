//! The rows of a grid as text, in pieces of 70 pixels.
ghost use Rattle.std.specs.Prelude.{◌≡◌, ℕ, ◌^◌, ◌<◌, ◌≤◌, Bool, List, length, take};
ghost use Rattle.device.specs.Writing.{WritesText};
ghost use Rattle.picture.specs.Private.Rows.{row_text, rows_text};

use crate::grid::Grid;
use crate::kept_rows::write_kept_rows;
use crate::wide_rows::write_wide_rows;
use device::{IoFault, Sink};

/// The most pixels of a piece, which is written at once.
pub const PIECE: usize = 70;

/// The pixels that the text of a piece is made of: a piece, and ten pixels after it, whose text is left out. The
/// processor makes 16 digits at once, and 80 is a multiple of 16.
pub const PIECE_ROOM: usize = 80;

/// The pixels that are kept of a row and after it, for its last piece. A small array costs less to clear than a large
/// one.
const SMALL_ROW: usize = 480;

const MIDDLE_ROW: usize = 1200;

const LARGE_ROW: usize = 14480;

/// How a row of pixels is written.
pub trait PixelText {
    /// The text of a piece.
    ghost text: { List Bool → List ℕ };

    /// The text after a row's pieces.
    ghost row_end: { List ℕ };

    /// Writes a piece: the first `len` of these 80 pixels, at most 70. The work is the same for each length.
    ///
    /// # Errors
    ///
    /// The sink's error. A beginning of the piece is written then.
    fn write_piece<S: Sink>(pixels: &[bool], len: usize, sink: &mut S) -> Result<(), IoFault>
        requires whole { length pixels.now ≡ 80 }
        requires short { len ≤ 70 }
        ensures { WritesText S.Sink sink.old sink.new (text (take len pixels.now)) result };

    /// Returns the text after a row's pieces.
    fn row_end() -> &'static [u8]
        ensures { result.now ≡ row_end };

    /// Returns the length of the text of a row of `width` pixels, in bytes.
    fn row_len(width: usize) -> usize
        requires { width < 2 ^ 63 }
        ensures { (row : List Bool) → length row ≡ width → length (row_text text row_end row) ≡ result };
}

/// Writes the rows of the grid, with the text of at most one piece in memory at a time.
///
/// # Errors
///
/// The sink's error. A beginning of the rows is written then.
pub fn write_rows<T: PixelText, G: Grid, S: Sink>(grid: &G, sink: &mut S) -> Result<(), IoFault>
    ensures { WritesText S.Sink sink.old sink.new
        (rows_text T.text T.row_end (G.picture grid.now)) result }
{
    let width = grid.width();
    if width <= SMALL_ROW - PIECE_ROOM {
        let mut row = [false; SMALL_ROW];
        write_kept_rows::<T, G, S>(grid, &mut row[..], sink)
    } else if width <= MIDDLE_ROW - PIECE_ROOM {
        let mut row = [false; MIDDLE_ROW];
        write_kept_rows::<T, G, S>(grid, &mut row[..], sink)
    } else if width <= LARGE_ROW - PIECE_ROOM {
        let mut row = [false; LARGE_ROW];
        write_kept_rows::<T, G, S>(grid, &mut row[..], sink)
    } else {
        write_wide_rows::<T, G, S>(grid, sink)
    }
}
