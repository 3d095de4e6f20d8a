//! The rows of a grid that is too wide to keep one of them: the grid is asked for each piece.
ghost use Rattle.std.specs.Prelude.{◌≡◌, ◌+◌, ◌*◌, ◌^◌, ◌<◌, ◌≤◌, length, map};
ghost use Rattle.std.specs.List.{range_with_len};
ghost use Rattle.device.specs.Writing.{WritesText};
ghost use Rattle.picture.specs.Private.Rows.{piece, row_text, rows_text};
ghost use Rattle.picture.specs.Text.{pixel_row};

use crate::grid::Grid;
use crate::pixel_text::{PIECE, PIECE_ROOM, PixelText};
use device::{IoFault, Sink, write_whole};

/// Writes the rows of the grid.
///
/// # Errors
///
/// The sink's error. A beginning of the rows is written then.
pub fn write_wide_rows<T: PixelText, G: Grid, S: Sink>(
    grid: &G,
    sink: &mut S,
) -> Result<(), IoFault>
    ensures { WritesText S.Sink sink.old sink.new
        (rows_text T.text T.row_end (G.picture grid.now)) result }
{
    for y in 0..grid.height() {
        write_wide_row::<T, G, S>(grid, y, sink)?;
    }
    Ok(())
}

/// Writes a row of the grid, and asks it for each piece.
fn write_wide_row<T: PixelText, G: Grid, S: Sink>(
    grid: &G,
    y: usize,
    sink: &mut S,
) -> Result<(), IoFault>
    requires { y < (G.picture grid.now).height }
    ensures { WritesText S.Sink sink.old sink.new
        (row_text T.text T.row_end (pixel_row (G.picture grid.now) y)) result }
{
    for k in 0..grid.width().div_ceil(PIECE) {
        write_wide_piece::<T, G, S>(grid, y, k, sink)?;
    }
    write_whole(T::row_end(), sink)
}

/// Writes piece `k` of a row, counted from 0.
fn write_wide_piece<T: PixelText, G: Grid, S: Sink>(
    grid: &G,
    y: usize,
    k: usize,
    sink: &mut S,
) -> Result<(), IoFault>
    requires in_height { y < (G.picture grid.now).height }
    requires in_width { 70 * k < (G.picture grid.now).width }
    ensures { WritesText S.Sink sink.old sink.new
        (T.text (piece (pixel_row (G.picture grid.now) y) k)) result }
{
    let width = grid.width();
    let x = PIECE * k;
    let len = PIECE.min(width - x);
    let mut pixels = [false; PIECE_ROOM];
    read_piece(grid, y, x, &mut pixels[..len]);
    T::write_piece(&pixels[..], len, sink)
}

/// Fills `pixels` with those of row `y` from column `x` on.
#[tactic(auto, using(crate::proofs::Laws::GridLaws::filled_from))]
fn read_piece<G: Grid>(grid: &G, y: usize, x: usize, pixels: &mut [bool])
    requires in_height { y < (G.picture grid.now).height }
    requires in_width { x + length pixels.old ≤ (G.picture grid.now).width }
    requires fits { x + length pixels.old < 2 ^ 64 }
    ensures { pixels.new ≡ map (λ x. (G.picture grid.now).dark x y)
        (range_with_len x (length pixels.old)) }
{
    for i in 0..pixels.len() {
        pixels[i] = grid.dark(x + i, y);
    }
}
