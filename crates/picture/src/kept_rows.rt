//! The rows of a grid that is narrow enough to keep one of them: each row is rendered once for all that equal it.
ghost use Rattle.std.specs.Prelude.{◌+◌, ◌*◌, ◌<◌, ◌≤◌, length, map, max, take};
ghost use Rattle.device.specs.Writing.{WritesText};
ghost use Rattle.qrmatrix.specs.Bits.{bit};
ghost use Rattle.picture.specs.Private.Rows.{EndsWith, repeated, row_text, rows_text};
ghost use Rattle.picture.specs.Text.{below};

use crate::bits::pixels_of;
use crate::grid::Grid;
use crate::pixel_text::{PIECE, PIECE_ROOM, PixelText};
use device::{IoFault, Sink, write_whole};

/// The bytes of rows that are repeated at once: one long copy takes less than many short ones, and a short one has a
/// place in the buffer more often.
const BLOCK: usize = 8192;

/// Writes the rows of the grid, and keeps each at the front of `kept` for the rows that equal it. A row of one piece is
/// written from its bits, where the grid has them, and not kept.
///
/// # Errors
///
/// The sink's error. A beginning of the rows is written then.
pub fn write_kept_rows<T: PixelText, G: Grid, S: Sink>(
    grid: &G,
    kept: &mut [bool],
    sink: &mut S,
) -> Result<(), IoFault>
    requires { (G.picture grid.now).width + 80 ≤ length kept.old }
    ensures { WritesText S.Sink sink.old sink.new
        (rows_text T.text T.row_end (G.picture grid.now)) result }
{
    let width = grid.width();
    let height = grid.height();
    let mut y = 0;
    while y < height {
        match grid.row_bits(y) {
            Some(row) if 0 < width && width <= PIECE => {
                write_row_bits::<T, S>(row, width, sink)?;
                y += 1;
            }
            _ => {
                grid.read_row(y, &mut kept[..width]);
                let count = grid.equal_rows(y);
                write_equal_rows::<T, S>(kept, width, count, sink)?;
                y += count;
            }
        }
    }
    Ok(())
}

/// Writes the row of `width` pixels that are the bits of a number, the lowest first: one piece.
#[inline(always)]
fn write_row_bits<T: PixelText, S: Sink>(
    row: u64,
    width: usize,
    sink: &mut S,
) -> Result<(), IoFault>
    requires { (0 < width) × (width ≤ 70) }
    ensures { WritesText S.Sink sink.old sink.new
        (row_text T.text T.row_end (map (bit row) (below width))) result }
{
    T::write_piece(&pixels_of(row), width, sink)?;
    write_whole(T::row_end(), sink)
}

/// Writes the row of `width` pixels at the front of `kept`, `count` times.
fn write_equal_rows<T: PixelText, S: Sink>(
    kept: &[bool],
    width: usize,
    count: usize,
    sink: &mut S,
) -> Result<(), IoFault>
    requires some { 0 < count }
    requires fits { width + 80 ≤ length kept.now }
    ensures { WritesText S.Sink sink.old sink.new
        (repeated count (row_text T.text T.row_end (take width kept.now))) result }
{
    write_row::<T, S>(kept, width, sink)?;
    let len = T::row_len(width);
    let at_once = rows_at_once(len);
    let mut written = 1;
    // How many rows to repeat next: twice as many as last time, or one where the sink no longer had these rows or no
    // room for them.
    let mut block: usize = 1;
    while written < count {
        let rows = block.min(count - written);
        if sink.repeat(rows * len) {
            written += rows;
            block = at_once.min(rows + rows);
        } else {
            repeat_row::<T, S>(kept, width, sink)?;
            written += 1;
            block = 1;
        }
    }
    Ok(())
}

/// Returns how many rows are repeated at once where the text of one has `len` bytes: as many as have `BLOCK` bytes, and
/// at least one.
fn rows_at_once(len: usize) -> usize
    ensures some { 0 < result }
    ensures most { result * len ≤ max 8192 len }
{
    (BLOCK / len.max(1)).max(1)
}

/// Writes the row of `width` pixels at the front of `kept`, which was written last. The sink repeats it where it still
/// has it.
fn repeat_row<T: PixelText, S: Sink>(
    kept: &[bool],
    width: usize,
    sink: &mut S,
) -> Result<(), IoFault>
    requires fits { width + 80 ≤ length kept.now }
    requires last { EndsWith S.took sink.old (row_text T.text T.row_end (take width kept.now)) }
    ensures { WritesText S.Sink sink.old sink.new
        (row_text T.text T.row_end (take width kept.now)) result }
{
    if sink.repeat(T::row_len(width)) {
        return Ok(());
    }
    write_row::<T, S>(kept, width, sink)
}

/// Writes the row of `width` pixels at the front of `kept`.
fn write_row<T: PixelText, S: Sink>(
    kept: &[bool],
    width: usize,
    sink: &mut S,
) -> Result<(), IoFault>
    requires { width + 80 ≤ length kept.now }
    ensures { WritesText S.Sink sink.old sink.new
        (row_text T.text T.row_end (take width kept.now)) result }
{
    let mut k = 0;
    while PIECE * k < width {
        let x = PIECE * k;
        T::write_piece(&kept[x..x + PIECE_ROOM], PIECE.min(width - x), sink)?;
        k += 1;
    }
    write_whole(T::row_end(), sink)
}
