//! Plain PBM files, pbm(5).
ghost use Rattle.std.specs.Prelude.{◌≡◌, ◌+◌, ◌<◌, ◌≤◌, Some, ◌++◌, [], length, map};
ghost use Rattle.device.specs.Writing.{WritesText};
ghost use Rattle.picture.specs.Reading.{pbm_pixels, raster};
ghost use Rattle.picture.specs.Text.{pbm_digit, pbm_header, pbm_text};

use crate::grid::Grid;
use crate::pixel_text::{PIECE, PIECE_ROOM, PixelText, write_rows};
use arrayvec::ArrayVec;
use device::{IoFault, Sink, write_whole};
use itoa::Buffer;

/// Writes the grid as a plain PBM file, pbm(5): two lines of header, then each row in pieces of 70 pixels, one a line.
/// The last piece of a row may be shorter.
///
/// # Errors
///
/// The sink's error. A beginning of the file is written then.
pub fn write_pbm<G: Grid, S: Sink>(grid: &G, sink: &mut S) -> Result<(), IoFault>
    ensures writes { WritesText S.Sink sink.old sink.new (pbm_text (G.picture grid.now)) result }
    // The text, read back, has the grid's pixels.
    ensures read { 0 < (G.picture grid.now).width
        → pbm_pixels (pbm_text (G.picture grid.now)) ≡ Some (raster (G.picture grid.now)) }
{
    let mut header = Header::new();
    push_header(&mut header, grid.width(), grid.height());
    write_whole(header.as_slice(), sink)?;
    write_rows::<PbmPixels, G, S>(grid, sink)
}

/// The two lines before the pixels.
type Header = ArrayVec<u8, 128>;

/// Appends the two lines before the pixels.
#[inline(always)]
fn push_header(header: &mut Header, width: usize, height: usize)
    requires { header.old.items ≡ [] }
    ensures { header.new.items ≡ pbm_header width height }
{
    let mut number = Buffer::new();
    append(b"P1\n", header);
    append(number.format(width).as_bytes(), header);
    append(b" ", header);
    append(number.format(height).as_bytes(), header);
    append(b"\n", header);
}

/// Appends bytes, for which there is space.
fn append(bytes: &[u8], header: &mut Header)
    requires { length header.old.items + length bytes.now ≤ 128 }
    ensures { header.new.items ≡ header.old.items ++ bytes.now }
{
    let _ = header.try_extend_from_slice(bytes);
}

/// Writes a digit for each pixel, and a line feed after each piece.
struct PbmPixels;

impl PixelText for PbmPixels {
    ghost use Rattle.std.specs.Prelude.{[]};
    ghost use Rattle.picture.specs.Text.{pbm_piece};

    ghost text = { pbm_piece };

    ghost row_end = { [] };

    #[inline(always)]
    fn write_piece<S: Sink>(pixels: &[bool], len: usize, sink: &mut S) -> Result<(), IoFault> {
        let mut text = digits(pixels);
        text[len] = b'\n';
        write_whole(&text[..len + 1], sink)
    }

    fn row_end() -> &'static [u8] {
        b""
    }

    #[tactic(auto, using(crate::proofs::LengthLaws::length_of_pbm_row))]
    fn row_len(width: usize) -> usize {
        width + width.div_ceil(PIECE)
    }
}

/// Returns the digits of 80 pixels.
fn digits(pixels: &[bool]) -> [u8; PIECE_ROOM]
    requires { length pixels.now ≡ 80 }
    ensures { result ≡ map pbm_digit pixels.now }
{
    let mut text = [b'0'; PIECE_ROOM];
    for i in 0..PIECE_ROOM {
        text[i] = digit(pixels[i]);
    }
    text
}

/// Returns the digit of a pixel.
fn digit(dark: bool) -> u8
    ensures { result ≡ pbm_digit dark }
{
    if dark { b'1' } else { b'0' }
}
