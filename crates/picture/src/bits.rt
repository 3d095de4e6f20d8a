//! The bits of a row as pixels.
ghost use Rattle.std.specs.Prelude.{◌≡◌, ◌*◌, ◌/◌, ◌%◌, ◌^◌, ◌==◌, bit_and, map, not};
ghost use Rattle.qrmatrix.specs.Bits.{bit};
ghost use Rattle.picture.specs.Text.{below};

use crate::pixel_text::PIECE_ROOM;
use std::simd::{u8x8, u8x64};

/// For each of the 64 bits of a row, the lowest first, the byte of the row that has it.
const BYTES: [usize; 64] = [
    0, 0, 0, 0, 0, 0, 0, 0, 1, 1, 1, 1, 1, 1, 1, 1, 2, 2, 2, 2, 2, 2, 2, 2, 3, 3, 3, 3, 3, 3, 3, 3,
    4, 4, 4, 4, 4, 4, 4, 4, 5, 5, 5, 5, 5, 5, 5, 5, 6, 6, 6, 6, 6, 6, 6, 6, 7, 7, 7, 7, 7, 7, 7, 7,
];

/// For each of the 64 bits of a row, its value in its byte.
const VALUES: [u8; 64] = [
    1, 2, 4, 8, 16, 32, 64, 128, 1, 2, 4, 8, 16, 32, 64, 128, 1, 2, 4, 8, 16, 32, 64, 128, 1, 2, 4,
    8, 16, 32, 64, 128, 1, 2, 4, 8, 16, 32, 64, 128, 1, 2, 4, 8, 16, 32, 64, 128, 1, 2, 4, 8, 16,
    32, 64, 128, 1, 2, 4, 8, 16, 32, 64, 128,
];

/// Returns the bits of a row, the lowest first.
#[inline(always)]
pub fn bits_of(row: u64) -> [bool; 64]
    ensures { result ≡ map (bit row) (below 64) }
{
    are_some(bits_in_bytes(row))
}

/// Returns for each bit of a row, the lowest first, the byte that has it, with the other bits of that byte cleared.
fn bits_in_bytes(row: u64) -> [u8; 64]
    ensures { result ≡ map (λ j. bit_and (row / 2 ^ (8 * (j / 8)) % 256) (2 ^ (j % 8))) (below 64) }
{
    let bytes = u8x8::from_array(row.to_le_bytes()).swizzle(BYTES);
    (bytes & u8x64::from_array(VALUES)).to_array()
}

/// Returns of each value whether it is not 0.
fn are_some(values: [u8; 64]) -> [bool; 64]
    ensures { result ≡ map (λ value. not (value == 0)) values }
{
    let mut some = [false; 64];
    for j in 0..64 {
        some[j] = values[j] != 0;
    }
    some
}

/// Returns the bits of a row, the lowest first, and light pixels after them: as many pixels as the text of a piece is
/// made of.
#[inline(always)]
pub fn pixels_of(row: u64) -> [bool; PIECE_ROOM]
    ensures { result ≡ map (bit row) (below 80) }
{
    let mut pixels = [false; PIECE_ROOM];
    pixels[..64].copy_from_slice(&bits_of(row));
    pixels
}
