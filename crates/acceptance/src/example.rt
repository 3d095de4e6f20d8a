//! A QR symbol that several tests draw, and pictures of pixels.
use std::alloc::{AllocError, Global};

/// The pixels of the symbol of `01234567` at level M under mask 2.
pub const EXAMPLE: &[&[u8]] = &[
    b"00000000000000000000000000000",
    b"00000000000000000000000000000",
    b"00000000000000000000000000000",
    b"00000000000000000000000000000",
    b"00001111111001011011111110000",
    b"00001000001001111010000010000",
    b"00001011101010000010111010000",
    b"00001011101011000010111010000",
    b"00001011101010111010111010000",
    b"00001000001010001010000010000",
    b"00001111111010101011111110000",
    b"00000000000010011000000000000",
    b"00001011111001001011111000000",
    b"00000001010110101001011000000",
    b"00000010001101010100111110000",
    b"00000000100001000001111000000",
    b"00000001111110010100100000000",
    b"00000000000010111110011000000",
    b"00001111111001101011000000000",
    b"00001000001010111110001010000",
    b"00001011101010001001011000000",
    b"00001011101011001001000000000",
    b"00001011101010110100101000000",
    b"00001000001000000001101100000",
    b"00001111111011110100101000000",
    b"00000000000000000000000000000",
    b"00000000000000000000000000000",
    b"00000000000000000000000000000",
    b"00000000000000000000000000000",
];

/// A picture of these pixels: what stands before them, for a light one, for a dark one, and after them.
pub fn picture_of(
    alloc: Global,
    pixels: &[&[u8]],
    (before, light, dark, after): (&[u8], &[u8], &[u8], &[u8]),
) -> Result<Vec<u8>, AllocError> {
    let mut text = Vec::new(alloc);
    text.extend_from_slice(before)?;
    for row in pixels {
        for pixel in *row {
            text.extend_from_slice(if *pixel == b'1' { dark } else { light })?;
        }
        text.push(b'\n')?;
    }
    text.extend_from_slice(after)?;
    Ok(text)
}

/// A plain PBM file of 29 by 29 pixels.
pub const PBM: (&[u8], &[u8], &[u8], &[u8]) = (b"P1\n29 29\n", b"0", b"1", b"");
