//! Lines and messages that several files use.
use acceptance::support::text_of;
use std::alloc::{AllocError, Global};

/// The message of a line that is too long.
pub const TOO_LONG: &[u8] = b"line 1: line is longer than 1100 bytes\n";

/// A line of this many letters, a comment of so many letters, and a label.
pub fn long_lines(alloc: Global, letters: usize, comment: usize) -> Result<Vec<u8>, AllocError> {
    let parts = [
        (b"a".as_slice(), letters),
        (b"\n#", 1),
        (b"a", comment),
        (b"\nean8 7351353", 1),
    ];
    text_of(alloc, &parts)
}

/// Lines that are refused, each for another reason.
pub const REFUSED: &[u8] =
    b"ean8 73x1353\nean13 123\nqr\nqr \n qr x\ncode128 a\\q\ncode128 \xC3\xA9\n\
      code128 aaaaaaaaaaaaaaaaaaaaaaaaaaaaaaaaaaaaaaaaaaaaaaaaaaaaaaaaaaaaaaaaaaaaaaaaaaaaaaaaa\n";

/// Their messages.
pub const REFUSALS: &[u8] =
    b"line 1: not a digit at byte 3\nline 2: wrong number of digits: 3\nline 3: no data\nline 4: no data\n\
      line 5: unknown symbology\nline 6: bad escape at byte 2\nline 7: byte 1 is not ASCII\n\
      line 8: data is longer than 80 bytes\n";
