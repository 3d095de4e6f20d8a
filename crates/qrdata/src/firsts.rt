//! The first of the best segments of each rest of the bytes.
ghost use Rattle.qrdata.specs.Private.ChoiceView.{segment_in};
ghost use Rattle.qrdata.specs.Private.Firsts.{first_at};
ghost use Rattle.std.specs.Prelude.{◌≡◌, ◌<◌, ◌==◌, ℕ, if◌then◌else◌};

use crate::mode::{Segment, mode_at};

/// The most bytes that a table is made for: three bytes have ten bits at least, and a symbol of version 10 has at most
/// 2192 data bits.
pub(crate) const MAX_BYTES: usize = 657;

/// The first of the best segments of each rest of the bytes, at the place where the rest begins. A segment is a number: 4
/// times 1023 less its length, plus the rank of its mode.
#[derive(Drop)]
pub(crate) struct Firsts {
    codes: [u16; MAX_BYTES],
}

impl Firsts {
    /// Makes a table that is not filled.
    pub(crate) fn new() -> Firsts {
        Firsts {
            codes: [0; MAX_BYTES],
        }
    }

    /// Writes the segment that a number stands for at a place.
    #[inline(always)]
    pub(crate) fn put(&mut self, place: usize, code: u16)
        requires { place < MAX_BYTES }
        ensures { (k : ℕ) → first_at self.new k ≡ (if k == place then segment_in code else first_at self.old k) }
    {
        self.codes[place] = code;
    }

    /// Returns the segment at a place.
    #[inline(always)]
    pub(crate) fn at(&self, place: usize) -> Segment
        requires { place < MAX_BYTES }
        ensures { result ≡ first_at self.now place }
    {
        let code = self.codes[place];
        Segment {
            mode: mode_at(code % 4),
            len: 1023 - code / 4 % 1024,
        }
    }
}
