//! Dots that are bits.
ghost use Rattle.std.specs.Prelude.{◌≡◌, MatchOption, false, length, true};
ghost use Rattle.reading.specs.Dots.{bits_picture, is_inside};

use crate::equal_rows::equal_rows;
use picture::Grid;

/// A region of a picture of bits, in dots, and how its bits lie: each row begins `stride` bytes after the one before, and
/// the first dot of a row is the highest bit of its first byte. A bit is dark where it is 1 as `dark` is true.
#[derive(Clone, Copy)]
pub struct BitRegion {
    pub stride: usize,
    pub left: u32,
    pub top: u32,
    pub width: u32,
    pub height: u32,
    pub dark: bool,
}

/// The dots of a region of a picture of bits.
#[derive(Clone, Copy)]
pub struct Bits<'a> {
    region: BitRegion,
    bytes: &'a [u8],
    ghost inside: { is_inside region (length bytes.now) ≡ true },
}

/// Returns whether the rows of a region do not overlap, and its last one ends within so many bytes.
fn is_inside(region: &BitRegion, size: usize) -> bool
    ensures { result ≡ is_inside region.now size }
{
    let end = (region.left as usize + region.width as usize).div_ceil(8);
    let last = (region.top as usize + region.height as usize).saturating_sub(1);
    match last.checked_mul(region.stride) {
        Some(begin) => end <= region.stride && end <= size && begin <= size - end,
        None => false,
    }
}

impl<'a> Bits<'a> {
    /// Returns the dots of a region of these bits; `None` where the region is not within them.
    pub fn new(region: BitRegion, bytes: &'a [u8]) -> Option<Self>
        ensures { MatchOption result (is_inside region (length bytes.now) ≡ false)
            (λ bits. (is_inside region (length bytes.now) ≡ true)
            × (⟦<Bits<'a> as Grid>⟧.picture bits ≡ bits_picture region bytes.now)) }
    {
        if !is_inside(&region, bytes.len()) {
            return None;
        }
        Some(Bits { region, bytes })
    }
}

impl<'a> Grid for Bits<'a> {
    ghost picture = { λ s. bits_picture s.region s.bytes.now };

    fn width(&self) -> usize {
        self.region.width as usize
    }

    fn height(&self) -> usize {
        self.region.height as usize
    }

    fn dark(&self, x: usize, y: usize) -> bool {
        let at = self.region.left as usize + x;
        let row = (self.region.top as usize + y) * self.region.stride;
        let byte = self.bytes[row + at / 8];
        (byte >> (7 - at % 8) & 1 == 1) == self.region.dark
    }

    #[tactic(auto, using(crate::proofs::BitLaws::rows_inside))]
    fn equal_rows(&self, y: usize) -> usize {
        let first = self.region.left as usize / 8;
        let end = (self.region.left as usize + self.region.width as usize).div_ceil(8);
        let row = (self.region.top as usize + y) * self.region.stride;
        let count = self.region.height as usize - y;
        let size = end - first;
        equal_rows(self.bytes, row + first, size, self.region.stride, count)
    }
}
