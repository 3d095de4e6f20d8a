//! Dots that are bytes.
ghost use Rattle.std.specs.Prelude.{◌≡◌, ◌*◌, ◌==◌, ◌||◌, length, option_map};
ghost use Rattle.std.specs.List.{list_all};
ghost use Rattle.reading.specs.Dots.{bytes_picture, bytes_read};

use crate::equal_rows::equal_rows;
use picture::Grid;

/// A picture of a byte for each dot, row by row.
#[derive(Clone, Copy)]
pub struct Dots<'a> {
    width: usize,
    height: usize,
    dark: u8,
    bytes: &'a [u8],
    ghost whole: { length bytes.now ≡ width * height },
}

/// Returns whether each of these is one of two bytes. It looks at all of them: a loop that can end early is not turned
/// into vector code.
fn are_dots(light: u8, dark: u8, bytes: &[u8]) -> bool
    ensures { result ≡ list_all (λ b. b == light || b == dark) bytes.now }
{
    let mut are = true;
    for i in 0..bytes.len() {
        are &= bytes[i] == light || bytes[i] == dark;
    }
    are
}

impl<'a> Dots<'a> {
    /// Returns a picture of `width` by `height` bytes, each `dark` or `light`, or `None` where that is not what the bytes
    /// are.
    pub fn new(light: u8, dark: u8, width: usize, height: usize, bytes: &'a [u8]) -> Option<Self>
        ensures { option_map ⟦<Dots<'a> as Grid>⟧.picture result ≡ bytes_read light dark width height bytes.now }
    {
        if width.checked_mul(height) != Some(bytes.len()) || !are_dots(light, dark, bytes) {
            return None;
        }
        Some(Dots {
            width,
            height,
            dark,
            bytes,
        })
    }
}

impl<'a> Grid for Dots<'a> {
    ghost picture = { λ s. bytes_picture s.width s.height s.dark s.bytes.now };

    fn width(&self) -> usize {
        self.width
    }

    fn height(&self) -> usize {
        self.height
    }

    fn dark(&self, x: usize, y: usize) -> bool {
        self.bytes[y * self.width + x] == self.dark
    }

    fn equal_rows(&self, y: usize) -> usize {
        let place = y * self.width;
        equal_rows(self.bytes, place, self.width, self.width, self.height - y)
    }
}
