//! Pictures by coordinates.
ghost use Rattle.std.specs.Prelude.{◌≡◌, ℕ, ◌<◌, nat_lt, ◌&&◌, IfSome, length};
ghost use Rattle.qrmatrix.specs.Bits.{bit};
ghost use Rattle.picture.specs.Picture.{AreEqualRows, Picture};
ghost use Rattle.picture.specs.Text.{pixel_row};

/// A picture that can be asked for each pixel: `x` counts columns from the left and `y` rows from the top, both from 0.
pub trait Grid {
    /// The picture.
    ghost picture: { Self → Picture };

    /// Returns the number of columns.
    fn width(&self) -> usize
        ensures { result ≡ (picture self.now).width };

    /// Returns the number of rows.
    fn height(&self) -> usize
        ensures { result ≡ (picture self.now).height };

    /// Returns whether the pixel in column `x` and row `y` is dark.
    fn dark(&self, x: usize, y: usize) -> bool
        requires in_width { x < (picture self.now).width }
        requires in_height { y < (picture self.now).height }
        ensures { result ≡ (picture self.now).dark x y };

    /// Returns how many rows from row `y` on are known to have its pixels: at least 1, the row itself. A writer asks
    /// for the pixels of these rows once.
    fn equal_rows(&self, y: usize) -> usize
        requires { y < (picture self.now).height }
        ensures { AreEqualRows (picture self.now) y result }
    {
        1
    }

    /// Returns the pixels of row `y` as the bits of a number, column 0 the lowest, where the grid has them so. Columns
    /// from 64 on are light then.
    fn row_bits(&self, y: usize) -> Option<u64>
        requires { y < (picture self.now).height }
        ensures { IfSome result (λ row. (x : ℕ) → bit row x
            ≡ (nat_lt x (picture self.now).width && (picture self.now).dark x y)) }
    {
        None
    }

    /// Fills `pixels`, which is as long as a row, with those of row `y`.
    fn read_row(&self, y: usize, pixels: &mut [bool])
        requires in_height { y < (picture self.now).height }
        requires whole { length pixels.old ≡ (picture self.now).width }
        ensures { pixels.new ≡ pixel_row (picture self.now) y }
    {
        for x in 0..pixels.len() {
            pixels[x] = self.dark(x, y);
        }
    }
}
