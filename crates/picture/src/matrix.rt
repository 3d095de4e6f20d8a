//! A square of modules as a picture.
ghost use Rattle.picture.specs.Picture.{symbol_picture};

use crate::grid::Grid;
use qrmatrix::Matrix;

impl Grid for Matrix {
    ghost picture = { symbol_picture };

    fn width(&self) -> usize {
        self.side()
    }

    fn height(&self) -> usize {
        self.side()
    }

    fn dark(&self, x: usize, y: usize) -> bool {
        Matrix::dark(self, x, y)
    }

    fn row_bits(&self, y: usize) -> Option<u64> {
        Some(self.rows()[y])
    }
}
