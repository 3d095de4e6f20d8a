//! A row of modules as bars.
ghost use Rattle.std.specs.Prelude.{◌≡◌};
ghost use Rattle.picture.specs.Picture.{Fits, bars};

use crate::grid::Grid;

/// A row of modules, true where dark, as bars of one height.
#[derive(Drop)]
pub struct Bars<'a> {
    row: &'a [bool],
    height: usize,
}

impl<'a> Bars<'a> {
    /// Returns bars as high as `height` modules: at most 65,535 columns and rows.
    pub fn new(row: &'a [bool], height: usize) -> Self
        requires { Fits (bars row.now height) }
        ensures { ⟦<Bars<'a> as Grid>⟧.picture result ≡ bars row.now height }
    {
        Bars { row, height }
    }
}

impl<'a> Grid for Bars<'a> {
    ghost picture = { λ grid. bars grid.row.now grid.height };

    fn width(&self) -> usize {
        self.row.len()
    }

    fn height(&self) -> usize {
        self.height
    }

    fn dark(&self, x: usize, y: usize) -> bool {
        self.row[x]
    }

    fn equal_rows(&self, y: usize) -> usize {
        self.height - y
    }

    #[tactic(auto, using(crate::proofs::Laws::SampleLaws::pixel_row_of_bars))]
    fn read_row(&self, y: usize, pixels: &mut [bool]) {
        pixels.copy_from_slice(self.row);
    }
}
