//! A grid that this program defines.
ghost use Rattle.std.specs.Prelude.{◌≡◌};
ghost use Rattle.examples.specs.Negative.{negative};

use picture::Grid;

/// A grid with dark and light exchanged, for a terminal that shows light letters on a dark ground.
#[derive(Drop)]
pub struct Negative<G: Grid> {
    grid: G,
}

impl<G: Grid> Negative<G> {
    /// Returns the negative of a grid.
    pub fn new(grid: G) -> Self
        ensures { ⟦<Negative<G> as Grid>⟧.picture result ≡ negative (G.picture grid) }
    {
        Negative { grid }
    }
}

/// A grid has to give its width, its height and its pixels; the other calls have bodies in the trait.
impl<G: Grid> Grid for Negative<G> {
    ghost picture = { λ s. negative (G.picture s.grid) };

    fn width(&self) -> usize {
        self.grid.width()
    }

    fn height(&self) -> usize {
        self.grid.height()
    }

    fn dark(&self, x: usize, y: usize) -> bool {
        !self.grid.dark(x, y)
    }
}
