//! Pictures in their quiet zones.
ghost use Rattle.std.specs.Prelude.{◌≡◌, ◌+◌, ◌≤◌};
ghost use Rattle.picture.specs.Picture.{Fits, with_quiet_zone, zone_with};

use crate::grid::Grid;
use crate::quiet_zone::QuietZone;

/// A grid in its quiet zone, which is light.
#[derive(Drop)]
pub struct Framed<G: Grid> {
    grid: G,
    zone: QuietZone,
    ghost fits_width: { zone.left + (G.picture grid).width + zone.right ≤ 65535 },
    ghost fits_height: { zone.top + (G.picture grid).height + zone.bottom ≤ 65535 },
}

impl<G: Grid> Framed<G> {
    /// Returns the grid in a quiet zone with these columns and rows: at most 65,535 of each in all.
    pub fn new(grid: G, left: usize, right: usize, top: usize, bottom: usize) -> Self
        requires { Fits (with_quiet_zone (G.picture grid) (zone_with left right top bottom)) }
        ensures { ⟦<Framed<G> as Grid>⟧.picture result
            ≡ with_quiet_zone (G.picture grid) (zone_with left right top bottom) }
    {
        let zone = QuietZone {
            left,
            right,
            top,
            bottom,
        };
        Framed { grid, zone }
    }
}

impl<G: Grid> Grid for Framed<G> {
    ghost picture = { λ s. with_quiet_zone (G.picture s.grid) s.zone };

    fn width(&self) -> usize {
        self.zone.left + self.grid.width() + self.zone.right
    }

    fn height(&self) -> usize {
        self.zone.top + self.grid.height() + self.zone.bottom
    }

    fn dark(&self, x: usize, y: usize) -> bool {
        self.zone.left <= x
            && x < self.zone.left + self.grid.width()
            && self.zone.top <= y
            && y < self.zone.top + self.grid.height()
            && self.grid.dark(x - self.zone.left, y - self.zone.top)
    }

    fn equal_rows(&self, y: usize) -> usize {
        if y < self.zone.top {
            self.zone.top - y
        } else if y < self.zone.top + self.grid.height() {
            self.grid.equal_rows(y - self.zone.top)
        } else {
            self.height() - y
        }
    }

    #[tactic(auto, using(crate::proofs::Laws::GridLaws::row_bits_in_zone))]
    fn row_bits(&self, y: usize) -> Option<u64> {
        if y < self.zone.top || self.zone.top + self.grid.height() <= y {
            return Some(0);
        }
        // No bit of the grid is shifted out.
        if self.zone.left + self.grid.width() >= 64 {
            return None;
        }
        let row = self.grid.row_bits(y - self.zone.top)?;
        Some(row << self.zone.left)
    }

    fn read_row(&self, y: usize, pixels: &mut [bool]) {
        pixels.fill(false);
        if self.zone.top <= y && y < self.zone.top + self.grid.height() {
            let end = self.zone.left + self.grid.width();
            self.grid
                .read_row(y - self.zone.top, &mut pixels[self.zone.left..end]);
        }
    }
}
