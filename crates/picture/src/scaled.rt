//! Enlarged pictures.
ghost use Rattle.std.specs.Prelude.{◌≡◌, ℕ, ◌+◌, ◌*◌, ◌/◌, ◌<◌, ◌≤◌, false, length, map, slice_index_or};
ghost use Rattle.picture.specs.Picture.{Fits, enlargement};
ghost use Rattle.picture.specs.Text.{below, pixel_row};

use crate::bits::pixels_of;
use crate::grid::Grid;
use crate::pixel_text::PIECE;

/// A grid with each pixel drawn as a square of `scale` by `scale` pixels.
#[derive(Drop)]
pub struct Scaled<G: Grid> {
    grid: G,
    scale: usize,
    ghost some: { 1 ≤ scale },
    ghost fits_width: { (G.picture grid).width * scale ≤ 65535 },
    ghost fits_height: { (G.picture grid).height * scale ≤ 65535 },
}

impl<G: Grid> Scaled<G> {
    /// Returns the grid, `scale` times as wide and as high: at most 65,535 columns and rows.
    pub fn new(grid: G, scale: usize) -> Self
        requires some { 1 ≤ scale }
        requires fits { Fits (enlargement (G.picture grid) scale) }
        ensures { ⟦<Scaled<G> as Grid>⟧.picture result ≡ enlargement (G.picture grid) scale }
    {
        Scaled { grid, scale }
    }
}

impl<G: Grid> Grid for Scaled<G> {
    ghost picture = { λ s. enlargement (G.picture s.grid) s.scale };

    fn width(&self) -> usize {
        self.grid.width() * self.scale
    }

    fn height(&self) -> usize {
        self.grid.height() * self.scale
    }

    fn dark(&self, x: usize, y: usize) -> bool {
        self.grid.dark(x / self.scale, y / self.scale)
    }

    fn equal_rows(&self, y: usize) -> usize {
        self.grid.equal_rows(y / self.scale) * self.scale - y % self.scale
    }

    fn row_bits(&self, y: usize) -> Option<u64> {
        if self.scale == 1 {
            self.grid.row_bits(y)
        } else {
            None
        }
    }

    fn read_row(&self, y: usize, pixels: &mut [bool]) {
        if self.scale == 1 {
            self.grid.read_row(y, pixels);
            return;
        }
        let width = self.grid.width();
        read_pixels(&self.grid, y / self.scale, &mut pixels[..width]);
        spread(pixels, width, self.scale);
    }
}

/// Fills `pixels`, which is as long as a row, with those of row `y`, from its bits where the grid has them.
pub fn read_pixels<G: Grid>(grid: &G, y: usize, pixels: &mut [bool])
    requires in_height { y < (G.picture grid.now).height }
    requires whole { length pixels.old ≡ (G.picture grid.now).width }
    ensures { pixels.new ≡ pixel_row (G.picture grid.now) y }
{
    let width = pixels.len();
    match grid.row_bits(y) {
        Some(row) if width <= PIECE => pixels.copy_from_slice(&pixels_of(row)[..width]),
        _ => grid.read_row(y, pixels),
    }
}

/// Repeats each of the first `width` pixels `scale` times. The usual scales are constants in the calls, so that the
/// compiler fills a pixel's columns at once.
fn spread(pixels: &mut [bool], width: usize, scale: usize)
    requires some { 1 ≤ scale }
    requires whole { length pixels.old ≡ width * scale }
    ensures { pixels.new ≡ map (λ x. slice_index_or pixels.old (x / scale) false)
        (below (length pixels.old)) }
{
    match scale {
        1 => {}
        2 => widen_each(pixels, width, 2),
        3 => widen_each(pixels, width, 3),
        4 => widen_each(pixels, width, 4),
        5 => widen_each(pixels, width, 5),
        6 => widen_each(pixels, width, 6),
        7 => widen_each(pixels, width, 7),
        8 => widen_each(pixels, width, 8),
        _ => widen_each(pixels, width, scale),
    }
}

/// Repeats each of the first `width` pixels `scale` times. It begins with the last, so that none is lost before it is
/// read.
#[inline(always)]
fn widen_each(pixels: &mut [bool], width: usize, scale: usize)
    requires some { 1 ≤ scale }
    requires whole { length pixels.old ≡ width * scale }
    ensures { pixels.new ≡ map (λ x. slice_index_or pixels.old (x / scale) false)
        (below (length pixels.old)) }
{
    for x in (0..width).rev() {
        widen(pixels, x, scale);
    }
}

/// Fills the columns of the square of column `x` with the pixel in that column.
#[inline(always)]
fn widen(pixels: &mut [bool], x: usize, scale: usize)
    requires some { 1 ≤ scale }
    requires inside { (x + 1) * scale ≤ length pixels.old }
    ensures size { length pixels.new ≡ length pixels.old }
    ensures square { (k : ℕ) → x * scale ≤ k → k < (x + 1) * scale
        → slice_index_or pixels.new k false ≡ slice_index_or pixels.old x false }
    ensures before { (k : ℕ) → k < x * scale
        → slice_index_or pixels.new k false ≡ slice_index_or pixels.old k false }
    ensures after { (k : ℕ) → (x + 1) * scale ≤ k
        → slice_index_or pixels.new k false ≡ slice_index_or pixels.old k false }
{
    let dark = pixels[x];
    for i in 0..scale {
        pixels[x * scale + i] = dark;
    }
}
