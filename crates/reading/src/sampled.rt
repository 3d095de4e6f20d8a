//! Modules that dots show.
ghost use Rattle.std.specs.Prelude.{◌≡◌, ◌+◌, ◌-◌, ◌*◌, ◌/◌, ◌%◌, ◌<◌, ◌≤◌, ◌&&◌, nat_le, nat_lt, false, true, MatchOption};
ghost use Rattle.std.specs.Bool.{beq};
ghost use Rattle.std.specs.List.{list_all, range_with_len};
ghost use Rattle.picture.specs.Text.{below};
ghost use Rattle.reading.specs.Private.{IsAgain, are_whole_cells, is_row_of_cells};
ghost use Rattle.reading.specs.Private.{modules_in};

use picture::{Grid, QuietZone};

/// The modules that dots show inside a quiet zone, each a square of dots.
#[derive(Drop)]
pub struct Sampled<'a, G: Grid> {
    dots: &'a G,
    scale: usize,
    zone: QuietZone,
    ghost some: { 0 < scale },
    ghost wide: { zone.left + zone.right ≤ (G.picture dots.now).width / scale },
    ghost high: { zone.top + zone.bottom ≤ (G.picture dots.now).height / scale },
}

/// Returns whether a cell is between the quiet zones before and after.
fn is_between(before: usize, after: usize, cells: usize, cell: usize) -> bool
    ensures { result ≡ (nat_le before cell && nat_lt (cell + after) cells) }
{
    before <= cell && cells > after && cell < cells - after
}

/// Returns whether the dots of the row `y` from `from` on and before `end` have the colour of their cell, which is that of
/// its first dot in a module, and else light. `top` is the first row of the cell.
#[inline(always)]
fn is_row_of_cell<G: Grid>(
    dots: &G,
    is_module: bool,
    from: usize,
    end: usize,
    top: usize,
    y: usize,
) -> bool
    requires wide { (from < end) × (end ≤ (G.picture dots.now).width) }
    requires high { (y < (G.picture dots.now).height) × (top ≤ y) }
    ensures { result ≡ list_all (λ x. beq ((G.picture dots.now).dark x y) (is_module && (G.picture dots.now).dark from top))
        (range_with_len from (end - from)) }
{
    let dark = is_module && dots.dark(from, top);
    (from..end).all(|x| dots.dark(x, y) == dark)
}

/// Returns whether the dots of the row `y` from `from` on and before `end` are light.
fn are_light<G: Grid>(dots: &G, from: usize, end: usize, y: usize) -> bool
    requires wide { end ≤ (G.picture dots.now).width }
    requires high { y < (G.picture dots.now).height }
    ensures { result ≡ list_all (λ x. beq ((G.picture dots.now).dark x y) false) (range_with_len from (end - from)) }
{
    (from..end).all(|x| !dots.dark(x, y))
}

/// Returns whether the `left` first dots of a row and the `right` last ones are light.
fn is_light_beside<G: Grid>(dots: &G, left: usize, right: usize, y: usize) -> bool
    requires wide { left + right ≤ (G.picture dots.now).width }
    requires high { y < (G.picture dots.now).height }
    ensures { result ≡ (list_all (λ x. beq ((G.picture dots.now).dark x y) false) (range_with_len 0 left)
        && list_all (λ x. beq ((G.picture dots.now).dark x y) false)
        (range_with_len ((G.picture dots.now).width - right) right)) }
{
    let width = dots.width();
    are_light(dots, 0, left, y) && are_light(dots, width - right, width, y)
}

/// Returns whether a quiet zone is no wider than this.
#[inline(always)]
fn is_as_wide(zone: &QuietZone, width: usize) -> bool
    ensures { result ≡ nat_le (zone.now.left + zone.now.right) width }
{
    zone.left <= width && zone.right <= width - zone.left
}

/// Returns whether each dot of the row `y` has the colour of its cell, a square of dots: light in the quiet zone, and else
/// that of the cell's first dot.
fn is_row_of_cells<G: Grid>(dots: &G, scale: usize, zone: &QuietZone, y: usize) -> bool
    requires some { 0 < scale }
    requires high { y < (G.picture dots.now).height }
    ensures { result ≡ is_row_of_cells (G.picture dots.now) scale zone.now y }
{
    let width = dots.width();
    let columns = width / scale;
    let top = y / scale * scale;
    let is_inner = is_between(zone.top, zone.bottom, dots.height() / scale, y / scale);
    // Modules of one dot have their colours, and the zone beside them is looked at alone.
    if scale == 1 && is_inner & is_as_wide(zone, width) {
        return is_light_beside(dots, zone.left, zone.right, y);
    }
    for column in 0..columns {
        let is_module = is_inner & is_between(zone.left, zone.right, columns, column);
        let from = column * scale;
        if !is_row_of_cell(dots, is_module, from, from + scale, top, y) {
            return false;
        }
    }
    // What is left is no whole cell, and no module.
    are_light(dots, columns * scale, width, y)
}

/// Returns whether the row `y`, where it has the dots of the row before it, as those before `equal` have, has the colours
/// of its cells if that one has. All rows of bars, which have no quiet zone above and below, are of the same cells.
fn is_again(scale: usize, zone: &QuietZone, equal: usize, y: usize) -> bool
    requires { 0 < scale }
    ensures { result ≡ true → IsAgain scale zone.now equal y }
{
    y < equal && (y % scale != 0 || zone.top == 0 && zone.bottom == 0)
}

/// Returns whether each dot has the colour of its cell. The dots are a whole number of cells.
pub fn are_cells<G: Grid>(dots: &G, scale: usize, zone: &QuietZone) -> bool
    requires some { 0 < scale }
    requires whole { (G.picture dots.now).height % scale ≡ 0 }
    ensures { result ≡ list_all (is_row_of_cells (G.picture dots.now) scale zone.now) (below (G.picture dots.now).height) }
{
    let mut equal = 0;
    for y in 0..dots.height() {
        if !is_again(scale, zone, equal, y) && !is_row_of_cells(dots, scale, zone, y) {
            return false;
        }
        if y >= equal {
            equal = y + dots.equal_rows(y);
        }
    }
    true
}

/// Returns the first dot of the cell that comes `place` cells after the first `before`.
#[tactic(auto, using(crate::proofs::Laws::CellLaws::begins, crate::proofs::Laws::CellLaws::few_cells))]
fn first_dot(length: usize, scale: usize, before: usize, place: usize) -> usize
    requires some { 0 < scale }
    requires inside { before + place < length / scale }
    ensures value { result ≡ (before + place) * scale }
    ensures inside { result < length }
{
    (before + place) * scale
}

/// Returns whether dots are a whole number of cells, as many as a quiet zone has at least.
fn are_whole_cells<G: Grid>(dots: &G, scale: usize, zone: &QuietZone) -> bool
    requires { 0 < scale }
    ensures { result ≡ are_whole_cells (G.picture dots.now) scale zone.now }
{
    let columns = dots.width() / scale;
    let rows = dots.height() / scale;
    dots.width() % scale == 0
        && dots.height() % scale == 0
        && zone.left <= columns
        && zone.right <= columns - zone.left
        && zone.top <= rows
        && zone.bottom <= rows - zone.top
}

impl<'a, G: Grid> Sampled<'a, G> {
    /// Returns the modules inside a quiet zone: the first dot of each cell, a square of `scale` by `scale` dots. `None`
    /// where the dots are no whole number of cells. Whether the other dots of a cell have its colour is not looked at.
    pub fn new(dots: &'a G, scale: usize, zone: QuietZone) -> Option<Self>
        requires { 0 < scale }
        ensures { MatchOption result (are_whole_cells (G.picture dots.now) scale zone ≡ false)
            (λ modules. (are_whole_cells (G.picture dots.now) scale zone ≡ true)
            × (⟦<Sampled<'a, G> as Grid>⟧.picture modules ≡ modules_in (G.picture dots.now) scale zone)) }
    {
        if !are_whole_cells(dots, scale, &zone) {
            return None;
        }
        Some(Sampled { dots, scale, zone })
    }
}

impl<'a, G: Grid> Grid for Sampled<'a, G> {
    ghost picture = { λ s. modules_in (G.picture s.dots.now) s.scale s.zone };

    fn width(&self) -> usize {
        self.dots.width() / self.scale - self.zone.left - self.zone.right
    }

    fn height(&self) -> usize {
        self.dots.height() / self.scale - self.zone.top - self.zone.bottom
    }

    fn dark(&self, x: usize, y: usize) -> bool {
        let column = first_dot(self.dots.width(), self.scale, self.zone.left, x);
        let row = first_dot(self.dots.height(), self.scale, self.zone.top, y);
        self.dots.dark(column, row)
    }

    fn equal_rows(&self, y: usize) -> usize {
        let row = first_dot(self.dots.height(), self.scale, self.zone.top, y);
        let cells = (self.dots.equal_rows(row) - 1) / self.scale + 1;
        cells.min(self.height() - y)
    }
}
