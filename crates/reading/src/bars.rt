//! Modules read as bars.
ghost use Rattle.std.specs.Prelude.{◌≡◌, ◌<◌, ◌-◌, length, option_map, option_and_then};
ghost use Rattle.std.specs.Bool.{beq};
ghost use Rattle.std.specs.Cmp.Lexicographic.{pointwise};
ghost use Rattle.std.specs.List.{list_all, range_with_len};
ghost use Rattle.linear_reading.specs.Reading.{read_row};
ghost use Rattle.picture.specs.Reading.{common_row, raster};
ghost use Rattle.picture.specs.Text.{pixel_row};

use linear::MAX_MODULES;
use linear_reading::{FullData, LinearReading};
use picture::Grid;
use qr_reading::SymbolData;

/// Returns whether `row` has the pixels of the row `y`.
fn has_row<G: Grid>(grid: &G, row: &[bool], y: usize) -> bool
    requires high { y < (G.picture grid.now).height }
    requires wide { length row.now ≡ (G.picture grid.now).width }
    ensures { result ≡ pointwise beq row.now (pixel_row (G.picture grid.now) y) }
{
    for x in 0..row.len() {
        if row[x] != grid.dark(x, y) {
            return false;
        }
    }
    true
}

/// Returns whether all rows from one on have the pixels of `row`.
fn have_row<G: Grid>(grid: &G, row: &[bool], from: usize) -> bool
    requires { length row.now ≡ (G.picture grid.now).width }
    ensures { result ≡ list_all (λ y. pointwise beq row.now (pixel_row (G.picture grid.now) y))
        (range_with_len from ((G.picture grid.now).height - from)) }
{
    (from..grid.height()).all(|y| has_row(grid, row, y))
}

/// Reads the row that all rows are equal to. Puts the first row into `row`, which is as long.
fn read_common<L: LinearReading, G: Grid>(grid: &G, row: &mut [bool]) -> Option<FullData>
    requires { length row.old ≡ (G.picture grid.now).width }
    ensures { option_map (λ full. full.items) result
        ≡ option_and_then (read_row L.reading) (common_row (raster (G.picture grid.now)).rows) }
{
    if grid.height() == 0 {
        return None;
    }
    grid.read_row(0, row);
    // The other rows are looked at only if the first one is read.
    let full = L::read(row)?;
    have_row(grid, row, grid.equal_rows(0)).then_some(full)
}

/// Reads modules as bars: the row that all rows are equal to.
#[tactic(auto, using(crate::proofs::WidthLaws::too_wide))]
pub fn read_bars<L: LinearReading, G: Grid>(modules: &G) -> Option<SymbolData>
    ensures { option_map (λ bytes. bytes.items) result
        ≡ option_and_then (read_row L.reading) (common_row (raster (G.picture modules.now)).rows) }
{
    let width = modules.width();
    if width > MAX_MODULES {
        return None;
    }
    let mut room = [false; MAX_MODULES];
    let full = read_common::<L, G>(modules, &mut room[..width])?;
    // There is room for it, so that it is `Ok`.
    SymbolData::try_from(full.as_slice()).ok()
}
