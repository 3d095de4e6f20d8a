//! Labels read from dots of which nothing is told.
ghost use Rattle.std.specs.Prelude.{◌≡◌, ◌<◌, ◌≤◌, ◌/◌, IfSome, MatchOption, min, option_map, true};
ghost use Rattle.std.specs.Bool.{then_some};
ghost use Rattle.filter.specs.Symbol.{quiet_zone};
ghost use Rattle.reading.specs.Found.{ReadingIsAlone, any_reading, first_some, found_of, quarter};
ghost use Rattle.reading.specs.Found.{reading_as, symbologies, upright_reading};
ghost use Rattle.reading.specs.Private.{AreLightBefore, IsFirst, IsLightBefore, can_begin, is_second_light};
ghost use Rattle.picture.specs.Picture.{Picture};
ghost use Rattle.reading.specs.Private.{ShowsSingles, reading_from};

use crate::labels::{read, read_singles, singles_of};
use crate::packed::Packed;
use filter::zone_of;
use labelcore::Symbology;
use picture::Grid;
use qr_reading::SymbolData;
use qrmatrix::QUIET_ZONE;

/// What dots are read as: the symbology, how many dots wide a module is, after how many quarter turns clockwise, and the
/// full data.
#[derive(Drop)]
pub struct Reading {
    pub symbology: Symbology,
    pub scale: usize,
    pub turns: u8,
    pub data: SymbolData,
}

/// Reads dots as a symbol of a symbology at a scale. `singles`: the modules of a QR symbol at scale 1, if they are packed.
#[inline(never)]
fn read_as<G: Grid>(
    symbology: Symbology,
    dots: &G,
    turns: u8,
    scale: usize,
    singles: &Option<Packed>,
) -> Option<Reading>
    requires some { 0 < scale }
    requires singles { ShowsSingles (G.picture dots.now) singles.now }
    ensures { option_map found_of result ≡ reading_as turns (G.picture dots.now) scale symbology }
{
    let data = match (symbology, singles) {
        (Symbology::Qr, Some(modules)) if scale == 1 => read_singles(dots, modules),
        _ => read(symbology, dots, scale),
    };
    let Some(data) = data else {
        return None;
    };
    Some(Reading {
        symbology,
        scale,
        turns,
        data,
    })
}

/// The first dark dot, row by row.
#[derive(Clone, Copy)]
struct First {
    x: usize,
    y: usize,
}

/// Returns the first dark dot of the row `y`.
fn first_of_row<G: Grid>(dots: &G, y: usize) -> Option<usize>
    requires { y < (G.picture dots.now).height }
    ensures { MatchOption result (IsLightBefore (G.picture dots.now) (G.picture dots.now).width y)
        (λ x. (x < (G.picture dots.now).width) × ((G.picture dots.now).dark x y ≡ true)
        × (IsLightBefore (G.picture dots.now) x y)) }
{
    for x in 0..dots.width() {
        if dots.dark(x, y) {
            return Some(x);
        }
    }
    None
}

/// Returns the first dark dot. It looks once at rows that are known to be equal.
fn first_dark<G: Grid>(dots: &G) -> Option<First>
    ensures { MatchOption result (AreLightBefore (G.picture dots.now) (G.picture dots.now).height)
        (λ first. IsFirst (G.picture dots.now) first.x first.y) }
{
    let mut light = 0;
    for y in 0..dots.height() {
        if y >= light {
            if let Some(x) = first_of_row(dots, y) {
                return Some(First { x, y });
            }
            light = y + dots.equal_rows(y);
        }
    }
    None
}

/// Returns whether the second module of each symbol of a symbology is light.
fn is_second_light(symbology: Symbology) -> bool
    ensures { result ≡ is_second_light symbology }
{
    match symbology {
        Symbology::Ean13 | Symbology::Ean8 | Symbology::UpcA => true,
        Symbology::Code128 | Symbology::Qr => false,
    }
}

/// Returns the scale at which a symbol of a symbology can have its first module at the first dark dot, behind its quiet
/// zone. There is no other scale.
fn scale_from<G: Grid>(symbology: Symbology, dots: &G, first: First) -> Option<usize>
    requires { IsFirst (G.picture dots.now) first.x first.y }
    ensures { result ≡ then_some (can_begin (G.picture dots.now) first.x first.y symbology)
        (first.x / (quiet_zone symbology).left) }
{
    let zone = zone_of(symbology);
    let scale = first.x / zone.left;
    let can_begin = first.x % zone.left == 0
        && first.y == zone.top * scale
        && scale < dots.width() - first.x
        && !(is_second_light(symbology) && dots.dark(first.x + scale, first.y))
        && scale > 0;
    can_begin.then_some(scale)
}

/// The symbologies, in the order in which they are tried.
const SYMBOLOGIES: [Symbology; 5] = [
    Symbology::Ean13,
    Symbology::Ean8,
    Symbology::UpcA,
    Symbology::Code128,
    Symbology::Qr,
];

/// Reads dots as they lie, by the first symbology that reads them.
fn read_first<G: Grid>(
    dots: &G,
    turns: u8,
    first: First,
    singles: &Option<Packed>,
) -> Option<Reading>
    requires first { IsFirst (G.picture dots.now) first.x first.y }
    requires singles { ShowsSingles (G.picture dots.now) singles.now }
    ensures { option_map found_of result
        ≡ first_some (reading_from turns (G.picture dots.now) first.x first.y) symbologies }
{
    for place in 0..SYMBOLOGIES.len() {
        if let Some(scale) = scale_from(SYMBOLOGIES[place], dots, first) {
            let found = read_as(SYMBOLOGIES[place], dots, turns, scale, singles);
            if found.is_some() {
                return found;
            }
        }
    }
    None
}

/// Packs the modules of a QR symbol at scale 1, if its first module is at the first dark dot and they are not packed yet.
fn pack_singles<G: Grid>(dots: &G, first: First, singles: &mut Option<Packed>)
    requires { ShowsSingles (G.picture dots.now) singles.old }
    ensures { ShowsSingles (G.picture dots.now) singles.new }
{
    if singles.is_none() && first.x == QUIET_ZONE && first.y == QUIET_ZONE {
        *singles = singles_of(dots);
    }
}

/// Turns packed modules clockwise by a quarter turn.
fn turn_singles(singles: &mut Option<Packed>)
    ensures { (p : Picture) → ShowsSingles p singles.old → ShowsSingles (quarter p) singles.new }
{
    if let Some(modules) = singles {
        modules.turn();
    }
}

/// Reads dots as they lie. `singles`: the modules of a QR symbol at scale 1, if they are packed.
fn read_upright<G: Grid>(dots: &G, turns: u8, singles: &mut Option<Packed>) -> Option<Reading>
    requires { ShowsSingles (G.picture dots.now) singles.old }
    ensures read { option_map found_of result ≡ upright_reading turns (G.picture dots.now) }
    ensures singles { ShowsSingles (G.picture dots.now) singles.new }
{
    let Some(first) = first_dark(dots) else {
        return None;
    };
    pack_singles(dots, first, singles);
    read_first(dots, turns, first, singles)
}

/// A picture, turned clockwise by a quarter turn.
#[derive(Drop)]
struct Quarter<'a, G: Grid> {
    dots: &'a G,
}

impl<'a, G: Grid> Grid for Quarter<'a, G> {
    ghost picture = { λ s. quarter (G.picture s.dots.now) };

    fn width(&self) -> usize {
        self.dots.height()
    }

    fn height(&self) -> usize {
        self.dots.width()
    }

    fn dark(&self, x: usize, y: usize) -> bool {
        self.dots.dark(y, self.dots.height() - 1 - x)
    }
}

/// Reads dots as a symbol of any symbology at any scale, in its quiet zone, and turns them where they are not read
/// upright. What is read upright is read by one symbology alone, at one scale. There is no correction.
///
/// In each direction the first dark dot tells the scale for each symbology: its cost grows with the dots alone.
pub fn read_any<G: Grid>(dots: &G) -> Option<Reading>
    ensures read { option_map found_of result ≡ any_reading (G.picture dots.now) }
    ensures narrow { IfSome result (λ reading.
        reading.scale ≤ min (G.picture dots.now).width (G.picture dots.now).height) }
{
    // Dots that are all light are not looked at from other sides.
    let Some(first) = first_dark(dots) else {
        return None;
    };
    let mut singles = None;
    pack_singles(dots, first, &mut singles);
    let found = read_first(dots, 0, first, &singles);
    if found.is_some() {
        return found;
    }
    let once = Quarter { dots };
    turn_singles(&mut singles);
    let found = read_upright(&once, 1, &mut singles);
    if found.is_some() {
        return found;
    }
    let twice = Quarter { dots: &once };
    turn_singles(&mut singles);
    let found = read_upright(&twice, 2, &mut singles);
    if found.is_some() {
        return found;
    }
    let thrice = Quarter { dots: &twice };
    turn_singles(&mut singles);
    read_upright(&thrice, 3, &mut singles)
}

/// What is read upright is read as that, by [`read_any`]. It does nothing when it runs.
pub fn readings_are_alone()
    ensures { ReadingIsAlone }
{}
