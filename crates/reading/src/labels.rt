//! Labels read from modules and from dots, by their symbology.
ghost use Rattle.std.specs.Prelude.{◌≡◌, ◌≢◌, ◌<◌, ℕ, [], IfOk, Some, option_map};
ghost use Rattle.filter.specs.Symbol.{quiet_zone, symbol_of};
ghost use Rattle.picture.specs.Picture.{enlargement, with_quiet_zone};
ghost use Rattle.picture.specs.Reading.{raster};
ghost use Rattle.labelcore.specs.declared.symbology.Symbology.TheVariants.{Qr};
ghost use Rattle.reading.specs.Labels.{ModulesAreRead, read_dots, read_label};
ghost use Rattle.reading.specs.Private.{ShowsSingles};

use crate::bars::read_bars;
use crate::packed::Packed;
use crate::sampled::{Sampled, are_cells};
use crate::squares::read_square;
use filter::zone_of;
use labelcore::{Options, Symbology};
use linear::{Code128, Ean8, Ean13, UpcA};
use picture::Grid;
use qr_reading::SymbolData;

/// Reads modules, without quiet zones, as a symbol of a symbology: its full data. There is no correction: each module has
/// to have its colour.
pub fn read_modules<G: Grid>(symbology: Symbology, modules: &G) -> Option<SymbolData>
    ensures { option_map (λ bytes. bytes.items) result
        ≡ read_label symbology (raster (G.picture modules.now)).rows }
{
    match symbology {
        Symbology::Ean13 => read_bars::<Ean13, G>(modules),
        Symbology::Ean8 => read_bars::<Ean8, G>(modules),
        Symbology::UpcA => read_bars::<UpcA, G>(modules),
        Symbology::Code128 => read_bars::<Code128, G>(modules),
        Symbology::Qr => read_square(modules),
    }
}

/// Reads dots as a symbol of a symbology, in its quiet zone, each module `scale` dots wide: its full data. There is no
/// correction: each dot has to have the colour of its module, and the quiet zone has to be light.
#[tactic(auto, using(crate::proofs::LabelLaws::part_unread, crate::proofs::LabelLaws::whole_read))]
pub fn read<G: Grid>(symbology: Symbology, dots: &G, scale: usize) -> Option<SymbolData>
    requires { 0 < scale }
    ensures { option_map (λ bytes. bytes.items) result ≡ read_dots symbology scale (raster (G.picture dots.now)) }
{
    let zone = zone_of(symbology);
    let modules = Sampled::new(dots, scale, zone)?;
    let data = read_modules(symbology, &modules)?;
    are_cells(dots, scale, &zone).then_some(data)
}

/// Packs the modules of a QR symbol at scale 1. `None`: the dots have the size of no such symbol.
pub fn singles_of<G: Grid>(dots: &G) -> Option<Packed>
    ensures { ShowsSingles (G.picture dots.now) result }
{
    Packed::of(&Sampled::new(dots, 1, zone_of(Symbology::Qr))?)
}

/// Reads dots as a QR symbol at scale 1, as [`read`] does, by its modules.
pub fn read_singles<G: Grid>(dots: &G, modules: &Packed) -> Option<SymbolData>
    requires { ShowsSingles (G.picture dots.now) (Some modules.now) }
    ensures { option_map (λ bytes. bytes.items) result ≡ read_dots Qr 1 (raster (G.picture dots.now)) }
{
    let Some(data) = modules.read() else {
        return None;
    };
    are_cells(dots, 1, &zone_of(Symbology::Qr)).then_some(data)
}

/// Modules in their quiet zone, at any scale, are read as the modules are. It does nothing when it runs.
#[tactic(auto, using(crate::proofs::LabelLaws::modules_read))]
pub fn modules_are_read()
    ensures { ModulesAreRead }
{}

/// What is drawn is read: the picture of each symbol that is drawn, in its quiet zone and at any scale, is read as the
/// symbol's full data. The data is not empty, as that of a line. It does nothing when it runs.
pub fn labels_are_read(options: &Options, symbology: Symbology, bytes: &[u8])
    requires { bytes.now ≢ [] }
    ensures { (scale : ℕ) → 0 < scale → IfOk (symbol_of options.now.label symbology bytes.now) (λ symbol.
        read_dots symbol.symbology scale
        (raster (enlargement (with_quiet_zone symbol.modules (quiet_zone symbol.symbology)) scale)) ≡ Some symbol.full) }
{
    Options::prove_ranges(&options.run, &options.label);
}
