//! The format information as a number.
ghost use Rattle.std.specs.Prelude.{◌≡◌, ◌≤◌};
ghost use Rattle.qrmatrix.specs.Information;

use labelcore::Level;
use qrdata::Mask;

/// The format information of 15 bits (ISO/IEC 18004, Annex C): a row for each level indicator, and in it a number for
/// each mask.
static FORMATS: [[u32; 8]; 4] = [
    [
        0x5412, 0x5125, 0x5E7C, 0x5B4B, 0x45F9, 0x40CE, 0x4F97, 0x4AA0,
    ],
    [
        0x77C4, 0x72F3, 0x7DAA, 0x789D, 0x662F, 0x6318, 0x6C41, 0x6976,
    ],
    [
        0x1689, 0x13BE, 0x1CE7, 0x19D0, 0x0762, 0x0255, 0x0D0C, 0x083B,
    ],
    [
        0x355F, 0x3068, 0x3F31, 0x3A06, 0x24B4, 0x2183, 0x2EDA, 0x2BED,
    ],
];

/// Returns the two bits of an error correction level (ISO/IEC 18004, Table 12).
fn level_indicator(level: Level) -> usize
    ensures value { result ≡ Information.level_indicator level }
    ensures bound { result ≤ 3 }
{
    match level {
        Level::L => 1,
        Level::M => 0,
        Level::Q => 3,
        Level::H => 2,
    }
}

/// Returns the format information of 15 bits: level and mask with their check bits, under the mask of the format
/// information (ISO/IEC 18004, 7.9).
#[tactic(auto, using(crate::proofs::InformationTables::format_entry_is))]
pub fn format_information(level: Level, mask: Mask) -> u32
    ensures { result ≡ Information.format_information level mask }
{
    FORMATS[level_indicator(level)][usize::from(mask.number())]
}
