//! The eight masks, 64 bits a row.
ghost use Rattle.std.specs.Prelude.{◌≡◌, ℕ, ◌+◌, ◌%◌, ◌<◌, ◌≤◌, List, Bool};
ghost use Rattle.qrmatrix.specs.Bits.{bit};
ghost use Rattle.qrmatrix.specs.Private.Drawing.{IsMaskedTo};
ghost use Rattle.qrmatrix.specs.Masks;

use crate::square::{SIDE, Square};
use qrdata::Mask;

/// A one in every sixth place.
const SIXTHS: u64 = 0x0041041041041041;

/// Makes rows of six columns, the first one the lowest bit, over and over.
macro_rules! rows {
    ($($columns:literal)*) => {
        [$($columns * SIXTHS),*]
    };
}

/// For each mask, which modules it flips in each of the first twelve rows. The masks repeat after six columns and twelve
/// rows.
static PATTERNS: [[u64; 12]; 8] = [
    rows![
        0b010101 0b101010 0b010101 0b101010 0b010101 0b101010
        0b010101 0b101010 0b010101 0b101010 0b010101 0b101010
    ],
    rows![
        0b111111 0b000000 0b111111 0b000000 0b111111 0b000000
        0b111111 0b000000 0b111111 0b000000 0b111111 0b000000
    ],
    rows![
        0b001001 0b001001 0b001001 0b001001 0b001001 0b001001
        0b001001 0b001001 0b001001 0b001001 0b001001 0b001001
    ],
    rows![
        0b001001 0b100100 0b010010 0b001001 0b100100 0b010010
        0b001001 0b100100 0b010010 0b001001 0b100100 0b010010
    ],
    rows![
        0b000111 0b000111 0b111000 0b111000 0b000111 0b000111
        0b111000 0b111000 0b000111 0b000111 0b111000 0b111000
    ],
    rows![
        0b111111 0b000001 0b001001 0b010101 0b001001 0b000001
        0b111111 0b000001 0b001001 0b010101 0b001001 0b000001
    ],
    rows![
        0b111111 0b000111 0b011011 0b010101 0b101101 0b110001
        0b111111 0b000111 0b011011 0b010101 0b101101 0b110001
    ],
    rows![
        0b010101 0b111000 0b110001 0b101010 0b000111 0b001110
        0b010101 0b111000 0b110001 0b101010 0b000111 0b001110
    ],
];

/// Returns the modules that a mask flips in the rows `place`, `place` + 12 and so on.
#[tactic(auto, using(crate::proofs::MaskLaws::mask_row_is))]
pub fn mask_row_bits(mask: Mask, place: usize) -> u64
    requires { place < 12 }
    ensures { (x y : ℕ) → x < SIDE → y < SIDE → y % 12 ≡ place
        → bit result x ≡ Masks.is_flipped mask x y }
{
    PATTERNS[usize::from(mask.number())][place]
}

/// Writes `count` rows from row `first` on, with the free modules flipped by the mask.
fn write_rows(
    first: usize,
    count: usize,
    mask: Mask,
    free: &Square,
    modules: &Square,
    masked: &mut Square,
)
    requires first { first % 12 ≡ 0 }
    requires count { count ≤ 12 }
    requires inside { first + count ≤ SIDE }
    ensures { (start : List (List Bool)) → IsMaskedTo first mask free.now modules.now start masked.old
        → IsMaskedTo (first + count) mask free.now modules.now start masked.new }
{
    for place in 0..count {
        let y = first + place;
        let flipped = mask_row_bits(mask, place) & free.row(y);
        masked.put(y, modules.row(y) ^ flipped);
    }
}

/// Writes the modules, the free ones flipped by the mask, into the first `side` rows of `masked`: twelve rows at a
/// time, since the masks repeat after them.
pub fn write_masked(side: usize, mask: Mask, free: &Square, modules: &Square, masked: &mut Square)
    requires { side ≤ SIDE }
    ensures { IsMaskedTo side mask free.now modules.now masked.old masked.new }
{
    for block in 0..side / 12 {
        write_rows(12 * block, 12, mask, free, modules, masked);
    }
    write_rows(side / 12 * 12, side % 12, mask, free, modules, masked);
}
