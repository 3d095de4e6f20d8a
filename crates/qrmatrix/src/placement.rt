//! The placement of the codewords: a cursor goes along the strips and counts the free modules. A column of a symbol has
//! the same free modules as the row of its number, so that a word tells how many rows of a strip, one after the other,
//! are free or are none.
ghost use Rattle.std.specs.Prelude.{◌≡◌, ℕ, ◌+◌, ◌-◌, ◌*◌, ◌/◌, ◌<◌, ◌≤◌, true, false, List, Bool, length};
ghost use Rattle.std.specs.Prelude.{slice_index};
ghost use Rattle.qrdata.specs.Versions.{side_of};
ghost use Rattle.qrmatrix.specs.Functions.{is_free};
ghost use Rattle.qrmatrix.specs.Bits.{bit};
ghost use Rattle.qrmatrix.specs.Square.{value_at};
ghost use Rattle.qrmatrix.specs.Private.Placing.{HasBits, IsStrip, MovesOn, MovesRow, ShowsFree, row_of};
ghost use Rattle.qrmatrix.specs.Private.Drawing.{MarksFree, PlacesCodewords};

use crate::square::{SIDE, Square};
use qrdata::{Version, Words};

/// Room for the codewords and zeros after them: enough that each module of the largest symbol has a bit, and seven bytes
/// more.
const ROOM: usize = 408;

/// The most rows of a strip that are placed at once: a word of the codewords has the bits for them.
const ROWS: usize = 28;

/// Two columns of a symbol.
#[derive(Clone, Copy)]
pub struct Strip {
    /// The modules on a side of the symbol.
    pub side: usize,
    /// How many strips are to its right.
    pub number: usize,
    /// The left one of its columns.
    pub x: usize,
}

impl Strip {
    /// Makes the strip that has `number` others to its right. No strip has the column of the timing pattern.
    pub fn new(side: usize, number: usize) -> Strip
        requires side { (21 ≤ side) × (side ≤ SIDE) }
        requires number { number < (side - 1) / 2 }
        ensures side { result.side ≡ side }
        ensures number { result.number ≡ number }
        ensures inside { result.x + 1 < side }
        ensures strip { (v : ℕ) → 1 ≤ v → v ≤ 10 → side ≡ side_of v → IsStrip v result }
    {
        let right = if number < (side - 7) / 2 {
            side - 1 - 2 * number
        } else {
            side - 2 - 2 * number
        };
        Strip {
            side,
            number,
            x: right - 1,
        }
    }

    /// Returns the row that the strip reaches after `t` others: one strip goes up, and the next one down.
    pub fn row(self, t: usize) -> usize
        requires { t < self.side }
        ensures value { result ≡ row_of self.side self.number t }
        ensures inside { result < self.side }
    {
        if self.number % 2 == 0 {
            self.side - 1 - t
        } else {
            t
        }
    }

    /// Returns how many rows, from the one that the strip reaches after `t` others on, have a one in a word with a bit
    /// for each row: at most `ROWS`.
    #[inline(always)]
    fn ones_from(self, word: u64, t: usize) -> usize
        requires side { self.side ≤ SIDE }
        requires row { t < self.side }
        ensures ones { (j : ℕ) → j < result → bit word (row_of self.side self.number (t + j)) ≡ true }
        ensures inside { t + result ≤ self.side }
        ensures bound { result ≤ ROWS }
    {
        let ones = if self.number % 2 == 0 {
            (!(word << (64 - self.side + t))).leading_zeros()
        } else {
            (!(word >> t)).trailing_zeros()
        };
        (ones as usize).min(ROWS).min(self.side - t)
    }
}

/// Returns the codewords with zeros after them.
fn with_zeros(codewords: &[u8]) -> [u8; ROOM]
    requires { length codewords.now ≤ ROOM }
    ensures { (j : ℕ) → slice_index result j ≡ slice_index codewords.now j }
{
    let mut bytes = [0; ROOM];
    bytes[..codewords.len()].copy_from_slice(codewords);
    bytes
}

/// Returns the bits of the codewords from bit `i` on, at least 57, the first one the highest.
#[tactic(auto, using(crate::proofs::TwoBitsLaws::codeword_more))]
fn bits_from(bytes: &[u8; ROOM], i: usize) -> u64
    requires { i < 8 * (ROOM - 8) }
    ensures { HasBits 57 result bytes.now i }
{
    let first = i / 8;
    let mut bits = 0;
    for j in 0..8 {
        bits = (bits << 8) | u64::from(bytes[first + j]);
    }
    bits << (i % 8)
}

/// Returns bit `x` and, one place higher, the next one.
#[tactic(auto, using(crate::proofs::TwoBitsLaws::two_low, crate::proofs::TwoBitsLaws::two_high))]
fn pair_at(bits: u64, x: usize) -> u64
    requires { x + 1 < 64 }
    ensures low { bit result 0 ≡ bit bits x }
    ensures high { bit result 1 ≡ bit bits (x + 1) }
    ensures bound { result < 4 }
{
    (bits >> x) & 3
}

/// Returns the next bits for two modules, the right one first. One that is not free gets none.
fn bits_for_pair(free: u64, bits: u64) -> u64
    requires { free < 4 }
    ensures value { ShowsFree result free bits }
    ensures bound { result < 4 }
{
    if free == 3 {
        bits >> 62
    } else {
        free * (bits >> 63)
    }
}

/// Places bits on the free modules at column `x` and at the next one, and returns how many.
fn place_row(free: &Square, modules: &mut Square, x: usize, y: usize, bits: u64) -> usize
    requires { (x + 1 < SIDE) × (y < SIDE) }
    ensures placed { MovesRow free.now modules.old modules.new x y bits result }
    ensures bound { result ≤ 2 }
{
    let free_pair = pair_at(free.row(y), x);
    if free_pair == 0 {
        return 0;
    }
    modules.flip(y, bits_for_pair(free_pair, bits) << x);
    (free_pair as usize + 1) / 2
}

/// Places bits on `count` rows whose modules are free, from row `t` on.
fn place_free(strip: Strip, t: usize, count: usize, bits: u64, modules: &mut Square)
    requires side { strip.side ≤ SIDE }
    requires column { strip.x + 1 < SIDE }
    requires row { t + count ≤ strip.side }
    requires count { count ≤ ROWS }
    ensures { (free : List (List Bool)) → ((j : ℕ) → j < count
        → (value_at free strip.x (row_of strip.side strip.number (t + j)) ≡ true)
        × (value_at free (strip.x + 1) (row_of strip.side strip.number (t + j)) ≡ true))
        → (codewords : List ℕ) (i : ℕ) → HasBits 57 bits codewords i
        → MovesOn strip free codewords modules.old modules.new i t (i + 2 * count) (t + count) }
{
    let mut rest = bits;
    for j in 0..count {
        modules.flip(strip.row(t + j), bits_for_pair(3, rest) << strip.x);
        rest = rest << 2;
    }
}

/// Places the bits from bit `first` on on a strip, and returns where the next one begins.
#[inline(always)]
fn place_strip(
    strip: Strip,
    bytes: &[u8; ROOM],
    free: &Square,
    modules: &mut Square,
    first: usize,
) -> usize
    requires side { strip.side ≤ SIDE }
    requires column { strip.x + 1 < SIDE }
    requires first { first + 2 * strip.side < 8 * (ROOM - 8) }
    ensures placed { MovesOn strip free.now bytes.now modules.old modules.new first 0 result strip.side }
    ensures bound { result ≤ first + 2 * strip.side }
{
    let left = free.row(strip.x);
    let right = free.row(strip.x + 1);
    let mut i = first;
    let mut t = 0;
    while t < strip.side {
        let both = strip.ones_from(left & right, t);
        if 0 < both {
            place_free(strip, t, both, bits_from(bytes, i), modules);
            i += 2 * both;
            t += both;
            continue;
        }
        let neither = strip.ones_from(!left & !right, t);
        if 0 < neither {
            t += neither;
        } else {
            i += place_row(free, modules, strip.x, strip.row(t), bits_from(bytes, i));
            t += 1;
        }
    }
    i
}

/// Places the codewords on the free modules, strip after strip from the right, upwards and downwards in turn (ISO/IEC
/// 18004, 7.7.3).
pub fn place(version: Version, codewords: &Words, free: &Square, modules: &mut Square)
    requires marked { MarksFree version free.now }
    requires light { (x y : ℕ) → x < side_of version → y < side_of version
        → is_free version x y ≡ true → value_at modules.old x y ≡ false }
    ensures { PlacesCodewords version codewords.now.items modules.old modules.new }
{
    let side = version.side();
    let bytes = with_zeros(codewords);
    let mut i = 0;
    // One strip goes up and one down, so that the compiler knows which.
    for pair in 0..(side - 1) / 4 {
        i = place_strip(Strip::new(side, 2 * pair), &bytes, free, modules, i);
        i = place_strip(Strip::new(side, 2 * pair + 1), &bytes, free, modules, i);
    }
}
