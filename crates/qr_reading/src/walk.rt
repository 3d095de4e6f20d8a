//! The bits of a symbol, read in the order of the walk over its modules (ISO/IEC 18004, 7.7.3 and 12): strip after strip, and
//! four rows of a strip at once where all of their modules are free.
ghost use Rattle.std.specs.Prelude.{◌≡◌, ◌≤◌, ◌<◌, ◌+◌, ◌-◌, ◌%◌, ◌++◌, [], ◌∷◌, ℕ, Bool, IsTrue, List, length, slice_index, true};
ghost use Rattle.qrdata.specs.Private.BitsInCodewords.{bits_in};
ghost use Rattle.qrdata.specs.Bits.{bits_of, codewords_of};
ghost use Rattle.qrdata.specs.Versions.{side_of, total_codewords};
ghost use Rattle.qrmatrix.specs.Bits.{bit};
ghost use Rattle.qrmatrix.specs.Private.Drawing.{MarksFree};
ghost use Rattle.qrmatrix.specs.Private.Placing.{row_of};
ghost use Rattle.qrmatrix.specs.Reading.{read_bits};
ghost use Rattle.qrmatrix.specs.Square.{value_at};
ghost use Rattle.qr_reading.specs.Private.Walking.{AreFourFree, bit_if, module_in, row_read, rows_read, unmasked};

use qrdata::{Bits, MAX_BITS, Mask, Version, Words, are_bytes};
use qrmatrix::{SIDE, Square, Strip, mask_row_bits};

/// Returns the modules of a row with a mask taken off.
#[inline(always)]
fn unmasked(rows: &[u64], mask: Mask, y: usize) -> u64
    requires { (y < length rows.now) × (length rows.now ≤ SIDE) }
    ensures { (x : ℕ) → x < SIDE → bit result x ≡ unmasked rows.now mask x y }
{
    mask_row_bits(mask, y % 12) ^ rows[y]
}

/// Writes the modules of all rows with a mask taken off.
fn write_unmasked(rows: &[u64], mask: Mask, modules: &mut [u64; SIDE])
    requires { length rows.now ≤ SIDE }
    ensures { (x y : ℕ) → x < SIDE → y < length rows.now → module_in modules.new x y ≡ unmasked rows.now mask x y }
{
    for y in 0..rows.len() {
        modules[y] = unmasked(rows, mask, y);
    }
}

/// Returns whether a bit is set.
#[inline(always)]
fn is_set(row: u64, x: usize) -> bool
    requires { x < 64 }
    ensures { result ≡ bit row x }
{
    (row >> x) & 1 == 1
}

/// Returns the bit `x` of a row, and one place higher the next one.
#[inline(always)]
fn pair_at(row: u64, x: usize) -> u32
    requires { x + 1 < 64 }
    ensures bits { bits_of 2 result ≡ bit row (x + 1) ∷ bit row x ∷ [] }
    ensures bound { result < 4 }
{
    ((row >> x) & 3) as u32
}

/// Appends a module, if it is free.
#[inline(always)]
#[tactic(auto, using(crate::proofs::Laws::WalkedBitLaws::one_bit))]
fn push_if(is_free: bool, dark: bool, bits: &mut Bits)
    requires { length (bits_in bits.old) + length (bit_if is_free dark) ≤ MAX_BITS }
    ensures { bits_in bits.new ≡ bits_in bits.old ++ bit_if is_free dark }
{
    if is_free {
        bits.push_number(u32::from(dark), 1);
    }
}

/// Appends the free modules of a row in the column `x` and in the next one, which is read first.
#[inline(always)]
fn push_row(free: &Square, modules: &[u64; SIDE], x: usize, y: usize, bits: &mut Bits)
    requires inside { (x + 1 < SIDE) × (y < SIDE) }
    requires room { length (bits_in bits.old) + length (row_read (value_at free.now) (module_in modules.now) x y)
        ≤ MAX_BITS }
    ensures { bits_in bits.new ≡ bits_in bits.old ++ row_read (value_at free.now) (module_in modules.now) x y }
{
    let free = free.row(y);
    push_if(is_set(free, x + 1), is_set(modules[y], x + 1), bits);
    push_if(is_set(free, x), is_set(modules[y], x), bits);
}

/// Appends the free modules of rows of a strip, from row `first` on and before row `end`.
fn push_rows(
    strip: Strip,
    first: usize,
    end: usize,
    free: &Square,
    modules: &[u64; SIDE],
    bits: &mut Bits,
)
    requires side { strip.side ≤ SIDE }
    requires column { strip.x + 1 < SIDE }
    requires rows { (first ≤ end) × (end ≤ strip.side) }
    requires room { length (bits_in bits.old)
        + length (rows_read strip (value_at free.now) (module_in modules.now) first (end - first)) ≤ MAX_BITS }
    ensures { bits_in bits.new
        ≡ bits_in bits.old ++ rows_read strip (value_at free.now) (module_in modules.now) first (end - first) }
{
    for t in first..end {
        push_row(free, modules, strip.x, strip.row(t), bits);
    }
}

/// Writes for each row the columns that are free in it and in the three rows below it.
fn write_fours(side: usize, free: &Square, fours: &mut [u64; SIDE])
    requires { (4 ≤ side) × (side ≤ SIDE) }
    ensures { AreFourFree side free.now fours.new }
{
    for y in 0..side - 3 {
        fours[y] = free.row(y) & free.row(y + 1) & free.row(y + 2) & free.row(y + 3);
    }
}

/// Returns whether both modules of the strip are free in row `t` and in the next three that it reaches.
#[inline(always)]
fn are_four_free(strip: Strip, t: usize, fours: &[u64; SIDE]) -> bool
    requires side { strip.side ≤ SIDE }
    requires column { strip.x + 1 < SIDE }
    requires row { t + 3 < strip.side }
    ensures { IsTrue result → (free : List (List Bool)) → AreFourFree strip.side free fours.now → (j : ℕ) → j < 4
        → (value_at free strip.x (row_of strip.side strip.number (t + j)) ≡ true)
        × (value_at free (strip.x + 1) (row_of strip.side strip.number (t + j)) ≡ true) }
{
    let highest = strip.row(t).min(strip.row(t + 3));
    pair_at(fours[highest], strip.x) == 3
}

/// Returns the modules of a strip in row `t` and in the next three that it reaches as a number of eight bits.
#[inline(always)]
fn four_rows(strip: Strip, t: usize, modules: &[u64; SIDE]) -> u32
    requires side { strip.side ≤ SIDE }
    requires column { strip.x + 1 < SIDE }
    requires row { t + 3 < strip.side }
    ensures { (free : ℕ → ℕ → Bool) → ((j : ℕ) → j < 4
        → (free strip.x (row_of strip.side strip.number (t + j)) ≡ true)
        × (free (strip.x + 1) (row_of strip.side strip.number (t + j)) ≡ true))
        → bits_of 8 result ≡ rows_read strip free (module_in modules.now) t 4 }
{
    let first = pair_at(modules[strip.row(t)], strip.x);
    let second = pair_at(modules[strip.row(t + 1)], strip.x);
    let third = pair_at(modules[strip.row(t + 2)], strip.x);
    let fourth = pair_at(modules[strip.row(t + 3)], strip.x);
    4 * (4 * (4 * first + second) + third) + fourth
}

/// Appends the free modules of four rows of a strip, from row `t` on.
#[inline(always)]
fn push_four(
    strip: Strip,
    t: usize,
    free: &Square,
    fours: &[u64; SIDE],
    modules: &[u64; SIDE],
    bits: &mut Bits,
)
    requires side { strip.side ≤ SIDE }
    requires fours { AreFourFree strip.side free.now fours.now }
    requires column { strip.x + 1 < SIDE }
    requires row { t + 3 < strip.side }
    requires room { length (bits_in bits.old)
        + length (rows_read strip (value_at free.now) (module_in modules.now) t 4) ≤ MAX_BITS }
    ensures { bits_in bits.new ≡ bits_in bits.old ++ rows_read strip (value_at free.now) (module_in modules.now) t 4 }
{
    if are_four_free(strip, t, fours) {
        bits.push_number(four_rows(strip, t, modules), 8);
    } else {
        push_rows(strip, t, t + 4, free, modules, bits);
    }
}

/// Appends the free modules of a strip.
#[inline(always)]
fn push_strip(
    strip: Strip,
    free: &Square,
    fours: &[u64; SIDE],
    modules: &[u64; SIDE],
    bits: &mut Bits,
)
    requires side { (strip.side ≤ SIDE) × (strip.side % 4 ≡ 1) }
    requires fours { AreFourFree strip.side free.now fours.now }
    requires column { strip.x + 1 < SIDE }
    requires room { length (bits_in bits.old)
        + length (rows_read strip (value_at free.now) (module_in modules.now) 0 strip.side) ≤ MAX_BITS }
    ensures { bits_in bits.new
        ≡ bits_in bits.old ++ rows_read strip (value_at free.now) (module_in modules.now) 0 strip.side }
{
    // Row 0 is read alone, so that the four rows are the same ones in each strip.
    let begin = strip.number % 2;
    push_rows(strip, 0, begin, free, modules, bits);
    for block in 0..strip.side / 4 {
        push_four(strip, begin + 4 * block, free, fours, modules, bits);
    }
    push_rows(
        strip,
        strip.side - 1 + begin,
        strip.side,
        free,
        modules,
        bits,
    );
}

/// Returns the codewords that the free modules of a symbol are, with a mask taken off, in the order of the walk.
pub(crate) fn read_codewords(version: Version, free: &Square, rows: &[u64], mask: Mask) -> Words
    requires side { length rows.now ≡ side_of version }
    requires free { MarksFree version free.now }
    ensures { result.items ≡ codewords_of (total_codewords version)
        (read_bits version mask (λ x y. bit (slice_index rows.now y) x)) }
{
    let side = version.side();
    let mut modules = [0; SIDE];
    write_unmasked(rows, mask, &mut modules);
    let mut fours = [0; SIDE];
    write_fours(side, free, &mut fours);
    let mut bits = Bits::new();
    // One strip goes up and one down, so that the compiler knows which.
    for pair in 0..(side - 1) / 4 {
        push_strip(
            Strip::new(side, 2 * pair),
            free,
            &fours,
            &modules,
            &mut bits,
        );
        push_strip(
            Strip::new(side, 2 * pair + 1),
            free,
            &fours,
            &modules,
            &mut bits,
        );
    }
    are_bytes(&bits.codewords);
    bits.codewords
}
