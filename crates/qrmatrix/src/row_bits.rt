//! What is seen in a row of modules, or in rows side by side, at all its places at once: bit i is the module at place i.
ghost use Rattle.std.specs.Prelude.{◌≡◌, ℕ, ◌+◌, ◌-◌, ◌*◌, ◌^◌, ◌<◌, ◌≤◌, nat_lt, not, if◌then◌else◌, ◌&&◌};
ghost use Rattle.std.specs.Bool.{beq};
ghost use Rattle.qrmatrix.specs.Private.Counting.{sum_below};
ghost use Rattle.qrmatrix.specs.Bits.{bit};
ghost use Rattle.qrmatrix.specs.Penalty.{is_uniform};
ghost use Rattle.qrmatrix.specs.Private.PenaltyParts.{finder_from, is_finder, is_light, light_from};

use crate::square::SIDE;
use crate::word::Word;

/// Returns ones in the lowest `count` places, and zeros above.
pub fn low_ones(count: usize) -> u64
    requires { count ≤ SIDE }
    ensures value { result ≡ 2 ^ count - 1 }
    ensures bits { (i : ℕ) → bit result i ≡ nat_lt i count }
    ensures bound { result < 2 ^ SIDE }
{
    (1 << count) - 1
}

/// Returns the places at which two rows have the same colour.
pub fn agreeing<W: Word>(a: W, b: W) -> W
    ensures { (i : ℕ) → i < W.width → W.bits result i ≡ beq (W.bits b i) (W.bits a i) }
{
    b.xor(a).inverse()
}

/// Returns the places at which five rows have the same colour.
pub fn agreeing_five<W: Word>(a: W, b: W, c: W, d: W, e: W) -> W
    ensures { (i : ℕ) → i < W.width → W.bits result i
        ≡ (((beq (W.bits b i) (W.bits a i) && beq (W.bits c i) (W.bits a i))
        && beq (W.bits d i) (W.bits a i)) && beq (W.bits e i) (W.bits a i)) }
{
    agreeing(a, b)
        .and(agreeing(a, c))
        .and(agreeing(a, d))
        .and(agreeing(a, e))
}

/// Returns the places of a row whose module differs from the next one.
fn changes_in<W: Word>(row: W) -> W
    ensures { (i : ℕ) → W.bits result i ≡ not (beq (W.bits row i) (W.bits row (i + 1))) }
{
    row.xor(row.down(1))
}

/// Returns the places of a row from which five modules have the same colour.
pub fn uniform_five<W: Word>(row: W) -> W
    ensures { (i : ℕ) → i < W.width → W.bits result i ≡ is_uniform (W.bits row) i 5 }
{
    let changes = changes_in(row);
    let changes_of_two = changes.or(changes.down(1));
    changes_of_two.or(changes_of_two.down(2)).inverse()
}

/// Returns the places of a row from which seven modules are those of a finder pattern: a dark one, then two changes, two
/// places without one, and two changes.
pub fn finders_from<W: Word>(row: W) -> W
    ensures { (i : ℕ) → i < W.width → W.bits result i ≡ finder_from (W.bits row) i }
{
    let changes = changes_in(row);
    let moved = changes.down(1);
    let two_changes = changes.and(moved);
    let one_change = changes.or(moved);
    row.and(two_changes)
        .and(one_change.down(2).inverse())
        .and(two_changes.down(4))
}

/// Returns the places of a row from which one of four modules is dark.
pub fn dark_in_four<W: Word>(row: W) -> W
    ensures { (i : ℕ) → W.bits result i ≡ not (light_from (W.bits row) i) }
{
    let dark_in_two = row.or(row.down(1));
    dark_in_two.or(dark_in_two.down(2))
}

/// Returns the places at which seven rows, one after the other, have the modules of a finder pattern.
pub fn finders_in<W: Word>(a: W, b: W, c: W, d: W, e: W, f: W, g: W) -> W
    ensures { (i : ℕ) → i < W.width → W.bits result i
        ≡ is_finder (W.bits a i) (W.bits b i) (W.bits c i) (W.bits d i) (W.bits e i) (W.bits f i) (W.bits g i) }
{
    a.and(b.inverse())
        .and(c)
        .and(d)
        .and(e)
        .and(f.inverse())
        .and(g)
}

/// Returns the places at which four rows are light.
pub fn light_in<W: Word>(a: W, b: W, c: W, d: W) -> W
    ensures { (i : ℕ) → i < W.width → W.bits result i
        ≡ is_light (W.bits a i) (W.bits b i) (W.bits c i) (W.bits d i) }
{
    a.inverse()
        .and(b.inverse())
        .and(c.inverse())
        .and(d.inverse())
}

/// Returns the penalty of runs in the lowest `count` places. `uniform` has the places at which windows of one colour
/// begin, and `begins` those of them at which a run begins.
pub fn run_points<W: Word>(uniform: W, begins: W, count: usize) -> W
    requires side { count ≤ SIDE }
    requires width { count < W.width }
    ensures value { W.number result
        ≡ sum_below count (λ i. if W.bits uniform i then 1 + (if W.bits begins i then 2 else 0) else 0) }
    ensures bound { W.number result ≤ 3 * count }
{
    let windows = uniform.ones_below(count);
    let beginnings = uniform.and(begins).ones_below(count);
    windows.plus(beginnings.plus(beginnings))
}
