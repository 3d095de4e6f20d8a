//! A symbol before its mask: what all eight masks share is drawn once.
ghost use Rattle.std.specs.Prelude.{◌≡◌, ℕ, ◌+◌, ◌*◌, nat_lt, ◌<◌, ◌≤◌, List, None, IfSome, IfNone};
ghost use Rattle.qrdata.specs.Versions.{side_of};
ghost use Rattle.qrmatrix.specs.Private.Drawing.{Draws, DrawsFunctions, Places, ShowsSymbol};
ghost use Rattle.qrmatrix.specs.MaskChoice.{chosen_mask};
ghost use Rattle.qrmatrix.specs.Modules.{module_at};
ghost use Rattle.qrmatrix.specs.Penalty;
ghost use Rattle.qrmatrix.specs.Private.Counting.{one_if};
ghost use Rattle.qrmatrix.specs.Private.MaskOrder.{turn_of};
ghost use Rattle.qrmatrix.specs.Private.Squares.{IsBlank, IsWithin};

use crate::format::draw_format;
use crate::function::function_row;
use crate::mask::write_masked;
use crate::penalty::{penalty, penalty_below};
use crate::placement::place;
use crate::row_bits::low_ones;
use crate::square::{SIDE, Square};
use labelcore::Level;
use qrdata::{Mask, Version, Words};

/// Returns the mask that is tried in a turn: first mask 2, which most often has the lowest penalty, then the others.
fn mask_in_turn(turn: u8) -> Mask
    requires { turn < 8 }
    ensures turn { turn_of result ≡ turn }
    ensures known { result < 8 }
{
    let number = match turn {
        0 => 2,
        1 | 2 => turn - 1,
        _ => turn,
    };
    Mask::of(number)
}

/// Draws the function patterns on two blank squares: the modules that they leave free, and those of theirs that are
/// dark.
pub fn draw_functions(version: Version, free: &mut Square, modules: &mut Square)
    requires { IsBlank free.old × IsBlank modules.old }
    ensures { DrawsFunctions version free.new modules.old modules.new }
{
    let side = version.side();
    for y in 0..side {
        let row = function_row(version, y);
        free.flip(y, low_ones(side) & !row.taken);
        modules.flip(y, row.dark);
    }
}

/// A symbol that no mask is laid over yet, without its format information.
#[derive(Drop)]
pub struct Unmasked {
    pub version: Version,
    pub level: Level,
    /// The modules that the codewords choose.
    pub free: Square,
    /// The modules that are dark.
    pub modules: Square,
}

/// A symbol under a mask.
#[derive(Drop)]
pub struct Masked {
    pub mask: Mask,
    /// The modules that are dark.
    pub modules: Square,
}

impl Masked {
    /// Returns a blank symbol.
    pub fn blank() -> Masked
        ensures { IsBlank result.modules }
    {
        Masked {
            mask: Mask::of(0),
            modules: Square::new(),
        }
    }

    /// Becomes a copy of another symbol.
    fn copy_from(&mut self, other: &Masked)
        ensures { self.new ≡ other.now }
    {
        self.mask = other.mask;
        self.modules.copy_from(&other.modules);
    }

    /// Returns the limit below which the penalty of another mask replaces this one, which has the penalty `lowest`. Of
    /// two masks with the same penalty the one of the lower number is chosen.
    fn limit_for(&self, mask: Mask, lowest: u64) -> u64
        requires { lowest ≤ 329 * SIDE * SIDE }
        ensures value { result ≡ lowest + one_if (nat_lt mask self.now.mask) }
        ensures bound { result ≤ lowest + 1 }
    {
        if mask.number() < self.mask.number() {
            lowest + 1
        } else {
            lowest
        }
    }
}

impl Unmasked {
    /// Draws the codewords without a mask, on blank squares.
    pub fn draw(&mut self, codewords: &Words)
        requires { IsBlank self.old.free × IsBlank self.old.modules }
        ensures { Draws self.old.version self.old.level codewords.now.items self.new }
    {
        draw_functions(self.version, &mut self.free, &mut self.modules);
        place(self.version, codewords, &self.free, &mut self.modules);
    }

    /// Draws the symbol under a mask, with the format information for it, over a blank one or over that under another
    /// mask.
    pub fn draw_under(&self, mask: Mask, masked: &mut Masked)
        ensures mask { masked.new.mask ≡ mask }
        ensures modules { (codewords : List ℕ) → Places self.now codewords
            → IsWithin (side_of self.now.version) masked.old.modules → ShowsSymbol self.now codewords masked.new }
        ensures within { (codewords : List ℕ) → Places self.now codewords
            → IsWithin (side_of self.now.version) masked.old.modules
            → IsWithin (side_of self.now.version) masked.new.modules }
    {
        let side = self.version.side();
        write_masked(side, mask, &self.free, &self.modules, &mut masked.modules);
        draw_format(self.version, self.level, mask, &mut masked.modules);
        masked.mask = mask;
    }

    /// Returns the penalty of the symbol under a mask.
    fn penalty_of(&self, masked: &Masked) -> u64
        ensures value { (codewords : List ℕ) → ShowsSymbol self.now codewords masked.now → result
            ≡ Penalty.penalty (side_of self.now.version)
            (module_at self.now.version self.now.level masked.now.mask codewords) }
        ensures bound { result ≤ 329 * SIDE * SIDE }
    {
        penalty(&masked.modules, self.version.side())
    }

    /// Returns the penalty of the symbol under a mask where it is below a limit.
    fn penalty_below(&self, masked: &Masked, limit: u64) -> Option<u64>
        ensures below { IfSome result (λ found. found < limit) }
        ensures value { (codewords : List ℕ) → ShowsSymbol self.now codewords masked.now → IfSome result (λ found. found
            ≡ Penalty.penalty (side_of self.now.version)
            (module_at self.now.version self.now.level masked.now.mask codewords)) }
        ensures reached { (codewords : List ℕ) → ShowsSymbol self.now codewords masked.now → IfNone result
            (limit ≤ Penalty.penalty (side_of self.now.version)
            (module_at self.now.version self.now.level masked.now.mask codewords)) }
    {
        penalty_below(&masked.modules, self.version.side(), limit)
    }

    /// Lays each mask over the modules and draws the symbol of the lowest penalty, the first of several, over a blank one
    /// (ISO/IEC 18004, 7.8.1). A symbol is given up as soon as its penalty reaches the lowest one so far.
    pub fn draw_under_best_mask(&self, best: &mut Masked)
        requires { IsBlank best.old.modules }
        ensures mask { (codewords : List ℕ) → Places self.now codewords → best.new.mask
            ≡ chosen_mask self.now.version self.now.level None codewords }
        ensures modules { (codewords : List ℕ) → Places self.now codewords
            → ShowsSymbol self.now codewords best.new }
    {
        self.draw_under(mask_in_turn(0), best);
        let mut lowest = self.penalty_of(best);
        let mut next = Masked::blank();
        for turn in 1..8 {
            let mask = mask_in_turn(turn);
            self.draw_under(mask, &mut next);
            let limit = best.limit_for(mask, lowest);
            if let Some(penalty) = self.penalty_below(&next, limit) {
                lowest = penalty;
                best.copy_from(&next);
            }
        }
    }
}
