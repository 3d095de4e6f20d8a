//! Groups of modules, which both kinds of symbols are cut into (ISO/IEC 15420 and 15417, symbol characters).
ghost use Rattle.std.specs.Prelude.{◌≡◌, ◌≤◌, ◌*◌, Bool, List, Option, length, option_map};
ghost use Rattle.linear.specs.Modules.{each_group, same_modules};
ghost use Rattle.linear_reading.specs.Private.Groups.{Finds, TakesGroups, number_of};

use arrayvec::ArrayVec;

/// Returns whether two rows have the same modules.
pub fn same_modules(modules: &[bool], other: &[bool]) -> bool
    ensures { result ≡ same_modules modules.now other.now }
{
    modules == other
}

/// Returns the number that modules are as bits, at most eight of them.
#[inline(always)]
pub fn number_of(modules: &[bool]) -> u8
    ensures { result ≡ number_of modules.now }
{
    modules
        .iter()
        .fold(0, |number: u8, dark| 2 * (number % 128) + u8::from(*dark))
}

/// Returns what is found for each of the first groups of modules, if something is found for each.
pub fn each_group<Y: Copy + Default, F: Fn(&[bool]) -> Option<Y>, const MOST: usize>(
    found: F,
    width: usize,
    count: usize,
    modules: &[bool],
) -> Option<ArrayVec<Y, MOST>>
    requires few { count ≤ MOST }
    requires groups { width * count ≤ length modules.now }
    requires callable { TakesGroups F.Fn found width }
    ensures { (rule : List Bool → Option Y) → Finds F.Fn found width rule
        → option_map (λ ys. ys.items) result ≡ each_group rule width count modules.now }
{
    let mut ys = ArrayVec::new();
    let mut rest = modules;
    for _group in 0..count {
        let (group, others) = rest.split_at(width);
        ys.push(found(group)?);
        rest = others;
    }
    Some(ys)
}
