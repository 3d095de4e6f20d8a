//! Rows of modules.
ghost use Rattle.std.specs.Prelude.{◌≤◌, ◌+◌, length};
ghost use Rattle.arrayvec.specs.ArrayVec.{array_vec_len};
ghost use Rattle.linear.specs.Private.Lists.{Appends};
ghost use Rattle.linear.specs.declared.limits.TheConstants.{MAX_MODULES};

use crate::limits::MAX_MODULES;
use arrayvec::ArrayVec;

/// The modules of a symbol from left to right, true where dark, without its quiet zones. The longest is a Code 128
/// symbol of 80 bytes.
pub type Row = ArrayVec<bool, MAX_MODULES>;

/// Appends modules. It is inlined, so that the compiler knows how many it copies.
#[inline(always)]
pub fn push_modules(row: &mut Row, modules: &[bool])
    requires { array_vec_len row.old + length modules.now ≤ MAX_MODULES }
    ensures { Appends row.old.items row.new.items modules.now (length modules.now) }
{
    // The row has space for them, so that it cannot fail.
    let _ = row.try_extend_from_slice(modules);
}
