//! What gives bytes.
ghost use Rattle.std.specs.Prelude.{ℕ, ◌<◌, Bool, List, [], ◌++◌, length};
ghost use Rattle.device.specs.Source.{ReadsSome};

use crate::IoFault;

/// A device that gives bytes, up to its end.
pub trait Source {
    /// How many reads failed. The count stops at the greatest `u64`.
    ghost failures: { Self → ℕ };

    /// Whether the last read that succeeded gave nothing.
    ghost at_end: { Self → Bool };

    /// From the first state to the second, reads gave these bytes.
    ghost gave: { Self → Self → List ℕ → Type 0 };

    /// Nothing is left to give. Where it is not known what a reader has left, this says nothing.
    ghost ends: { Self → Type 0 };

    /// Puts bytes at the front of `buf`, which is not empty, and returns how many: 0 at the end.
    ///
    /// # Errors
    ///
    /// [`IoFault`] where the read fails: the source gave no byte.
    fn read(&mut self, buf: &mut [u8]) -> Result<usize, IoFault>
        requires { 0 < length buf.old }
        ensures { ReadsSome failures at_end gave ends self.old self.new buf.new result };

    /// With no read, nothing is given.
    ghost gave_none: { (device : Self) → gave device device [] };

    /// What two reads gave, one after the other, is joined.
    ghost gave_joined: { (first second third : Self) (xs ys : List ℕ) → gave first second xs
        → gave second third ys → gave first third (xs ++ ys) };
}
