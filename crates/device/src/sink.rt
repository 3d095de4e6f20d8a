//! What takes bytes.
ghost use Rattle.std.specs.Prelude.{ℕ, ◌<◌, Bool, List, [], ◌++◌, length};
ghost use Rattle.device.specs.Sink.{WritesSome, Flushes, PassesBuffered, RepeatsBytes};

use crate::IoFault;

/// A device that takes bytes.
pub trait Sink {
    /// How many writes and flushes failed. The count stops at the greatest `u64`.
    ghost failures: { Self → ℕ };

    /// Whether a flush succeeded, and nothing was written since.
    ghost is_flushed: { Self → Bool };

    /// Nothing is buffered here. A sink that keeps no byte says nothing.
    ghost buffers_nothing: { Self → Type 0 };

    /// From the first state to the second, writes took these bytes.
    ghost took: { Self → Self → List ℕ → Type 0 };

    /// Takes at least one byte from the front of `bytes`, which is not empty, and returns how many it took.
    ///
    /// # Errors
    ///
    /// [`IoFault`] where the write fails: the sink took no byte.
    fn write(&mut self, bytes: &[u8]) -> Result<usize, IoFault>
        requires { 0 < length bytes.now }
        ensures { WritesSome failures is_flushed took self.old self.new bytes.now result };

    /// Passes on what is buffered, here and below, and takes no byte.
    ///
    /// # Errors
    ///
    /// [`IoFault`] where that fails: some of it may still be buffered.
    fn flush(&mut self) -> Result<(), IoFault>
        ensures { Flushes failures is_flushed buffers_nothing took self.old self.new result };

    /// Passes on what is buffered here. It takes no byte and flushes nothing. A sink that keeps no byte does nothing.
    ///
    /// # Errors
    ///
    /// [`IoFault`] where that fails: some of it may still be buffered.
    fn pass_on(&mut self) -> Result<(), IoFault>
        ensures { PassesBuffered failures is_flushed buffers_nothing took self.old self.new result };

    /// Takes its last `count` bytes once more, and returns whether it did. It does so only where it still has all of
    /// them and has room for them; else nothing changes. It never fails. A sink that keeps no byte always returns
    /// false.
    fn repeat(&mut self, count: usize) -> bool
        ensures { RepeatsBytes failures is_flushed took self.old self.new count result }
    {
        false
    }

    /// With no write, nothing is taken.
    ghost took_none: { (device : Self) → took device device [] };

    /// What two writes took, one after the other, is joined.
    ghost took_joined: { (first second third : Self) (xs ys : List ℕ) → took first second xs
        → took second third ys → took first third (xs ++ ys) };
}
