//! A sink over a caller's bytes.
ghost use Rattle.std.specs.Prelude.{◌≡◌, ◌^◌, ◌<◌, ⊤, false};

use crate::room::{put, put_again};
use device::{IoFault, Sink};

/// A sink over a caller's bytes. It puts as many there as there is room for, and counts all of them, so that no call
/// fails. The count stops at the greatest `usize`.
#[derive(Drop)]
pub struct SliceSink<'a> {
    room: &'a mut [u8],
    count: usize,
    is_flushed: bool,
    ghost counted: { count < 2 ^ 64 },
}

impl<'a> SliceSink<'a> {
    ghost use Rattle.capi.specs.Slice.{count_of, is_flushed, room_of};

    /// Returns a sink that took no byte.
    pub fn new(room: &'a mut [u8]) -> Self
        ensures same { result.room.ghost_name ≡ room.entry.ghost_name }
        ensures room { room_of result ≡ room.old }
        ensures count { count_of result ≡ 0 }
        ensures flushed { is_flushed result ≡ false }
    {
        SliceSink {
            room,
            count: 0,
            is_flushed: false,
        }
    }

    /// Returns how many bytes it took, those for which there was no room among them.
    pub fn count(&self) -> usize
        ensures { result ≡ count_of self.now }
    {
        self.count
    }
}

impl<'a> Sink for SliceSink<'a> {
    ghost use Rattle.capi.specs.Slice.{Puts};
    ghost use Rattle.capi.specs.Private.Puts.{Puts_none, Puts_joined};

    ghost failures = { λ s. 0 };

    ghost is_flushed = { λ s. s.is_flushed };

    ghost buffers_nothing = { λ s. ⊤ };

    ghost took = { Puts };

    fn write(&mut self, bytes: &[u8]) -> Result<usize, IoFault> {
        put(&mut *self.room, self.count, bytes);
        self.count = self.count.saturating_add(bytes.len());
        self.is_flushed = false;
        Ok(bytes.len())
    }

    fn flush(&mut self) -> Result<(), IoFault> {
        self.is_flushed = true;
        Ok(())
    }

    fn pass_on(&mut self) -> Result<(), IoFault> {
        Ok(())
    }

    fn repeat(&mut self, count: usize) -> bool {
        if self.count > self.room.len()
            || self.room.len() - self.count < count
            || self.count < count
        {
            return false;
        }
        put_again(&mut *self.room, self.count, count);
        self.count += count;
        self.is_flushed = false;
        true
    }

    ghost took_none = { λ s. Puts_none s };

    ghost took_joined = { λ s t u xs ys. Puts_joined s t u xs ys };
}
