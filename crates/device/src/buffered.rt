//! A sink that buffers bytes.
ghost use Rattle.std.specs.Prelude.{◌≡◌, ◌+◌, ◌-◌, ◌<◌, ◌≤◌, ◌++◌, ℕ, List, [], true, false, length, slice_range, OnOk, ⊤};
ghost use borrow.Rule.Slice.PartMut.{put_mid};
ghost use Rattle.device.specs.Passing.{PassesOn};
ghost use Rattle.device.specs.Sink.{Flushes, PassesBuffered};
ghost use Rattle.device.specs.declared.buffered.TheConstants.{ROOM};
ghost use Rattle.device.specs.Private.Passed.{PassesOn_none, PassesOn_joined};

use crate::{IoFault, Sink};

/// The most bytes that are buffered. A larger buffer saves writes and takes more stack.
const ROOM: usize = 32768;

/// A sink that buffers up to 32,768 bytes before another sink. It passes them on in large pieces: where there is no
/// room for more, where [`Sink::pass_on`] asks for it, and at a flush.
#[derive(Drop)]
pub struct Buffered<S: Sink> {
    sink: S,
    // The buffered bytes are those from `start` to `end`. After a call that failed when the sink below had taken some,
    // `start` is above 0. A vector would overwrite all of its bytes when it is cleared.
    bytes: [u8; ROOM],
    start: usize,
    end: usize,
    is_flushed: bool,
    ghost ordered: { start ≤ end },
    ghost within: { end ≤ ROOM },
    ghost emptied: { is_flushed ≡ true → start ≡ end },
    ghost below: { is_flushed ≡ true → S.is_flushed sink ≡ true },
}

impl<S: Sink> Buffered<S> {
    ghost use Rattle.device.specs.Buffered.{sink_of, buffered_bytes};

    /// Returns an empty buffer before `sink`, not flushed.
    pub fn new(sink: S) -> Self
        ensures sink { sink_of result ≡ sink }
        ensures buffered { buffered_bytes result ≡ [] }
        ensures flushed { ⟦<Buffered<S> as Sink>⟧.is_flushed result ≡ false }
    {
        Buffered {
            sink,
            bytes: [0; ROOM],
            start: 0,
            end: 0,
            is_flushed: false,
        }
    }

    /// Returns the sink below.
    pub fn sink(&self) -> &S
        ensures { result.now ≡ sink_of self.now }
    {
        &self.sink
    }

    /// Returns the bytes that are buffered.
    pub fn buffered(&self) -> &[u8]
        ensures { result.now ≡ buffered_bytes self.now }
    {
        let all = &self.bytes[..];
        &all[self.start..self.end]
    }

    /// Proves that a flushed sink buffers nothing, and that the sink below is flushed: it took all that this one took,
    /// after what was buffered before. It does nothing when it runs.
    pub fn prove_reached(&self)
        ensures buffered { ⟦<Buffered<S> as Sink>⟧.is_flushed self.now ≡ true → buffered_bytes self.now ≡ [] }
        ensures below { ⟦<Buffered<S> as Sink>⟧.is_flushed self.now ≡ true
            → S.is_flushed (sink_of self.now) ≡ true }
        ensures bytes { ⟦<Buffered<S> as Sink>⟧.is_flushed self.now ≡ true → (old : S) (old_buffered text : List ℕ)
            → PassesOn S.took old (sink_of self.now) old_buffered (buffered_bytes self.now) text
            → S.took old (sink_of self.now) (old_buffered ++ text) }
    {}

    /// Passes on what is buffered.
    fn drain(&mut self) -> Result<(), IoFault>
        ensures passes { let sink = ⟦<Buffered<S> as Sink>⟧ in
            PassesBuffered sink.failures sink.is_flushed sink.buffers_nothing sink.took self.old self.new result }
        ensures room { OnOk result (self.new.end ≡ 0) }
    {
        while self.start < self.end {
            let all = &self.bytes[..];
            let count = self.sink.write(&all[self.start..self.end])?;
            self.start += count;
        }
        self.start = 0;
        self.end = 0;
        Ok(())
    }

    /// Passes on what is buffered if there is no room for more.
    fn make_room(&mut self) -> Result<(), IoFault>
        ensures passes { let sink = ⟦<Buffered<S> as Sink>⟧ in
            PassesBuffered sink.failures sink.is_flushed (λ s. ⊤) sink.took self.old self.new result }
        ensures room { OnOk result (self.new.end < ROOM) }
    {
        if self.end < ROOM {
            return Ok(());
        }
        self.drain()
    }

    /// Buffers bytes. There is room for them.
    fn buffer(&mut self, bytes: &[u8])
        requires { self.old.end + length bytes.now ≤ ROOM }
        ensures sink { sink_of self.new ≡ sink_of self.old }
        ensures buffered { buffered_bytes self.new ≡ buffered_bytes self.old ++ bytes.now }
        ensures flushed { ⟦<Buffered<S> as Sink>⟧.is_flushed self.new ≡ false }
    {
        put(&mut self.bytes[..], self.end, bytes);
        self.end += bytes.len();
        self.is_flushed = false;
    }
}

impl<S: Sink> Sink for Buffered<S> {
    ghost use Rattle.device.specs.Buffered.{sink_of, buffered_bytes};

    ghost failures = { λ s. S.failures s.sink };

    ghost is_flushed = { λ s. s.is_flushed };

    ghost buffers_nothing = { λ s. buffered_bytes s ≡ [] };

    ghost took = { λ s t xs. PassesOn S.took s.sink t.sink (buffered_bytes s) (buffered_bytes t) xs };

    fn write(&mut self, bytes: &[u8]) -> Result<usize, IoFault> {
        self.make_room()?;
        let count = bytes.len().min(ROOM - self.end);
        self.buffer(&bytes[..count]);
        Ok(count)
    }

    fn flush(&mut self) -> Result<(), IoFault>
        ensures flushes { let sink = ⟦<Buffered<S> as Sink>⟧ in
            Flushes sink.failures sink.is_flushed sink.buffers_nothing sink.took self.old self.new result }
        ensures reaches { OnOk result (S.is_flushed (sink_of self.new) ≡ true) }
    {
        self.drain()?;
        self.sink.flush()?;
        self.is_flushed = true;
        Ok(())
    }

    fn pass_on(&mut self) -> Result<(), IoFault> {
        self.drain()
    }

    fn repeat(&mut self, count: usize) -> bool {
        if self.end - self.start < count || ROOM - self.end < count {
            return false;
        }
        put_again(&mut self.bytes[..], self.end, count);
        self.end += count;
        self.is_flushed = false;
        true
    }

    ghost took_none = { λ s. PassesOn_none S.took s.sink (buffered_bytes s) (S.took_none s.sink) };

    ghost took_joined = { λ s t u xs ys. PassesOn_joined S.took s.sink t.sink u.sink
        (buffered_bytes s) (buffered_bytes t) (buffered_bytes u) xs ys
        (S.took_joined s.sink t.sink u.sink) };
}

/// Copies bytes into a slice, from the index `at` on.
fn put(room: &mut [u8], at: usize, bytes: &[u8])
    requires { at + length bytes.now ≤ length room.old }
    ensures { room.new ≡ put_mid at (length bytes.now) room.old bytes.now }
{
    room[at..at + bytes.len()].copy_from_slice(bytes);
}

/// Copies the `count` bytes before the index `at` to that index. Cut in two the slice is copied as a whole; std's
/// `copy_within` copies byte by byte.
fn put_again(room: &mut [u8], at: usize, count: usize)
    requires { (count ≤ at) × (at + count ≤ length room.old) }
    ensures { room.new ≡ put_mid at count room.old (slice_range room.old (at - count) at) }
{
    let (taken, free) = room.split_at_mut(at);
    free[..count].copy_from_slice(&taken[at - count..]);
}
