//! Devices in memory.
ghost use Rattle.std.specs.Prelude.{◌≡◌, ◌-◌, ◌<◌, ◌≤◌, ◌↔◌, ◌++◌, [], true, length, min};
ghost use Rattle.std.specs.Prelude.{IfOk, IsOk, IsErr, refl, ⊤};
ghost use Rattle.std.proofs.lemmas.List.{append-nil};
ghost use Rattle.std.proofs.Common.{sym};
ghost use Rattle.device.specs.Private.Joined.{cut_joined, grown_joined};
ghost use Rattle.device.specs.New.{IsNewSink, IsNewSource};
ghost use Rattle.device.specs.Sink.{Flushes, WritesSome};
ghost use Rattle.device.specs.Source.{ReadsSome};

use arrayvec::ArrayVec;
use device::{IoFault, Sink, Source};

/// A source of bytes in memory: it gives at most `piece` bytes a read. After them each read returns 0 or, with `fails`,
/// fails.
#[derive(Drop)]
pub struct MemSource<'a> {
    rest: &'a [u8],
    piece: usize,
    fails: bool,
    failures: u64,
    at_end: bool,
    ghost positive: { 0 < piece },
    ghost ended: { at_end ≡ true → rest.now ≡ [] },
}

impl<'a> MemSource<'a> {
    ghost use Rattle.testing.specs.Memory.{left_in, fails_after, read_limit};

    /// Returns a source of these bytes that counts no failure and is not at its end. `piece` is above 0.
    pub fn new(bytes: &'a [u8], piece: usize, fails: bool) -> Self
        requires { 0 < piece }
        ensures bytes { left_in result ≡ bytes.now }
        ensures piece { read_limit result ≡ piece }
        ensures fails { fails_after result ≡ fails }
        ensures new { IsNewSource (⟦<MemSource<'a> as Source>⟧) result }
    {
        MemSource {
            rest: bytes,
            piece,
            fails,
            failures: 0,
            at_end: false,
        }
    }
}

impl<'a> Source for MemSource<'a> {
    ghost failures = { λ s. s.failures };

    ghost at_end = { λ s. s.at_end };

    ghost gave = { λ s t xs. s.rest.now ≡ xs ++ t.rest.now };

    ghost ends = { λ s. s.rest.now ≡ [] };

    ghost use Rattle.testing.specs.Memory.{left_in, fails_after, read_limit, GivesAlike};

    fn read(&mut self, buf: &mut [u8]) -> Result<usize, IoFault>
        requires { 0 < length buf.old }
        ensures reads { let source = ⟦<MemSource<'a> as Source>⟧ in
            ReadsSome source.failures source.at_end source.gave source.ends self.old self.new buf.new result }
        ensures amount { IfOk result (λ n.
            n ≡ min (min (read_limit self.old) (length buf.old)) (length (left_in self.old))) }
        ensures fails { IsErr result ↔ ((left_in self.old ≡ []) × (fails_after self.old ≡ true)) }
        ensures alike { GivesAlike self.old self.new }
    {
        if self.rest.is_empty() && self.fails {
            self.failures = self.failures.saturating_add(1);
            return Err(IoFault);
        }
        let count = self.piece.min(buf.len()).min(self.rest.len());
        let all = self.rest;
        buf[..count].copy_from_slice(&all[..count]);
        self.rest = &all[count..];
        self.at_end = count == 0;
        Ok(count)
    }

    ghost gave_none = { λ s. refl };

    ghost gave_joined = { λ s t u xs ys. cut_joined s.rest.now t.rest.now u.rest.now xs ys };
}

/// A sink in memory: it takes at most `piece` bytes a write and keeps at most `limit` in all. A write to a full sink
/// fails.
#[derive(Drop)]
pub struct MemSink<const N: usize> {
    held: ArrayVec<u8, N>,
    piece: usize,
    limit: usize,
    failures: u64,
    is_flushed: bool,
    ghost positive: { 0 < piece },
    ghost in_range: { limit ≤ N },
}

impl<const N: usize> MemSink<N> {
    ghost use Rattle.testing.specs.Memory.{held_by, write_limit, room_of};

    /// Returns an empty sink that counts no failure and is not flushed. `piece` is above 0, `limit` at most `N`.
    pub fn new(piece: usize, limit: usize) -> Self
        requires piece_positive { 0 < piece }
        requires limit_in_range { limit ≤ N }
        ensures bytes { held_by result ≡ [] }
        ensures piece { write_limit result ≡ piece }
        ensures limit { room_of result ≡ limit }
        ensures new { IsNewSink (⟦<MemSink<N> as Sink>⟧) result }
    {
        MemSink {
            held: ArrayVec::new(),
            piece,
            limit,
            failures: 0,
            is_flushed: false,
        }
    }

    /// Returns the bytes that it took.
    pub fn bytes(&self) -> &[u8]
        ensures { result.now ≡ held_by self.now }
    {
        self.held.as_slice()
    }

    /// Returns how many writes failed. The count stops at the greatest `u64`.
    pub fn failures(&self) -> u64
        ensures { result ≡ ⟦<MemSink<N> as Sink>⟧.failures self.now }
    {
        self.failures
    }
}

impl<const N: usize> Sink for MemSink<N> {
    ghost failures = { λ s. s.failures };

    ghost is_flushed = { λ s. s.is_flushed };

    ghost buffers_nothing = { λ s. ⊤ };

    ghost took = { λ s t xs. t.held.items ≡ s.held.items ++ xs };

    ghost use Rattle.testing.specs.Memory.{held_by, write_limit, room_of, TakesAlike};

    fn write(&mut self, bytes: &[u8]) -> Result<usize, IoFault>
        requires { 0 < length bytes.now }
        ensures writes { let sink = ⟦<MemSink<N> as Sink>⟧ in
            WritesSome sink.failures sink.is_flushed sink.took self.old self.new bytes.now result }
        ensures amount { IfOk result (λ n.
            n ≡ min (min (write_limit self.old) (room_of self.old - length (held_by self.old)))
            (length bytes.now)) }
        ensures fails { IsErr result ↔ (room_of self.old ≤ length (held_by self.old)) }
        ensures alike { TakesAlike self.old self.new }
    {
        if self.held.len() >= self.limit {
            self.failures = self.failures.saturating_add(1);
            return Err(IoFault);
        }
        let free = self.limit - self.held.len();
        let count = self.piece.min(free).min(bytes.len());
        let _ = self.held.try_extend_from_slice(&bytes[..count]);
        self.is_flushed = false;
        Ok(count)
    }

    fn flush(&mut self) -> Result<(), IoFault>
        ensures flushes { let sink = ⟦<MemSink<N> as Sink>⟧ in
            Flushes sink.failures sink.is_flushed sink.buffers_nothing sink.took self.old self.new result }
        ensures answer { IsOk result }
        ensures alike { TakesAlike self.old self.new }
    {
        self.is_flushed = true;
        Ok(())
    }

    fn pass_on(&mut self) -> Result<(), IoFault> {
        Ok(())
    }

    ghost took_none = { λ s. sym (append-nil s.held.items) };

    ghost took_joined = { λ s t u xs ys.
        grown_joined s.held.items t.held.items u.held.items xs ys };
}
