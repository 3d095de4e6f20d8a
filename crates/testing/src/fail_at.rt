//! A device that fails at one call.
ghost use Rattle.std.specs.Prelude.{◌≡◌, ◌+◌, ◌-◌, ◌^◌, ◌<◌, ◌↔◌, length, min};
ghost use Rattle.std.specs.Prelude.{IsTrue};
ghost use Rattle.device.specs.Device.{CountsFailure};
ghost use Rattle.testing.specs.FailAt.{device_of, calls_of, failing_call, own_failures, FailsNext, CountsCall};
ghost use Rattle.testing.specs.FailAt.{FailsInTurn, total_failures};
ghost use Rattle.device.specs.Sink.{Flushes, PassesBuffered, WritesSome};
ghost use Rattle.device.specs.Source.{ReadsSome};

use device::{IoFault, Sink, Source};

/// A device that fails at the call with the number `failing`, for tests. That call does not reach the device below;
/// every other read, write and flush does. Calls are counted from 1, so with 0 none fails.
#[derive(Drop)]
pub struct FailAt<D> {
    device: D,
    failing: u64,
    calls: u64,
    failures: u64,
}

impl<D> FailAt<D> {
    /// Returns a device that fails at one call, before its first call.
    pub fn new(device: D, failing: u64) -> Self
        ensures device { device_of result ≡ device }
        ensures calls { calls_of result ≡ 0 }
        ensures failing { failing_call result ≡ failing }
        ensures failures { own_failures result ≡ 0 }
    {
        FailAt {
            device,
            failing,
            calls: 0,
            failures: 0,
        }
    }

    /// Returns the device below.
    pub fn device(&self) -> &D
        ensures { result.now ≡ device_of self.now }
    {
        &self.device
    }

    /// Returns how many reads, writes and flushes were made so far.
    pub fn calls(&self) -> u64
        ensures { result ≡ calls_of self.now }
    {
        self.calls
    }

    /// Counts a call, and returns whether it is the one that fails.
    fn fails_now(&mut self) -> bool
        ensures others { self.new ≡ record self.old { calls = self.new.calls } }
        ensures counts { CountsCall self.old self.new }
        ensures fails { IsTrue result ↔ FailsNext self.old }
    {
        if self.calls == u64::MAX {
            return false;
        }
        self.calls += 1;
        self.calls == self.failing
    }

    /// Counts a failure of its own.
    fn count_failure(&mut self)
        ensures { self.new
            ≡ record self.old { failures = min (self.old.failures + 1) (2 ^ 64 - 1) } }
    {
        self.failures = self.failures.saturating_add(1);
    }
}

impl<D: Source> Source for FailAt<D> {
    ghost failures = { λ s. total_failures s.failures (D.failures s.device) };

    ghost at_end = { λ s. D.at_end s.device };

    ghost gave = { λ s t xs. D.gave s.device t.device xs };

    ghost ends = { λ s. D.ends s.device };

    fn read(&mut self, buf: &mut [u8]) -> Result<usize, IoFault>
        requires { 0 < length buf.old }
        ensures reads { let source = ⟦<FailAt<D> as Source>⟧ in
            ReadsSome source.failures source.at_end source.gave source.ends self.old self.new buf.new result }
        ensures turn { FailsInTurn D.failures self.old self.new result }
    {
        if self.fails_now() {
            self.count_failure();
            return Err(IoFault);
        }
        self.device.read(buf)
    }

    ghost gave_none = { λ s. D.gave_none s.device };

    ghost gave_joined = { λ s t u xs ys. D.gave_joined s.device t.device u.device xs ys };
}

impl<D: Sink> Sink for FailAt<D> {
    ghost failures = { λ s. total_failures s.failures (D.failures s.device) };

    ghost is_flushed = { λ s. D.is_flushed s.device };

    ghost buffers_nothing = { λ s. D.buffers_nothing s.device };

    ghost took = { λ s t xs. D.took s.device t.device xs };

    fn write(&mut self, bytes: &[u8]) -> Result<usize, IoFault>
        requires { 0 < length bytes.now }
        ensures writes { let sink = ⟦<FailAt<D> as Sink>⟧ in
            WritesSome sink.failures sink.is_flushed sink.took self.old self.new bytes.now result }
        ensures turn { FailsInTurn D.failures self.old self.new result }
    {
        if self.fails_now() {
            self.count_failure();
            return Err(IoFault);
        }
        self.device.write(bytes)
    }

    fn flush(&mut self) -> Result<(), IoFault>
        ensures flushes { let sink = ⟦<FailAt<D> as Sink>⟧ in
            Flushes sink.failures sink.is_flushed sink.buffers_nothing sink.took self.old self.new result }
        ensures turn { FailsInTurn D.failures self.old self.new result }
    {
        if self.fails_now() {
            self.count_failure();
            return Err(IoFault);
        }
        self.device.flush()
    }

    /// Passes on what the device buffers. It is not counted as a call.
    fn pass_on(&mut self) -> Result<(), IoFault>
        ensures passes { let sink = ⟦<FailAt<D> as Sink>⟧ in
            PassesBuffered sink.failures sink.is_flushed sink.buffers_nothing sink.took self.old self.new result }
        ensures others { self.new ≡ record self.old { device = self.new.device } }
        ensures below { CountsFailure (D.failures (device_of self.old))
            (D.failures (device_of self.new)) result }
    {
        self.device.pass_on()
    }

    ghost took_none = { λ s. D.took_none s.device };

    ghost took_joined = { λ s t u xs ys. D.took_joined s.device t.device u.device xs ys };
}
