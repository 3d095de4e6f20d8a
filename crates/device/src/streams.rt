//! The readers and writers of std as devices.
ghost use Rattle.std.specs.Prelude.{◌≡◌, ⊤};
ghost use Rattle.std.specs.Io.KnownBytes.{Appends, Consumes, IsAtEnd};
ghost use Rattle.device.specs.New.{IsNewSink, IsNewSource};
ghost use Rattle.device.specs.Streams.{reader_of, writer_of};
ghost use Rattle.device.specs.Private.Joined.{Appends_none, Appends_joined, Consumes_none, Consumes_joined};

use crate::{IoFault, Sink, Source};
use std::io::{Read, Write};

/// A reader of std as a source. An error of any kind is a failure.
#[derive(Drop)]
pub struct StdSource<R> {
    reader: R,
    failures: u64,
    at_end: bool,
}

impl<R: Read> StdSource<R> {
    /// Returns a source over this reader that counts no failure and is not at its end.
    pub fn new(reader: R) -> Self
        ensures reader { reader_of result ≡ reader }
        ensures new { IsNewSource (⟦<StdSource<R> as Source>⟧) result }
    {
        StdSource {
            reader,
            failures: 0,
            at_end: false,
        }
    }
}

impl<R: Read> Source for StdSource<R> {
    ghost failures = { λ s. s.failures };

    ghost at_end = { λ s. s.at_end };

    ghost gave = { λ s t xs. Consumes (R.remaining s.reader) (R.remaining t.reader) xs };

    ghost ends = { λ s. IsAtEnd (R.remaining s.reader) };

    fn read(&mut self, buf: &mut [u8]) -> Result<usize, IoFault> {
        match self.reader.read(buf) {
            Ok(count) => {
                self.at_end = count == 0;
                Ok(count)
            }
            Err(_) => {
                self.failures = self.failures.saturating_add(1);
                Err(IoFault)
            }
        }
    }

    ghost gave_none = { λ s. Consumes_none (R.remaining s.reader) };

    ghost gave_joined = { λ s t u xs ys. Consumes_joined (R.remaining s.reader)
        (R.remaining t.reader) (R.remaining u.reader) xs ys };
}

/// A writer of std as a sink. An error of any kind is a failure, and so is a write that takes no byte.
#[derive(Drop)]
pub struct StdSink<W> {
    writer: W,
    failures: u64,
    is_flushed: bool,
}

impl<W: Write> StdSink<W> {
    /// Returns a sink over this writer that counts no failure and is not flushed.
    pub fn new(writer: W) -> Self
        ensures writer { writer_of result ≡ writer }
        ensures new { IsNewSink (⟦<StdSink<W> as Sink>⟧) result }
    {
        StdSink {
            writer,
            failures: 0,
            is_flushed: false,
        }
    }
}

impl<W: Write> Sink for StdSink<W> {
    ghost failures = { λ s. s.failures };

    ghost is_flushed = { λ s. s.is_flushed };

    ghost buffers_nothing = { λ s. ⊤ };

    ghost took = { λ s t xs. Appends (W.contents s.writer) (W.contents t.writer) xs };

    fn write(&mut self, bytes: &[u8]) -> Result<usize, IoFault> {
        match self.writer.write(bytes) {
            Ok(count) if count > 0 => {
                self.is_flushed = false;
                Ok(count)
            }
            _ => {
                self.failures = self.failures.saturating_add(1);
                Err(IoFault)
            }
        }
    }

    fn flush(&mut self) -> Result<(), IoFault> {
        match self.writer.flush() {
            Ok(()) => {
                self.is_flushed = true;
                Ok(())
            }
            Err(_) => {
                self.failures = self.failures.saturating_add(1);
                Err(IoFault)
            }
        }
    }

    fn pass_on(&mut self) -> Result<(), IoFault> {
        Ok(())
    }

    ghost took_none = { λ s. Appends_none (W.contents s.writer) };

    ghost took_joined = { λ s t u xs ys. Appends_joined (W.contents s.writer)
        (W.contents t.writer) (W.contents u.writer) xs ys };
}
