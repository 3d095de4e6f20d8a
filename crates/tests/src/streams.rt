//! A reader and a writer of std that fail once, with each kind of error, at each of their calls. Each call of a device is
//! one call of theirs, whatever it returns. `tools/tests/test_calls.py` has the calls of the program.
use device::{Sink, Source, StdSink, StdSource};
use std::cell::Cell;
use std::io::{self, ErrorKind, Read, Write};
use std::test::Fail;

/// Each kind of error that std has.
const KINDS: [ErrorKind; 42] = [
    ErrorKind::NotFound,
    ErrorKind::PermissionDenied,
    ErrorKind::ConnectionRefused,
    ErrorKind::ConnectionReset,
    ErrorKind::HostUnreachable,
    ErrorKind::NetworkUnreachable,
    ErrorKind::ConnectionAborted,
    ErrorKind::NotConnected,
    ErrorKind::AddrInUse,
    ErrorKind::AddrNotAvailable,
    ErrorKind::NetworkDown,
    ErrorKind::BrokenPipe,
    ErrorKind::AlreadyExists,
    ErrorKind::WouldBlock,
    ErrorKind::NotADirectory,
    ErrorKind::IsADirectory,
    ErrorKind::DirectoryNotEmpty,
    ErrorKind::ReadOnlyFilesystem,
    ErrorKind::FilesystemLoop,
    ErrorKind::StaleNetworkFileHandle,
    ErrorKind::InvalidInput,
    ErrorKind::InvalidData,
    ErrorKind::TimedOut,
    ErrorKind::WriteZero,
    ErrorKind::StorageFull,
    ErrorKind::NotSeekable,
    ErrorKind::QuotaExceeded,
    ErrorKind::FileTooLarge,
    ErrorKind::ResourceBusy,
    ErrorKind::ExecutableFileBusy,
    ErrorKind::Deadlock,
    ErrorKind::CrossesDevices,
    ErrorKind::TooManyLinks,
    ErrorKind::InvalidFilename,
    ErrorKind::ArgumentListTooLong,
    ErrorKind::Interrupted,
    ErrorKind::Unsupported,
    ErrorKind::UnexpectedEof,
    ErrorKind::OutOfMemory,
    ErrorKind::InProgress,
    ErrorKind::Other,
    ErrorKind::Uncategorized,
];

/// What a call adds to the calls that were made: there are fewer than 100 of each.
const READ: u32 = 1;

const WRITE: u32 = 100;

const FLUSH: u32 = 10_000;

/// The calls that were made after each call of the test: two reads, two writes and two flushes. 0 is none.
const AFTER_EACH: [u32; 7] = [0, 1, 2, 102, 202, 10_202, 20_202];

/// Moves two bytes a call, and fails with an error of this kind at the call after which these calls were made.
#[derive(Drop)]
struct FailingOnce<'a> {
    kind: ErrorKind,
    failing: u32,
    calls: &'a Cell<u32>,
}

impl FailingOnce<'_> {
    /// Adds a call, and fails if it is the one that fails.
    fn add(&self, call: u32) -> io::Result<()> {
        self.calls.set(self.calls.get().wrapping_add(call));
        if self.calls.get() == self.failing {
            return Err(self.kind.into());
        }
        Ok(())
    }
}

impl Read for FailingOnce<'_> {
    fn read(&mut self, buf: &mut [u8]) -> io::Result<usize> {
        self.add(READ)?;
        Ok(buf.len().min(2))
    }
}

impl Write for FailingOnce<'_> {
    fn write(&mut self, bytes: &[u8]) -> io::Result<usize> {
        self.add(WRITE)?;
        Ok(bytes.len().min(2))
    }

    fn flush(&mut self) -> io::Result<()> {
        self.add(FLUSH)
    }
}

/// Whether two reads, two writes and two flushes of devices are as many calls of a reader and a writer, of which just
/// the one fails that has to. Passing on is none.
fn is_one_call_each(kind: ErrorKind, failing: u32) -> bool {
    let calls = Cell::new(0);
    let mut source = StdSource::new(FailingOnce {
        kind,
        failing,
        calls: &calls,
    });
    let mut sink = StdSink::new(FailingOnce {
        kind,
        failing,
        calls: &calls,
    });
    let mut buf = [0; 4];
    let reads = [
        source.read(&mut buf).is_err(),
        source.read(&mut buf).is_err(),
    ];
    let writes = [sink.write(b"abcd").is_err(), sink.write(b"abcd").is_err()];
    let passes_on = sink.pass_on().is_ok();
    let flushes = [sink.flush().is_err(), sink.flush().is_err()];
    (reads == [failing == 1, failing == 2])
        & (writes == [failing == 102, failing == 202])
        & passes_on
        & (flushes == [failing == 10_202, failing == 20_202])
        & (calls.get() == 20_202)
}

#[test]
fn each_call_is_one_call(rt: HostRuntime) -> Result<(), Fail> {
    let mut compared: u32 = 0;
    for kind in KINDS {
        for failing in AFTER_EACH {
            assert!(rt; is_one_call_each(kind, failing), "{kind:?}");
            compared = compared.saturating_add(1);
        }
    }
    println!(rt; "compared {compared} failures")?;
    Ok(())
}
