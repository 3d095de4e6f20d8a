//! Readers and writers of std that are odd, and files.
use crate::texts::{REFUSALS, REFUSED};
use acceptance::support::{EAN8, Tally, options_by, text_of, words_of};
use command::{End, OpenFault, WordsFault, open_file, options_of};
use filter::{RunFault, Status, run};
use labelcore::{MemSink, Options, StdSink, StdSource};
use std::alloc::Global;
use std::fs;
use std::io::{self, ErrorKind, Read, Write};
use std::process::Abort;
use std::rt::Files;
use std::test::Fail;

/// Gives one byte a call, but is interrupted at one of its calls, counted from 1; 0 is none.
#[derive(Drop)]
struct ByteReader<'a> {
    rest: &'a [u8],
    interrupted: u32,
}

impl Read for ByteReader<'_> {
    fn read(&mut self, buf: &mut [u8]) -> io::Result<usize> {
        self.interrupted = self.interrupted.wrapping_sub(1);
        if self.interrupted == 0 {
            return Err(ErrorKind::Interrupted.into());
        }
        if self.rest.is_empty() || buf.is_empty() {
            return Ok(0);
        }
        buf[0] = self.rest[0];
        self.rest = &self.rest[1..];
        Ok(1)
    }
}

/// What a writer does at its third call.
#[derive(Clone, Copy)]
enum ThirdCall {
    TakesOne,
    IsInterrupted,
    TakesNothing,
}

/// Takes one byte a call, but for its third.
#[derive(Drop)]
struct ByteWriter {
    bytes: Vec<u8>,
    calls: u32,
    third: ThirdCall,
}

impl ByteWriter {
    /// A writer with no bytes.
    fn new(alloc: Global, third: ThirdCall) -> ByteWriter {
        ByteWriter {
            bytes: Vec::new(alloc),
            calls: 0,
            third,
        }
    }
}

impl Write for ByteWriter {
    fn write(&mut self, bytes: &[u8]) -> io::Result<usize> {
        self.calls = self.calls.wrapping_add(1);
        match self.third {
            ThirdCall::IsInterrupted if self.calls == 3 => {
                return Err(ErrorKind::Interrupted.into());
            }
            ThirdCall::TakesNothing if self.calls == 3 => return Ok(0),
            _ => {}
        }
        let Some(byte) = bytes.first() else {
            return Ok(0);
        };
        self.bytes.push(*byte)?;
        Ok(1)
    }

    fn flush(&mut self) -> io::Result<()> {
        Ok(())
    }
}

/// Whether a run over a reader and two writers of one byte a call ends so, with these images and messages. One read is
/// interrupted, and the third write of the images and of the messages may be odd.
fn ends_by_bytes(
    alloc: Global,
    options: &Options,
    reader: ByteReader<'_>,
    third: (ThirdCall, ThirdCall),
    want: (Result<Status, RunFault>, &[u8], &[u8]),
) -> bool {
    let mut images = ByteWriter::new(alloc, third.0);
    let mut messages = ByteWriter::new(alloc, third.1);
    let mut source = StdSource::new(reader);
    let mut out = StdSink::new(&mut images);
    let mut err = StdSink::new(&mut messages);
    let result = run(*options, &mut source, &mut out, &mut err);
    (result == want.0) & (images.bytes.as_slice() == want.1) & (messages.bytes.as_slice() == want.2)
}

/// A reader of these bytes that is never interrupted.
fn reader_of(bytes: &[u8]) -> ByteReader<'_> {
    ByteReader {
        rest: bytes,
        interrupted: 0,
    }
}

/// Two writers that are not odd.
const EVEN: (ThirdCall, ThirdCall) = (ThirdCall::TakesOne, ThirdCall::TakesOne);

#[test]
fn readers_and_writers_of_one_byte_a_call(rt: HostRuntime) -> Result<(), Fail> {
    let alloc = rt.alloc();
    let low = options_by(alloc, &["--height", "1"])?;
    let mut runs = Tally::new();
    let want = (Ok(Status::Clean), EAN8, b"".as_slice());
    runs.add(ends_by_bytes(alloc, &low, reader_of(b"ean8 7351353\n"), EVEN, want));
    let parts = [
        (b"P1\n113 50\n".as_slice(), 1),
        (
            b"0000000000010100011010100111010111101111010001001011001101010100001010\n\
              0001010000101110100100001011001101010000000\n",
            50,
        ),
    ];
    let tall = text_of(alloc, &parts)?;
    let want = (Ok(Status::Clean), tall.as_slice(), b"".as_slice());
    let reader = reader_of(b"ean13 4006381333931\n");
    runs.add(ends_by_bytes(alloc, &Options::default(), reader, EVEN, want));
    let escapes = options_by(alloc, &["--escapes"])?;
    let want = (Ok(Status::Refused), b"".as_slice(), REFUSALS);
    runs.add(ends_by_bytes(alloc, &escapes, reader_of(REFUSED), EVEN, want));
    assert!(rt; runs.are_right);
    let compared = runs.compared;
    println!(rt; "compared {compared} runs")?;
    Ok(())
}

#[test]
fn an_interrupted_read_is_a_failure(rt: HostRuntime) {
    let reader = ByteReader {
        rest: b"pdf x\nean8 7351353\n",
        interrupted: 9,
    };
    let message = b"line 1: unknown symbology\n".as_slice();
    let want = (Err(RunFault::Read), b"".as_slice(), message);
    assert!(rt; ends_by_bytes(rt.alloc(), &Options::default(), reader, EVEN, want));
}

/// A writer that is interrupted, or takes nothing, has failed.
#[test]
fn odd_writes_are_failures(rt: HostRuntime) -> Result<(), Fail> {
    let options = Options::default();
    let mut runs = Tally::new();
    for third in [ThirdCall::IsInterrupted, ThirdCall::TakesNothing] {
        let image = (third, ThirdCall::TakesOne);
        let want = (Err(RunFault::WriteOut), b"P1".as_slice(), b"".as_slice());
        let reader = reader_of(b"ean8 7351353\n");
        runs.add(ends_by_bytes(rt.alloc(), &options, reader, image, want));
        let message = (ThirdCall::TakesOne, third);
        let want = (
            Err(RunFault::WriteMessages),
            b"".as_slice(),
            b"li".as_slice(),
        );
        let reader = reader_of(b"pdf x\n");
        runs.add(ends_by_bytes(rt.alloc(), &options, reader, message, want));
    }
    assert!(rt; runs.are_right);
    let compared = runs.compared;
    println!(rt; "compared {compared} runs")?;
    Ok(())
}

/// The run over a file that words name, or `None` if memory runs out before it.
fn run_of_file<R: Abort + Files>(
    rt: &R,
    alloc: Global,
    words: &[String],
    out: &mut MemSink<91>,
) -> Option<Result<Status, RunFault>> {
    let choice = match options_of(alloc, words) {
        Ok(choice) => choice,
        Err(WordsFault::Memory) => return None,
        Err(_) => panic!(rt; "the words are refused"),
    };
    match open_file(rt, alloc, choice.file.as_deref().unwrap_or("no file")) {
        Ok(mut source) => {
            let mut err: MemSink<1> = MemSink::new(1, 1);
            Some(run(choice.options, &mut source, out, &mut err))
        }
        Err(OpenFault::Memory) => None,
        Err(OpenFault::NoFile) => panic!(rt; "the file is not opened"),
    }
}

/// Writes a file of one label and runs over it. Returns whether memory sufficed; if not, there is no image.
fn draws_file<R: Abort + Files>(rt: &R, alloc: Global, name: &str) -> bool {
    let Ok(()) = fs::write(rt, name, "ean8 7351353\n") else {
        return false;
    };
    let Ok(words) = words_of(alloc, &["--height", "1", name]) else {
        return false;
    };
    let mut out: MemSink<91> = MemSink::new(91, 91);
    let result = run_of_file(rt, alloc, words.as_slice(), &mut out);
    let images = if result.is_some() { EAN8 } else { b"" };
    assert!(rt; (out.bytes() == images) & matches!(result, None | Some(Ok(Status::Clean))));
    result.is_some()
}

#[test]
fn a_file(rt: HostRuntime) {
    assert!(rt; draws_file(&rt, rt.alloc(), "one-label.txt"));
}

/// `scripts/refuse_each_growth.py` refuses one growth a run: then there is the label, or no memory before the run. The
/// growths of the test itself are refused too.
#[test]
fn a_file_or_no_memory(rt: HostRuntime) -> Result<(), Fail> {
    if draws_file(&rt, rt.alloc(), "label-or-no-memory.txt") {
        println!(rt; "compared the image of a file")?;
    } else {
        println!(rt; "no memory before the run")?;
    }
    Ok(())
}

#[test]
fn a_file_that_is_not_there(rt: HostRuntime) {
    assert!(rt;
        matches!(
            &open_file(&rt, rt.alloc(), "not-there.txt"),
            Err(OpenFault::NoFile)
        )
    );
    assert!(rt; (End::NoFile.status() == 3) & (End::NoFile.line() == "labels: cannot open file\n"));
}
