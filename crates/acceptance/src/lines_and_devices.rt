//! Escapes, a sink that is full, and a source that fails.
ghost use Rattle.std.specs.Prelude.{◌<◌};

use crate::support::{EAN8, Row, Tally, compare_row, options_by};
use filter::{RunFault, run};
use labelcore::{MemSink, MemSource, Options};
use std::test::Fail;

const ROWS: &[Row] = &[
    Row {
        shows: "an escape is one byte of the data",
        words: &["--height", "1", "--escapes"],
        input: &[(b"ean8 73\\x35\\x31353\n", 1)],
        images: &[(EAN8, 1)],
        messages: b"",
    },
    Row {
        shows: "a backslash alone is a bad escape",
        words: &["--height", "1", "--escapes"],
        input: &[(b"ean8 \\\n", 1)],
        images: &[],
        messages: b"line 1: bad escape at byte 1\n",
    },
    Row {
        shows: "one hexadecimal digit is a bad escape",
        words: &["--height", "1", "--escapes"],
        input: &[(b"ean8 \\x4\n", 1)],
        images: &[],
        messages: b"line 1: bad escape at byte 1\n",
    },
    Row {
        shows: "two backslashes are one byte",
        words: &["--height", "1", "--escapes"],
        input: &[(b"ean8 7\\\\x\n", 1)],
        images: &[],
        messages: b"line 1: not a digit at byte 2\n",
    },
];

#[test]
fn rows(rt: HostRuntime) -> Result<(), Fail> {
    let mut runs = Tally::new();
    for row in ROWS {
        let shows = row.shows;
        compare_row(&mut runs, rt.alloc(), row)?;
        assert!(rt; runs.are_right, "{shows}");
    }
    let compared = runs.compared;
    println!(rt; "compared {compared} runs")?;
    Ok(())
}

/// Whether two labels fill a sink of 100 bytes with the first image and nine bytes of the second, in pieces of this
/// many bytes.
fn fills(options: &Options, piece: usize) -> bool
    requires { 0 < piece }
{
    let mut source = MemSource::new(b"ean8 7351353\nean8 7351353\n", piece, false);
    let mut images: MemSink<100> = MemSink::new(piece, 100);
    let mut messages: MemSink<1> = MemSink::new(piece, 1);
    let result = run(*options, &mut source, &mut images, &mut messages);
    let (first, second) = images.bytes().split_at(images.bytes().len().min(91));
    (result == Err(RunFault::WriteOut))
        & (first == EAN8)
        & (second.len() == 9)
        & EAN8.starts_with(second)
        & (images.failures() == 1)
        & messages.bytes().is_empty()
}

#[test]
fn a_full_sink(rt: HostRuntime) -> Result<(), Fail> {
    let options = options_by(rt.alloc(), &["--height", "1"])?;
    let mut pieces = Tally::new();
    pieces.add(fills(&options, 1));
    pieces.add(fills(&options, 2));
    pieces.add(fills(&options, 7));
    pieces.add(fills(&options, 4096));
    assert!(rt; pieces.are_right);
    let compared = pieces.compared;
    println!(rt; "compared {compared} pieces")?;
    Ok(())
}

/// Whether a source that fails after its bytes leaves the image of the ended line, and nothing of the open one.
fn leaves_the_ended_line(options: &Options, piece: usize) -> bool
    requires { 0 < piece }
{
    let mut source = MemSource::new(b"ean8 7351353\nqr 0", piece, true);
    let mut images: MemSink<200> = MemSink::new(piece, 200);
    let mut messages: MemSink<1> = MemSink::new(piece, 1);
    let result = run(*options, &mut source, &mut images, &mut messages);
    (result == Err(RunFault::Read)) & (images.bytes() == EAN8) & messages.bytes().is_empty()
}

#[test]
fn a_failing_source(rt: HostRuntime) -> Result<(), Fail> {
    let options = options_by(rt.alloc(), &["--height", "1"])?;
    let mut pieces = Tally::new();
    pieces.add(leaves_the_ended_line(&options, 1));
    pieces.add(leaves_the_ended_line(&options, 2));
    pieces.add(leaves_the_ended_line(&options, 7));
    pieces.add(leaves_the_ended_line(&options, 4096));
    assert!(rt; pieces.are_right);
    let compared = pieces.compared;
    println!(rt; "compared {compared} pieces")?;
    Ok(())
}
