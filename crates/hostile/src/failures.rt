//! Sinks that are full after each byte, and devices of which each call fails.
ghost use Rattle.std.specs.Prelude.{◌≤◌};

use crate::texts::{TOO_LONG, long_lines};
use acceptance::support::{EAN8, Tally, options_by};
use filter::{RunFault, Status, run};
use labelcore::{FailAt, MemSink, MemSource, Options};
use std::test::Fail;

/// The images of two labels, one module high.
const TWO_EAN8: &[u8; 182] =
    b"P1\n81 1\n0000000101011101101111010110001001100101010100001010011101000010100010\n01010000000\n\
      P1\n81 1\n0000000101011101101111010110001001100101010100001010011101000010100010\n01010000000\n";

/// The messages of two lines.
const TWO_MESSAGES: &[u8; 52] = b"line 1: unknown symbology\nline 2: unknown symbology\n";

/// Whether a run ends so over sinks that hold at most this many bytes of images and of messages, and they hold these.
fn ends_at_limits(
    options: &Options,
    input: &[u8],
    limits: (usize, usize),
    want: Result<Status, RunFault>,
    held: (&[u8], &[u8]),
) -> bool
    requires images { limits.0 ≤ 182 }
    requires messages { limits.1 ≤ 52 }
{
    let mut source = MemSource::new(input, 4096, false);
    let mut out: MemSink<182> = MemSink::new(182, limits.0);
    let mut err: MemSink<52> = MemSink::new(52, limits.1);
    let result = run(*options, &mut source, &mut out, &mut err);
    (result == want) & (out.bytes() == held.0) & (err.bytes() == held.1)
}

#[test]
fn every_limit_of_the_images(rt: HostRuntime) -> Result<(), Fail> {
    let options = options_by(rt.alloc(), &["--height", "1"])?;
    let input = b"ean8 7351353\nean8 7351353\n";
    let fault = Err(RunFault::WriteOut);
    let mut limits = Tally::new();
    for limit in 0..182 {
        let held = (&TWO_EAN8[..limit], b"".as_slice());
        limits.add(ends_at_limits(&options, input, (limit, 0), fault, held));
        assert!(rt; limits.are_right, "limit {limit}");
    }
    let held = (TWO_EAN8.as_slice(), b"".as_slice());
    limits.add(ends_at_limits(&options, input, (182, 0), Ok(Status::Clean), held));
    assert!(rt; limits.are_right);
    let compared = limits.compared;
    println!(rt; "compared {compared} limits")?;
    Ok(())
}

#[test]
fn every_limit_of_the_messages(rt: HostRuntime) -> Result<(), Fail> {
    let options = options_by(rt.alloc(), &["--height", "1"])?;
    let input = b"pdf x\npdf x\n";
    let fault = Err(RunFault::WriteMessages);
    let mut limits = Tally::new();
    for limit in 0..52 {
        let held = (b"".as_slice(), &TWO_MESSAGES[..limit]);
        limits.add(ends_at_limits(&options, input, (0, limit), fault, held));
        assert!(rt; limits.are_right, "limit {limit}");
    }
    let held = (b"".as_slice(), TWO_MESSAGES.as_slice());
    limits.add(ends_at_limits(&options, input, (0, 52), Ok(Status::Refused), held));
    assert!(rt; limits.are_right);
    let compared = limits.compared;
    println!(rt; "compared {compared} limits")?;
    Ok(())
}

/// A run in which a call fails: which of the source, of the images and of the messages (from 1; 0 is none), and each
/// device moves one byte a call. Then the fault, the calls of each device, and how many bytes of their texts the sinks
/// hold.
#[derive(Clone, Copy)]
struct Failure {
    fails: (u64, u64, u64),
    fault: RunFault,
    calls: (u64, u64, u64),
    held: (usize, usize),
}

/// Whether a run over the lines fails so. No device is called after the failure.
fn fails_so(options: &Options, input: &[u8], failure: Failure) -> bool {
    let mut source = FailAt::new(MemSource::new(input, 1, false), failure.fails.0);
    let mut out: FailAt<MemSink<91>> = FailAt::new(MemSink::new(1, 91), failure.fails.1);
    let mut err: FailAt<MemSink<39>> = FailAt::new(MemSink::new(1, 39), failure.fails.2);
    let result = run(*options, &mut source, &mut out, &mut err);
    (result == Err(failure.fault))
        & ((source.calls(), out.calls(), err.calls()) == failure.calls)
        & (EAN8.get(..failure.held.0) == Some(out.device().bytes()))
        & (TOO_LONG.get(..failure.held.1) == Some(err.device().bytes()))
}

/// A line of 1,101 letters, a comment of 2,000 and a label: 3,116 bytes. The message is written after read 1,102, the
/// end of its line, and the image after read 3,117, which finds the end.
const READS: u64 = 3117;

const READS_BEFORE_THE_MESSAGE: u64 = 1102;

#[test]
fn each_read_fails(rt: HostRuntime) -> Result<(), Fail> {
    let options = options_by(rt.alloc(), &["--height", "1"])?;
    let lines = long_lines(rt.alloc(), 1101, 2000)?;
    let mut calls = Tally::new();
    for call in 1..=READS {
        let written = if call <= READS_BEFORE_THE_MESSAGE {
            0u8
        } else {
            39
        };
        let failure = Failure {
            fails: (call, 0, 0),
            fault: RunFault::Read,
            calls: (call, 0, u64::from(written)),
            held: (0, usize::from(written)),
        };
        calls.add(fails_so(&options, lines.as_slice(), failure));
        assert!(rt; calls.are_right, "call {call}");
    }
    let compared = calls.compared;
    println!(rt; "compared {compared} calls")?;
    Ok(())
}

/// The image has 91 bytes; the call after them is the flush, before which the messages are not flushed.
#[test]
fn each_call_of_the_images_fails(rt: HostRuntime) -> Result<(), Fail> {
    let options = options_by(rt.alloc(), &["--height", "1"])?;
    let lines = long_lines(rt.alloc(), 1101, 2000)?;
    let mut calls = Tally::new();
    for written in 0..=91u8 {
        let call = u64::from(written) + 1;
        let failure = Failure {
            fails: (0, call, 0),
            fault: RunFault::WriteOut,
            calls: (READS, call, 39),
            held: (usize::from(written), 39),
        };
        calls.add(fails_so(&options, lines.as_slice(), failure));
        assert!(rt; calls.are_right, "call {call}");
    }
    let compared = calls.compared;
    println!(rt; "compared {compared} calls")?;
    Ok(())
}

/// The message has 39 bytes; the call after them is the flush, before which the images are flushed.
#[test]
fn each_call_of_the_messages_fails(rt: HostRuntime) -> Result<(), Fail> {
    let options = options_by(rt.alloc(), &["--height", "1"])?;
    let lines = long_lines(rt.alloc(), 1101, 2000)?;
    let mut calls = Tally::new();
    for written in 0..39u8 {
        let call = u64::from(written) + 1;
        let failure = Failure {
            fails: (0, 0, call),
            fault: RunFault::WriteMessages,
            calls: (READS_BEFORE_THE_MESSAGE, 0, call),
            held: (0, usize::from(written)),
        };
        calls.add(fails_so(&options, lines.as_slice(), failure));
        assert!(rt; calls.are_right, "call {call}");
    }
    let flush = Failure {
        fails: (0, 0, 40),
        fault: RunFault::WriteMessages,
        calls: (READS, 92, 40),
        held: (91, 39),
    };
    calls.add(fails_so(&options, lines.as_slice(), flush));
    assert!(rt; calls.are_right);
    let compared = calls.compared;
    println!(rt; "compared {compared} calls")?;
    Ok(())
}
