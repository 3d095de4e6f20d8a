//! A filter that is fed piece by piece: a line is finished by its end, and nothing is written before.
use crate::example::{EXAMPLE, PBM, picture_of};
use crate::support::{EAN8, Tally, options_by};
use filter::{Filter, RunFault, Status, run};
use labelcore::{FailAt, MemSink, MemSource, Options};
use std::test::Fail;

/// Pieces of the input and the images after each; then the messages after the end, and the status.
type Fed = (
    &'static [(&'static [u8], &'static [u8])],
    &'static [u8],
    Status,
);

const FED: &[Fed] = &[
    // Seven bytes are held, then two.
    (
        &[(b"ean8 73", b""), (b"51353\nqr", EAN8)],
        b"line 2: no data\n",
        Status::Refused,
    ),
    // No byte, eleven pieces of one byte, and the last digit and the line's end.
    (
        &[
            (b"", b""),
            (b"e", b""),
            (b"a", b""),
            (b"n", b""),
            (b"8", b""),
            (b" ", b""),
            (b"7", b""),
            (b"3", b""),
            (b"5", b""),
            (b"1", b""),
            (b"3", b""),
            (b"5", b""),
            (b"3", b""),
            (b"\n", EAN8),
        ],
        b"",
        Status::Clean,
    ),
];

/// Compares the images after each piece, and after the end the messages and the status too.
fn compare_fed(calls: &mut Tally, (pieces, messages, status): &Fed, options: &Options) {
    let mut filter = Filter::new(*options);
    let mut out: MemSink<91> = MemSink::new(91, 91);
    let mut err: MemSink<91> = MemSink::new(91, 91);
    for (piece, images) in *pieces {
        let result = filter.feed(piece, &mut out, &mut err);
        calls.add(result.is_ok() & (out.bytes() == *images) & err.bytes().is_empty());
    }
    let result = filter.finish(&mut out, &mut err);
    calls.add((result == Ok(*status)) & (out.bytes() == EAN8) & (err.bytes() == *messages));
}

#[test]
fn an_image_comes_with_the_end_of_its_line(rt: HostRuntime) -> Result<(), Fail> {
    let options = options_by(rt.alloc(), &["--height", "1"])?;
    let mut calls = Tally::new();
    for fed in FED {
        compare_fed(&mut calls, fed, &options);
    }
    assert!(rt; calls.are_right);
    let compared = calls.compared;
    println!(rt; "compared {compared} calls")?;
    Ok(())
}

/// Two lines of a symbol each, of which a sink of 1,000 bytes takes the first and 121 bytes of the second.
const TWO_SYMBOLS: &[u8] = b"qr 01234567\nqr 01234567\n";

/// Whether a sink of 1,000 bytes holds this image, and the beginning of it once more.
fn is_cut_off(held: &[u8], image: &[u8]) -> bool {
    (image.len() == 879)
        & (held.len() == 1000)
        & held.starts_with(image)
        & held
            .get(879..)
            .is_some_and(|second| image.starts_with(second))
}

/// Whether a run stops in the second image.
fn run_stops(options: &Options, image: &[u8]) -> bool {
    let mut source = MemSource::new(TWO_SYMBOLS, 4096, false);
    let mut out: MemSink<1000> = MemSink::new(1000, 1000);
    let mut err: MemSink<1> = MemSink::new(1, 1);
    let result = run(*options, &mut source, &mut out, &mut err);
    (result == Err(RunFault::WriteOut)) & is_cut_off(out.bytes(), image) & (out.failures() == 1)
}

/// Whether a filter stops in the second image, and calls no sink then. What it answers is compared.
fn filter_is_spent(answers: &mut Tally, options: &Options, image: &[u8]) -> bool {
    let mut filter = Filter::new(*options);
    let mut out: FailAt<MemSink<1000>> = FailAt::new(MemSink::new(1000, 1000), 0);
    let mut err: FailAt<MemSink<1>> = FailAt::new(MemSink::new(1, 1), 0);
    answers.add(filter.feed(TWO_SYMBOLS, &mut out, &mut err) == Err(RunFault::WriteOut));
    let calls = (out.calls(), err.calls());
    for piece in [b"".as_slice(), b"#\n", b"ean8 7351353\n"] {
        answers.add(filter.feed(piece, &mut out, &mut err) == Err(RunFault::Spent));
    }
    answers.add(filter.finish(&mut out, &mut err) == Err(RunFault::Spent));
    answers.are_right
        & ((out.calls(), err.calls()) == calls)
        & is_cut_off(out.device().bytes(), image)
        & (out.device().failures() == 1)
        & (err.device().failures() == 0)
}

#[test]
fn a_filter_is_spent_after_a_failed_write(rt: HostRuntime) -> Result<(), Fail> {
    let options = options_by(rt.alloc(), &["--mask", "2"])?;
    let image = picture_of(rt.alloc(), EXAMPLE, PBM)?;
    assert!(rt; run_stops(&options, image.as_slice()));
    let mut answers = Tally::new();
    assert!(rt; filter_is_spent(&mut answers, &options, image.as_slice()));
    let compared = answers.compared;
    println!(rt; "compared {compared} answers")?;
    Ok(())
}
