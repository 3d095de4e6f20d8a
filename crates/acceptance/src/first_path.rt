//! EAN-8 lines become plain PBM images, other lines messages, and the result of a run a status.
use crate::support::{EAN8, Row, Tally, compare_row, options_by};
use command::End;
use filter::{RunFault, Status, run};
use labelcore::{Options, StdSink, StdSource};
use std::alloc::Global;
use std::test::Fail;

const ROWS: &[Row] = &[
    Row {
        shows: "seven digits get their check digit",
        words: &["--height", "1"],
        input: &[(b"ean8 7351353\n", 1)],
        images: &[(EAN8, 1)],
        messages: b"",
    },
    Row {
        shows: "eight digits may end in the right check digit",
        words: &["--height", "1"],
        input: &[(b"ean8 73513537\n", 1)],
        images: &[(EAN8, 1)],
        messages: b"",
    },
    Row {
        shows: "a wrong check digit is told with the right one",
        words: &["--height", "1"],
        input: &[(b"ean8 73513530\n", 1)],
        images: &[],
        messages: b"line 1: check digit is 0, should be 7\n",
    },
    Row {
        shows: "a name alone has no data",
        words: &["--height", "1"],
        input: &[(b"ean8\n", 1)],
        images: &[],
        messages: b"line 1: no data\n",
    },
    Row {
        shows: "no input gives nothing",
        words: &[],
        input: &[],
        images: &[],
        messages: b"",
    },
    Row {
        shows: "comments and empty lines are skipped, and counted",
        words: &[],
        input: &[(b"#\n\npdf x\n", 1)],
        images: &[],
        messages: b"line 3: unknown symbology\n",
    },
    Row {
        shows: "a long line is refused, a long comment skipped, a line without its end drawn",
        words: &["--height", "1"],
        input: &[
            (b"a", 1101),
            (b"\n#", 1),
            (b"a", 2000),
            (b"\nean8 7351353", 1),
        ],
        images: &[(EAN8, 1)],
        messages: b"line 1: line is longer than 1100 bytes\n",
    },
    Row {
        shows: "a line of 1,100 bytes is not too long",
        words: &["--height", "1"],
        input: &[(b"a", 1100), (b"\n", 1)],
        images: &[],
        messages: b"line 1: unknown symbology\n",
    },
    Row {
        shows: "a carriage return is data",
        words: &[],
        input: &[(b"ean8 7351353\r\n", 1)],
        images: &[],
        messages: b"line 1: not a digit at byte 8\n",
    },
];

#[test]
fn rows(rt: HostRuntime) -> Result<(), Fail> {
    let mut runs = Tally::new();
    for row in ROWS {
        let shows = row.shows;
        compare_row(&mut runs, rt.alloc(), row)?;
        assert!(rt; runs.are_right, "{shows}");
    }
    let compared = runs.compared;
    println!(rt; "compared {compared} runs")?;
    Ok(())
}

/// A run between a reader and two writers of std, over an image and a message.
fn is_the_same_by_std(alloc: Global, options: &Options) -> bool {
    let mut images = Vec::new(alloc);
    let mut messages = Vec::new(alloc);
    let mut source = StdSource::new(b"ean8 7351353\n#\npdf x".as_slice());
    let mut out = StdSink::new(&mut images);
    let mut err = StdSink::new(&mut messages);
    let result = run(*options, &mut source, &mut out, &mut err);
    (result == Ok(Status::Refused))
        & (images.as_slice() == EAN8)
        & (messages.as_slice() == b"line 3: unknown symbology\n".as_slice())
}

#[test]
fn readers_and_writers_of_std(rt: HostRuntime) -> Result<(), Fail> {
    let options = options_by(rt.alloc(), &["--height", "1"])?;
    assert!(rt; is_the_same_by_std(rt.alloc(), &options));
    Ok(())
}

/// How the program may end, its status, and its own line on standard error.
const ENDS: &[(End, u8, &str)] = &[
    (End::Ran(Ok(Status::Clean)), 0, ""),
    (End::Ran(Ok(Status::Refused)), 1, ""),
    (End::Ran(Err(RunFault::Read)), 3, "labels: read failed\n"),
    (
        End::Ran(Err(RunFault::WriteOut)),
        3,
        "labels: write failed\n",
    ),
    (
        End::Ran(Err(RunFault::WriteMessages)),
        3,
        "labels: write failed\n",
    ),
    (End::Helped, 0, ""),
    (End::BadWords, 2, "labels: bad words\n"),
    (End::NoFile, 3, "labels: cannot open file\n"),
    (End::NoMemory, 3, "labels: no memory\n"),
];

#[test]
fn ends(rt: HostRuntime) -> Result<(), Fail> {
    let mut ends = Tally::new();
    for (end, status, line) in ENDS {
        ends.add((end.status() == *status) & (end.line() == *line));
    }
    assert!(rt; ends.are_right);
    let compared = ends.compared;
    println!(rt; "compared {compared} ends")?;
    Ok(())
}
