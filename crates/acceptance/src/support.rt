//! What the tests share: rows of tables, and runs over devices in memory.
ghost use Rattle.std.specs.Prelude.{◌<◌};

use command::{End, options_of};
use filter::{Filter, RunFault, Status, run};
use labelcore::{MemSink, MemSource, Options};
use std::alloc::{AllocError, Global};
use std::test::Fail;

/// A text, and how often it stands there.
pub type Part = (&'static [u8], usize);

/// A worked label, or several.
#[derive(Clone, Copy)]
pub struct Row {
    /// What the row shows.
    pub shows: &'static str,
    /// The words of the command line.
    pub words: &'static [&'static str],
    /// The input, part by part.
    pub input: &'static [Part],
    /// The images, part by part.
    pub images: &'static [Part],
    /// The messages. The status is 1 if there are any, and else 0.
    pub messages: &'static [u8],
}

/// The most bytes that a sink in memory takes: more than any image of these tests has.
pub const ROOM: usize = 12_000;

/// What a run gives.
#[derive(Drop)]
pub struct Ran {
    pub result: Result<Status, RunFault>,
    pub images: MemSink<ROOM>,
    pub messages: MemSink<ROOM>,
}

impl Ran {
    /// Whether a run over a whole input gives this: the images, the messages, and the status with no line of its own.
    pub fn gives(&self, images: &[u8], messages: &[u8]) -> bool {
        let end = End::Ran(self.result);
        (self.images.bytes() == images)
            & (self.messages.bytes() == messages)
            & (end.status() == u8::from(!messages.is_empty()))
            & end.line().is_empty()
    }
}

/// Reads the input and writes what comes of it, `piece` bytes a call.
pub fn ran_by(options: &Options, input: &[u8], piece: usize) -> Ran
    requires { 0 < piece }
{
    let mut source = MemSource::new(input, piece, false);
    let mut images = MemSink::new(piece, ROOM);
    let mut messages = MemSink::new(piece, ROOM);
    let result = run(*options, &mut source, &mut images, &mut messages);
    Ran {
        result,
        images,
        messages,
    }
}

/// Feeds a filter two pieces, and ends its input.
pub fn fed(options: &Options, first: &[u8], second: &[u8]) -> Ran {
    let mut images = MemSink::new(ROOM, ROOM);
    let mut messages = MemSink::new(ROOM, ROOM);
    let result = fed_to(options, first, second, &mut images, &mut messages);
    Ran {
        result,
        images,
        messages,
    }
}

/// Feeds a filter two pieces, and ends its input.
fn fed_to(
    options: &Options,
    first: &[u8],
    second: &[u8],
    images: &mut MemSink<ROOM>,
    messages: &mut MemSink<ROOM>,
) -> Result<Status, RunFault> {
    let mut filter = Filter::new(*options);
    filter.feed(first, images, messages)?;
    filter.feed(second, images, messages)?;
    filter.finish(images, messages)
}

/// How many comparisons of a test were as they have to be, and whether all were.
#[derive(Clone, Copy)]
pub struct Tally {
    pub compared: u64,
    pub are_right: bool,
}

impl Tally {
    /// No comparison yet.
    pub fn new() -> Tally {
        Tally {
            compared: 0,
            are_right: true,
        }
    }

    /// Adds a comparison.
    pub fn add(&mut self, is_right: bool) {
        self.compared = self.compared.saturating_add(u64::from(is_right));
        self.are_right &= is_right;
    }
}

/// Compares the images and messages of runs by these options, however the input comes: in pieces of 1, 2, 7 and 4,096
/// bytes, and cut in two at each place.
pub fn compare_however_cut(
    runs: &mut Tally,
    options: &Options,
    input: &[u8],
    images: &[u8],
    messages: &[u8],
) {
    runs.add(ran_by(options, input, 1).gives(images, messages));
    runs.add(ran_by(options, input, 2).gives(images, messages));
    runs.add(ran_by(options, input, 7).gives(images, messages));
    runs.add(ran_by(options, input, 4096).gives(images, messages));
    for place in 0..=input.len() {
        let (first, second) = input.split_at(place);
        runs.add(fed(options, first, second).gives(images, messages));
    }
}

/// Words that were to be accepted.
#[derive(Debug, Drop)]
pub struct Refused;

/// The options that the words of a command line ask for.
pub fn options_by(alloc: Global, words: &[&str]) -> Result<Options, Fail> {
    let words = words_of(alloc, words)?;
    match options_of(alloc, words.as_slice()) {
        Ok(choice) => Ok(choice.options),
        Err(_) => Err(Fail::from(Refused)),
    }
}

/// The words of a command line.
pub fn words_of(alloc: Global, texts: &[&str]) -> Result<Vec<String>, AllocError> {
    let mut words = Vec::new(alloc);
    for text in texts {
        words.push(String::from_str(alloc, text)?)?;
    }
    Ok(words)
}

/// The parts, one after another.
pub fn text_of(alloc: Global, parts: &[Part]) -> Result<Vec<u8>, AllocError> {
    let mut text = Vec::new(alloc);
    for (part, times) in parts {
        for _ in 0..*times {
            text.extend_from_slice(part)?;
        }
    }
    Ok(text)
}

/// Compares the runs of a row with what it says.
pub fn compare_row(runs: &mut Tally, alloc: Global, row: &Row) -> Result<(), Fail> {
    let options = options_by(alloc, row.words)?;
    let input = text_of(alloc, row.input)?;
    let images = text_of(alloc, row.images)?;
    compare_however_cut(
        runs,
        &options,
        input.as_slice(),
        images.as_slice(),
        row.messages,
    );
    Ok(())
}

/// The image of `ean8 7351353`, one module high.
pub const EAN8: &[u8] =
    b"P1\n81 1\n0000000101011101101111010110001001100101010100001010011101000010100010\n01010000000\n";

/// A row of pixels of it.
pub const EAN8_PIXELS: &[u8] =
    b"0000000101011101101111010110001001100101010100001010011101000010100010\n01010000000\n";
