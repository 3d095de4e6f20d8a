//! Lines of ten million letters, lines of every byte, and input that breaks off after each byte.
use crate::texts::{REFUSALS, REFUSED, TOO_LONG, long_lines};
use acceptance::support::{EAN8, Tally, options_by, ran_by, text_of};
use labelcore::Options;
use std::alloc::{AllocError, Global};
use std::test::Fail;

#[test]
fn lines_of_ten_million_letters(rt: HostRuntime) -> Result<(), Fail> {
    let options = options_by(rt.alloc(), &["--height", "1"])?;
    let lines = long_lines(rt.alloc(), 10_000_000, 10_000_000)?;
    let bytes = lines.len();
    assert!(rt; bytes == 20_000_015);
    assert!(rt; ran_by(&options, lines.as_slice(), 4096).gives(EAN8, TOO_LONG));
    println!(rt; "compared the run over {bytes} bytes")?;
    Ok(())
}

/// A line of Code 128 for each byte. Byte 10 ends its line, and an empty line follows it.
fn lines_of_each_byte(alloc: Global) -> Result<Vec<u8>, AllocError> {
    let mut lines = Vec::new(alloc);
    for byte in 0..=255u8 {
        lines.extend_from_slice(b"code128 ")?;
        lines.extend_from_slice(&[byte, b'\n'])?;
    }
    Ok(lines)
}

/// The messages of these lines.
fn messages_of_each_byte(alloc: Global) -> Result<Vec<u8>, AllocError> {
    let mut messages = text_of(alloc, &[(b"line 11: no data\n", 1)])?;
    for line in 130..258 {
        let message = format!(in alloc; "line {line}: byte 1 is not ASCII\n")?;
        messages.extend_from_slice(message.as_bytes())?;
    }
    Ok(messages)
}

#[test]
fn every_byte(rt: HostRuntime) -> Result<(), Fail> {
    let options = options_by(rt.alloc(), &["--height", "1"])?;
    let lines = lines_of_each_byte(rt.alloc())?;
    let messages = messages_of_each_byte(rt.alloc())?;
    let ran = ran_by(&options, lines.as_slice(), 4096);
    let images = ran.images.bytes();
    assert!(rt; images.len() == 9525);
    let mut drawn = Tally::new();
    for image in images.chunks(75) {
        drawn.add(image.starts_with(b"P1\n66 1\n"));
    }
    assert!(rt; drawn.are_right & ran.gives(images, messages.as_slice()));
    let (compared, refused) = (drawn.compared, line_ends(messages.as_slice()));
    println!(rt; "compared {compared} images, {refused} messages")?;
    Ok(())
}

/// How many line feeds a text has.
fn line_ends(text: &[u8]) -> usize {
    let mut count: usize = 0;
    for byte in text {
        if *byte == b'\n' {
            count = count.saturating_add(1);
        }
    }
    count
}

/// The first lines of a text, this many, or all of it.
fn first_lines(text: &[u8], count: usize) -> &[u8] {
    let mut ended: usize = 0;
    for place in 0..text.len() {
        if ended == count {
            return &text[..place];
        }
        if text[place] == b'\n' {
            ended = ended.saturating_add(1);
        }
    }
    text
}

/// Whether the lines that the front of the input ends have their messages, the open line has at most one, and all is
/// the same a byte at a time.
fn breaks_off(options: &Options, front: &[u8]) -> bool {
    let ran = ran_by(options, front, 4096);
    let (images, messages) = (ran.images.bytes(), ran.messages.bytes());
    let ended = line_ends(front);
    let lines = line_ends(messages);
    (ran.result.is_ok())
        & ran.gives(images, messages)
        & ran_by(options, front, 1).gives(images, messages)
        & (first_lines(messages, ended) == first_lines(REFUSALS, ended))
        & ((lines == ended) | (lines == ended.saturating_add(1)))
}

#[test]
fn input_that_breaks_off(rt: HostRuntime) -> Result<(), Fail> {
    // One module high, so that the open line, which may be a label of 80 letters, has room.
    let options = options_by(rt.alloc(), &["--escapes", "--height", "1"])?;
    assert!(rt; first_lines(REFUSALS, 8) == REFUSALS);
    let mut ends = Tally::new();
    for end in 0..REFUSED.len() {
        ends.add(breaks_off(&options, &REFUSED[..end]));
        assert!(rt; ends.are_right, "after byte {end}");
    }
    ends.add(breaks_off(&options, REFUSED));
    assert!(rt; ends.are_right);
    let compared = ends.compared;
    println!(rt; "compared {compared} ends")?;
    Ok(())
}
