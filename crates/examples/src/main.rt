//! Examples over the libraries: a run over a text in memory; a filter that is fed piece by piece, as by a caller who
//! does the reading; one QR symbol, shown on a dark terminal through a grid that this program defines; and a label of
//! each symbology, in each format and at two scales.
#![tactic(auto)]

mod in_memory;
mod negative;
mod pieces;
mod symbol;

use device::StdSink;
use filter::{Status, run};
use in_memory::draw_labels;
use labelcore::{Format, Level, Options};
use negative::Negative;
use picture::{Framed, write_ascii};
use pieces::draw_in_two;
use qrmatrix::QUIET_ZONE;
use std::io;
use symbol::matrix_of;
use testing::{MemSink, MemSource};

fn main(rt: HostRuntime) -> io::Result<()> {
    draw_text(&rt)?;
    feed_pieces(&rt)?;
    show_symbol(&rt)?;
    draw_each_symbology(&rt)
}

/// Draws the label of a text in memory, and prints how many bytes its picture has.
fn draw_text(rt: &HostRuntime) -> io::Result<()> {
    let mut source = MemSource::new(b"ean8 7351353\n", 4096, false);
    let mut images: MemSink<8192> = MemSink::new(8192, 8192);
    let mut messages: MemSink<64> = MemSink::new(64, 64);
    match draw_labels(Options::default(), &mut source, &mut images, &mut messages) {
        Ok(_) => println!(rt; "{} bytes of pictures from a text", images.bytes().len()),
        Err(_) => println!(rt; "a sink failed"),
    }
}

/// Draws labels from a text in two pieces, and prints how the run ended.
fn feed_pieces(rt: &HostRuntime) -> io::Result<()> {
    let Some(options) = Options::new(Format::Pbm, 1, 1, Level::M, 1, None, false) else {
        return println!(rt; "options out of range");
    };
    let mut images: MemSink<4096> = MemSink::new(4096, 4096);
    let mut messages: MemSink<1024> = MemSink::new(1024, 1024);
    // The text is cut inside the first line, as it may be between two reads.
    let result = draw_in_two(
        options,
        b"ean8 7351",
        b"353\nean8 123\n",
        &mut images,
        &mut messages,
    );
    let shown = match result {
        Ok(Status::Clean) => "every line was drawn",
        Ok(Status::Refused) => "some line was refused",
        Err(_) => "a sink failed",
    };
    println!(rt; "{shown}")?;
    println!(rt;
        "{} bytes of pictures, {} of messages",
        images.bytes().len(),
        messages.bytes().len()
    )
}

/// Draws one QR symbol, light on dark, without the filter.
fn show_symbol(rt: &HostRuntime) -> io::Result<()> {
    let Some(options) = Options::new(Format::Ascii, 1, 1, Level::M, 1, Some(2), false) else {
        return println!(rt; "options out of range");
    };
    let Ok(symbol) = matrix_of(&options, b"01234567") else {
        return println!(rt; "the data does not fit");
    };
    let picture = Negative::new(Framed::new(
        symbol, QUIET_ZONE, QUIET_ZONE, QUIET_ZONE, QUIET_ZONE,
    ));
    match write_ascii(&picture, &mut StdSink::new(rt.stdout())) {
        Ok(()) => Ok(()),
        Err(_) => println!(rt; "a write failed"),
    }
}

/// A line for each symbology.
const LABELS: &[u8] =
    b"ean13 4006381333931\nean8 7351353\nupca 03600029145\ncode128 PJJ123C\nqr 01234567\n";

/// Draws these labels in each format, at two scales.
fn draw_each_symbology(rt: &HostRuntime) -> io::Result<()> {
    for format in [Format::Pbm, Format::Ascii] {
        for scale in [1, 2] {
            draw_lines(rt, format, scale)?;
        }
    }
    Ok(())
}

/// Draws the labels one module high, or with mask 2, and prints the images.
fn draw_lines(rt: &HostRuntime, format: Format, scale: u8) -> io::Result<()> {
    let Some(options) = Options::new(format, scale, 1, Level::M, 1, Some(2), false) else {
        return println!(rt; "options out of range");
    };
    let mut source = MemSource::new(LABELS, 4096, false);
    let mut images = StdSink::new(rt.stdout());
    let mut messages: MemSink<64> = MemSink::new(64, 64);
    match run(options, &mut source, &mut images, &mut messages) {
        Ok(_) => Ok(()),
        Err(_) => println!(rt; "a sink failed"),
    }
}
