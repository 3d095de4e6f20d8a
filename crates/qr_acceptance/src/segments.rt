//! Mixed segments: the lists that are chosen, and their symbols.
use crate::symbols::{has_words, planned};
use acceptance::support::{Tally, compare_however_cut, options_by, ran_by, text_of};
use labelcore::{Fault, Level, Options};
use qrdata::{Mode, Segment, choose};
use std::alloc::Global;
use std::test::Fail;

/// Words of the command line and data: a front, and digits after it. Then the segments, their bits, the version, and
/// the first words of the symbol.
type Chosen = (
    &'static [&'static str],
    (&'static [u8], usize),
    &'static [Segment],
    u32,
    u8,
    &'static [u8],
);

const CHOSEN: &[Chosen] = &[
    (
        &["--level", "H"],
        (b"a123456789", 0),
        &[
            Segment {
                mode: Mode::Byte,
                len: 1,
            },
            Segment {
                mode: Mode::Numeric,
                len: 9,
            },
        ],
        64,
        1,
        &[0x40, 0x16, 0x11, 0x02, 0x47, 0xB7, 0x23, 0x15, 0x00],
    ),
    // No terminator.
    (
        &["--level", "Q"],
        (b"ab1234567890cd", 0),
        &[
            Segment {
                mode: Mode::Byte,
                len: 2,
            },
            Segment {
                mode: Mode::Numeric,
                len: 10,
            },
            Segment {
                mode: Mode::Byte,
                len: 2,
            },
        ],
        104,
        1,
        &[
            0x40, 0x26, 0x16, 0x21, 0x02, 0x87, 0xB7, 0x23, 0x15, 0x04, 0x02, 0x63, 0x64,
        ],
    ),
    // Two lists of 44 bits: the longest first segment is chosen.
    (
        &["--level", "M"],
        (b"a123", 0),
        &[Segment {
            mode: Mode::Byte,
            len: 4,
        }],
        44,
        1,
        &[],
    ),
    // Three segments would take 61 bits.
    (
        &["--level", "M"],
        (b"a12b", 0),
        &[Segment {
            mode: Mode::Byte,
            len: 4,
        }],
        44,
        1,
        &[
            0x40, 0x46, 0x13, 0x13, 0x26, 0x20, 0xEC, 0x11, 0xEC, 0x11, 0xEC, 0x11, 0xEC, 0x11,
            0xEC, 0x11,
        ],
    ),
    (
        &["--level", "L"],
        (b"a", 644),
        &[
            Segment {
                mode: Mode::Byte,
                len: 1,
            },
            Segment {
                mode: Mode::Numeric,
                len: 644,
            },
        ],
        2191,
        10,
        &[],
    ),
];

/// Compares what data gets with a row: the list, its bits, the version and the first words.
fn compare_chosen(parts: &mut Tally, options: &Options, data: &[u8], row: &Chosen) {
    let (_, _, segments, bits, version, words) = row;
    match choose(options, data) {
        Ok(plan) => {
            parts.add(plan.segments() == *segments);
            parts.add(plan.bits() == *bits);
        }
        Err(_) => parts.add(false),
    }
    match planned(options, data) {
        Some((number, _, all)) => {
            parts.add(number == *version);
            parts.add(has_words(&all, 0, words));
        }
        None => parts.add(false),
    }
}

/// The header of an image of this version, 1 or 10.
fn header_of(version: u8) -> &'static [u8] {
    if version == 1 {
        b"P1\n29 29\n"
    } else {
        b"P1\n65 65\n"
    }
}

/// Compares the image of the line of this data with this version, and with itself where the line is cut otherwise.
fn compare_drawn(
    runs: &mut Tally,
    alloc: Global,
    options: &Options,
    data: &[u8],
    version: u8,
) -> Result<(), Fail> {
    let mut line = text_of(alloc, &[(b"qr ", 1)])?;
    line.extend_from_slice(data)?;
    let ran = ran_by(options, line.as_slice(), 4096);
    let images = ran.images.bytes();
    runs.add(images.starts_with(header_of(version)));
    compare_however_cut(runs, options, line.as_slice(), images, b"");
    Ok(())
}

#[test]
fn lists_of_segments(rt: HostRuntime) -> Result<(), Fail> {
    let (mut parts, mut runs) = (Tally::new(), Tally::new());
    for row in CHOSEN {
        let options = options_by(rt.alloc(), row.0)?;
        let data = text_of(rt.alloc(), &[(row.1.0, 1), (b"1", row.1.1)])?;
        compare_chosen(&mut parts, &options, data.as_slice(), row);
        compare_drawn(&mut runs, rt.alloc(), &options, data.as_slice(), row.4)?;
    }
    assert!(rt; parts.are_right & runs.are_right);
    let (parts, runs) = (parts.compared, runs.compared);
    println!(rt; "compared {parts} parts of lists, {runs} runs")?;
    Ok(())
}

#[test]
fn one_digit_too_many(rt: HostRuntime) -> Result<(), Fail> {
    let options = options_by(rt.alloc(), &["--level", "L"])?;
    let data = text_of(rt.alloc(), &[(b"a", 1), (b"1", 645)])?;
    assert!(rt;
        matches!(
            &choose(&options, data.as_slice()),
            Err(Fault::DoesNotFit(Level::L))
        )
    );
    let line = text_of(rt.alloc(), &[(b"qr a", 1), (b"1", 645)])?;
    let message = b"line 1: data does not fit version 10-L\n";
    let mut runs = Tally::new();
    compare_however_cut(&mut runs, &options, line.as_slice(), b"", message);
    assert!(rt; runs.are_right);
    let compared = runs.compared;
    println!(rt; "compared {compared} runs")?;
    Ok(())
}
