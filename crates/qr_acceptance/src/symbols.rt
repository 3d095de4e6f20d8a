//! Codewords, penalties, and whole symbols.
use acceptance::example::{EXAMPLE, PBM, picture_of};
use acceptance::support::{Tally, compare_however_cut, options_by, ran_by, text_of};
use labelcore::{Fault, Level, Options};
use qrdata::{Version, Words, choose, codewords};
use qrmatrix::Matrix;
use std::alloc::{AllocError, Global};
use std::test::Fail;

/// A front, and a byte that follows it so often: data that is mostly one byte.
type Data = (&'static [u8], &'static [u8], usize);

/// The data of a symbol: its bytes are written one after another.
fn bytes_of(alloc: Global, (front, byte, times): Data) -> Result<Vec<u8>, AllocError> {
    text_of(alloc, &[(front, 1), (byte, times)])
}

/// Words of the command line and data. Then the version, the bits of the segments, and the words of the symbol that
/// stand from a place on.
const CODEWORDS: &[(&[&str], Data, u8, u32, usize, &[u8])] = &[
    (
        &["--mask", "2"],
        (b"01234567", b"", 0),
        1,
        41,
        0,
        &[
            0x10, 0x20, 0x0C, 0x56, 0x61, 0x80, 0xEC, 0x11, 0xEC, 0x11, 0xEC, 0x11, 0xEC, 0x11,
            0xEC, 0x11, 0xA5, 0x24, 0xD4, 0xC1, 0xED, 0x36, 0xC7, 0x87, 0x2C, 0x55,
        ],
    ),
    (
        &["--level", "Q"],
        (b"HELLO WORLD", b"", 0),
        1,
        74,
        0,
        &[
            32, 91, 11, 120, 209, 114, 220, 77, 67, 64, 236, 17, 236, 168, 72, 22, 82, 217, 54,
            156, 0, 46, 15, 180, 122, 16,
        ],
    ),
    // A terminator of one bit, and no padding.
    (
        &["--level", "L"],
        (b"", b"1", 41),
        1,
        151,
        0,
        &[0x10, 0xA4, 0x6F],
    ),
    (&["--level", "L"], (b"", b"1", 41), 1, 151, 18, &[0x16]),
    (&["--level", "L"], (b"", b"1", 42), 2, 154, 0, &[]),
    // A terminator of four bits, which fills the last word.
    (
        &["--level", "L"],
        (b"", b"a", 17),
        1,
        148,
        0,
        &[
            0x41, 0x16, 0x16, 0x16, 0x16, 0x16, 0x16, 0x16, 0x16, 0x16, 0x16, 0x16, 0x16, 0x16,
            0x16, 0x16, 0x16, 0x16, 0x10,
        ],
    ),
    (
        &["--level", "L"],
        (b"", b"a", 18),
        2,
        156,
        0,
        &[
            0x41, 0x26, 0x16, 0x16, 0x16, 0x16, 0x16, 0x16, 0x16, 0x16, 0x16, 0x16, 0x16, 0x16,
            0x16, 0x16, 0x16, 0x16, 0x16, 0x10, 0xEC, 0x11, 0xEC, 0x11, 0xEC, 0x11, 0xEC, 0x11,
            0xEC, 0x11, 0xEC, 0x11, 0xEC, 0x11,
        ],
    ),
    // The most letters and the most digits.
    (&["--level", "L"], (b"", b"a", 271), 10, 2188, 0, &[]),
    (&["--level", "L"], (b"", b"1", 652), 10, 2190, 0, &[]),
    // Blocks of 15, 15, 16 and 16 words, in a version that is larger than it has to be.
    (
        &["--level", "Q", "--min-version", "5"],
        (b"", b"a", 30),
        5,
        252,
        0,
        &[0x41, 0x16, 0x16, 0xEC, 0xE6, 0x16, 0x10, 0x11],
    ),
    (
        &["--level", "Q", "--min-version", "5"],
        (b"", b"a", 30),
        5,
        252,
        56,
        &[0x16, 0x16, 0xEC, 0xEC, 0x11, 0x11],
    ),
    (&["--level", "Q"], (b"", b"a", 30), 3, 252, 0, &[]),
    (
        &["--level", "H"],
        (b"1", b"", 0),
        1,
        18,
        0,
        &[0x10, 0x04, 0x40, 0xEC, 0x11, 0xEC, 0x11, 0xEC, 0x11],
    ),
    // Four blocks in turn. The words are their own places, but for the first two, which begin with mode and count,
    // and the last, which ends with the terminator.
    (
        &["--level", "Q", "--min-version", "5"],
        (
            b"\x10\x20\x30\x40\x50\x60\x70\x80\x90\xA0\xB0\xC0\xD0\xE0\xF1\x01\x11\x21\x31\x41\x51\x61\x71\x81\
              \x91\xA1\xB1\xC1\xD1\xE1\xF2\x02\x12\x22\x32\x42\x52\x62\x72\x82\x92\xA2\xB2\xC2\xD2\xE2\xF3\x03\
              \x13\x23\x33\x43\x53\x63\x73\x83\x93\xA3\xB3\xC3",
            b"",
            0,
        ),
        5,
        492,
        0,
        &[
            0x43, 15, 30, 46, 0xC1, 16, 31, 47, 2, 17, 32, 48, 3, 18, 33, 49, 4, 19, 34, 50, 5, 20,
            35, 51, 6, 21, 36, 52, 7, 22, 37, 53, 8, 23, 38, 54, 9, 24, 39, 55, 10, 25, 40, 56, 11,
            26, 41, 57, 12, 27, 42, 58, 13, 28, 43, 59, 14, 29, 44, 60, 45, 0x30,
        ],
    ),
];

/// The codewords of data, over old ones, with their version and the bits of its segments.
pub fn planned(options: &Options, data: &[u8]) -> Option<(u8, u32, Words)> {
    match choose(options, data) {
        Ok(plan) => {
            let mut words = Words::new();
            let _ = words.try_push(7);
            codewords(&plan, data, &mut words);
            Some((plan.version().number(), plan.bits(), words))
        }
        Err(_) => None,
    }
}

/// Whether these words are there from a place on.
pub fn has_words(words: &Words, from: usize, want: &[u8]) -> bool {
    match words.as_slice().get(from..) {
        Some(rest) => rest.starts_with(want),
        None => false,
    }
}

#[test]
fn codewords_of_data(rt: HostRuntime) -> Result<(), Fail> {
    let mut parts = Tally::new();
    for (words, data, version, bits, from, want) in CODEWORDS {
        let options = options_by(rt.alloc(), words)?;
        let data = bytes_of(rt.alloc(), *data)?;
        let Some((number, sum, all)) = planned(&options, data.as_slice()) else {
            panic!(rt; "it does not fit");
        };
        parts.add(number == *version);
        parts.add(sum == *bits);
        parts.add(has_words(&all, *from, want));
    }
    assert!(rt; parts.are_right);
    let compared = parts.compared;
    println!(rt; "compared {compared} parts of rows")?;
    Ok(())
}

/// One letter and one digit more than the most.
#[test]
fn data_that_does_not_fit(rt: HostRuntime) -> Result<(), Fail> {
    let options = options_by(rt.alloc(), &["--level", "L"])?;
    let mut texts = Tally::new();
    for data in [(b"".as_slice(), b"a".as_slice(), 272), (b"", b"1", 653)] {
        let data = bytes_of(rt.alloc(), data)?;
        texts.add(matches!(
            &choose(&options, data.as_slice()),
            Err(Fault::DoesNotFit(Level::L))
        ));
    }
    assert!(rt; texts.are_right);
    let compared = texts.compared;
    println!(rt; "compared {compared} texts")?;
    Ok(())
}

/// The penalties of `01234567` at level M under each mask.
const PENALTIES: [u32; 8] = [297, 533, 397, 452, 570, 637, 419, 406];

#[test]
fn penalties_choose_the_mask(rt: HostRuntime) -> Result<(), Fail> {
    let options = options_by(rt.alloc(), &[])?;
    let Some((_, _, words)) = planned(&options, b"01234567") else {
        panic!(rt; "it does not fit");
    };
    assert!(rt; words.len() == Version::of(1).total_words());
    let mut masks = Tally::new();
    for (mask, want) in PENALTIES.iter().enumerate() {
        assert!(rt; mask < 8);
        let matrix = Matrix::draw(Version::of(1), Level::M, Some(mask as u8), &words);
        masks.add(matrix.penalty() == *want);
        masks.add(usize::from(matrix.mask()) == mask);
    }
    assert!(rt; masks.are_right);
    let matrix = Matrix::draw(Version::of(1), Level::M, None, &words);
    assert!(rt; (matrix.mask() == 0) & (matrix.penalty() == 297));
    let rows = Matrix::draw(Version::of(1), Level::M, Some(2), &words);
    let rows = rows.rows();
    assert!(rt;
        (rows[0] == 0x1FDA7F) & (rows[6] == 0x1FD57F) & (rows[20] == 0x052F7F) & (rows[21] == 0)
    );
    let compared = masks.compared;
    println!(rt; "compared {compared} penalties and masks")?;
    Ok(())
}

/// The pixels of the symbol of `HELLO WORLD` at level Q, as another program draws it.
const HELLO: &[&[u8]] = &[
    b"00000000000000000000000000000",
    b"00000000000000000000000000000",
    b"00000000000000000000000000000",
    b"00000000000000000000000000000",
    b"00001111111000010011111110000",
    b"00001000001011001010000010000",
    b"00001011101001011010111010000",
    b"00001011101011111010111010000",
    b"00001011101011010010111010000",
    b"00001000001001001010000010000",
    b"00001111111010101011111110000",
    b"00000000000011011000000000000",
    b"00000101111011001110110100000",
    b"00001011110100001111011100000",
    b"00000010101100010011000000000",
    b"00001011010001011000110000000",
    b"00001101111111101110111110000",
    b"00000000000010001001010000000",
    b"00001111111001100110011110000",
    b"00001000001010100100101110000",
    b"00001011101011010010001110000",
    b"00001011101010111000101000000",
    b"00001011101001000010000110000",
    b"00001000001011100111001100000",
    b"00001111111001010000000100000",
    b"00000000000000000000000000000",
    b"00000000000000000000000000000",
    b"00000000000000000000000000000",
    b"00000000000000000000000000000",
];

/// A text picture.
const ASCII: (&[u8], &[u8], &[u8], &[u8]) = (b"", b"  ", b"##", b"\n");

/// Words of the command line, a line, and the picture of these pixels that it gives, of so many bytes.
type Drawn = (
    &'static [&'static str],
    &'static [u8],
    &'static [&'static [u8]],
    (&'static [u8], &'static [u8], &'static [u8], &'static [u8]),
    usize,
);

const DRAWN: &[Drawn] = &[
    (&["--mask", "2"], b"qr 01234567\n", EXAMPLE, PBM, 879),
    (
        &["--mask", "2", "--format", "ascii"],
        b"qr 01234567\n",
        EXAMPLE,
        ASCII,
        1712,
    ),
    (&["--level", "Q"], b"qr HELLO WORLD\n", HELLO, PBM, 879),
];

#[test]
fn symbols_module_by_module(rt: HostRuntime) -> Result<(), Fail> {
    let mut runs = Tally::new();
    for (words, line, pixels, texts, len) in DRAWN {
        let options = options_by(rt.alloc(), words)?;
        let want = picture_of(rt.alloc(), pixels, *texts)?;
        assert!(rt; want.len() == *len);
        compare_however_cut(&mut runs, &options, line, want.as_slice(), b"");
    }
    assert!(rt; runs.are_right);
    let compared = runs.compared;
    println!(rt; "compared {compared} runs")?;
    Ok(())
}

/// Words of the command line, and the data of a line. Then how its image begins, and its length, or its message.
const SIZES: &[(&[&str], Data, &[u8], usize, &[u8])] = &[
    (&["--level", "L"], (b"", b"1", 41), b"P1\n29 29\n", 879, b""),
    (
        &["--level", "L"],
        (b"", b"1", 42),
        b"P1\n33 33\n",
        1131,
        b"",
    ),
    (&["--level", "L"], (b"", b"a", 17), b"P1\n29 29\n", 879, b""),
    (
        &["--level", "L"],
        (b"", b"a", 18),
        b"P1\n33 33\n",
        1131,
        b"",
    ),
    (
        &["--level", "L"],
        (b"", b"a", 271),
        b"P1\n65 65\n",
        4299,
        b"",
    ),
    (
        &["--level", "L"],
        (b"", b"a", 272),
        b"",
        0,
        b"line 1: data does not fit version 10-L\n",
    ),
    (
        &["--level", "L"],
        (b"", b"1", 652),
        b"P1\n65 65\n",
        4299,
        b"",
    ),
    (
        &["--level", "L"],
        (b"", b"1", 653),
        b"",
        0,
        b"line 1: data does not fit version 10-L\n",
    ),
    (
        &["--level", "Q", "--min-version", "5"],
        (b"", b"a", 30),
        b"P1\n45 45\n",
        2079,
        b"",
    ),
    (&["--level", "H"], (b"1", b"", 0), b"P1\n29 29\n", 879, b""),
];

#[test]
fn symbols_of_each_size(rt: HostRuntime) -> Result<(), Fail> {
    let (mut sizes, mut runs) = (Tally::new(), Tally::new());
    for (words, (front, byte, times), header, len, messages) in SIZES {
        let options = options_by(rt.alloc(), words)?;
        let line = text_of(
            rt.alloc(),
            &[(b"qr ", 1), (*front, 1), (*byte, *times), (b"\n", 1)],
        )?;
        let ran = ran_by(&options, line.as_slice(), 4096);
        let images = ran.images.bytes();
        sizes.add(images.starts_with(header));
        sizes.add(images.len() == *len);
        compare_however_cut(&mut runs, &options, line.as_slice(), images, messages);
    }
    assert!(rt; sizes.are_right & runs.are_right);
    let (sizes, runs) = (sizes.compared, runs.compared);
    println!(rt; "compared {sizes} headers and lengths, {runs} runs")?;
    Ok(())
}
