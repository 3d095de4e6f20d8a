//! EAN-13, UPC-A and Code 128: their bars, and why data has none.
use crate::support::{Row, Tally, compare_row};
use std::test::Fail;

const ROWS: &[Row] = &[
    Row {
        shows: "the first digit of an EAN-13 picks the number sets",
        words: &[],
        input: &[(b"ean13 4006381333931\n", 1)],
        images: &[
            (b"P1\n113 50\n", 1),
            (
                b"0000000000010100011010100111010111101111010001001011001101010100001010\n\
                  0001010000101110100100001011001101010000000\n",
                50,
            ),
        ],
        messages: b"",
    },
    Row {
        shows: "twelve digits get their check digit",
        words: &[],
        input: &[(b"ean13 400638133393\n", 1)],
        images: &[
            (b"P1\n113 50\n", 1),
            (
                b"0000000000010100011010100111010111101111010001001011001101010100001010\n\
                  0001010000101110100100001011001101010000000\n",
                50,
            ),
        ],
        messages: b"",
    },
    Row {
        shows: "an EAN-13 with a wrong check digit is refused",
        words: &[],
        input: &[(b"ean13 4006381333932\n", 1)],
        images: &[],
        messages: b"line 1: check digit is 2, should be 1\n",
    },
    Row {
        shows: "a UPC-A has the bars of an EAN-13, and quiet zones of its own",
        words: &[],
        input: &[(b"upca 03600029145\n", 1)],
        images: &[
            (b"P1\n113 50\n", 1),
            (
                b"0000000001010001101011110101011110001101000110100011010101011011001110\n\
                  1001100110101110010011101101100101000000000\n",
                50,
            ),
        ],
        messages: b"",
    },
    Row {
        shows: "the EAN-13 of a UPC-A has the same bars",
        words: &[],
        input: &[(b"ean13 0036000291452\n", 1)],
        images: &[
            (b"P1\n113 50\n", 1),
            (
                b"0000000000010100011010111101010111100011010001101000110101010110110011\n\
                  1010011001101011100100111011011001010000000\n",
                50,
            ),
        ],
        messages: b"",
    },
    Row {
        shows: "the same EAN-13, one module high",
        words: &["--height", "1"],
        input: &[(b"ean13 0036000291452\n", 1)],
        images: &[
            (b"P1\n113 1\n", 1),
            (
                b"0000000000010100011010111101010111100011010001101000110101010110110011\n\
                  1010011001101011100100111011011001010000000\n",
                1,
            ),
        ],
        messages: b"",
    },
    Row {
        shows: "five digits are no UPC-A",
        words: &[],
        input: &[(b"upca 12345\n", 1)],
        images: &[],
        messages: b"line 1: wrong number of digits: 5\n",
    },
    Row {
        shows: "three digits stay in code set B",
        words: &[],
        input: &[(b"code128 PJJ123C\n", 1)],
        images: &[
            (b"P1\n132 50\n", 1),
            (
                b"0000000000110100100001110111011010110111000101101110001001110011011001\n\
                  11001011001011100100010001101110100011011000111010110000000000\n",
                50,
            ),
        ],
        messages: b"",
    },
    Row {
        shows: "two digits alone are in code set C",
        words: &[],
        input: &[(b"code128 42\n", 1)],
        images: &[
            (b"P1\n66 50\n", 1),
            (
                b"000000000011010011100101101110001000110111011000111010110000000000\n",
                50,
            ),
        ],
        messages: b"",
    },
    Row {
        shows: "an odd digit is left for code set B",
        words: &[],
        input: &[(b"code128 12345\n", 1)],
        images: &[
            (b"P1\n99 50\n", 1),
            (
                b"0000000000110100111001011001110010001011000101111011101101110010011101\n\
                  01100011000111010110000000000\n",
                50,
            ),
        ],
        messages: b"",
    },
    Row {
        shows: "six digits at the end are in code set C",
        words: &[],
        input: &[(b"code128 A123456\n", 1)],
        images: &[
            (b"P1\n110 50\n", 1),
            (
                b"0000000000110100100001010001100010111011110101100111001000101100011100\n\
                  0101101001000011011000111010110000000000\n",
                50,
            ),
        ],
        messages: b"",
    },
    Row {
        shows: "a control character between small letters is shifted",
        words: &["--escapes"],
        input: &[(b"code128 a\\x01b\n", 1)],
        images: &[
            (b"P1\n99 50\n", 1),
            (
                b"0000000000110100100001001011000011110100010100101100001001000011011011\n\
                  00110011000111010110000000000\n",
                50,
            ),
        ],
        messages: b"",
    },
    Row {
        shows: "without escapes a backslash is data",
        words: &[],
        input: &[(b"code128 a\\x01b\n", 1)],
        images: &[
            (b"P1\n121 50\n", 1),
            (
                b"0000000000110100100001001011000011101111010111100100101001110110010011\n\
                  100110100100001101000010011011000111010110000000000\n",
                50,
            ),
        ],
        messages: b"",
    },
    Row {
        shows: "one digit is in code set B",
        words: &["--height", "1"],
        input: &[(b"code128 1\n", 1)],
        images: &[
            (b"P1\n66 1\n", 1),
            (
                b"000000000011010010000100111001101100111001011000111010110000000000\n",
                1,
            ),
        ],
        messages: b"",
    },
    Row {
        shows: "each reason to refuse a line has its message",
        words: &["--escapes"],
        input: &[(
            b"ean8 73x1353\nean13 123\nqr\nqr \n qr x\ncode128 a\\q\ncode128 \xC3\xA9\ncode128 aaaaaaaaaaaaaaaaaaaaaaaaaaaaaaaaaaaaaaaaaaaaaaaaaaaaaaaaaaaaaaaaaaaaaaaaaaaaaaaaa\n",
            1,
        )],
        images: &[],
        messages: b"line 1: not a digit at byte 3\nline 2: wrong number of digits: 3\nline 3: no data\nline 4: no data\nline 5: unknown symbology\nline 6: bad escape at byte 2\nline 7: byte 1 is not ASCII\nline 8: data is longer than 80 bytes\n",
    },
];

#[test]
fn rows(rt: HostRuntime) -> Result<(), Fail> {
    let mut runs = Tally::new();
    for row in ROWS {
        let shows = row.shows;
        compare_row(&mut runs, rt.alloc(), row)?;
        assert!(rt; runs.are_right, "{shows}");
    }
    let compared = runs.compared;
    println!(rt; "compared {compared} runs")?;
    Ok(())
}
