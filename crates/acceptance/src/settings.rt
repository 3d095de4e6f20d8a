//! Settings in the head of a line: they hold for that line alone.
use crate::example::{EXAMPLE, PBM, picture_of};
use crate::support::{EAN8, EAN8_PIXELS, Row, Tally, compare_however_cut, compare_row, options_by};
use std::test::Fail;

const ROWS: &[Row] = &[
    Row {
        shows: "a line sets its height",
        words: &["--height", "1"],
        input: &[(b"ean8,height=2 7351353\n", 1)],
        images: &[(b"P1\n81 2\n", 1), (EAN8_PIXELS, 2)],
        messages: b"",
    },
    Row {
        shows: "of a key given twice the last value counts, with its zeros",
        words: &["--height", "1"],
        input: &[(b"ean8,height=500,height=002 7351353\n", 1)],
        images: &[(b"P1\n81 2\n", 1), (EAN8_PIXELS, 2)],
        messages: b"",
    },
    Row {
        shows: "the next line has the options of the run again",
        words: &["--height", "1"],
        input: &[(b"ean8,height=2 7351353\nean8 7351353\n", 1)],
        images: &[(b"P1\n81 2\n", 1), (EAN8_PIXELS, 2), (EAN8, 1)],
        messages: b"",
    },
    Row {
        shows: "a QR code has no height",
        words: &["--height", "1"],
        input: &[(b"qr,height=3 1\n", 1)],
        images: &[],
        messages: b"line 1: unknown setting 1\n",
    },
    Row {
        shows: "an empty setting is unknown",
        words: &["--height", "1"],
        input: &[(b"ean8, 7351353\n", 1)],
        images: &[],
        messages: b"line 1: unknown setting 1\n",
    },
    Row {
        shows: "a height of 0 is a bad value, and told before the data",
        words: &["--height", "1"],
        input: &[(b"ean8,height=0 1\n", 1)],
        images: &[],
        messages: b"line 1: bad value in setting 1\n",
    },
    Row {
        shows: "a bad value is told before the missing data",
        words: &["--height", "1"],
        input: &[(b"qr,level=H,mask=8\n", 1)],
        images: &[],
        messages: b"line 1: bad value in setting 2\n",
    },
    Row {
        shows: "the first bad setting from the left is told",
        words: &["--height", "1"],
        input: &[(b"qr,mask=3,level=h,size=2 x\n", 1)],
        images: &[],
        messages: b"line 1: bad value in setting 2\n",
    },
    Row {
        shows: "good settings make no data",
        words: &["--height", "1"],
        input: &[(b"qr,level=H\n", 1)],
        images: &[],
        messages: b"line 1: no data\n",
    },
    Row {
        shows: "an unknown symbology is told before its settings",
        words: &["--height", "1"],
        input: &[(b"pdf,height=9 x\n", 1)],
        images: &[],
        messages: b"line 1: unknown symbology\n",
    },
];

#[test]
fn rows(rt: HostRuntime) -> Result<(), Fail> {
    let mut runs = Tally::new();
    for row in ROWS {
        let shows = row.shows;
        compare_row(&mut runs, rt.alloc(), row)?;
        assert!(rt; runs.are_right, "{shows}");
    }
    let compared = runs.compared;
    println!(rt; "compared {compared} runs")?;
    Ok(())
}

/// A line sets its level and its mask, whatever those of the run are.
#[test]
fn a_line_sets_level_and_mask(rt: HostRuntime) -> Result<(), Fail> {
    let want = picture_of(rt.alloc(), EXAMPLE, PBM)?;
    assert!(rt; want.len() == 879);
    let mut runs = Tally::new();
    for level in ["M", "H"] {
        let options = options_by(rt.alloc(), &["--height", "1", "--level", level])?;
        let line = b"qr,level=M,mask=2 01234567\n";
        compare_however_cut(&mut runs, &options, line, want.as_slice(), b"");
    }
    assert!(rt; runs.are_right);
    let compared = runs.compared;
    println!(rt; "compared {compared} runs")?;
    Ok(())
}
