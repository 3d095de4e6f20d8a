//! Pictures at each scale, the words of the command line that are refused, and help.
use crate::support::{Row, Tally, compare_however_cut, compare_row, options_by, words_of};
use command::{End, WordsFault, options_of};
use std::alloc::{AllocError, Global};
use std::test::Fail;

const ROWS: &[Row] = &[Row {
    shows: "rows of 770 pixels are eleven whole lines, and no empty one",
    words: &["--height", "1", "--scale", "7"],
    input: &[(b"code128 A123456\n", 1)],
    images: &[(b"P1\n770 7\n", 1), (WIDE_PIXELS, 7)],
    messages: b"",
}];

/// A row of pixels of `code128 A123456` at scale 7.
const WIDE_PIXELS: &[u8] =
    b"0000000000000000000000000000000000000000000000000000000000000000000000\n\
      1111111111111100000001111111000000000000001111111000000000000000000000\n\
      0000000111111100000001111111000000000000000000000111111111111110000000\n\
      0000000000000011111110000000111111111111111111111000000011111111111111\n\
      1111111111111100000001111111000000011111111111111000000000000001111111\n\
      1111111111111100000000000000111111100000000000000000000011111110000000\n\
      1111111111111100000000000000000000011111111111111111111100000000000000\n\
      0000000111111100000001111111111111100000001111111000000000000001111111\n\
      0000000000000000000000000000111111111111110000000111111111111110000000\n\
      0000000000000011111111111111111111100000001111111000000011111111111111\n\
      0000000000000000000000000000000000000000000000000000000000000000000000\n";

#[test]
fn rows(rt: HostRuntime) -> Result<(), Fail> {
    let mut runs = Tally::new();
    for row in ROWS {
        let shows = row.shows;
        compare_row(&mut runs, rt.alloc(), row)?;
        assert!(rt; runs.are_right, "{shows}");
    }
    let compared = runs.compared;
    println!(rt; "compared {compared} runs")?;
    Ok(())
}

/// The modules of `ean8 7351353` in its quiet zone.
const MODULES: &[u8; 81] =
    b"000000010101110110111101011000100110010101010000101001110100001010001001010000000";

/// The text picture of these modules: each `scale` letters or spaces twice, `scale` lines of them, and an empty line.
fn letters_of(alloc: Global, modules: &[u8], scale: usize) -> Result<Vec<u8>, AllocError> {
    let mut text = Vec::new(alloc);
    for _ in 0..scale {
        for module in modules {
            for _ in 0..scale {
                text.extend_from_slice(if *module == b'1' { b"##" } else { b"  " })?;
            }
        }
        text.push(b'\n')?;
    }
    text.push(b'\n')?;
    Ok(text)
}

#[test]
fn text_pictures(rt: HostRuntime) -> Result<(), Fail> {
    let line = b"ean8 7351353\n";
    let mut runs = Tally::new();
    let options = options_by(rt.alloc(), &["--height", "1", "--format", "ascii"])?;
    let want = letters_of(rt.alloc(), MODULES, 1)?;
    assert!(rt; want.len() == 164);
    compare_however_cut(&mut runs, &options, line, want.as_slice(), b"");
    let words = ["--height", "1", "--scale", "8", "--format", "ascii"];
    let options = options_by(rt.alloc(), &words)?;
    let want = letters_of(rt.alloc(), MODULES, 8)?;
    assert!(rt; want.len() == 10_377);
    compare_however_cut(&mut runs, &options, line, want.as_slice(), b"");
    assert!(rt; runs.are_right);
    let compared = runs.compared;
    println!(rt; "compared {compared} runs")?;
    Ok(())
}

/// Words that are refused, so that nothing is read.
const BAD: &[&[&str]] = &[
    &["--scale", "9"],
    &["--level", "l"],
    &["--level", "Q", "--level", "M"],
    &["--height"],
    &["--mask", "8"],
    &["one.txt", "two.txt"],
];

#[test]
fn bad_words(rt: HostRuntime) -> Result<(), Fail> {
    let mut lists = Tally::new();
    for texts in BAD {
        let words = words_of(rt.alloc(), texts)?;
        lists.add(matches!(
            &options_of(rt.alloc(), words.as_slice()),
            Err(WordsFault::Bad)
        ));
    }
    assert!(rt; lists.are_right);
    assert!(rt; (End::BadWords.status() == 2) & (End::BadWords.line() == "labels: bad words\n"));
    let compared = lists.compared;
    println!(rt; "compared {compared} lists of words")?;
    Ok(())
}

#[test]
fn help(rt: HostRuntime) -> Result<(), Fail> {
    let mut texts = Tally::new();
    for word in ["--help", "-h"] {
        let words = words_of(rt.alloc(), &[word])?;
        match options_of(rt.alloc(), words.as_slice()) {
            Err(WordsFault::Help(text)) => texts.add(text.as_str().contains("--min-version")),
            _ => panic!(rt; "no help"),
        }
    }
    assert!(rt; texts.are_right);
    assert!(rt; (End::Helped.status() == 0) & End::Helped.line().is_empty());
    let compared = texts.compared;
    println!(rt; "compared {compared} texts")?;
    Ok(())
}

#[test]
fn a_file_is_chosen_by_its_name(rt: HostRuntime) -> Result<(), Fail> {
    let words = words_of(rt.alloc(), &["--height", "1", "-"])?;
    match options_of(rt.alloc(), words.as_slice()) {
        Ok(choice) => assert!(rt; choice.file.as_deref() == Some("-")),
        Err(_) => panic!(rt; "refused"),
    }
    Ok(())
}
