//! Lists of segments: none costs less than the one that is chosen.
use labelcore::Options;
use qrdata::{Mode, choose};
use std::test::Fail;

/// The modes, by the digits of a number to the base 3.
const MODES: [Mode; 3] = [Mode::Numeric, Mode::Alphanumeric, Mode::Byte];

/// Whether a mode has a byte, which is `1`, `A` or `a`.
fn has_byte(mode: Mode, byte: u8) -> bool {
    match mode {
        Mode::Numeric => byte == b'1',
        Mode::Alphanumeric => byte != b'a',
        Mode::Byte => true,
    }
}

/// The bits of a segment in versions 1 to 9: its mode, its count and its bytes. Three digits are 10 bits, two left over
/// 7 and one 4; a pair of characters is 11 bits, one left over 6; a byte is 8.
fn bits_of_segment(mode: Mode, len: u32) -> u32 {
    match mode {
        Mode::Numeric => (len / 3)
            .saturating_mul(10)
            .saturating_add([0, 4, 7][(len % 3) as usize])
            .saturating_add(14),
        Mode::Alphanumeric => (len / 2)
            .saturating_mul(11)
            .saturating_add(len % 2 * 6)
            .saturating_add(13),
        Mode::Byte => len.saturating_mul(8).saturating_add(12),
    }
}

/// The bits of the list of segments that two numbers stand for. The bits of `cuts`, the lowest first, say whether a
/// segment ends after each byte, and the digits of `modes` to the base 3 are the modes. There is no such list if a mode
/// lacks one of its bytes.
fn bits_of_list(data: &[u8], cuts: u32, modes: u32) -> Option<u32> {
    let mut bits: u32 = 0;
    let mut len: u32 = 0;
    let mut cuts_left = cuts;
    let mut modes_left = modes;
    for (place, byte) in data.iter().enumerate() {
        let mode = MODES[(modes_left % 3) as usize];
        if !has_byte(mode, *byte) {
            return None;
        }
        len = len.saturating_add(1);
        if (cuts_left % 2 == 1) | (place + 1 == data.len()) {
            bits = bits.saturating_add(bits_of_segment(mode, len));
            len = 0;
            modes_left /= 3;
        }
        cuts_left /= 2;
    }
    Some(bits)
}

/// The fewest bits of all lists of segments of up to six bytes: every way to cut them, with every mode of each piece.
/// Adds how many of these lists there are.
fn fewest_bits(data: &[u8], lists: &mut u32) -> u32 {
    let mut fewest = u32::MAX;
    for cuts in 0..32 {
        for modes in 0..729 {
            if let Some(bits) = bits_of_list(data, cuts, modes) {
                fewest = fewest.min(bits);
                *lists = lists.saturating_add(1);
            }
        }
    }
    fewest
}

/// The text whose characters are the digits of a number to the base 3, of which `1`, `A` and `a` are the digits.
fn text_of_number(number: u32) -> [u8; 6] {
    let characters = [b'1', b'A', b'a'];
    let mut text = [b'1'; 6];
    let mut rest = number;
    for character in text.iter_mut() {
        *character = characters[(rest % 3) as usize];
        rest /= 3;
    }
    text
}

#[test]
fn no_list_costs_less(rt: HostRuntime) -> Result<(), Fail> {
    let options = Options::default();
    let mut compared: u32 = 0;
    let mut lists: u32 = 0;
    for (shorter, texts) in [3u32, 9, 27, 81, 243, 729].iter().enumerate() {
        for number in 0..*texts {
            let text = text_of_number(number);
            let data = &text[..shorter + 1];
            match choose(&options, data) {
                Ok(plan) => assert!(rt; plan.bits() == fewest_bits(data, &mut lists)),
                Err(_) => panic!(rt; "it does not fit"),
            }
            compared = compared.saturating_add(1);
        }
    }
    println!(rt; "compared {compared} texts, {lists} lists")?;
    Ok(())
}
