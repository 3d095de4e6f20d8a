//! Products and parity, format and version words, and symbols of each version, level and mask, which are compared with
//! their plain form.
ghost use Rattle.std.specs.Prelude.{◌≡◌, length};
ghost use Rattle.qrdata.specs.Versions.{total_codewords};

use crate::plain::{Square, format_word, modules_under, penalty, version_word};
use gf256::{Generator, mul, pow_alpha};
use labelcore::Level;
use qrdata::{Version, Words};
use qrmatrix::Matrix;
use std::test::Fail;

#[test]
fn products_and_powers(rt: HostRuntime) -> Result<(), Fail> {
    let mut compared: u32 = 0;
    for x in 0u8..=255 {
        assert!(rt; mul(0, x) == 0);
        compared = compared.saturating_add(1);
    }
    assert!(rt;
        (mul(2, 128) == 29) & (pow_alpha(8) == 29) & (pow_alpha(255) == 1) & (pow_alpha(256) == 2)
    );
    println!(rt; "compared {compared} products with 0")?;
    Ok(())
}

/// Words, and their parity: one word with 7 and with 10, and the data words of two symbols.
const PARITIES: &[(&[u8], &[u8])] = &[
    (&[1], &[127, 122, 154, 164, 11, 68, 117]),
    (&[1], &[216, 194, 159, 111, 199, 94, 95, 113, 157, 193]),
    (
        &[
            0x10, 0x20, 0x0C, 0x56, 0x61, 0x80, 0xEC, 0x11, 0xEC, 0x11, 0xEC, 0x11, 0xEC, 0x11,
            0xEC, 0x11,
        ],
        &[0xA5, 0x24, 0xD4, 0xC1, 0xED, 0x36, 0xC7, 0x87, 0x2C, 0x55],
    ),
    (
        &[32, 91, 11, 120, 209, 114, 220, 77, 67, 64, 236, 17, 236],
        &[168, 72, 22, 82, 217, 54, 156, 0, 46, 15, 180, 122, 16],
    ),
];

/// Whether words have this parity, which is 1 to 30 words.
fn has_parity(words: &[u8], want: &[u8]) -> bool {
    let count = want.len();
    if (count == 0) | (count > 30) {
        return false;
    }
    let mut parity = [9; 30];
    Generator::new(count).parity(words, &mut parity[..count]);
    &parity[..count] == want
}

#[test]
fn parities(rt: HostRuntime) -> Result<(), Fail> {
    let mut compared: u32 = 0;
    for (words, want) in PARITIES {
        assert!(rt; has_parity(words, want));
        compared = compared.saturating_add(1);
    }
    let zeros = [0; 40];
    for count in 1..31 {
        assert!(rt; has_parity(&[], &zeros[..count]));
        assert!(rt; has_parity(&zeros, &zeros[..count]));
        compared = compared.saturating_add(2);
    }
    println!(rt; "compared {compared} parities")?;
    Ok(())
}

/// Format words of some levels and masks, and the version words.
#[test]
fn format_and_version_words(rt: HostRuntime) {
    assert!(rt;
        (format_word(Level::L, 0) == 0x77C4)
            & (format_word(Level::M, 0) == 0x5412)
            & (format_word(Level::M, 2) == 0x5E7C)
            & (format_word(Level::Q, 0) == 0x355F)
            & (format_word(Level::H, 0) == 0x1689)
    );
    assert!(rt;
        (version_word(Version::of(7)) == 0x07C94)
            & (version_word(Version::of(8)) == 0x085BC)
            & (version_word(Version::of(9)) == 0x09A99)
            & (version_word(Version::of(10)) == 0x0A4D3)
    );
}

/// What the words of a symbol are made of.
#[derive(Clone, Copy)]
enum Filling {
    /// All bits are 0.
    Zeros,
    /// All bits are 1.
    Ones,
    /// Each word is the low byte of its place.
    Places,
}

impl Filling {
    /// So many words with this filling.
    fn words(self, count: usize) -> Words {
        let mut words = Words::new();
        for i in 0..count {
            let _ = words.try_push(match self {
                Filling::Zeros => 0,
                Filling::Ones => 255,
                Filling::Places => (i % 256) as u8,
            });
        }
        words
    }
}

/// How many symbols were compared with those of the plain form, how many modules are the same, and whether all are.
#[derive(Clone, Copy)]
struct Compared {
    symbols: u32,
    modules: u32,
    are_same: bool,
}

impl Compared {
    /// Compares a symbol with its mask, its penalty and its modules in the plain form.
    fn add(&mut self, matrix: &Matrix, mask: u8, points: u64, plain: &Square) {
        self.symbols = self.symbols.saturating_add(1);
        self.are_same &= (matrix.mask() == mask) & (u64::from(matrix.penalty()) == points);
        for y in 0..matrix.side() {
            for x in 0..matrix.side() {
                let is_same = matrix.dark(x, y) == plain.get(x, y);
                self.modules = self.modules.saturating_add(u32::from(is_same));
                self.are_same &= is_same;
            }
        }
    }
}

/// Compares the symbols of these words with those of the plain form: under each mask, and under the first mask of the
/// lowest penalty where none is given.
fn compare(compared: &mut Compared, version: Version, level: Level, words: &Words)
    requires { length words.now.items ≡ total_codewords version }
{
    let chosen = Matrix::draw(version, level, None, words);
    let mut best = 0;
    let mut lowest = u64::MAX;
    compared.are_same &= chosen.side() == version.side();
    for mask in 0..8u8 {
        let plain = modules_under(version, level, mask, words);
        let points = penalty(&plain, version.side());
        let matrix = Matrix::draw(version, level, Some(mask), words);
        compared.add(&matrix, mask, points, &plain);
        if points < lowest {
            lowest = points;
            best = mask;
        }
        if chosen.mask() == mask {
            compared.add(&chosen, mask, points, &plain);
        }
    }
    compared.are_same &= chosen.mask() == best;
}

#[test]
fn every_symbol_is_that_of_the_plain_form(rt: HostRuntime) -> Result<(), Fail> {
    let mut compared = Compared {
        symbols: 0,
        modules: 0,
        are_same: true,
    };
    for number in 1..11u8 {
        let version = Version::of(number);
        for level in [Level::L, Level::M, Level::Q, Level::H] {
            for filling in [Filling::Zeros, Filling::Ones, Filling::Places] {
                let words = filling.words(version.total_words());
                assert!(rt; words.len() == version.total_words());
                compare(&mut compared, version, level, &words);
                assert!(rt; compared.are_same, "version {number}");
            }
        }
    }
    let Compared {
        symbols,
        modules,
        ..
    } = compared;
    println!(rt; "compared {symbols} symbols, {modules} modules")?;
    Ok(())
}
