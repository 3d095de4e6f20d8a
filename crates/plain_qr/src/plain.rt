//! The plain form of a symbol: 57 by 57 truth values, the codewords placed by a cursor, a mask laid on module by module,
//! and the penalty counted module by module. Words of format and version are computed by division.
ghost use Rattle.std.specs.Prelude.{◌<◌, ◌≤◌, IfSome};
ghost use Rattle.qrdata.specs.Versions.{side_of};

use labelcore::Level;
use qrdata::{Version, Words};

/// A truth value for each column and row, row by row.
#[derive(Drop)]
pub struct Square {
    values: [bool; 3249],
}

impl Square {
    /// All false.
    fn new() -> Square {
        Square {
            values: [false; 3249],
        }
    }

    /// The value at column `x` and row `y`.
    pub fn get(&self, x: usize, y: usize) -> bool
        requires column { x < 57 }
        requires row { y < 57 }
    {
        self.values[57 * y + x]
    }

    /// Writes one value.
    fn set(&mut self, x: usize, y: usize, value: bool)
        requires column { x < 57 }
        requires row { y < 57 }
    {
        self.values[57 * y + x] = value;
    }
}

/// The modules of the symbol under a mask.
pub fn modules_under(version: Version, level: Level, mask: u8, words: &Words) -> Square
    requires { mask < 8 }
{
    let n = version.side();
    let format = format_word(level, mask);
    let mut modules = Square::new();
    let mut function = Square::new();
    for y in 0..n {
        for x in 0..n {
            if let Some(dark) = fixed(version, format, x, y) {
                function.set(x, y, true);
                modules.set(x, y, dark);
            }
        }
    }
    place(n, words, &function, &mut modules);
    for y in 0..n {
        for x in 0..n {
            if !function.get(x, y) & is_flipped(mask, y, x) {
                let dark = modules.get(x, y);
                modules.set(x, y, !dark);
            }
        }
    }
    modules
}

/// Places the words on the free modules. A cursor goes along strips of two columns from the right, the first upwards,
/// then down and up in turn, the right module of each row first; column 6 is passed over.
fn place(n: usize, words: &Words, function: &Square, modules: &mut Square)
    requires least { 21 ≤ n }
    requires most { n ≤ 57 }
{
    let mut placed = 0;
    for strip in 0..(n - 1) / 2 {
        let right = if strip < (n - 7) / 2 {
            n - 1 - 2 * strip
        } else {
            n - 2 - 2 * strip
        };
        for step in 0..2 * n {
            let x = right - step % 2;
            let y = if strip % 2 == 0 {
                n - 1 - step / 2
            } else {
                step / 2
            };
            if !function.get(x, y) {
                modules.set(x, y, bit_of(words, placed));
                placed = placed.saturating_add(1);
            }
        }
    }
}

/// Bit `i` of the words, the high bit of each first, and light past their end.
fn bit_of(words: &Words, i: usize) -> bool {
    match words.get(i / 8) {
        Some(word) => (*word >> (7 - i % 8)) & 1 == 1,
        None => false,
    }
}

/// Whether a mask flips the free module at row `i` and column `j`.
fn is_flipped(mask: u8, i: usize, j: usize) -> bool
    requires row { i < 57 }
    requires column { j < 57 }
{
    let value = match mask {
        0 => (i + j) % 2,
        1 => i % 2,
        2 => j % 3,
        3 => (i + j) % 3,
        4 => (i / 2 + j / 3) % 2,
        5 => (i * j) % 2 + (i * j) % 3,
        6 => ((i * j) % 2 + (i * j) % 3) % 2,
        _ => ((i + j) % 2 + (i * j) % 3) % 2,
    };
    value == 0
}

/// What division of one polynomial over two elements by another leaves. `highest` is the place of the highest term of
/// the divisor, and the dividend has at most five places more.
fn remainder(dividend: u32, divisor: u32, highest: u32) -> u32
    requires { highest ≤ 12 }
{
    let mut rest = dividend;
    for shift in [5u32, 4, 3, 2, 1, 0] {
        if (rest >> (highest.min(12) + shift.min(5))) & 1 == 1 {
            rest ^= divisor << shift.min(5);
        }
    }
    rest
}

/// The format word of a level and a mask: five bits, ten check bits, and all of it exclusive-ored.
pub fn format_word(level: Level, mask: u8) -> u32
    requires { mask < 8 }
{
    let number = match level {
        Level::L => 1,
        Level::M => 0,
        Level::Q => 3,
        Level::H => 2,
    };
    let data = (number * 8 + u32::from(mask)) * 1024;
    (data | remainder(data, 0x537, 10)) ^ 0x5412
}

/// The version word of a version: six bits and twelve check bits.
pub fn version_word(version: Version) -> u32 {
    let data = u32::from(version.number()) * 4096;
    data | remainder(data, 0x1F25, 12)
}

/// The square ring round the centre (`a`, `b`) on which the module at column `x` and row `y` lies, the centre being
/// ring 0.
fn ring(a: usize, b: usize, x: usize, y: usize) -> usize {
    a.abs_diff(x).max(b.abs_diff(y))
}

/// The module of a finder pattern or its separator, if one is here.
fn finder(n: usize, x: usize, y: usize) -> Option<bool>
    requires { 21 ≤ n }
{
    let r = ring(3, 3, x, y)
        .min(ring(n - 4, 3, x, y))
        .min(ring(3, n - 4, x, y));
    if r <= 4 {
        Some((r != 2) & (r != 4))
    } else {
        None
    }
}

/// The module of a timing pattern, if one is here.
fn timing(x: usize, y: usize) -> Option<bool> {
    if x == 6 {
        Some(y % 2 == 0)
    } else if y == 6 {
        Some(x % 2 == 0)
    } else {
        None
    }
}

/// The bit of the format word that stands here, if one does.
fn format_bit(n: usize, x: usize, y: usize) -> Option<u32>
    requires side { (21 ≤ n) × (n ≤ 57) }
    requires column { x < n }
    requires row { y < n }
    ensures { IfSome result (λ i. i < 15) }
{
    if x == 8 {
        if y < 6 {
            Some(y as u32)
        } else if y == 7 {
            Some(6)
        } else if y == 8 {
            Some(7)
        } else if n - 7 <= y {
            Some((y + 15 - n) as u32)
        } else {
            None
        }
    } else if y == 8 {
        if x < 6 {
            Some((14 - x) as u32)
        } else if x == 7 {
            Some(8)
        } else if n - 8 <= x {
            Some((n - 1 - x) as u32)
        } else {
            None
        }
    } else {
        None
    }
}

/// The bit of the version word that stands here, in the versions that have one.
fn version_bit(n: usize, x: usize, y: usize) -> Option<u32>
    requires side { (21 ≤ n) × (n ≤ 57) }
    ensures { IfSome result (λ i. i < 18) }
{
    if x < 6 && n - 11 <= y && y < n - 8 {
        Some((3 * x + (y - (n - 11))) as u32)
    } else if y < 6 && n - 11 <= x && x < n - 8 {
        Some((3 * y + (x - (n - 11))) as u32)
    } else {
        None
    }
}

/// The rows and columns of the centres of the alignment patterns.
fn centres(version: Version) -> &'static [usize] {
    match version.number() {
        2 => &[6, 18],
        3 => &[6, 22],
        4 => &[6, 26],
        5 => &[6, 30],
        6 => &[6, 34],
        7 => &[6, 22, 38],
        8 => &[6, 24, 42],
        9 => &[6, 26, 46],
        10 => &[6, 28, 50],
        _ => &[],
    }
}

/// The module of an alignment pattern, if one is here. There is none whose centre is on a finder pattern.
fn alignment(n: usize, centres: &[usize], x: usize, y: usize) -> Option<bool>
    requires { 21 ≤ n }
{
    for a in centres {
        for b in centres {
            let r = ring(*a, *b, x, y);
            if r <= 2 && finder(n, *a, *b).is_none() {
                return Some(r != 1);
            }
        }
    }
    None
}

/// Whether the module at column `x` and row `y` is dark, where the words do not choose it.
fn fixed(version: Version, format: u32, x: usize, y: usize) -> Option<bool>
    requires column { x < side_of version }
    requires row { y < side_of version }
{
    let n = version.side();
    if let Some(dark) = finder(n, x, y) {
        return Some(dark);
    }
    if let Some(dark) = alignment(n, centres(version), x, y) {
        return Some(dark);
    }
    if let Some(dark) = timing(x, y) {
        return Some(dark);
    }
    if let Some(i) = format_bit(n, x, y) {
        return Some((format >> i) & 1 == 1);
    }
    if x == 8 && y == n - 8 {
        return Some(true);
    }
    if version.number() >= 7 {
        if let Some(i) = version_bit(n, x, y) {
            return Some((version_word(version) >> i) & 1 == 1);
        }
    }
    None
}

/// A finder pattern's modules with four light ones after it, and the same with four light ones before it.
const FINDERS: [[bool; 11]; 2] = [
    [
        true, false, true, true, true, false, true, false, false, false, false,
    ],
    [
        false, false, false, false, true, false, true, true, true, false, true,
    ],
];

/// The penalty of one row or column: of each maximal run of five or more, its length less two, and 40 for each window
/// that looks like a finder pattern.
fn line_penalty(line: &[bool]) -> u64 {
    let mut points: u64 = 0;
    let mut run: u64 = 0;
    let mut last = None;
    for module in line {
        run = if last == Some(*module) {
            run.saturating_add(1)
        } else {
            1
        };
        last = Some(*module);
        points = points.saturating_add(match run {
            0..=4 => 0,
            5 => 3,
            _ => 1,
        });
    }
    for window in line.windows(11) {
        if (window == FINDERS[0].as_slice()) | (window == FINDERS[1].as_slice()) {
            points = points.saturating_add(40);
        }
    }
    points
}

/// The penalty of all rows and columns.
fn lines(modules: &Square, n: usize) -> u64
    requires { n ≤ 57 }
{
    let mut points: u64 = 0;
    for i in 0..n {
        let mut row = [false; 57];
        let mut column = [false; 57];
        for j in 0..n {
            row[j] = modules.get(j, i);
            column[j] = modules.get(i, j);
        }
        points = points.saturating_add(line_penalty(&row[..n]));
        points = points.saturating_add(line_penalty(&column[..n]));
    }
    points
}

/// Three for each square of 2 by 2 modules of one colour.
fn squares(modules: &Square, n: usize) -> u64
    requires { n ≤ 57 }
{
    let mut points: u64 = 0;
    for y in 1..n {
        for x in 1..n {
            let dark = modules.get(x, y);
            if (modules.get(x - 1, y) == dark)
                & (modules.get(x, y - 1) == dark)
                & (modules.get(x - 1, y - 1) == dark)
            {
                points = points.saturating_add(3);
            }
        }
    }
    points
}

/// How many modules are dark.
fn dark_modules(modules: &Square, n: usize) -> u32
    requires { n ≤ 57 }
{
    let mut dark: u32 = 0;
    for y in 0..n {
        for x in 0..n {
            if modules.get(x, y) {
                dark = dark.saturating_add(1);
            }
        }
    }
    dark
}

/// The penalty of a symbol of `n` by `n` modules.
pub fn penalty(modules: &Square, n: usize) -> u64
    requires least { 21 ≤ n }
    requires most { n ≤ 57 }
{
    let area = (n * n) as u64;
    let dark = u64::from(dark_modules(modules, n));
    let balance = 10 * ((20 * dark).abs_diff(10 * area) / area);
    lines(modules, n)
        .saturating_add(squares(modules, n))
        .saturating_add(balance)
}
