//! The rows of a bitmap into a caller's room.
ghost use Rattle.std.specs.Prelude.{◌≡◌, ◌+◌, ◌-◌, ◌*◌, ◌^◌, ◌<◌, ◌≤◌, ◌++◌, ℕ, false, length, drop, min, slice_index_or};
ghost use Rattle.std.specs.Int.{div_ceil};
ghost use Rattle.picture.specs.Text.{pixel_row};
ghost use Rattle.capi.specs.Bitmap.{byte_at, bytes_of, bitmap_size, put_bit_rows, row_step};
ghost use Rattle.capi.specs.Private.BitRows.{put_equal};

use crate::room::put_all;
use picture::{Grid, read_pixels};

/// No picture has more columns: 1,815 modules of 8 dots.
const MAX_DOTS: usize = 14520;
/// No row has more bytes.
const MAX_BYTES: usize = 1815;
/// The columns of most pictures: less has to be cleared for them.
const FEW_DOTS: usize = 512;
/// The bytes of their rows.
const FEW_BYTES: usize = 64;
/// Times eight bytes that are 0 or 1, the first the lowest, it has them as bits in the highest byte, the first the
/// highest bit: each of its bits moves one of them there, and no two meet.
const GATHER: u64 = 0x8040_2010_0804_0201;

/// Returns the bytes from one row to the next: 0 asks for rows without a gap.
pub fn row_step(stride: usize, size: usize) -> usize
    ensures { result ≡ row_step stride size }
{
    if stride == 0 { size } else { stride }
}

/// Returns the bytes from the first row to the end of the last one, at most the greatest `usize`.
pub fn rows_size(height: usize, stride: usize, size: usize) -> usize
    ensures { result ≡ min ((height - 1) * stride + size) (2 ^ 64 - 1) }
{
    height
        .saturating_sub(1)
        .saturating_mul(stride)
        .saturating_add(size)
}

/// Puts the dots of a picture, for which there is room.
pub fn put_dots<G: Grid>(picture: &G, stride: usize, bits: &mut [u8])
    requires narrow { (G.picture picture.now).width ≤ 14520 }
    requires low { (G.picture picture.now).height ≤ 4000 }
    requires fits { bitmap_size (G.picture picture.now) stride ≤ length bits.old }
    ensures { bits.new ≡ put_bit_rows (G.picture picture.now) stride bits.old (G.picture picture.now).height }
{
    let width = picture.width();
    let size = width.div_ceil(8);
    if width <= FEW_DOTS {
        let mut dots = [false; FEW_DOTS];
        let mut row = [0; FEW_BYTES];
        put_rows(picture, stride, &mut dots, &mut row[..size], bits);
    } else {
        let mut dots = [false; MAX_DOTS];
        let mut row = [0; MAX_BYTES];
        put_rows(picture, stride, &mut dots, &mut row[..size], bits);
    }
}

/// Puts the rows of a picture, each once for all that equal it. The dots of a row are read into `dots`, which is light
/// before; behind them it stays so.
fn put_rows<G: Grid>(picture: &G, stride: usize, dots: &mut [bool], row: &mut [u8], bits: &mut [u8])
    requires light { (x : ℕ) → slice_index_or dots.old x false ≡ false }
    requires whole { 8 * length row.old ≤ length dots.old }
    requires size { length row.old ≡ div_ceil (G.picture picture.now).width 8 }
    requires narrow { (G.picture picture.now).width ≤ 14520 }
    requires low { (G.picture picture.now).height ≤ 4000 }
    requires fits { bitmap_size (G.picture picture.now) stride ≤ length bits.old }
    ensures { bits.new ≡ put_bit_rows (G.picture picture.now) stride bits.old (G.picture picture.now).height }
{
    let height = picture.height();
    let mut y = 0;
    while y < height {
        read_dots(picture, y, dots);
        pack(dots, row);
        let count = picture.equal_rows(y);
        put_equal_rows(row, y, count, stride, bits);
        y += count;
    }
}

/// Reads the dots of a row, and leaves what is behind them.
fn read_dots<G: Grid>(picture: &G, y: usize, dots: &mut [bool])
    requires in_height { y < (G.picture picture.now).height }
    requires room { (G.picture picture.now).width ≤ length dots.old }
    ensures { dots.new ≡ pixel_row (G.picture picture.now) y ++ drop (G.picture picture.now).width dots.old }
{
    let width = picture.width();
    read_pixels(picture, y, &mut dots[..width]);
}

/// Puts a row `count` times, from row `y` on.
fn put_equal_rows(row: &[u8], y: usize, count: usize, stride: usize, bits: &mut [u8])
    requires low { y + count ≤ 4000 }
    requires fits { (y + count - 1) * stride + length row.now ≤ length bits.old }
    ensures { bits.new ≡ put_equal stride row.now bits.old y count }
{
    for k in 0..count {
        put_all(bits, (y + k) * stride, row);
    }
}

/// Puts dots as bits into bytes, the first into the highest bit of the first byte.
fn pack(dots: &[bool], row: &mut [u8])
    requires small { length row.old ≤ 1815 }
    requires whole { 8 * length row.old ≤ length dots.now }
    ensures { row.new ≡ bytes_of dots.now (length row.old) }
{
    for j in 0..row.len() {
        row[j] = byte_of(dots, 8 * j);
    }
}

/// Returns eight dots, from the index `x` on, as the bits of a byte, the first the highest, 1 where dark.
fn byte_of(dots: &[bool], x: usize) -> u8
    requires { x + 8 ≤ length dots.now }
    ensures { result ≡ byte_at dots.now x }
{
    let word = u64::from(dots[x])
        | (u64::from(dots[x + 1]) << 8)
        | (u64::from(dots[x + 2]) << 16)
        | (u64::from(dots[x + 3]) << 24)
        | (u64::from(dots[x + 4]) << 32)
        | (u64::from(dots[x + 5]) << 40)
        | (u64::from(dots[x + 6]) << 48)
        | (u64::from(dots[x + 7]) << 56);
    (word.wrapping_mul(GATHER) >> 56) as u8
}
