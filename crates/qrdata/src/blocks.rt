//! Blocks, their error correction codewords and interleaving (ISO/IEC 18004, 7.5 and 7.6).
ghost use Rattle.arrayvec.specs.ArrayVec.{array_vec_len};
ghost use Rattle.gf256.specs.ErrorCorrection.{IsEcCodewordCount, ec_codewords_of};
ghost use Rattle.qrdata.specs.Codewords.{interleaving, split_by, codewords_at};
ghost use Rattle.std.specs.List.{flat_map};
ghost use Rattle.std.specs.Prelude.{length, ◌≡◌, ◌+◌, ◌≤◌, ◌++◌, fold, max, sum, replicate};

use arrayvec::ArrayVec;
use gf256::Generator;

/// The most codewords of a symbol, those of version 10.
pub const MAX_CODEWORDS: usize = 346;

/// The codewords of a symbol.
pub type Words = ArrayVec<u8, MAX_CODEWORDS>;

/// Writes the codewords at one place of the blocks, block by block. `lengths` are those of the blocks, one after
/// another.
fn push_place(lengths: &[usize], codewords: &[u8], place: usize, out: &mut Words)
    requires whole { sum lengths.now ≡ length codewords.now }
    requires room { array_vec_len out.old
        + length (codewords_at (split_by lengths.now codewords.now) place) ≤ MAX_CODEWORDS }
    ensures { out.new.items ≡ out.old.items ++ codewords_at (split_by lengths.now codewords.now) place }
{
    let mut start = 0;
    for size in lengths {
        if place < *size {
            out.push(codewords[start + place]);
        }
        start += *size;
    }
}

/// Returns the greatest of some lengths, 0 if there is none.
fn greatest(lengths: &[usize]) -> usize
    ensures { result ≡ fold max 0 lengths.now }
{
    let mut most = 0;
    for size in lengths {
        if most < *size {
            most = *size;
        }
    }
    most
}

/// Writes the codewords of the blocks in the order of their places, and at one place in the order of the blocks.
pub(crate) fn interleave(lengths: &[usize], codewords: &[u8], out: &mut Words)
    requires whole { sum lengths.now ≡ length codewords.now }
    requires room { array_vec_len out.old + length codewords.now ≤ MAX_CODEWORDS }
    ensures { out.new.items ≡ out.old.items ++ interleaving (split_by lengths.now codewords.now) }
{
    // A block alone has its codewords in the order of their places.
    if lengths.len() == 1 {
        push_codewords(out, codewords);
        return;
    }
    let rounds = greatest(lengths);
    for place in 0..rounds {
        push_place(lengths, codewords, place, out);
    }
}

/// The lengths of the blocks of a symbol, at most 8 of them.
pub type Lengths = ArrayVec<usize, 8>;

/// Writes a length `count` times.
pub fn push_lengths(lengths: &mut Lengths, count: usize, size: usize)
    requires room { array_vec_len lengths.old + count ≤ 8 }
    ensures { lengths.new.items ≡ lengths.old.items ++ replicate count size }
{
    let mut left = count;
    while left > 0 {
        lengths.push(size);
        left -= 1;
    }
}

/// Writes codewords at the end.
pub fn push_codewords(out: &mut Words, codewords: &[u8])
    requires room { array_vec_len out.old + length codewords.now ≤ MAX_CODEWORDS }
    ensures { out.new.items ≡ out.old.items ++ codewords.now }
{
    // There is room for them, so that it cannot fail.
    let _ = out.try_extend_from_slice(codewords);
}

/// Writes the error correction codewords of a block.
fn push_block_ec_codewords(generator: &Generator, count: usize, block: &[u8], out: &mut Words)
    requires count { generator.now ≡ count }
    requires few { count ≤ 30 }
    requires room { array_vec_len out.old + count ≤ MAX_CODEWORDS }
    ensures codewords { out.new.items ≡ out.old.items ++ ec_codewords_of count block.now }
    ensures len { array_vec_len out.new ≡ array_vec_len out.old + count }
{
    let mut ec_codewords = [0; 30];
    generator.parity(block, &mut ec_codewords[..count]);
    push_codewords(out, &ec_codewords[..count]);
}

/// Writes the error correction codewords of each block. `lengths` are those of the blocks, one after another.
pub(crate) fn push_ec_codewords(count: usize, lengths: &[usize], codewords: &[u8], out: &mut Words)
    requires count { IsEcCodewordCount count }
    requires blocks { (sum lengths.now ≡ length codewords.now) × (length lengths.now ≤ 8) }
    requires room { array_vec_len out.old ≤ 106 }
    ensures { out.new.items
        ≡ out.old.items ++ flat_map (ec_codewords_of count) (split_by lengths.now codewords.now) }
{
    let generator = Generator::new(count);
    let mut start = 0;
    for size in lengths {
        let end = start + *size;
        push_block_ec_codewords(&generator, count, &codewords[start..end], out);
        start = end;
    }
}
