//! The data of blocks, which are taken back out of interleaved codewords and tested (ISO/IEC 18004, 7.5, 7.6 and 12).
ghost use Rattle.arrayvec.specs.ArrayVec.{array_vec_len};
ghost use Rattle.gf256.specs.ErrorCorrection.{IsEcCodewordCount};
ghost use Rattle.qrdata.specs.Reading.{data_in, has_roots, interleaving_place, segments_at};
ghost use Rattle.qrdata.specs.Segments.{byte_bits};
ghost use Rattle.qr_reading.specs.Private.Blocks.{block_at, sound_blocks};
ghost use Rattle.qr_reading.specs.declared.bits.TheConstants.{MAX_DATA_BITS};
ghost use Rattle.std.specs.Prelude.{◌≡◌, ◌+◌, ◌*◌, ◌<◌, ◌≤◌, [], All, IfSome, length, option_map};
ghost use Rattle.std.specs.Prelude.{replicate, slice_index, sum};

use crate::bits::bits_of_codewords;
use crate::segment_reading::{SymbolData, read_segments};
use gf256::Generator;
use labelcore::Level;
use qrdata::{Lengths, MAX_CODEWORDS, Version, Words, are_bytes, push_codewords, push_lengths};

/// Returns where the codeword at a place of a block is among those of all blocks.
fn interleaving_place(lengths: &[usize], block: usize, place: usize) -> usize
    requires place { place ≤ 255 }
    requires block { (block ≤ length lengths.now) × (length lengths.now ≤ 8) }
    ensures { result ≡ interleaving_place lengths.now block place }
{
    // A block alone has its codewords in the order of their places.
    if lengths.len() == 1 && block == 0 {
        return place.min(lengths[0]);
    }
    let before: usize = lengths.iter().map(|size| place.min(*size)).sum();
    let here = lengths[..block]
        .iter()
        .filter(|size| place < **size)
        .count();
    before + here
}

/// Writes a block of interleaved codewords into an empty list.
fn write_block(lengths: &[usize], codewords: &[u8], block: usize, out: &mut Words)
    requires block { (block < length lengths.now) × (length lengths.now ≤ 8) }
    requires short { slice_index lengths.now block ≤ 255 }
    requires empty { out.old.items ≡ [] }
    ensures block { out.new.items ≡ block_at lengths.now codewords.now block }
    ensures len { array_vec_len out.new ≡ slice_index lengths.now block }
{
    for place in 0..lengths[block] {
        let at = interleaving_place(lengths, block, place);
        out.push(codewords.get(at).copied().unwrap_or(0));
    }
}

/// Returns whether a block is a multiple of the generator with its error correction codewords: whether these are the
/// remainder of the block.
fn is_multiple(generator: &Generator, count: usize, block: &[u8], ec_codewords: &[u8]) -> bool
    requires count { (generator.now ≡ count) × (length ec_codewords.now ≡ count) }
    requires few { IsEcCodewordCount count }
    requires short { length block.now + count ≤ 255 }
    ensures { result ≡ has_roots count (block.now, ec_codewords.now) }
{
    are_bytes(block);
    are_bytes(ec_codewords);
    let mut remainder = [0; 30];
    generator.parity(block, &mut remainder[..count]);
    ec_codewords == &remainder[..count]
}

/// Returns the codewords of the blocks of interleaved ones, block by block. `None`: a block is no multiple of the
/// generator with its error correction codewords.
fn sound_blocks(
    count: usize,
    lengths: &[usize],
    ec_lengths: &[usize],
    codewords: &[u8],
    ec_codewords: &[u8],
) -> Option<Words>
    requires count { IsEcCodewordCount count }
    requires equal { ec_lengths.now ≡ replicate (length lengths.now) count }
    requires short { All (λ n. n + count ≤ 255) lengths.now }
    requires few { (length lengths.now ≤ 8) × (sum lengths.now ≤ MAX_CODEWORDS) }
    ensures value { option_map (λ message. message.items) result
        ≡ sound_blocks count lengths.now ec_lengths.now codewords.now ec_codewords.now }
    ensures len { IfSome result (λ message. array_vec_len message ≡ sum lengths.now) }
{
    let generator = Generator::new(count);
    let mut message = Words::new();
    for block in 0..lengths.len() {
        let mut data = Words::new();
        write_block(lengths, codewords, block, &mut data);
        let mut remainder = Words::new();
        write_block(ec_lengths, ec_codewords, block, &mut remainder);
        if !is_multiple(&generator, count, &data, &remainder) {
            return None;
        }
        push_codewords(&mut message, &data);
    }
    Some(message)
}

/// Reads the segments that the codewords of blocks hold. Their bits take much room, which a function that is inlined would
/// clear for each symbol, whether its blocks are sound or not.
#[inline(never)]
fn read_message(version: Version, message: &[u8]) -> Option<SymbolData>
    requires { 8 * length message.now ≤ MAX_DATA_BITS }
    ensures { option_map (λ bytes. bytes.items) result
        ≡ segments_at version (length (byte_bits message.now)) (byte_bits message.now) }
{
    read_segments(version, &bits_of_codewords(message))
}

/// Reads the data that the codewords of a symbol hold, with no correction (ISO/IEC 18004, 12). They are in the order in
/// which they are placed. `None`: they are not as many as the version has, a block is no multiple of its generator, or
/// what the blocks hold are no segments in the numeric, the alphanumeric and the byte mode.
#[tactic(auto, unfolding(qrdata::specs::Reading::data_in, crate::specs::Private::Blocks::sound_blocks))]
pub(crate) fn read_data(version: Version, level: Level, codewords: &[u8]) -> Option<SymbolData>
    ensures { option_map (λ bytes. bytes.items) result ≡ data_in version level codewords.now }
{
    if codewords.len() != version.total_words() {
        return None;
    }
    version.prove_range();
    let count = version.ec_codewords_per_block(level);
    let lengths = version.lengths(level);
    let (data, ec_codewords) = codewords.split_at(version.data_words(level));
    let mut ec_lengths = Lengths::new();
    push_lengths(&mut ec_lengths, lengths.len(), count);
    let Some(message) = sound_blocks(count, &lengths, &ec_lengths, data, ec_codewords) else {
        return None;
    };
    read_message(version, &message)
}
