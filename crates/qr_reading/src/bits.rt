//! Bits of a symbol, and the numbers that they represent, the high bit first (ISO/IEC 18004, 7.4 and 12).
ghost use Rattle.arrayvec.specs.ArrayVec.{array_vec_len};
ghost use Rattle.qrdata.specs.Bits.{bits_of, number_of};
ghost use Rattle.qrdata.specs.Reading.{is_end, number_at};
ghost use Rattle.qrdata.specs.Segments.{byte_bits};
ghost use Rattle.std.specs.Prelude.{◌≡◌, ◌+◌, ◌*◌, ◌≤◌, ◌<◌, ◌++◌, IfSome, length, option_map};

use arrayvec::ArrayVec;

/// The most data bits of a symbol, those of version 10 at level L.
pub(crate) const MAX_DATA_BITS: usize = 2192;

/// Bits in the order of reading.
pub(crate) type BitList = ArrayVec<bool, MAX_DATA_BITS>;

/// Returns the number that bits represent.
#[inline(always)]
fn number_of(bits: &[bool]) -> u32
    requires { length bits.now ≤ 16 }
    ensures { result ≡ number_of bits.now }
{
    bits.iter().fold(
        0,
        |number: u32, bit| 2 * (number % 0x8000) + u32::from(*bit),
    )
}

/// Reads a number of `width` bits, and returns it and the bits after it. `None`: there are fewer bits, or the number is
/// not below a limit.
#[tactic(auto, unfolding(qrdata::specs::Reading::number_at))]
pub(crate) fn number_at(limit: u32, width: usize, bits: &[bool]) -> Option<(u32, &[bool])>
    requires { width ≤ 16 }
    ensures read { option_map (λ found. (found.0, found.1.now)) result ≡ number_at limit width bits.now }
    ensures below { IfSome result (λ found. found.0 < limit) }
    ensures left { IfSome result (λ found. length found.1.now + width ≡ length bits.now) }
{
    if bits.len() < width {
        return None;
    }
    let (front, rest) = bits.split_at(width);
    let number = number_of(front);
    if number >= limit {
        return None;
    }
    Some((number, rest))
}

/// Returns whether the segments end here: fewer than four bits are left, or the next four are zeros.
pub(crate) fn is_end(bits: &[bool]) -> bool
    ensures { result ≡ is_end bits.now }
{
    bits.len() < 4 || number_of(&bits[..4]) == 0
}

/// Appends the bits of a codeword.
#[inline(always)]
#[tactic(auto, unfolding(qrdata::specs::Bits::bits_of))]
fn push_codeword(codeword: u8, bits: &mut BitList)
    requires { array_vec_len bits.old + 8 ≤ MAX_DATA_BITS }
    ensures bits { bits.new.items ≡ bits.old.items ++ bits_of 8 codeword }
    ensures len { array_vec_len bits.new ≡ array_vec_len bits.old + 8 }
{
    let at = |place: u8| (codeword >> place) % 2 == 1;
    // There is space for them, so that it cannot fail.
    let _ = bits.try_extend_from_slice(&[at(7), at(6), at(5), at(4), at(3), at(2), at(1), at(0)]);
}

/// Returns the bits of codewords.
#[tactic(auto, unfolding(qrdata::specs::Segments::byte_bits))]
pub(crate) fn bits_of_codewords(codewords: &[u8]) -> BitList
    requires { 8 * length codewords.now ≤ MAX_DATA_BITS }
    ensures { result.items ≡ byte_bits codewords.now }
{
    let mut bits = BitList::new();
    for codeword in codewords {
        push_codeword(*codeword, &mut bits);
    }
    bits
}
