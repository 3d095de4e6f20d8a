//! Generator polynomials and the error correction codewords of a block (ISO/IEC 18004, 7.5.2 and annex A).
ghost use Rattle.gf256.specs.Field.{alpha, field_power};
ghost use Rattle.gf256.specs.ErrorCorrection.{AreEcCodewords, IsEcCodewordCount, generator};
ghost use Rattle.gf256.specs.Polynomial.{polynomial_sum, scalar_multiple};
ghost use Rattle.gf256.specs.Private.{AreMultiples, next_register, padded_generator};
ghost use Rattle.std.specs.Prelude.{◌≡◌, ℕ, [], ◌∷◌, ◌++◌, drop, length, map};

use crate::field::{power_of, twice};
use crate::tables::GENERATORS;
use std::marker::Model;
use std::simd::u8x32;

/// The places of a register: room for 30 error correction codewords, and a vector of bytes.
const PLACES: usize = 32;

/// The place after each place of a vector. The last one is the first place of a second vector.
const NEXT_PLACES: [usize; PLACES] = [
    1, 2, 3, 4, 5, 6, 7, 8, 9, 10, 11, 12, 13, 14, 15, 16, 17, 18, 19, 20, 21, 22, 23, 24, 25, 26,
    27, 28, 29, 30, 31, 32,
];

/// A multiple of a generator polynomial: its coefficients from high to low, but for the highest, and zeros after them.
type Multiple = [u8; PLACES];

/// The multiples of the generator polynomial of blocks with a given number of error correction codewords. Clauses see
/// it as that number, which is the degree of the polynomial.
#[derive(Drop)]
pub struct Generator {
    /// The number of error correction codewords of a block.
    count: usize,
    /// The multiples by the elements 0 to 15.
    low: [Multiple; 16],
    /// The multiples by the elements 0, 16, 32 and so on, up to 240.
    high: [Multiple; 16],
}

impl Model for Generator {
    ghost Value = { ℕ };

    ghost view = { λ g. g.count };

    ghost invariant = { λ g. IsEcCodewordCount g.count
        × AreMultiples (padded_generator g.count) g.low
        × AreMultiples (scalar_multiple 16 (padded_generator g.count)) g.high };
}

impl Generator {
    /// Makes the multiples of the generator polynomial of blocks with `k` error correction codewords, 1 to 30. The
    /// polynomial is the product of x + alpha^i over the i below `k`.
    pub fn new(k: usize) -> Generator
        requires { IsEcCodewordCount k }
        ensures { result ≡ k }
    {
        let mut low = [[0; PLACES]; 16];
        write_multiples(&coefficients_of(k), &mut low);
        let mut high = [[0; PLACES]; 16];
        write_multiples(&doubled(&low[8]), &mut high);
        Generator {
            count: k,
            low,
            high,
        }
    }

    /// Writes the error correction codewords of a block into `out`, which has room for exactly these. They are the
    /// remainder of the block times x^k by the generator polynomial, the highest coefficient first. The old content of
    /// `out` is dropped.
    pub fn parity(&self, block: &[u8], out: &mut [u8])
        requires { length out.old ≡ self.now }
        ensures { AreEcCodewords self.now block.now out.new }
    {
        let count = self.count;
        let mut register = u8x32::splat(0);
        for &codeword in block {
            register = self.next(register, codeword);
        }
        out.copy_from_slice(&register.to_array()[..count]);
    }

    /// Returns the register of a division after one codeword more. Zeros follow its codewords.
    fn next(&self, register: u8x32, codeword: u8) -> u8x32
        ensures { result ≡ next_register (padded_generator self.now) register codeword }
    {
        let feedback = usize::from(register[0] ^ codeword);
        let low = u8x32::from_array(self.low[feedback % 16]);
        let high = u8x32::from_array(self.high[feedback / 16]);
        moved_up(register) ^ low ^ high
    }
}

/// Returns a register whose codewords are moved up by one place, with 0 in the last place.
#[tactic(auto, using(crate::proofs::RegisterLaws::next_places))]
fn moved_up(register: u8x32) -> u8x32
    ensures { result ≡ drop 1 register ++ 0 ∷ [] }
{
    register.shuffle(u8x32::splat(0), NEXT_PLACES)
}

/// Writes the multiples of a polynomial by the elements 0 to 15.
fn write_multiples(polynomial: &Multiple, multiples: &mut [Multiple; 16])
    ensures { AreMultiples polynomial.now multiples.new }
{
    multiples[0] = [0; PLACES];
    multiples[1] = *polynomial;
    for i in 1..8 {
        let even = doubled(&multiples[i]);
        multiples[2 * i + 1] = sum_of(&even, polynomial);
        multiples[2 * i] = even;
    }
}

/// Returns a polynomial times alpha.
fn doubled(polynomial: &Multiple) -> Multiple
    ensures { result ≡ scalar_multiple alpha polynomial.now }
{
    let mut product = [0; PLACES];
    for j in 0..PLACES {
        product[j] = twice(polynomial[j]);
    }
    product
}

/// Returns the sum of two polynomials.
#[tactic(auto, using(crate::proofs::RegisterLaws::of_sum))]
fn sum_of(first: &Multiple, second: &Multiple) -> Multiple
    ensures { result ≡ polynomial_sum first.now second.now }
{
    (u8x32::from_array(*first) ^ u8x32::from_array(*second)).to_array()
}

/// Returns the coefficients of a generator polynomial from high to low, but for the highest, which is 1, and zeros
/// after them.
fn coefficients_of(k: usize) -> Multiple
    requires { IsEcCodewordCount k }
    ensures { result ≡ padded_generator k }
{
    let mut coefficients = [0; PLACES];
    let logarithms = logarithms_of(k);
    for j in 0..k {
        coefficients[j] = power_of(logarithms[j]);
    }
    coefficients
}

/// Returns the logarithms of the coefficients of a generator polynomial, from high to low, but for the highest, which
/// is 1.
fn logarithms_of(k: usize) -> &'static [u8]
    requires { IsEcCodewordCount k }
    ensures coefficients { generator k ≡ 1 ∷ map (field_power alpha) result.now }
    ensures count { length result.now ≡ k }
{
    let first = k * (k - 1) / 2;
    let all = &GENERATORS[..];
    &all[first..first + k]
}
