//! Products and powers in the field of 256 elements (ISO/IEC 18004, 7.5.2).
ghost use Rattle.gf256.specs.Field.{IsTheFieldProduct, alpha, field_power, field_product};
ghost use Rattle.std.specs.Prelude.{◌≡◌, ◌<◌};

use crate::tables::{LOGARITHMS, POWERS};

/// Returns the product of two elements. A byte is an element: its bit i is the coefficient of x^i.
pub fn mul(a: u8, b: u8) -> u8
    ensures { IsTheFieldProduct a b result }
{
    if a == 0 || b == 0 {
        return 0;
    }
    product_of_powers(logarithm_of(a), logarithm_of(b))
}

/// Returns the power alpha^i, for any `i`. The element alpha is 2, the polynomial x.
#[tactic(auto, using(crate::proofs::Laws::LogarithmLaws::of_powers), unfolding(crate::proofs::Laws::LogarithmLaws::exp))]
pub fn pow_alpha(i: usize) -> u8
    ensures { result ≡ field_power alpha i }
{
    POWERS[i % 255]
}

/// Returns alpha^logarithm.
#[tactic(auto, using(crate::proofs::Laws::LogarithmLaws::of_powers), unfolding(crate::proofs::Laws::LogarithmLaws::exp))]
pub(crate) fn power_of(logarithm: u8) -> u8
    ensures { result ≡ field_power alpha logarithm }
{
    POWERS[usize::from(logarithm)]
}

/// Returns alpha times an element: the product by the polynomial x.
#[tactic(auto, using(crate::proofs::Laws::FieldLaws::of_two))]
pub(crate) fn twice(element: u8) -> u8
    ensures { result ≡ field_product alpha element }
{
    let moved = element << 1;
    if element < 128 { moved } else { moved ^ 0x1D }
}

/// Returns the product of alpha^i and alpha^j.
pub(crate) fn product_of_powers(i: u8, j: u8) -> u8
    ensures { result ≡ field_product (field_power alpha i) (field_power alpha j) }
{
    POWERS[usize::from(i) + usize::from(j)]
}

/// Returns the logarithm of an element: an i from 0 to 254 such that alpha^i is the element. The element 0 has none.
pub(crate) fn logarithm_of(element: u8) -> u8
    requires { 0 < element }
    ensures { field_power alpha result ≡ element }
{
    LOGARITHMS[usize::from(element)]
}
