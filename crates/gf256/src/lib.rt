//! The field of 256 elements of QR Code, and the error correction codewords of its blocks (ISO/IEC 18004, 7.5.2).
//!
//! A [`Generator`] is made once for a number of error correction codewords, and used for all blocks with that number.
//! The README of this crate has an example. Nothing here takes memory from the heap.
#![tactic(auto)]

mod field;
mod generator;
mod tables;

pub use field::{mul, pow_alpha};
pub use generator::Generator;
