//! Linear symbols as rows of modules: EAN-13, EAN-8 and UPC-A (ISO/IEC 15420), and Code 128 (ISO/IEC 15417).
//!
//! Each symbology is a type with the trait [`Linear`]: `encode` draws data as a [`Row`], or returns a `Fault`. The
//! README of this crate has an example. Nothing here takes memory from the heap.
#![tactic(auto)]

mod code128;
mod digits;
mod ean;
mod limits;
mod linear;
mod row;
mod switching;
mod tables;

pub use code128::{Code128, check_value};
pub use digits::{Digits, full_digits, with_check_digit};
pub use ean::{Ean8, Ean13, NumberSet, UpcA};
pub use limits::{MAX_MODULES, MAX_VALUES, MIN_MODULES};
pub use linear::Linear;
pub use row::Row;
pub use switching::{CodeSet, start_value};
pub use tables::{CENTRE_GUARD, CHARACTERS, NORMAL_GUARD, STOP};
