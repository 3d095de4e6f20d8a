//! Linear symbols read from rows of modules, by the rules that drawing is proved against, with no correction.
//!
//! [`LinearReading::read`] reads a row as a symbol of one symbology. The README of this crate has an example. Nothing here
//! takes memory from the heap.
#![tactic(auto)]

mod groups;
mod read_code128;
mod read_ean;
mod rows;
mod tables;

pub use rows::{FullData, LinearReading, MAX_FULL_DATA};
