//! Labels read back from their dots, by the rules that drawing is proved against, with no correction.
//!
//! [`read`] reads the dots of a symbol by its symbology, and [`read_modules`] its modules: [`Dots`], [`Bits`], or any other
//! `picture::Grid`. The README of this crate has an example. Nothing here takes memory from the heap.
#![tactic(auto)]

mod bars;
mod bits;
mod dots;
mod equal_rows;
mod found;
mod labels;
mod packed;
mod sampled;
mod squares;

pub use bits::{BitRegion, Bits};
pub use dots::Dots;
pub use found::{Reading, read_any, readings_are_alone};
pub use labels::{labels_are_read, modules_are_read, read, read_modules};
