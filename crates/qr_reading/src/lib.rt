//! QR Code symbols read back (ISO/IEC 18004, 12): from dark and light modules to codewords, and from codewords to data.
//! There is no correction.
//!
//! [`read`] reads a square of modules; the README of this crate has an example. Nothing here takes memory from the
//! heap.
//!
//! Inside, `module_reading` compares a square with the patterns of the symbol that it names, and `walk` reads its bits.
//! `block_reading` takes the blocks back out of the codewords and tests each, and `segment_reading` reads the segments
//! that they hold, whose numbers are read from a list of `bits`.
#![tactic(auto)]

mod bits;
mod block_reading;
mod module_reading;
mod segment_reading;
mod walk;

pub use module_reading::read;
pub use segment_reading::SymbolData;
