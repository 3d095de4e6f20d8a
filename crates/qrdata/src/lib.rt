//! From bytes to the codewords of a QR Code symbol (ISO/IEC 18004): versions 1 to 10, segments, blocks and
//! interleaving.
//!
//! [`choose`] makes a [`Plan`]: the version and the segments of a symbol for some data. [`codewords`] writes the
//! codewords of that plan. The README of this crate has an example. Nothing here takes memory from the heap.
#![tactic(auto)]

mod bits;
mod blocks;
mod codeword_sequence;
mod firsts;
mod level_place;
mod mask;
mod mode;
mod plan;
mod segmentation;
mod version;

pub use bits::{Bits, MAX_BITS, are_bytes, power_of_two};
pub use blocks::{Lengths, MAX_CODEWORDS, Words, push_codewords, push_lengths};
pub use codeword_sequence::codewords;
pub use mask::Mask;
pub use mode::{Mode, Segment};
pub use plan::{Plan, choose};
pub use version::Version;
