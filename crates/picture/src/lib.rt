//! Pictures by coordinates, their quiet zones and enlargements, and their texts: plain PBM, or letters.
//!
//! A picture is a [`Grid`]: [`Bars`], a `qrmatrix::Matrix`, or one of these [`Framed`] and [`Scaled`]. [`write_pbm`]
//! and [`write_ascii`] write it to a sink. The README of this crate has an example. Nothing here takes memory from the
//! heap.
#![tactic(auto)]

mod ascii;
mod bars;
mod bits;
mod framed;
mod grid;
mod kept_rows;
mod matrix;
mod pbm;
mod pixel_text;
mod quiet_zone;
mod scaled;
mod wide_rows;

pub use ascii::write_ascii;
pub use bars::Bars;
pub use bits::bits_of;
pub use framed::Framed;
pub use grid::Grid;
pub use pbm::write_pbm;
pub use quiet_zone::QuietZone;
pub use scaled::{Scaled, read_pixels};
