//! The filter as a library: lines in, pictures and messages out.
//!
//! [`run`] reads a whole source, and [`run_streams`] does so between a reader and a writer of std. A [`Filter`] is fed
//! piece by piece, by a caller who does the reading. [`draw`] draws one symbol, with no line of text. The README of
//! this crate has an example. None of these calls takes memory from the heap.
#![tactic(auto)]

mod filter;
mod line_end;
mod read_loop;
mod status;
mod streams;
mod symbol;

pub use filter::Filter;
pub use read_loop::run;
pub use status::{RunFault, Status};
pub use streams::run_streams;
pub use symbol::{draw, matrix_of, row_of, zone_of};
