//! Devices: what gives bytes ([`Source`]) and what takes them ([`Sink`]).
//!
//! [`StdSource`] and [`StdSink`] are the readers and writers of std, and [`Buffered`] buffers bytes before another
//! sink. [`write_whole`] writes a text in as many writes as a sink needs. The README of this crate has an example.
#![tactic(auto)]

mod buffered;
mod io_fault;
mod sink;
mod source;
mod streams;
mod write;

pub use buffered::Buffered;
pub use io_fault::IoFault;
pub use sink::Sink;
pub use source::Source;
pub use streams::{StdSink, StdSource};
pub use write::write_whole;
