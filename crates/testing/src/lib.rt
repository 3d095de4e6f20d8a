//! Devices for tests and small texts, which the program does not use.
//!
//! [`MemSource`] and [`MemSink`] have their bytes in memory; [`FailAt`] fails at one call. The README of this crate has
//! an example.
#![tactic(auto)]

mod fail_at;
mod memory;

pub use fail_at::FailAt;
pub use memory::{MemSink, MemSource};
