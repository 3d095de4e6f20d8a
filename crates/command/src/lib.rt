//! The command `labels` around the filter: what its arguments ask for ([`options_of`]), the files that they may name
//! ([`NamedFiles`]), how it ends ([`End`]), and all of it in one call ([`program`]).
//!
//! The program's `main` makes that call. It is a library, so that it can be proved and tested without a process. The
//! README of this crate has an example.
#![tactic(auto)]

mod arguments;
mod command_line;
mod end;
mod entry;
mod file;

pub use arguments::{Choice, WordsFault, options_of};
pub use command_line::VERSION;
pub use end::End;
pub use entry::{arguments_of, program};
pub use file::{NamedFiles, OpenFault, StdFiles, open_file};
