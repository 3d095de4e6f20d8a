//! The worked labels, from the words of a command line to its status, without a process: words go through `options_of`,
//! input through `run`, or through `feed` and `finish`, between devices in memory, and a result through `End`. Each file
//! has the rows and the tests of one part of the filter. [`support`] says what a row is.
#![tactic(auto)]

pub mod example;
#[cfg(test)]
mod first_path;
#[cfg(test)]
mod lines_and_devices;
#[cfg(test)]
mod pictures;
#[cfg(test)]
mod pieces;
#[cfg(test)]
mod settings;
pub mod support;
#[cfg(test)]
mod symbols;
