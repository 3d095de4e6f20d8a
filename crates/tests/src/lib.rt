//! The tests that call functions, by public calls alone: of readers and writers of std (`streams`), of the texts of faults
//! (`faults`) and of the crates' pages (`pages`). They are a crate, so that the other crates are proved without reading
//! what tests read. What the program shows is tried on the program: `tools/tests/test_program.py`, `test_calls.py`.
#![tactic(auto)]

#[cfg(test)]
mod faults;
#[cfg(test)]
mod pages;
#[cfg(test)]
mod streams;
