//! Hostile use: devices that fail at each byte and at each call, very long lines, every byte, input that breaks off,
//! readers and writers of std that are odd, and files.
#![tactic(auto)]

#[cfg(test)]
mod failures;
#[cfg(test)]
mod lines;
#[cfg(test)]
mod readers_and_writers;
#[cfg(test)]
mod texts;
