//! The worked QR labels, from the words of a command line to a status, as in `acceptance`, whose runs they use.
#![tactic(auto)]

#[cfg(test)]
mod segments;
#[cfg(test)]
mod symbols;
