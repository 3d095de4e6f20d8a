//! QR symbols and lists of segments beside their plainest forms: truth values, a cursor and runs counted module by
//! module in place of operations on whole rows, and every list in place of the best one.
#![tactic(auto)]

#[cfg(test)]
mod plain;
#[cfg(test)]
mod segments;
#[cfg(test)]
mod symbols;
