//! The tables of the standards in the form that rows are made of: a module is true where dark.

use crate::ean::NumberSet::{self, A, B};

/// A dark module.
const D: bool = true;

/// A light module.
const L: bool = false;

/// The modules of each digit in number set A (ISO/IEC 15420).
pub static SET_A: [[bool; 7]; 10] = [
    [L, L, L, D, D, L, D],
    [L, L, D, D, L, L, D],
    [L, L, D, L, L, D, D],
    [L, D, D, D, D, L, D],
    [L, D, L, L, L, D, D],
    [L, D, D, L, L, L, D],
    [L, D, L, D, D, D, D],
    [L, D, D, D, L, D, D],
    [L, D, D, L, D, D, D],
    [L, L, L, D, L, D, D],
];

/// The modules of each digit in number set B (ISO/IEC 15420).
pub static SET_B: [[bool; 7]; 10] = [
    [L, D, L, L, D, D, D],
    [L, D, D, L, L, D, D],
    [L, L, D, D, L, D, D],
    [L, D, L, L, L, L, D],
    [L, L, D, D, D, L, D],
    [L, D, D, D, L, L, D],
    [L, L, L, L, D, L, D],
    [L, L, D, L, L, L, D],
    [L, L, L, D, L, L, D],
    [L, L, D, L, D, D, D],
];

/// The modules of each digit in number set C (ISO/IEC 15420).
pub static SET_C: [[bool; 7]; 10] = [
    [D, D, D, L, L, D, L],
    [D, D, L, L, D, D, L],
    [D, D, L, D, D, L, L],
    [D, L, L, L, L, D, L],
    [D, L, D, D, D, L, L],
    [D, L, L, D, D, D, L],
    [D, L, D, L, L, L, L],
    [D, L, L, L, D, L, L],
    [D, L, L, D, L, L, L],
    [D, D, D, L, D, L, L],
];

/// The guard at each end of an EAN or UPC symbol (ISO/IEC 15420).
pub static NORMAL_GUARD: [bool; 3] = [D, L, D];

/// The guard between the halves of an EAN or UPC symbol (ISO/IEC 15420).
pub static CENTRE_GUARD: [bool; 5] = [L, D, L, D, L];

/// The number sets of the left half of an EAN-13 symbol, by its first digit (ISO/IEC 15420).
pub static LEFT_SETS: [[NumberSet; 6]; 10] = [
    [A, A, A, A, A, A],
    [A, A, B, A, B, B],
    [A, A, B, B, A, B],
    [A, A, B, B, B, A],
    [A, B, A, A, B, B],
    [A, B, B, A, A, B],
    [A, B, B, B, A, A],
    [A, B, A, B, A, B],
    [A, B, A, B, B, A],
    [A, B, B, A, B, A],
];

/// The modules of the Code 128 values 0 to 105 (ISO/IEC 15417).
pub static CHARACTERS: [[bool; 11]; 106] = [
    [D, D, L, D, D, L, L, D, D, L, L],
    [D, D, L, L, D, D, L, D, D, L, L],
    [D, D, L, L, D, D, L, L, D, D, L],
    [D, L, L, D, L, L, D, D, L, L, L],
    [D, L, L, D, L, L, L, D, D, L, L],
    [D, L, L, L, D, L, L, D, D, L, L],
    [D, L, L, D, D, L, L, D, L, L, L],
    [D, L, L, D, D, L, L, L, D, L, L],
    [D, L, L, L, D, D, L, L, D, L, L],
    [D, D, L, L, D, L, L, D, L, L, L],
    [D, D, L, L, D, L, L, L, D, L, L],
    [D, D, L, L, L, D, L, L, D, L, L],
    [D, L, D, D, L, L, D, D, D, L, L],
    [D, L, L, D, D, L, D, D, D, L, L],
    [D, L, L, D, D, L, L, D, D, D, L],
    [D, L, D, D, D, L, L, D, D, L, L],
    [D, L, L, D, D, D, L, D, D, L, L],
    [D, L, L, D, D, D, L, L, D, D, L],
    [D, D, L, L, D, D, D, L, L, D, L],
    [D, D, L, L, D, L, D, D, D, L, L],
    [D, D, L, L, D, L, L, D, D, D, L],
    [D, D, L, D, D, D, L, L, D, L, L],
    [D, D, L, L, D, D, D, L, D, L, L],
    [D, D, D, L, D, D, L, D, D, D, L],
    [D, D, D, L, D, L, L, D, D, L, L],
    [D, D, D, L, L, D, L, D, D, L, L],
    [D, D, D, L, L, D, L, L, D, D, L],
    [D, D, D, L, D, D, L, L, D, L, L],
    [D, D, D, L, L, D, D, L, D, L, L],
    [D, D, D, L, L, D, D, L, L, D, L],
    [D, D, L, D, D, L, D, D, L, L, L],
    [D, D, L, D, D, L, L, L, D, D, L],
    [D, D, L, L, L, D, D, L, D, D, L],
    [D, L, D, L, L, L, D, D, L, L, L],
    [D, L, L, L, D, L, D, D, L, L, L],
    [D, L, L, L, D, L, L, L, D, D, L],
    [D, L, D, D, L, L, L, D, L, L, L],
    [D, L, L, L, D, D, L, D, L, L, L],
    [D, L, L, L, D, D, L, L, L, D, L],
    [D, D, L, D, L, L, L, D, L, L, L],
    [D, D, L, L, L, D, L, D, L, L, L],
    [D, D, L, L, L, D, L, L, L, D, L],
    [D, L, D, D, L, D, D, D, L, L, L],
    [D, L, D, D, L, L, L, D, D, D, L],
    [D, L, L, L, D, D, L, D, D, D, L],
    [D, L, D, D, D, L, D, D, L, L, L],
    [D, L, D, D, D, L, L, L, D, D, L],
    [D, L, L, L, D, D, D, L, D, D, L],
    [D, D, D, L, D, D, D, L, D, D, L],
    [D, D, L, D, L, L, L, D, D, D, L],
    [D, D, L, L, L, D, L, D, D, D, L],
    [D, D, L, D, D, D, L, D, L, L, L],
    [D, D, L, D, D, D, L, L, L, D, L],
    [D, D, L, D, D, D, L, D, D, D, L],
    [D, D, D, L, D, L, D, D, L, L, L],
    [D, D, D, L, D, L, L, L, D, D, L],
    [D, D, D, L, L, L, D, L, D, D, L],
    [D, D, D, L, D, D, L, D, L, L, L],
    [D, D, D, L, D, D, L, L, L, D, L],
    [D, D, D, L, L, L, D, D, L, D, L],
    [D, D, D, L, D, D, D, D, L, D, L],
    [D, D, L, L, D, L, L, L, L, D, L],
    [D, D, D, D, L, L, L, D, L, D, L],
    [D, L, D, L, L, D, D, L, L, L, L],
    [D, L, D, L, L, L, L, D, D, L, L],
    [D, L, L, D, L, D, D, L, L, L, L],
    [D, L, L, D, L, L, L, L, D, D, L],
    [D, L, L, L, L, D, L, D, D, L, L],
    [D, L, L, L, L, D, L, L, D, D, L],
    [D, L, D, D, L, L, D, L, L, L, L],
    [D, L, D, D, L, L, L, L, D, L, L],
    [D, L, L, D, D, L, D, L, L, L, L],
    [D, L, L, D, D, L, L, L, L, D, L],
    [D, L, L, L, L, D, D, L, D, L, L],
    [D, L, L, L, L, D, D, L, L, D, L],
    [D, D, L, L, L, L, D, L, L, D, L],
    [D, D, L, L, D, L, D, L, L, L, L],
    [D, D, D, D, L, D, D, D, L, D, L],
    [D, D, L, L, L, L, D, L, D, L, L],
    [D, L, L, L, D, D, D, D, L, D, L],
    [D, L, D, L, L, D, D, D, D, L, L],
    [D, L, L, D, L, D, D, D, D, L, L],
    [D, L, L, D, L, L, D, D, D, D, L],
    [D, L, D, D, D, D, L, L, D, L, L],
    [D, L, L, D, D, D, D, L, D, L, L],
    [D, L, L, D, D, D, D, L, L, D, L],
    [D, D, D, D, L, D, L, L, D, L, L],
    [D, D, D, D, L, L, D, L, D, L, L],
    [D, D, D, D, L, L, D, L, L, D, L],
    [D, D, L, D, D, L, D, D, D, D, L],
    [D, D, L, D, D, D, D, L, D, D, L],
    [D, D, D, D, L, D, D, L, D, D, L],
    [D, L, D, L, D, D, D, D, L, L, L],
    [D, L, D, L, L, L, D, D, D, D, L],
    [D, L, L, L, D, L, D, D, D, D, L],
    [D, L, D, D, D, D, L, D, L, L, L],
    [D, L, D, D, D, D, L, L, L, D, L],
    [D, D, D, D, L, D, L, D, L, L, L],
    [D, D, D, D, L, D, L, L, L, D, L],
    [D, L, D, D, D, L, D, D, D, D, L],
    [D, L, D, D, D, D, L, D, D, D, L],
    [D, D, D, L, D, L, D, D, D, D, L],
    [D, D, D, D, L, D, L, D, D, D, L],
    [D, D, L, D, L, L, L, L, D, L, L],
    [D, D, L, D, L, L, D, L, L, L, L],
    [D, D, L, D, L, L, D, D, D, L, L],
];

/// The modules of the Code 128 stop character, value 106 (ISO/IEC 15417).
pub static STOP: [bool; 13] = [D, D, L, L, L, D, D, D, L, D, L, D, D];
