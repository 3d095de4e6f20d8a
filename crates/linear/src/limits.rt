//! The limits of a row.

/// The most bytes in a Code 128 symbol.
pub const MAX_BYTES: usize = 80;

/// The most values between the start value and the check value of a Code 128 symbol: two for each byte.
pub const MAX_VALUES: usize = 2 * MAX_BYTES;

/// The fewest modules in a row: those of a Code 128 symbol of one character. It has eleven for its start character, the
/// character and its check character, and thirteen for its stop character.
pub const MIN_MODULES: usize = 3 * 11 + 13;

/// The most modules in a row: eleven for each value of a Code 128 symbol, its start value and its check value, and
/// thirteen for its stop character.
pub const MAX_MODULES: usize = 11 * (MAX_VALUES + 2) + 13;
