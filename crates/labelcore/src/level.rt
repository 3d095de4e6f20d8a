//! Error correction levels (ISO/IEC 18004, 6.5.1).

/// The error correction level of a symbol: about 7, 15, 25 or 30 % of its codewords can be restored.
#[derive(Clone, Copy, PartialEq, Eq, Drop)]
pub enum Level {
    L,
    M,
    Q,
    H,
}
