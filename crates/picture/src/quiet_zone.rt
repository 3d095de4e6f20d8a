//! The light pixels round a symbol.

/// The light border that a reader needs round a symbol: its width on each side, in modules (ISO/IEC 15420, 15417 and
/// 18004, quiet zone).
#[derive(Clone, Copy, PartialEq, Eq)]
pub struct QuietZone {
    pub left: usize,
    pub right: usize,
    pub top: usize,
    pub bottom: usize,
}
