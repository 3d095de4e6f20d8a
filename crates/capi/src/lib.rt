//! The calls of the C library over slices and numbers, with their contracts.
#![tactic(auto)]

mod asked;
mod bit_rows;
mod bitmap;
mod draw;
mod full;
mod layout;
mod numbers;
mod read;
mod read_bits;
mod room;
mod slice_sink;
mod symbol;

pub use bitmap::{bitmap_into, bitmap_line_into};
pub use draw::{draw_into, draw_line_into};
pub use layout::{DigitGroup, Layout, Span, ToldLayout, layout_told};
pub use numbers::{Answer, CallOptions, CallRegion, FoundInfo, SymbolInfo, Told, ToldBitmap};
pub use read::{read_into, read_modules_into};
pub use read_bits::{ToldFound, read_bits_into};
pub use slice_sink::SliceSink;
pub use symbol::{line_into, symbol_into};
