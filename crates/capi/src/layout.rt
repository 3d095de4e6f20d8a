//! Where the longer bars and the printed digits of a symbology are.
ghost use Rattle.std.specs.Prelude.{◌≡◌};
ghost use Rattle.capi.specs.Layout.{AnswersLayout, between, group, layout_of, no_layout};
ghost use Rattle.capi.specs.Numbers.{symbology_numbered};

use crate::numbers::{self, BAD_SYMBOLOGY, DONE};
use labelcore::Symbology;

/// Modules of a row, from `left` on and before `right`, from the left edge of the left quiet zone on: `labels_span` of
/// `lib/labels.h`.
#[repr(C)]
#[derive(Clone, Copy, Drop)]
pub struct Span {
    pub left: u32,
    pub right: u32,
}

/// Digits of the full data, from `first` on and before `last`, which are printed in the middle below a span of modules:
/// `labels_digits`.
#[repr(C)]
#[derive(Clone, Copy, Drop)]
pub struct DigitGroup {
    pub first: u32,
    pub last: u32,
    pub span: Span,
}

/// The first `guards` spans of `guard` have longer bars, and the first `groups` groups of `group` are printed:
/// `labels_layout`. What is behind them, and the spare words, are 0.
#[repr(C)]
#[derive(Clone, Copy, Drop)]
pub struct Layout {
    pub guards: u32,
    pub groups: u32,
    pub reserved: [u32; 2],
    pub guard: [Span; 3],
    pub group: [DigitGroup; 4],
}

/// What a call answers that is asked for a layout.
#[derive(Clone, Copy, Drop)]
pub struct ToldLayout {
    pub code: u32,
    pub layout: Layout,
}

/// Returns modules from one on and before another.
fn between(left: u32, right: u32) -> Span
    ensures { result ≡ between left right }
{
    Span { left, right }
}

/// Returns digits, and the modules that they are printed below.
fn group(first: u32, last: u32, left: u32, right: u32) -> DigitGroup
    ensures { result ≡ group first last left right }
{
    DigitGroup {
        first,
        last,
        span: between(left, right),
    }
}

/// Returns the layout of a symbology without longer bars and printed digits.
fn no_layout() -> Layout
    ensures { result ≡ no_layout }
{
    Layout {
        guards: 0,
        groups: 0,
        reserved: [0; 2],
        guard: [between(0, 0); 3],
        group: [group(0, 0, 0, 0); 4],
    }
}

/// Returns the layout of a symbology.
#[tactic(auto, unfolding(crate::specs::Layout::layout_of))]
fn layout_of(symbology: Symbology) -> Layout
    ensures { result ≡ layout_of symbology }
{
    match symbology {
        Symbology::Ean13 => Layout {
            guards: 3,
            groups: 3,
            guard: [between(11, 14), between(56, 61), between(103, 106)],
            group: [
                group(0, 1, 2, 9),
                group(1, 7, 14, 56),
                group(7, 13, 61, 103),
                group(0, 0, 0, 0),
            ],
            ..no_layout()
        },
        Symbology::Ean8 => Layout {
            guards: 3,
            groups: 2,
            guard: [between(7, 10), between(38, 43), between(71, 74)],
            group: [
                group(0, 4, 10, 38),
                group(4, 8, 43, 71),
                group(0, 0, 0, 0),
                group(0, 0, 0, 0),
            ],
            ..no_layout()
        },
        Symbology::UpcA => Layout {
            guards: 3,
            groups: 4,
            guard: [between(9, 19), between(54, 59), between(94, 104)],
            group: [
                group(0, 1, 1, 6),
                group(1, 6, 19, 54),
                group(6, 11, 59, 94),
                group(11, 12, 107, 112),
            ],
            ..no_layout()
        },
        Symbology::Code128 | Symbology::Qr => no_layout(),
    }
}

/// Tells where the longer bars and the printed digits of the symbology of a number are. In each of its symbols they are
/// there.
pub fn layout_told(symbology: u32) -> ToldLayout
    ensures { AnswersLayout result.code result.layout (symbology_numbered symbology) }
{
    match numbers::symbology_numbered(symbology) {
        Some(symbology) => ToldLayout {
            code: DONE,
            layout: layout_of(symbology),
        },
        None => ToldLayout {
            code: BAD_SYMBOLOGY,
            layout: no_layout(),
        },
    }
}
