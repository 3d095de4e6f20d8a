//! Texts compared with words, and the level that a letter names.
ghost use Rattle.std.specs.Prelude.{◌≡◌};
ghost use Rattle.std.specs.Str.{bytes_eq};
ghost use Rattle.labelcore.specs.Names.{level_named};

use crate::level::Level;

/// Returns the level of this letter, `L`, `M`, `Q` or `H`, or `None` for any other text.
#[tactic(auto, unfolding(crate::specs::Names::level_named))]
pub fn level_of(letter: &[u8]) -> Option<Level>
    ensures { result ≡ level_named letter.now }
{
    if is_word(letter, b"L") {
        Some(Level::L)
    } else if is_word(letter, b"M") {
        Some(Level::M)
    } else if is_word(letter, b"Q") {
        Some(Level::Q)
    } else if is_word(letter, b"H") {
        Some(Level::H)
    } else {
        None
    }
}

/// Returns whether a text is this word.
pub fn is_word(text: &[u8], word: &[u8]) -> bool
    ensures { result ≡ bytes_eq text.now word.now }
{
    text == word
}
