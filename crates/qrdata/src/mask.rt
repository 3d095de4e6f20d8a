//! Masks (ISO/IEC 18004, 7.8.2).
ghost use Rattle.std.specs.Prelude.{◌≡◌, ◌<◌, ◌≤◌, ◌↔◌, IfSome, IsNone, ℕ};

use std::marker::Model;

/// The mask of a symbol, 0 to 7. Clauses see it as that number.
#[derive(Clone, Copy, PartialEq, Eq, Drop)]
pub struct Mask {
    number: u8,
}

impl Model for Mask {
    ghost Value = { ℕ };

    ghost view = { λ m. m.number };

    ghost invariant = { λ m. m.number < 8 };

    ghost inverse = { λ number. record { number = number } };
}

impl Mask {
    /// Returns the mask of a number, or `None` above 7.
    pub fn new(number: u8) -> Option<Mask>
        ensures some { IfSome result (λ mask. mask ≡ number) }
        ensures none { IsNone result ↔ (8 ≤ number) }
    {
        if number < 8 {
            Some(Mask { number })
        } else {
            None
        }
    }

    /// Returns the mask of a number that is known to be one, 0 to 7.
    pub fn of(number: u8) -> Mask
        requires { number < 8 }
        ensures { result ≡ number }
    {
        Mask { number }
    }

    /// Returns the number of the mask, 0 to 7.
    pub fn number(self) -> u8
        ensures value { result ≡ self }
        ensures known { self < 8 }
    {
        self.number
    }
}
