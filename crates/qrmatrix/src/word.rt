//! The words that hold a row of modules, bit i the module at place i: 32 bits in small symbols, and else 64.
ghost use Rattle.std.specs.Prelude.{◌≡◌, ℕ, ◌+◌, ◌-◌, ◌^◌, ◌<◌, ◌≤◌, nat_le, nat_lt, not, Bool, false, ◌&&◌, ◌||◌};
ghost use Rattle.std.specs.Bool.{beq};
ghost use Rattle.qrmatrix.specs.Private.Counting.{count_below};
ghost use Rattle.qrmatrix.specs.Bits.{bit};

/// A word that holds the modules of a row, or what is counted of them.
pub trait Word: Copy {
    // The bits of a word, the lowest one first.
    ghost bits: { Self → ℕ → Bool };

    // The number of a word.
    ghost number: { Self → ℕ };

    // How many places a word has.
    ghost width: { ℕ };

    /// Returns the word without ones, which is the number 0.
    fn zero() -> Self
        ensures value { number result ≡ 0 }
        ensures ones { (i : ℕ) → bits result i ≡ false };

    /// Returns the ones of both words.
    fn and(self, other: Self) -> Self
        ensures { (i : ℕ) → bits result i ≡ (bits self i && bits other i) };

    /// Returns the ones of either word.
    fn or(self, other: Self) -> Self
        ensures { (i : ℕ) → bits result i ≡ (bits self i || bits other i) };

    /// Returns ones where two words differ.
    fn xor(self, other: Self) -> Self
        ensures { (i : ℕ) → bits result i ≡ not (beq (bits self i) (bits other i)) };

    /// Returns ones where the word has none.
    fn inverse(self) -> Self
        ensures { (i : ℕ) → i < width → bits result i ≡ not (bits self i) };

    /// Returns the word moved down by some places.
    fn down(self, places: u32) -> Self
        requires { places < 32 }
        ensures { (i : ℕ) → bits result i ≡ bits self (i + places) };

    /// Returns the word moved up by some places.
    fn up(self, places: u32) -> Self
        requires { places < 32 }
        ensures { (i : ℕ) → i < width → bits result i ≡ (nat_le places i && bits self (i - places)) };

    /// Returns the ones in the lowest `count` places.
    fn lowest(self, count: usize) -> Self
        requires { count < width }
        ensures { (i : ℕ) → bits result i ≡ (nat_lt i count && bits self i) };

    /// Returns how many of the lowest `count` places have a one.
    fn ones_below(self, count: usize) -> Self
        requires { count < width }
        ensures value { number result ≡ count_below count (bits self) }
        ensures bound { number result ≤ count };

    /// Returns the sum.
    fn plus(self, other: Self) -> Self
        requires { number self + number other < 2 ^ 32 }
        ensures { number result ≡ number self + number other };

    /// Returns the number.
    fn wide(self) -> u64
        ensures { result ≡ number self };
}

impl Word for u32 {
    ghost bits = { bit };

    ghost number = { λ w. w };

    ghost width = { 32 };

    #[tactic(auto, using(crate::proofs::Laws::RowBitsLaws::zero_bit))]
    fn zero() -> u32 {
        0
    }

    #[tactic(auto, using(crate::proofs::Laws::RowBitsLaws::and_bit))]
    fn and(self, other: u32) -> u32 {
        self & other
    }

    #[tactic(auto, using(crate::proofs::Laws::RowBitsLaws::or_bit))]
    fn or(self, other: u32) -> u32 {
        self | other
    }

    #[tactic(auto, using(crate::proofs::Laws::RowBitsLaws::xor_bit))]
    fn xor(self, other: u32) -> u32 {
        self ^ other
    }

    fn inverse(self) -> u32 {
        !self
    }

    #[tactic(auto, using(crate::proofs::Laws::RowBitsLaws::shr_bit))]
    fn down(self, places: u32) -> u32 {
        self >> places
    }

    fn up(self, places: u32) -> u32 {
        self << places
    }

    fn lowest(self, count: usize) -> u32 {
        self & ((1 << count) - 1)
    }

    fn ones_below(self, count: usize) -> u32 {
        (self & ((1 << count) - 1)).count_ones()
    }

    fn plus(self, other: u32) -> u32 {
        self + other
    }

    fn wide(self) -> u64 {
        u64::from(self)
    }
}

impl Word for u64 {
    ghost bits = { bit };

    ghost number = { λ w. w };

    ghost width = { 64 };

    #[tactic(auto, using(crate::proofs::Laws::RowBitsLaws::zero_bit))]
    fn zero() -> u64 {
        0
    }

    #[tactic(auto, using(crate::proofs::Laws::RowBitsLaws::and_bit))]
    fn and(self, other: u64) -> u64 {
        self & other
    }

    #[tactic(auto, using(crate::proofs::Laws::RowBitsLaws::or_bit))]
    fn or(self, other: u64) -> u64 {
        self | other
    }

    #[tactic(auto, using(crate::proofs::Laws::RowBitsLaws::xor_bit))]
    fn xor(self, other: u64) -> u64 {
        self ^ other
    }

    fn inverse(self) -> u64 {
        !self
    }

    #[tactic(auto, using(crate::proofs::Laws::RowBitsLaws::shr_bit))]
    fn down(self, places: u32) -> u64 {
        self >> places
    }

    fn up(self, places: u32) -> u64 {
        self << places
    }

    fn lowest(self, count: usize) -> u64 {
        self & ((1 << count) - 1)
    }

    fn ones_below(self, count: usize) -> u64 {
        (self & ((1 << count) - 1)).count_ones() as u64
    }

    fn plus(self, other: u64) -> u64 {
        self + other
    }

    fn wide(self) -> u64 {
        self
    }
}
