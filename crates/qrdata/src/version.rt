//! The sizes of versions 1 to 10 (ISO/IEC 18004, tables 1, 7 and 9).
ghost use Rattle.gf256.specs.ErrorCorrection.{IsEcCodewordCount};
ghost use Rattle.qrdata.specs.Versions.{IsVersion, block_lengths, capacity, data_codewords, ec_codewords_per_block};
ghost use Rattle.qrdata.specs.Private.Blocks.{block_count};
ghost use Rattle.qrdata.specs.Versions.{side_of};
ghost use Rattle.qrdata.specs.Versions.{total_codewords};
ghost use Rattle.std.specs.Prelude.{◌≡◌, ◌<◌, ◌≤◌, ◌↔◌, ◌⊎◌, IfSome, IsNone, ℕ};

use crate::blocks::{Lengths, push_lengths};
use crate::level_place::place_of;
use labelcore::Level;
use std::marker::Model;

/// The sizes of the symbols of a version. Each array has a place for levels L, M, Q and H.
#[derive(Clone, Copy)]
struct Sizes {
    /// The codewords of a symbol, data and error correction codewords.
    total: usize,
    /// The blocks of a symbol.
    blocks: [usize; 4],
    /// The error correction codewords of each block.
    ec_codewords: [usize; 4],
}

/// The sizes of each version; place 0 is version 1. They are proved to be what `specs/Versions.antt` lists in the
/// standard's notation.
#[rattlefmt::skip]
const SIZES: [Sizes; 10] = [
    Sizes { total: 26, blocks: [1, 1, 1, 1], ec_codewords: [7, 10, 13, 17] },
    Sizes { total: 44, blocks: [1, 1, 1, 1], ec_codewords: [10, 16, 22, 28] },
    Sizes { total: 70, blocks: [1, 1, 2, 2], ec_codewords: [15, 26, 18, 22] },
    Sizes { total: 100, blocks: [1, 2, 2, 4], ec_codewords: [20, 18, 26, 16] },
    Sizes { total: 134, blocks: [1, 2, 4, 4], ec_codewords: [26, 24, 18, 22] },
    Sizes { total: 172, blocks: [2, 4, 4, 4], ec_codewords: [18, 16, 24, 28] },
    Sizes { total: 196, blocks: [2, 4, 6, 5], ec_codewords: [20, 18, 18, 26] },
    Sizes { total: 242, blocks: [2, 4, 6, 6], ec_codewords: [24, 22, 22, 26] },
    Sizes { total: 292, blocks: [2, 5, 8, 8], ec_codewords: [30, 22, 20, 24] },
    Sizes { total: 346, blocks: [4, 5, 8, 8], ec_codewords: [18, 26, 24, 28] },
];

/// A version of a symbol, 1 to 10. Clauses see it as that number.
#[derive(Clone, Copy, PartialEq, Eq, Drop)]
pub struct Version {
    number: u8,
}

impl Model for Version {
    ghost Value = { ℕ };

    ghost view = { λ v. v.number };

    ghost invariant = { λ v. IsVersion v.number };

    ghost inverse = { λ number. record { number = number } };
}

impl Version {
    /// Returns the version of a number, or `None` outside 1 to 10.
    pub fn new(number: u8) -> Option<Version>
        ensures some { IfSome result (λ version. version ≡ number) }
        ensures none { IsNone result ↔ ((number < 1) ⊎ (10 < number)) }
    {
        if 1 <= number && number <= 10 {
            Some(Version { number })
        } else {
            None
        }
    }

    /// Returns the version of a number that is known to be one, 1 to 10.
    pub fn of(number: u8) -> Version
        requires { IsVersion number }
        ensures { result ≡ number }
    {
        Version { number }
    }

    /// Proves that a version is one of 1 to 10. It does nothing when it runs.
    pub fn prove_range(self)
        ensures { IsVersion self }
    {
        let _ = &self.number;
    }

    /// Returns the number of the version, 1 to 10.
    pub fn number(self) -> u8
        ensures value { result ≡ self }
        ensures known { IsVersion self }
    {
        self.number
    }

    /// Returns the number of modules on a side, 21 to 57, without the quiet zone.
    pub fn side(self) -> usize
        ensures value { result ≡ side_of self }
        ensures known { IsVersion self }
    {
        17 + 4 * usize::from(self.number)
    }

    /// Returns the number of codewords of a symbol: data and error correction codewords.
    pub fn total_words(self) -> usize
        ensures { result ≡ total_codewords self }
    {
        SIZES[usize::from(self.number) - 1].total
    }

    /// Returns the number of data codewords of a symbol at a level, those of all its blocks.
    pub fn data_words(self, level: Level) -> usize
        ensures { result ≡ data_codewords self level }
    {
        self.prove_range();
        self.total_words() - self.block_count(level) * self.ec_codewords_per_block(level)
    }

    /// Returns the number of data bits of a symbol at a level.
    #[tactic(auto, using(crate::proofs::Laws::VersionLaws::most_bits))]
    pub(crate) fn capacity(self, level: Level) -> usize
        ensures value { result ≡ capacity self level }
        ensures few { result ≤ 2192 }
    {
        self.prove_range();
        8 * self.data_words(level)
    }

    /// Returns the number of blocks of a symbol at a level.
    pub(crate) fn block_count(self, level: Level) -> usize
        ensures value { result ≡ block_count self level }
        ensures some { 0 < result }
        ensures few { result ≤ 8 }
    {
        SIZES[usize::from(self.number) - 1].blocks[place_of(level)]
    }

    /// Returns the number of error correction codewords of each block at a level.
    pub fn ec_codewords_per_block(self, level: Level) -> usize
        ensures value { result ≡ ec_codewords_per_block self level }
        ensures count { IsEcCodewordCount result }
    {
        SIZES[usize::from(self.number) - 1].ec_codewords[place_of(level)]
    }

    /// Returns the number of data codewords of each block at a level, the short blocks first.
    pub fn lengths(self, level: Level) -> Lengths
        ensures { result.items ≡ block_lengths self level }
    {
        self.prove_range();
        let blocks = self.block_count(level);
        let codewords = self.data_words(level);
        let mut lengths = Lengths::new();
        let size = codewords / blocks;
        let longer = codewords % blocks;
        push_lengths(&mut lengths, blocks - longer, size);
        push_lengths(&mut lengths, longer, size + 1);
        lengths
    }
}
