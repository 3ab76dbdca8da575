//! Rows of bits, in one word of 64 bits or in several. A place is the number of a bit, from 0.

ghost use Rattle.std.specs.Prelude.{◌≡◌, ◌<◌, ◌≤◌, ◌+◌, ◌-◌, ◌*◌, ◌%◌, ℕ, Bool, true, false, ◌&&◌, ◌||◌, ◌↔◌, ◌^◌, not, IsTrue, MatchOption, nat_lt, nat_le, nat_eq};
ghost use Rattle.cron_bits.specs.Words.{count_below, has_bit};

use super::multiples::{multiples, place_in_rest};

/// A row of bits. Only the first `size` bits can be 1.
pub trait Words: Copy {
    /// Whether the bit at a place is 1.
    ghost has: { Self → ℕ → Bool };

    /// Each word of the row is below 2^64.
    ghost IsFit: { Self → Type 0 };

    /// The row that has a 1 at each place for which a test is true, and nowhere else.
    ghost made: { (ℕ → Bool) → Self };

    /// How many bits a row has.
    ghost size: { ℕ };

    /// Returns the row whose bits are all 0.
    fn none() -> Self
        ensures fit { IsFit result }
        ensures bits { (k : ℕ) → has result k ≡ false };

    /// Returns the row whose bits are all 1.
    fn full() -> Self
        ensures fit { IsFit result }
        ensures bits { (k : ℕ) → has result k ≡ nat_lt k size };

    /// Returns the row with a 1 at `first`, `first + every` and so on, and nowhere else.
    fn every_nth(first: u32, every: u32) -> Self
        requires { 0 < every }
        ensures fit { IsFit result }
        ensures bits { (k : ℕ)
            → has result k
            ≡ (nat_lt k size && (nat_le first k && nat_eq ((k - first) % every) 0)) };

    /// Returns true if the bit at `place` is 1.
    fn contains(self, place: u32) -> bool
        requires { IsFit self }
        ensures { result ≡ has self place };

    /// Returns the row with the bit at `place` set to 1.
    fn with(self, place: u32) -> Self
        requires fit { IsFit self }
        requires within { place < size }
        ensures fit { IsFit result }
        ensures bits { (k : ℕ) → has result k ≡ (has self k || nat_eq k place) };

    /// Returns the row with the bit at `place` set to 0. A place after the last bit changes
    /// nothing.
    fn without(self, place: u32) -> Self
        requires { IsFit self }
        ensures fit { IsFit result }
        ensures bits { (k : ℕ) → has result k ≡ (not (nat_eq k place) && has self k) };

    /// Returns the row with each bit before `place` set to 0.
    fn at_least(self, place: u32) -> Self
        requires { IsFit self }
        ensures fit { IsFit result }
        ensures bits { (k : ℕ) → has result k ≡ (nat_le place k && has self k) };

    /// Returns the row with each bit from `place` on set to 0.
    fn below(self, place: u32) -> Self
        requires { IsFit self }
        ensures fit { IsFit result }
        ensures bits { (k : ℕ) → has result k ≡ (nat_lt k place && has self k) };

    /// Returns the row with a 1 wherever one of two rows has it.
    fn join(self, other: Self) -> Self
        requires fit { IsFit self }
        requires other_fit { IsFit other }
        ensures fit { IsFit result }
        ensures bits { (k : ℕ) → has result k ≡ (has self k || has other k) };

    /// Returns the place of the first bit that is 1, or `None` if no bit is.
    fn lowest(self) -> Option<u32>
        requires { IsFit self }
        ensures { MatchOption result
            ((k : ℕ) → has self k ≡ false)
            (λ i. (i < size) × (has self i ≡ true) × ((k : ℕ) → k < i → has self k ≡ false)) };

    /// Returns the place of the last bit that is 1, or `None` if no bit is.
    fn highest(self) -> Option<u32>
        requires { IsFit self }
        ensures { MatchOption result
            ((k : ℕ) → has self k ≡ false)
            (λ i. (i < size) × (has self i ≡ true) × ((k : ℕ) → i < k → has self k ≡ false)) };

    /// Counts the bits that are 1.
    fn count(self) -> u32
        requires fit { IsFit self }
        ensures value { result ≡ count_below (has self) size }
        ensures within { result ≤ size };

    /// Returns true if each bit equals the same bit of `other`.
    fn same(self, other: Self) -> bool
        ensures { IsTrue result ↔ (self ≡ other) };

    /// Returns word `index`: bits `64 * index` to `64 * index + 63`. Words after the last are 0.
    fn word(self, index: u32) -> u64
        requires { IsFit self }
        ensures { (k : ℕ) → k < 64 → has_bit result k ≡ has self (64 * index + k) };

    /// A bit that is 1 is one of the first `size`.
    ghost within: { (words : Self) (k : ℕ) → has words k ≡ true → k < size };

    /// The number of bits is below 2^32.
    ghost countable: { size < 2 ^ 32 };

    /// `made` gives a row back from its bits, so rows with equal bits are equal.
    ghost remade: { (words : Self) (test : ℕ → Bool)
        → IsFit words
        → ((k : ℕ) → test k ≡ has words k)
        → made test ≡ words };
}

impl Words for u64 {
    ghost use Rattle.std.proofs.Common.{rules};
    ghost use Rattle.cron_bits.specs.Words.{word_of};
    ghost use Rattle.cron_bits.specs.Inner.RowLaws.{bit_within, word_remade};

    ghost has = { has_bit };

    ghost IsFit = { λ n. n < 2 ^ 64 };

    ghost made = { word_of };

    ghost size = { 64 };

    ghost within = { bit_within };

    ghost countable = { Prim.search rules };

    ghost remade = { λ words test fit same. word_remade words test fit (λ k l. same k) };

    fn none() -> u64 {
        0
    }

    fn full() -> u64 {
        u64::MAX
    }

    fn every_nth(first: u32, every: u32) -> u64 {
        if first < 64 {
            multiples(every) << first
        } else {
            0
        }
    }

    fn contains(self, place: u32) -> bool {
        place < 64 && self >> place & 1 == 1
    }

    fn with(self, place: u32) -> u64 {
        self | 1 << place
    }

    fn without(self, place: u32) -> u64 {
        if place < 64 {
            self & !(1 << place)
        } else {
            self
        }
    }

    fn at_least(self, place: u32) -> u64 {
        if place < 64 {
            self & u64::MAX << place
        } else {
            0
        }
    }

    fn below(self, place: u32) -> u64 {
        if place < 64 {
            self & !(u64::MAX << place)
        } else {
            self
        }
    }

    fn join(self, other: u64) -> u64 {
        self | other
    }

    fn lowest(self) -> Option<u32> {
        if self == 0 {
            None
        } else {
            Some(self.trailing_zeros())
        }
    }

    fn highest(self) -> Option<u32> {
        if self == 0 {
            None
        } else {
            Some(63 - self.leading_zeros())
        }
    }

    fn count(self) -> u32 {
        self.count_ones()
    }

    fn same(self, other: u64) -> bool {
        self == other
    }

    fn word(self, index: u32) -> u64 {
        if index == 0 { self } else { 0 }
    }
}

/// A row of bits that one more word can be put in front of.
pub trait Extensible: Words {
    /// A row with one more word has fewer than 2^32 bits.
    ghost extensible: { 64 + Self.size < 2 ^ 32 };
}

impl Extensible for u64 {
    ghost use Rattle.std.proofs.Common.{rules};

    ghost extensible = { Prim.search rules };
}

/// A word with further bits after it.
#[derive(Clone, Copy, Debug)]
pub struct Longer<R> {
    pub(super) low: u64,
    pub(super) rest: R,
}

impl<R: Extensible> Words for Longer<R> {
    ghost use Rattle.cron_bits.specs.Words.{word_of, then_bits};
    ghost use Rattle.cron_bits.specs.Inner.RowLaws.{then_within, then_remade};

    ghost has = { λ words. then_bits (has_bit words.low) (R.has words.rest) };

    ghost IsFit = { λ words. (words.low < 2 ^ 64) × R.IsFit words.rest };

    ghost made = { λ test. record { low = word_of test; rest = R.made (λ k. test (k + 64)) } };

    ghost size = { 64 + R.size };

    ghost within = { λ words. then_within
        (has_bit words.low) (R.has words.rest) R.size (R.within words.rest) };

    ghost countable = { R.extensible };

    ghost remade = { λ words test fit. then_remade R.made R.has words test fit.0
        (λ other. R.remade words.rest other fit.1) };

    fn none() -> Longer<R> {
        Longer {
            low: u64::none(),
            rest: R::none(),
        }
    }

    fn full() -> Longer<R> {
        Longer {
            low: u64::full(),
            rest: R::full(),
        }
    }

    fn every_nth(first: u32, every: u32) -> Longer<R> {
        let low = u64::every_nth(first, every);
        Longer {
            low,
            rest: R::every_nth(place_in_rest(low, first, every), every),
        }
    }

    fn contains(self, place: u32) -> bool {
        if place < 64 {
            self.low.contains(place)
        } else {
            self.rest.contains(place - 64)
        }
    }

    fn with(self, place: u32) -> Longer<R> {
        if place < 64 {
            Longer {
                low: self.low.with(place),
                rest: self.rest,
            }
        } else {
            Longer {
                low: self.low,
                rest: self.rest.with(place - 64),
            }
        }
    }

    fn without(self, place: u32) -> Longer<R> {
        if place < 64 {
            Longer {
                low: self.low.without(place),
                rest: self.rest,
            }
        } else {
            Longer {
                low: self.low,
                rest: self.rest.without(place - 64),
            }
        }
    }

    fn at_least(self, place: u32) -> Longer<R> {
        if place < 64 {
            Longer {
                low: self.low.at_least(place),
                rest: self.rest,
            }
        } else {
            Longer {
                low: u64::none(),
                rest: self.rest.at_least(place - 64),
            }
        }
    }

    fn below(self, place: u32) -> Longer<R> {
        if place < 64 {
            Longer {
                low: self.low.below(place),
                rest: R::none(),
            }
        } else {
            Longer {
                low: self.low,
                rest: self.rest.below(place - 64),
            }
        }
    }

    fn join(self, other: Longer<R>) -> Longer<R> {
        Longer {
            low: self.low.join(other.low),
            rest: self.rest.join(other.rest),
        }
    }

    fn lowest(self) -> Option<u32> {
        match self.low.lowest() {
            Some(place) => Some(place),
            None => Some(64 + self.rest.lowest()?),
        }
    }

    fn highest(self) -> Option<u32> {
        match self.rest.highest() {
            Some(place) => Some(64 + place),
            None => self.low.highest(),
        }
    }

    fn count(self) -> u32 {
        self.low.count() + self.rest.count()
    }

    fn same(self, other: Longer<R>) -> bool {
        self.low == other.low && self.rest.same(other.rest)
    }

    fn word(self, index: u32) -> u64 {
        if index == 0 {
            self.low
        } else {
            self.rest.word(index - 1)
        }
    }
}

impl Extensible for Longer<u64> {
    ghost use Rattle.std.proofs.Common.{rules};

    ghost extensible = { Prim.search rules };
}
