//! Sets of cars.

ghost use Rattle.std.specs.Prelude.{true, false, ◌≡◌, ℕ, ◌<◌, ◌==◌, ◌&&◌, ◌||◌, ◌↔◌, not, nat_lt, IsTrue};
ghost use Rattle.std.specs.Prelude.{MatchOption};
ghost use Rattle.std.specs.Iterator.{YieldsFirst, item_count};
ghost use Rattle.call_sets.specs.Counting.{has, members};

use std::marker::Model;

/// A set of cars, by index: numbers below 16.
///
/// Contracts see it as the number whose bit `k` says whether `k` is in it, and speak of it by `has`.
#[derive(Clone, Copy, PartialEq, Eq)]
pub struct CarSet {
    bits: u16,
}

impl Model for CarSet {
    ghost use Rattle.std.specs.Prelude.{ℕ, ◌<◌, ◌^◌};

    ghost Value = { ℕ };

    ghost view = { λ s. s.bits };

    ghost invariant = { λ s. s.bits < 2 ^ 16 };

    ghost inverse = { λ n. record { bits = n } };
}

impl CarSet {
    /// The empty set.
    pub const fn empty() -> Self
        ensures { result ≡ 0 }
    {
        Self { bits: 0 }
    }

    /// The set whose members are the places of the ones.
    pub const fn from_bits(bits: u16) -> Self
        ensures { result ≡ bits }
    {
        Self { bits }
    }

    /// The number that has ones at the places of the members.
    pub const fn bits(self) -> u16
        ensures { result ≡ self }
    {
        self.bits
    }

    /// Whether there is no member.
    pub fn is_empty(self) -> bool
        ensures zero { IsTrue result ↔ (self ≡ 0) }
        ensures none { IsTrue result → (k : ℕ) → has self k ≡ false }
        ensures some { (k : ℕ) → has self k ≡ true → result ≡ false }
    {
        self.bits == 0
    }

    /// Whether the car is in the set: never so from 16 on.
    pub fn contains(self, car: u32) -> bool
        ensures { result ≡ has self car }
    {
        car < 16 && self.bits >> car & 1 == 1
    }

    /// The set with one car more.
    pub fn with(self, car: u32) -> Self
        requires { car < 16 }
        ensures { (k : ℕ) → has result k ≡ (has self k || (k == car)) }
    {
        Self {
            bits: self.bits | 1 << car,
        }
    }

    /// The set without this car.
    pub fn without(self, car: u32) -> Self
        ensures { (k : ℕ) → has result k ≡ (has self k && not (k == car)) }
    {
        if car >= 16 {
            return self;
        }
        Self {
            bits: self.bits & !(1 << car),
        }
    }

    /// The cars that are in one of the sets.
    pub fn union(self, other: Self) -> Self
        ensures { (k : ℕ) → has result k ≡ (has self k || has other k) }
    {
        Self {
            bits: self.bits | other.bits,
        }
    }

    /// The cars that are in both sets.
    pub fn intersection(self, other: Self) -> Self
        ensures { (k : ℕ) → has result k ≡ (has self k && has other k) }
    {
        Self {
            bits: self.bits & other.bits,
        }
    }

    /// The cars of this set that are not in the other.
    pub fn minus(self, other: Self) -> Self
        ensures { (k : ℕ) → has result k ≡ (has self k && not (has other k)) }
    {
        Self {
            bits: self.bits & !other.bits,
        }
    }

    /// The members above this index.
    pub fn above(self, index: u32) -> Self
        ensures { (k : ℕ) → has result k ≡ (has self k && nat_lt index k) }
    {
        let bits = self.bits;
        if index >= 15 {
            return Self::empty();
        }
        Self {
            bits: bits & u16::MAX << (index + 1),
        }
    }

    /// The least member.
    pub fn least(self) -> Option<u32>
        ensures member { MatchOption result ((k : ℕ) → has self k ≡ false)
            (λ car. (has self car ≡ true) × (car < 16)) }
        ensures least { MatchOption result (self ≡ 0) (λ car. (k : ℕ) → k < car
            → has self k ≡ false) }
    {
        if self.bits == 0 {
            return None;
        }
        Some(self.bits.trailing_zeros())
    }

    /// The members, rising.
    pub fn iter(self) -> Cars
        ensures { result.left ≡ self }
    {
        Cars { left: self }
    }
}

/// The members of a set of cars, rising.
#[derive(Drop)]
pub struct Cars {
    /// The members that are still to come.
    pub left: CarSet,
}

impl Iterator for Cars {
    type Item = u32;

    ghost next_gives = { YieldsFirst (λ s. members 16 s.left) };

    ghost remaining = { item_count (λ s. members 16 s.left) };

    fn next(&mut self) -> Option<u32> {
        let car = self.left.least()?;
        self.left = self.left.without(car);
        Some(car)
    }
}
