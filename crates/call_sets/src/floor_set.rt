//! Sets of floors.

ghost use Rattle.std.specs.Prelude.{true, false, ◌≡◌, ℕ, ◌-◌, ◌<◌, ◌≤◌, ◌^◌, ◌==◌, ◌&&◌, ◌||◌, ◌↔◌, not};
ghost use Rattle.std.specs.Prelude.{nat_lt, IsTrue, MatchOption};
ghost use Rattle.std.specs.Iterator.{YieldsFirst, item_count};
ghost use Rattle.call_sets.specs.Counting.{has, members, sum_where};

use std::marker::Model;

/// A set of floors, by index: numbers below 64.
///
/// Contracts see it as the number whose bit `k` says whether `k` is in it, and speak of it by `has`.
#[derive(Clone, Copy, PartialEq, Eq)]
pub struct FloorSet {
    bits: u64,
}

impl Model for FloorSet {
    ghost use Rattle.std.specs.Prelude.{ℕ, ◌<◌, ◌^◌};

    ghost Value = { ℕ };

    ghost view = { λ s. s.bits };

    ghost invariant = { λ s. s.bits < 2 ^ 64 };

    ghost inverse = { λ n. record { bits = n } };
}

impl FloorSet {
    /// The empty set.
    pub const fn empty() -> Self
        ensures { result ≡ 0 }
    {
        Self { bits: 0 }
    }

    /// The set whose members are the places of the ones.
    pub const fn from_bits(bits: u64) -> Self
        ensures { result ≡ bits }
    {
        Self { bits }
    }

    /// The lowest floors, this many of them.
    pub fn lowest(floors: u32) -> Self
        requires { floors ≤ 64 }
        ensures set { result ≡ 2 ^ floors - 1 }
        ensures each { (k : ℕ) → has result k ≡ nat_lt k floors }
    {
        if floors == 0 {
            return Self::empty();
        }
        Self {
            bits: u64::MAX >> (64 - floors),
        }
    }

    /// The number that has ones at the places of the members.
    pub const fn bits(self) -> u64
        ensures { result ≡ self }
    {
        self.bits
    }

    /// Whether there is no member.
    pub fn is_empty(self) -> bool
        ensures zero { IsTrue result ↔ (self ≡ 0) }
        ensures none { IsTrue result → (k : ℕ) → has self k ≡ false }
        ensures some { (k : ℕ) → has self k ≡ true → result ≡ false }
    {
        self.bits == 0
    }

    /// Whether the floor is in the set: never so from 64 on.
    pub fn contains(self, floor: u32) -> bool
        ensures { result ≡ has self floor }
    {
        floor < 64 && self.bits >> floor & 1 == 1
    }

    /// The set with one floor more.
    pub fn with(self, floor: u32) -> Self
        requires { floor < 64 }
        ensures { (k : ℕ) → has result k ≡ (has self k || (k == floor)) }
    {
        Self {
            bits: self.bits | 1 << floor,
        }
    }

    /// The set without this floor.
    pub fn without(self, floor: u32) -> Self
        ensures { (k : ℕ) → has result k ≡ (has self k && not (k == floor)) }
    {
        if floor >= 64 {
            return self;
        }
        Self {
            bits: self.bits & !(1 << floor),
        }
    }

    /// Whether each member is one of this many lowest floors.
    pub fn is_below(self, floors: u32) -> bool
        requires { floors ≤ 64 }
        ensures { IsTrue result ↔ (self < 2 ^ floors) }
    {
        floors == 64 || self.bits >> floors == 0
    }

    /// How many of the lowest floors, of this many, are members.
    pub fn count_below(self, floors: u32) -> u32
        requires { floors ≤ 64 }
        ensures { result ≡ sum_where floors (has self) (λ _. 1) }
    {
        let mut count = 0;
        for floor in 0..floors {
            if self.contains(floor) {
                count += 1;
            }
        }
        count
    }

    /// The floors that are in one of the sets.
    pub fn union(self, other: Self) -> Self
        ensures { (k : ℕ) → has result k ≡ (has self k || has other k) }
    {
        Self {
            bits: self.bits | other.bits,
        }
    }

    /// The floors that are in both sets.
    pub fn intersection(self, other: Self) -> Self
        ensures { (k : ℕ) → has result k ≡ (has self k && has other k) }
    {
        Self {
            bits: self.bits & other.bits,
        }
    }

    /// The floors of this set that are not in the other.
    pub fn minus(self, other: Self) -> Self
        ensures { (k : ℕ) → has result k ≡ (has self k && not (has other k)) }
    {
        Self {
            bits: self.bits & !other.bits,
        }
    }

    /// The members above this index.
    pub fn above(self, index: u32) -> Self
        ensures { (k : ℕ) → has result k ≡ (has self k && nat_lt index k) }
    {
        let bits = self.bits;
        if index >= 63 {
            return Self::empty();
        }
        Self {
            bits: bits & u64::MAX << (index + 1),
        }
    }

    /// The least member.
    pub fn least(self) -> Option<u32>
        ensures member { MatchOption result ((k : ℕ) → has self k ≡ false)
            (λ floor. (has self floor ≡ true) × (floor < 64)) }
        ensures least { MatchOption result (self ≡ 0) (λ floor. (k : ℕ) → k < floor
            → has self k ≡ false) }
    {
        if self.bits == 0 {
            return None;
        }
        Some(self.bits.trailing_zeros())
    }

    /// The greatest member.
    pub fn greatest(self) -> Option<u32>
        ensures member { MatchOption result ((k : ℕ) → has self k ≡ false)
            (λ floor. (has self floor ≡ true) × (floor < 64)) }
        ensures greatest { MatchOption result (self ≡ 0) (λ floor. (k : ℕ) → floor < k
            → has self k ≡ false) }
    {
        if self.bits == 0 {
            return None;
        }
        Some(63 - self.bits.leading_zeros())
    }

    /// The members, rising.
    pub fn iter(self) -> Floors
        ensures { result.left ≡ self }
    {
        Floors { left: self }
    }
}

/// The members of a set of floors, rising.
#[derive(Drop)]
pub struct Floors {
    /// The members that are still to come.
    pub left: FloorSet,
}

impl Iterator for Floors {
    type Item = u32;

    ghost next_gives = { YieldsFirst (λ s. members 64 s.left) };

    ghost remaining = { item_count (λ s. members 64 s.left) };

    fn next(&mut self) -> Option<u32> {
        let floor = self.left.least()?;
        self.left = self.left.without(floor);
        Some(floor)
    }
}
