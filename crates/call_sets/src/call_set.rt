//! Sets of calls.

ghost use Rattle.std.specs.Prelude.{true, false, ◌≡◌, ℕ, ◌+◌, ◌<◌, ◌≤◌, ◌==◌, ◌&&◌, ◌||◌, ◌↔◌, not, nat_lt};
ghost use Rattle.std.specs.Prelude.{IsTrue, MatchOption};
ghost use Rattle.std.specs.Iterator.{YieldsFirst, item_count};
ghost use Rattle.call_sets.specs.Counting.{has, is_among, members};

use std::marker::Model;

/// A set of calls, by index: numbers below 128.
///
/// Contracts see it as the number whose bit `k` says whether `k` is in it, and speak of it by `has`.
#[derive(Clone, Copy, PartialEq, Eq)]
pub struct CallSet {
    bits: u128,
}

impl Model for CallSet {
    ghost use Rattle.std.specs.Prelude.{ℕ, ◌<◌, ◌^◌};

    ghost Value = { ℕ };

    ghost view = { λ s. s.bits };

    ghost invariant = { λ s. s.bits < 2 ^ 128 };

    ghost inverse = { λ n. record { bits = n } };
}

// A set is read and changed by the half in which a call is: shifts of 128 bits take several instructions, and
// most sets have no call from 64 on.
impl CallSet {
    /// The members below 64 as the places of the ones, and those from 64 on, less 64.
    fn halves(self) -> (u64, u64)
        ensures low { (k : ℕ) → k < 64 → has result.0 k ≡ has self k }
        ensures high { (k : ℕ) → has result.1 k ≡ has self (k + 64) }
    {
        let low = self.bits & u128::from(u64::MAX);
        (low as u64, (self.bits >> 64) as u64)
    }

    /// The set with these halves.
    fn of_halves(low: u64, high: u64) -> Self
        ensures low { (k : ℕ) → k < 64 → has result k ≡ has low k }
        ensures high { (k : ℕ) → has result (k + 64) ≡ has high k }
    {
        Self {
            bits: u128::from(high) << 64 | u128::from(low),
        }
    }
}

impl CallSet {
    /// The empty set.
    pub const fn empty() -> Self
        ensures { result ≡ 0 }
    {
        Self { bits: 0 }
    }

    /// The set whose members are the places of the ones.
    pub const fn from_bits(bits: u128) -> Self
        ensures { result ≡ bits }
    {
        Self { bits }
    }

    /// The calls of a list, each once. Numbers from 128 on are left out.
    pub fn of_list(calls: &[u32]) -> Self
        ensures { (k : ℕ) → has result k ≡ (nat_lt k 128 && is_among k calls.now) }
    {
        let mut set = Self::empty();
        for call in calls {
            if *call < 128 {
                set = set.with(*call);
            }
        }
        set
    }

    /// The number that has ones at the places of the members.
    pub const fn bits(self) -> u128
        ensures { result ≡ self }
    {
        self.bits
    }

    /// Whether there is no member.
    pub fn is_empty(self) -> bool
        ensures zero { IsTrue result ↔ (self ≡ 0) }
        ensures none { IsTrue result → (k : ℕ) → has self k ≡ false }
        ensures some { (k : ℕ) → has self k ≡ true → result ≡ false }
    {
        self.bits == 0
    }

    /// Whether the call is in the set: never so from 128 on.
    pub fn contains(self, call: u32) -> bool
        ensures { result ≡ has self call }
    {
        let (low, high) = self.halves();
        if call < 64 {
            low >> call & 1 == 1
        } else {
            call < 128 && high >> (call - 64) & 1 == 1
        }
    }

    /// The set with one call more.
    pub fn with(self, call: u32) -> Self
        requires { call < 128 }
        ensures { (k : ℕ) → has result k ≡ (has self k || (k == call)) }
    {
        let (low, high) = self.halves();
        if call < 64 {
            Self::of_halves(low | 1 << call, high)
        } else {
            Self::of_halves(low, high | 1 << (call - 64))
        }
    }

    /// The set without this call.
    pub fn without(self, call: u32) -> Self
        ensures { (k : ℕ) → has result k ≡ (has self k && not (k == call)) }
    {
        let (low, high) = self.halves();
        if call < 64 {
            Self::of_halves(low & !(1 << call), high)
        } else if call < 128 {
            Self::of_halves(low, high & !(1 << (call - 64)))
        } else {
            self
        }
    }

    /// The calls that are in one of the sets.
    pub fn union(self, other: Self) -> Self
        ensures { (k : ℕ) → has result k ≡ (has self k || has other k) }
    {
        Self {
            bits: self.bits | other.bits,
        }
    }

    /// The calls that are in both sets.
    pub fn intersection(self, other: Self) -> Self
        ensures { (k : ℕ) → has result k ≡ (has self k && has other k) }
    {
        Self {
            bits: self.bits & other.bits,
        }
    }

    /// The calls of this set that are not in the other.
    pub fn minus(self, other: Self) -> Self
        ensures { (k : ℕ) → has result k ≡ (has self k && not (has other k)) }
    {
        Self {
            bits: self.bits & !other.bits,
        }
    }

    /// Whether each member of the other set is in this one.
    pub fn contains_all(self, other: Self) -> bool
        ensures { IsTrue result ↔ ((k : ℕ) → has other k ≡ true → has self k ≡ true) }
    {
        other.minus(self).least().is_none()
    }

    /// Whether this many first indexes are all in the set.
    pub fn has_first(self, count: usize) -> bool
        requires { count ≤ 128 }
        ensures { IsTrue result ↔ ((k : ℕ) → k < count → has self k ≡ true) }
    {
        for index in 0..count {
            if !self.contains(index as u32) {
                return false;
            }
        }
        true
    }

    /// The members above this index.
    pub fn above(self, index: u32) -> Self
        ensures { (k : ℕ) → has result k ≡ (has self k && nat_lt index k) }
    {
        let (low, high) = self.halves();
        if index < 63 {
            Self::of_halves(low & u64::MAX << (index + 1), high)
        } else if index < 127 {
            Self::of_halves(0, high & u64::MAX << (index - 63))
        } else {
            Self::empty()
        }
    }

    /// The least member.
    pub fn least(self) -> Option<u32>
        ensures member { MatchOption result ((k : ℕ) → has self k ≡ false)
            (λ call. (has self call ≡ true) × (call < 128)) }
        ensures least { MatchOption result (self ≡ 0) (λ call. (k : ℕ) → k < call
            → has self k ≡ false) }
    {
        let (low, high) = self.halves();
        if low != 0 {
            Some(low.trailing_zeros())
        } else if high != 0 {
            Some(64 + high.trailing_zeros())
        } else {
            None
        }
    }

    /// The members, rising.
    pub fn iter(self) -> Calls
        ensures { result.left ≡ self }
    {
        Calls { left: self }
    }
}

/// The members of a set of calls, rising.
#[derive(Drop)]
pub struct Calls {
    /// The members that are still to come.
    pub left: CallSet,
}

impl Iterator for Calls {
    type Item = u32;

    ghost next_gives = { YieldsFirst (λ s. members 128 s.left) };

    ghost remaining = { item_count (λ s. members 128 s.left) };

    fn next(&mut self) -> Option<u32> {
        let call = self.left.least()?;
        self.left = self.left.without(call);
        Some(call)
    }
}
