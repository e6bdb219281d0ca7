//! Rows of the inverse of a basis.

ghost use Rattle.std.specs.Prelude.{◌≡◌, length};

use crate::entries::Entry;
use crate::fixed::{ONE, product, quotient};
use std::alloc::{AllocError, Global};

/// A row: what is basic in it, its part of the inverse, in which each call and then each car has an entry, and
/// the share of what is basic in it as the last entry. All of them are in 2^40ths.
#[derive(Drop)]
pub(crate) struct Row {
    pub(crate) basic: Entry,
    pub(crate) parts: Vec<i64>,
}

impl Row {
    /// A row of the first basis, of which this entry alone is basic at a place below the size. It fails only
    /// where there is no memory left.
    pub(crate) fn new(
        alloc: Global,
        basic: Entry,
        place: usize,
        size: usize,
    ) -> Result<Self, AllocError> {
        let mut parts = vec![in alloc; 0; size.saturating_add(1)]?;
        for at in [place, size] {
            if let Some(part) = parts.get_mut(at) {
                *part = ONE;
            }
        }
        Ok(Row { basic, parts })
    }

    /// The entry at a place.
    pub(crate) fn part(&self, place: usize) -> i64 {
        self.parts.get(place).copied().unwrap_or(0)
    }

    /// The share of what is basic in it: at least 0 but for what rounding has taken.
    pub(crate) fn share(&self) -> i64 {
        self.parts.as_slice().last().copied().unwrap_or(0).max(0)
    }

    /// By how much the share falls where that of an entry rises by one; the cars begin after this many calls.
    pub(crate) fn rate(&self, entry: &Entry, calls: usize) -> i64 {
        match entry {
            Entry::Untaken(call) => self.part(*call),
            Entry::Doubled(call) => self.part(*call).saturating_neg(),
            Entry::Idle(car) => self.part(calls.saturating_add(*car)),
            Entry::Tour(column) => {
                let mut rate = self.part(calls.saturating_add(column.car as usize));
                for call in column.calls.iter() {
                    rate = rate.saturating_add(self.part(call as usize));
                }
                rate
            }
        }
    }

    /// Divides the row. None where an entry would not fit.
    pub(crate) fn divide(&mut self, divisor: i64) -> Option<()> {
        for part in self.parts.iter_mut() {
            *part = quotient(*part, divisor)?;
        }
        Some(())
    }

    /// Takes a multiple of another row away. None where an entry would not fit.
    pub(crate) fn take_away(&mut self, times: i64, other: &[i64]) -> Option<()> {
        for (part, other) in self.parts.iter_mut().zip(other) {
            let rest = i128::from(*part).saturating_sub(product(times, *other));
            *part = i64::try_from(rest).ok()?;
        }
        Some(())
    }
}
