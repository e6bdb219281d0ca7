//! What calls that wait add to a bound, and how that grows while they wait.

ghost use Rattle.std.specs.Prelude.{◌≡◌, ℕ, pos, neg_ℤ, not, ◌==◌, ◌&&◌, ◌+◌, ◌-◌, ◌*◌, ◌^◌, ◌<◌, ◌≤◌, ◌+ℤ◌};
ghost use Rattle.std.specs.Prelude.{◌-ℤ◌, ◌≤ℤ◌};
ghost use Rattle.call_sets.specs.Counting.{has};
ghost use Rattle.search_model.specs.Prices.{scaled as scaled_lem};

use call_sets::CallSet;
use elevator_model::MOMENT_LIMIT;
use price_scale::scaled;

/// How a cost grows: by this many cost units each ms, until a moment in ms.
#[derive(Clone, Copy)]
pub(crate) struct Growth {
    pub(crate) slope: u64,
    pub(crate) until: u64,
}

impl Growth {
    /// That of two costs together.
    pub(crate) fn with(self, other: Growth) -> Growth
        requires slope { self.slope ≤ 2048000 }
        requires gentle { other.slope ≤ 16000 }
        ensures slope { result.slope ≡ self.slope + other.slope }
        ensures first { result.until ≤ self.until }
        ensures second { result.until ≤ other.until }
    {
        Growth {
            slope: self.slope + other.slope,
            until: self.until.min(other.until),
        }
    }
}

/// Calls that wait and count, and what they add to a bound where they board at a moment.
#[derive(Clone, Copy)]
pub(crate) struct Waiting {
    pub(crate) counted: CallSet,
    /// What they add, in thousandths of a cost unit.
    pub(crate) sum: i128,
    /// The moment in ms, and how what they cost grows from there on.
    pub(crate) moment: u64,
    pub(crate) growth: Growth,
    /// The place of an end of calls from which on the one for a later moment is looked for. No law speaks of
    /// it.
    pub(crate) place: usize,
}

impl Waiting {
    /// What they add at a later moment, as long as the growth is told.
    pub(crate) fn later(&self, moment: u64) -> Waiting
        requires later { self.now.moment ≤ moment }
        requires early { moment ≤ MOMENT_LIMIT }
        requires gentle { self.now.growth.slope ≤ 2048000 }
        requires low { neg_ℤ (pos (256 * 10 ^ 24)) ≤ℤ self.now.sum }
        requires high { self.now.sum ≤ℤ pos (256 * 10 ^ 24) }
        ensures counted { result.counted ≡ self.now.counted }
        ensures sum { result.sum ≡ self.now.sum
            +ℤ scaled_lem (self.now.growth.slope * (moment - self.now.moment)) }
        ensures moment { result.moment ≡ moment }
        ensures growth { result.growth ≡ self.now.growth }
    {
        let grown = self.growth.slope * (moment - self.moment);
        Waiting {
            counted: self.counted,
            sum: self.sum + scaled(grown),
            moment,
            growth: self.growth,
            place: self.place,
        }
    }

    /// The same, where ends of calls are looked for from this place on.
    pub(crate) fn from_place(self, place: usize) -> Waiting
        ensures counted { result.counted ≡ self.counted }
        ensures sum { result.sum ≡ self.sum }
        ensures moment { result.moment ≡ self.moment }
        ensures growth { result.growth ≡ self.growth }
        ensures place { result.place ≡ place }
    {
        Waiting {
            counted: self.counted,
            sum: self.sum,
            moment: self.moment,
            growth: self.growth,
            place,
        }
    }

    /// Without a call that adds this to the sum and this to its growth.
    pub(crate) fn without(&self, call: u32, term: i128, slope: u64) -> Waiting
        requires less { slope ≤ self.now.growth.slope }
        requires low { neg_ℤ (pos (256 * 10 ^ 24)) ≤ℤ self.now.sum }
        requires high { self.now.sum ≤ℤ pos (256 * 10 ^ 24) }
        requires term_low { neg_ℤ (pos (2 * 10 ^ 24)) ≤ℤ term }
        requires term_high { term ≤ℤ pos (2 * 10 ^ 24) }
        ensures counted { (j : ℕ) → has result.counted j
            ≡ (has self.now.counted j && not (j == call)) }
        ensures sum { result.sum ≡ self.now.sum -ℤ term }
        ensures moment { result.moment ≡ self.now.moment }
        ensures slope { result.growth.slope + slope ≡ self.now.growth.slope }
        ensures told { result.growth.until ≡ self.now.growth.until }
    {
        Waiting {
            counted: self.counted.without(call),
            sum: self.sum - term,
            moment: self.moment,
            growth: Growth {
                slope: self.growth.slope - slope,
                until: self.growth.until,
            },
            place: self.place,
        }
    }
}
