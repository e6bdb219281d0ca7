//! What a leaf states, entry by entry.

ghost use Rattle.std.specs.Prelude.{◌≡◌, ℕ, ◌*◌, ◌<◌, ◌≤◌, ◌^◌, ◌≤ℤ◌, neg_ℤ, pos, true, All, length, map};
ghost use Rattle.search_model.specs.Certificates.{are_each_once as are_each_once_lem};
ghost use Rattle.search_model.specs.Prices.{price_at};
ghost use Rattle.search_model.specs.Sums.{int_sum_by};
ghost use Rattle.kept_tours.specs.Leaves.{HasWorthSize, claim_among, claim_at, price_among, worth_among};
ghost use Rattle.kept_tours.specs.Leaves.{worth_at};

use call_sets::CallSet;
use elevator_model::{MOST_CALLS, MOST_CARS};
use price_scale::Price;
use search_model::{PriceOf, WorthOf};

/// An entry of a leaf's list: what it states of one call, or of one car.
pub(crate) trait Entry {
    /// Of which call or car.
    ghost key: { Self → ℕ };

    fn key(&self) -> u32
        ensures { result ≡ key self.now };
}

impl Entry for PriceOf {
    ghost key = { λ p. p.call };

    fn key(&self) -> u32 {
        self.call
    }
}

impl Entry for WorthOf {
    ghost key = { λ w. w.car };

    fn key(&self) -> u32 {
        self.car
    }
}

/// What a leaf states of a car.
#[derive(Clone, Copy)]
pub struct Stake {
    /// In thousandths of a cost unit.
    pub worth: i128,
    pub claim: u64,
}

/// Whether there is one entry for each of this many calls or cars, and no other.
pub(crate) fn are_each_once<E: Entry>(entries: &[E], count: usize) -> bool
    requires { count ≤ MOST_CALLS }
    ensures { result ≡ are_each_once_lem count (map E.key entries.now) }
{
    if entries.len() != count {
        return false;
    }
    let mut seen = CallSet::empty();
    for entry in entries {
        let key = entry.key();
        if key as usize >= count {
            return false;
        }
        seen = seen.with(key);
    }
    seen.has_first(count)
}

/// Puts each price into the place of its call. There has to be one for each.
pub(crate) fn write_prices(entries: &[PriceOf], prices: &mut [Price])
    requires { are_each_once_lem (length prices.old) (map (λ p. p.call) entries.now) ≡ true }
    ensures { (j : ℕ) → price_at prices.new j ≡ price_among entries.now j }
{
    for entry in entries {
        prices[entry.call as usize] = entry.price;
    }
}

/// Puts each worth with its claim into the place of its car. There has to be one for each.
pub(crate) fn write_stakes(entries: &[WorthOf], stakes: &mut [Stake])
    requires { are_each_once_lem (length stakes.old) (map (λ w. w.car) entries.now) ≡ true }
    ensures worths { (c : ℕ) → worth_at stakes.new c ≡ worth_among entries.now c }
    ensures claims { (c : ℕ) → claim_at stakes.new c ≡ claim_among entries.now c }
{
    for entry in entries {
        stakes[entry.car as usize] = Stake {
            worth: entry.worth,
            claim: entry.claim,
        };
    }
}

/// The sum of at most 128 prices, in thousandths of a cost unit.
pub(crate) fn sum_of_prices(entries: &[PriceOf]) -> i128
    requires { length entries.now ≤ MOST_CALLS }
    ensures sum { result ≡ int_sum_by (λ p. p.price) entries.now }
    ensures low { neg_ℤ (pos (128 * 10 ^ 24)) ≤ℤ result }
    ensures high { result ≤ℤ pos (128 * 10 ^ 24) }
{
    let mut sum = 0;
    for entry in entries {
        sum += entry.price.value();
    }
    sum
}

/// The sum of at most 16 worths of absolute value at most 10^27, in thousandths of a cost unit.
pub(crate) fn sum_of_worths(entries: &[WorthOf]) -> i128
    requires few { length entries.now ≤ MOST_CARS }
    requires sizes { All HasWorthSize entries.now }
    ensures sum { result ≡ int_sum_by (λ w. w.worth) entries.now }
    ensures low { neg_ℤ (pos (16 * 10 ^ 27)) ≤ℤ result }
    ensures high { result ≤ℤ pos (16 * 10 ^ 27) }
{
    let mut sum = 0;
    for entry in entries {
        sum += entry.worth;
    }
    sum
}
