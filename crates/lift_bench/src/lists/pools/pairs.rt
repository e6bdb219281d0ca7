//! Plans in halves that are made of tours of a pool, and a list of all of them.

ghost use Rattle.std.specs.Prelude.{◌≡◌, ◌≤◌, length};
ghost use Rattle.elevator_model.specs.Snapshot.{call_count};

use crate::lists::pools::listing::{cars_of, columns_of, count_of, has_tour};
use crate::lists::pools::tally::PairCounts;
use case_kit::{boards_of, lawful_cost};
use half_plans::{PairChoice, Share, pairs};
use price_scale::Price;
use restricted_master::{Column, Pool};
use std::alloc::{AllocError, Global};

/// A limit that few pools come to.
const FAR: u64 = 1_000_000;

/// More plans in halves are not listed.
const MOST_WAYS: u64 = 500;

/// How many calls a drawn snapshot has at most.
const CALLS: usize = 4;

/// What is known of a pool from its list of plans in halves.
#[derive(Clone, Copy)]
struct Known {
    /// The least cost of one, where there is one.
    least: Option<u64>,
    pairings: u64,
}

/// How many unordered pairs there are of this many tours.
fn pair_count(tours: u64) -> u64 {
    tours.wrapping_mul(tours.wrapping_add(1)) / 2
}

/// How many ways there are to take a pair of tours of each car.
fn pair_ways(pool: &Pool<'_>) -> u64 {
    let mut ways: u64 = 1;
    for car in 0..cars_of(pool) {
        ways = ways.saturating_mul(pair_count(count_of(pool, car)));
    }
    ways
}

/// How many partial pairings there are: pairs of the first cars, of none up to all.
fn pairings(pool: &Pool<'_>) -> u64 {
    let (mut ways, mut sum): (u64, u64) = (1, 1);
    for car in 0..cars_of(pool) {
        ways = ways.saturating_mul(pair_count(count_of(pool, car)));
        sum = sum.saturating_add(ways);
    }
    sum
}

/// The places of a pair, of which those with a lesser second place come first.
fn places_of(pair: u64) -> (u64, u64) {
    let mut left = pair;
    for second in 0..64 {
        if left <= second {
            return (left, second);
        }
        left = left.wrapping_sub(second).wrapping_sub(1);
    }
    (0, 0)
}

/// How often each call boards in tours, and what they cost.
#[derive(Clone, Copy)]
struct Taking {
    times: [u64; CALLS],
    cost: u64,
}

impl Taking {
    fn none() -> Self {
        Taking {
            times: [0; CALLS],
            cost: 0,
        }
    }

    /// The same with one tour more.
    fn with(self, column: &Column) -> Self {
        let mut times = self.times;
        for call in 0..CALLS {
            times[call] = times[call].wrapping_add(u64::from(column.calls.contains(call as u32)));
        }
        Taking {
            times,
            cost: self.cost.wrapping_add(column.cost),
        }
    }

    /// The same with the tour at a place.
    fn with_place(self, columns: &[Column], place: u64) -> Self {
        match columns.get(place as usize) {
            Some(column) => self.with(column),
            None => self,
        }
    }

    /// What the tours cost, if each of the first calls boards twice.
    fn cost_of_all(&self, calls: usize) -> Option<u64> {
        for call in 0..CALLS {
            if call < calls && self.times[call] != 2 {
                return None;
            }
        }
        Some(self.cost)
    }
}

/// What is taken in one of the ways, which are numbered from 0.
fn taken_in(pool: &Pool<'_>, way: u64) -> Taking {
    let mut left = way;
    let mut taking = Taking::none();
    for car in 0..cars_of(pool) {
        let count = pair_count(count_of(pool, car)).max(1);
        let (first, second) = places_of(left % count);
        let columns = columns_of(pool, car).unwrap_or(&[]);
        taking = taking
            .with_place(columns, first)
            .with_place(columns, second);
        left /= count;
    }
    taking
}

/// The least cost of a plan in halves that is made of tours of the pool. None where there is none.
fn least_cost(pool: &Pool<'_>) -> Option<u64> {
    let calls = pool.snapshot().calls().len();
    let mut least: Option<u64> = None;
    for way in 0..pair_ways(pool) {
        if let Some(cost) = taken_in(pool, way).cost_of_all(calls) {
            least = Some(least.unwrap_or(cost).min(cost));
        }
    }
    least
}

/// The weights of the shares of this car.
fn weight_of_car(shares: &[Share], car: u32) -> u64 {
    let mut sum: u64 = 0;
    for share in shares {
        if share.car == car {
            sum = sum.wrapping_add(share.weight);
        }
    }
    sum
}

/// The weights of the shares whose tours board this call.
fn weight_of_call(shares: &[Share], call: u32) -> u64 {
    let mut sum: u64 = 0;
    for share in shares {
        if boards_of(&share.tour).contains(call) {
            sum = sum.wrapping_add(share.weight);
        }
    }
    sum
}

/// Whether each car and each call has the weight 2.
fn have_halves(pool: &Pool<'_>, shares: &[Share]) -> bool {
    for car in 0..cars_of(pool) {
        if weight_of_car(shares, car) != 2 {
            return false;
        }
    }
    let calls = pool.snapshot().calls().len();
    for call in 0..CALLS {
        if call < calls && weight_of_call(shares, call as u32) != 2 {
            return false;
        }
    }
    true
}

/// What the shares cost, where each has a weight and is a tour of the pool.
fn shares_cost(pool: &Pool<'_>, shares: &[Share]) -> Option<u64> {
    let mut sum: u64 = 0;
    for share in shares {
        if share.weight == 0 || !has_tour(pool, share.car, &share.tour) {
            return None;
        }
        let cost = lawful_cost(pool.snapshot(), share.car, &share.tour)?;
        sum = sum.wrapping_add(cost.wrapping_mul(share.weight));
    }
    Some(sum)
}

/// Whether the cars of the shares do not fall.
fn are_in_order(shares: &[Share]) -> bool {
    let mut last = 0;
    for share in shares {
        if share.car < last {
            return false;
        }
        last = share.car;
    }
    true
}

/// Whether the shares are those of a plan in halves that is made of tours of the pool, with this cost.
fn are_right(pool: &Pool<'_>, shares: &[Share], cost: u64) -> bool {
    shares_cost(pool, shares) == Some(cost) && have_halves(pool, shares) && are_in_order(shares)
}

/// Compares the shares that were found, if any, with the tours of the pool.
fn note_shares(pool: &Pool<'_>, choice: &PairChoice, tally: &mut PairCounts) {
    match &choice.shares {
        Some(shares) => tally
            .plans
            .note(are_right(pool, shares.as_slice(), choice.cost)),
        None => tally.none.note(choice.cost == 0),
    }
}

/// What the plan in halves costs. None where there is none.
fn found_cost(choice: &PairChoice) -> Option<u64> {
    if choice.shares.is_some() {
        Some(choice.cost)
    } else {
        None
    }
}

/// Compares a choice that was made with this limit.
fn note_choice(known: Known, limit: u64, choice: &PairChoice, tally: &mut PairCounts) {
    if choice.spent {
        tally.spent.note(limit <= known.pairings);
    } else {
        tally.least.note(found_cost(choice) == known.least);
    }
    if limit == 1 {
        tally.first.note(choice.spent && choice.shares.is_none());
    }
}

/// Looks for plans in halves with several limits, and compares what is found with a list of all of them.
fn compare_listed(
    alloc: Global,
    pool: &Pool<'_>,
    prices: &[Price],
    tally: &mut PairCounts,
) -> Result<(), AllocError>
    requires { length prices.now ≡ call_count pool.now.snapshot }
{
    let known = Known {
        least: least_cost(pool),
        pairings: pairings(pool),
    };
    tally.pools = tally.pools.wrapping_add(1);
    for limit in [FAR, 1, 2, 7, 40, 300] {
        let limit = limit.max(1);
        let choice = pairs(alloc, pool, prices, limit)?;
        note_shares(pool, &choice, tally);
        note_choice(known, limit, &choice, tally);
    }
    Ok(())
}

/// Looks for a plan in halves of a pool that has too many to list, and notes whether a low limit was reached.
fn compare_large(
    alloc: Global,
    pool: &Pool<'_>,
    prices: &[Price],
    tally: &mut PairCounts,
) -> Result<(), AllocError>
    requires { length prices.now ≡ call_count pool.now.snapshot }
{
    let choice = pairs(alloc, pool, prices, 100)?;
    note_shares(pool, &choice, tally);
    tally.large = tally.large.wrapping_add(1);
    tally.quick = tally.quick.wrapping_add(u64::from(!choice.spent));
    Ok(())
}

/// Looks for plans in halves at these prices, and compares what is found.
pub(crate) fn compare_pairs(
    alloc: Global,
    pool: &Pool<'_>,
    prices: &[Price],
    tally: &mut PairCounts,
) -> Result<(), AllocError>
    requires { length prices.now ≡ call_count pool.now.snapshot }
{
    if pair_ways(pool) > MOST_WAYS {
        return compare_large(alloc, pool, prices, tally);
    }
    compare_listed(alloc, pool, prices, tally)
}

/// Whether the cheapest plan in halves has this cost.
pub(crate) fn is_least(alloc: Global, pool: &Pool<'_>, prices: &[Price], due: u64) -> bool
    requires { length prices.now ≡ call_count pool.now.snapshot }
{
    match pairs(alloc, pool, prices, FAR) {
        Ok(choice) => !choice.spent && found_cost(&choice) == Some(due),
        Err(_) => false,
    }
}
