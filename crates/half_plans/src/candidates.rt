//! The pairs of a car's tours, as candidates at given prices.

ghost use Rattle.std.specs.Prelude.{◌≡◌, ℕ, ◌+◌, ◌*◌, ◌<◌, ◌≤◌, ◌^◌, pos, neg_ℤ, ◌≤ℤ◌};
ghost use Rattle.std.specs.Prelude.{IfOk, OnOk, length, slice_index_or};
ghost use Rattle.elevator_model.specs.Snapshot.{car_count};
ghost use Rattle.restricted_master.specs.Columns.{IsColumn};
ghost use Rattle.restricted_master.specs.Priced.{prices_in, reduced_cost_of};
ghost use Rattle.half_plans.specs.Choices.{AreCandidates};
ghost use Rattle.car_search.specs.Choosing.{IsRising};
ghost use Rattle.half_plans.specs.PairPlans.{list_of, pair_count};
ghost use Rattle.half_plans.specs.Priced.{ArePricedTours, AreMade, AreNear, IsNear, IsPriced, IsPricedTour};
ghost use Rattle.half_plans.specs.Priced.{candidate_of};

use crate::Pair;
use crate::two_sets::TwoSets;
use call_sets::CallSet;
use call_state::Snapshot;
use car_search::{Candidate, CarChoice};
use elevator_model::MOST_CALLS;
use price_scale::{Price, scaled};
use restricted_master::{Column, Pool};
use std::alloc::{AllocError, Global};
use tour_cost::cost;

/// No reduced cost of a tour is greater, in thousandths of a cost unit: 10^18 cost units and 128 prices of
/// 10^24.
const MOST_REDUCED_COST: i128 = 200_000_000_000_000_000_000_000_000;

/// A pair of a car's tours as a candidate: it stands for their places.
pub(crate) type PairCandidate = Candidate<Pair, TwoSets>;

/// The pairs of a car's tours as candidates.
pub(crate) type CarPairs = CarChoice<Pair, TwoSets>;

/// What pairs ask of a tour.
#[derive(Clone, Copy)]
pub(crate) struct PricedTour {
    /// In cost units.
    pub(crate) cost: u64,
    pub(crate) calls: CallSet,
    /// In thousandths of a cost unit.
    pub(crate) reduced: i128,
}

impl PricedTour {
    /// The tour of a column of the car at these prices. Its cost is computed anew, since that comes with a
    /// tighter bound than the column's: those of 32 tours fit 64 bits together.
    fn new(snapshot: &Snapshot, car: u32, column: &Column, prices: &[Price]) -> Self
        requires car { car < car_count snapshot.now }
        requires column { IsColumn snapshot.now car column.now }
        requires few { length prices.now ≤ MOST_CALLS }
        ensures { IsPricedTour snapshot.now car prices.now column.now.tour result }
    {
        prove!(snapshot.calls().len() <= MOST_CALLS);
        let cost = cost(snapshot, car, &column.tour);
        PricedTour {
            cost,
            calls: column.calls,
            reduced: reduced_cost(cost, column.calls, prices),
        }
    }
}

/// What a tour costs without the prices of its calls, in thousandths of a cost unit.
fn reduced_cost(cost: u64, calls: CallSet, prices: &[Price]) -> i128
    requires small { cost ≤ 10 ^ 18 }
    requires few { length prices.now ≤ MOST_CALLS }
    ensures value { result ≡ reduced_cost_of prices.now cost calls }
    ensures low { neg_ℤ (pos (2 * 10 ^ 26)) ≤ℤ result }
    ensures high { result ≤ℤ pos (2 * 10 ^ 26) }
{
    scaled(cost) - prices_of(calls, prices)
}

/// The sum of the prices of a set's calls.
pub(crate) fn prices_of(calls: CallSet, prices: &[Price]) -> i128
    requires { length prices.now ≤ MOST_CALLS }
    ensures sum { result ≡ prices_in prices.now calls }
    ensures low { neg_ℤ (pos (128 * 10 ^ 24)) ≤ℤ result }
    ensures high { result ≤ℤ pos (128 * 10 ^ 24) }
{
    let mut sum = 0;
    for call in 0..prices.len() {
        if calls.contains(call as u32) {
            sum += prices[call].value();
        }
    }
    sum
}

/// The least reduced cost of the tours, in thousandths of a cost unit.
fn least_reduced_cost(tours: &[PricedTour]) -> i128
    requires { (k : ℕ) (d : PricedTour) → k < length tours.now → IsNear (slice_index_or tours.now k d) }
    ensures least { (k : ℕ) (d : PricedTour) → k < length tours.now
        → result ≤ℤ (slice_index_or tours.now k d).reduced }
    ensures low { neg_ℤ (pos (2 * 10 ^ 26)) ≤ℤ result }
    ensures high { result ≤ℤ pos (2 * 10 ^ 26) }
{
    let mut least = MOST_REDUCED_COST;
    for tour in tours {
        least = least.min(tour.reduced);
    }
    least
}

/// The tours of a car that the pool holds, at these prices.
fn priced_tours(
    alloc: Global,
    pool: &Pool,
    car: usize,
    prices: &[Price],
) -> Result<Vec<PricedTour>, AllocError>
    requires car { car < car_count pool.now.snapshot }
    requires few { length prices.now ≤ MOST_CALLS }
    ensures { IfOk result (λ tours.
        ArePricedTours pool.now.snapshot car prices.now (list_of pool.now.tours car) tours.items) }
{
    let snapshot = pool.snapshot();
    let columns = pool.columns(car as u32);
    let mut tours = Vec::with_capacity(alloc, columns.len())?;
    for place in 0..columns.len() {
        tours.push(PricedTour::new(snapshot, car as u32, &columns[place], prices))?;
    }
    Ok(tours)
}

/// A pair of tours as a candidate. `least` is the least reduced cost of the car's tours.
fn candidate(pair: Pair, first: PricedTour, second: PricedTour, least: i128) -> PairCandidate
    requires first { IsNear first }
    requires second { IsNear second }
    requires low { neg_ℤ (pos (2 * 10 ^ 26)) ≤ℤ least }
    requires least_first { least ≤ℤ first.reduced }
    requires least_second { least ≤ℤ second.reduced }
    ensures value { result ≡ candidate_of least pair first second }
{
    Candidate {
        item: pair,
        cost: first.cost + second.cost,
        calls: TwoSets {
            first: first.calls,
            second: second.calls,
        },
        excess: (first.reduced - least) + (second.reduced - least),
    }
}

/// Adds the pairs of which this is the second place, after those of the places before.
fn push_pairs(
    candidates: &mut Vec<PairCandidate>,
    tours: &[PricedTour],
    second: usize,
    least: i128,
) -> Result<(), AllocError>
    requires second { second < length tours.now }
    requires near { AreNear least tours.now }
    requires made { AreMade least tours.now candidates.old.items }
    requires counted { length candidates.old.items ≡ pair_count second }
    ensures made { OnOk result (AreMade least tours.now candidates.new.items) }
    ensures counted { OnOk result (length candidates.new.items ≡ pair_count (second + 1)) }
{
    for first in 0..second + 1 {
        let pair = Pair { first, second };
        candidates.push(candidate(pair, tours[first], tours[second], least))?;
    }
    Ok(())
}

/// All pairs of the tours.
fn candidates_of(
    alloc: Global,
    tours: &[PricedTour],
    least: i128,
) -> Result<Vec<PairCandidate>, AllocError>
    requires near { AreNear least tours.now }
    ensures made { IfOk result (λ candidates. AreMade least tours.now candidates.items) }
    ensures counted { IfOk result
        (λ candidates. length candidates.items ≡ pair_count (length tours.now)) }
{
    let mut candidates = Vec::new(alloc);
    for second in 0..tours.len() {
        push_pairs(&mut candidates, tours, second, least)?;
    }
    Ok(candidates)
}

/// The pairs of a car's tours as candidates at these prices.
fn unsorted_choice(
    alloc: Global,
    pool: &Pool,
    car: usize,
    prices: &[Price],
) -> Result<CarPairs, AllocError>
    requires car { car < car_count pool.now.snapshot }
    requires few { length prices.now ≤ MOST_CALLS }
    ensures candidates { IfOk result (λ x.
        AreCandidates pool.now.snapshot car (list_of pool.now.tours car) x.candidates.items) }
    ensures priced { IfOk result (IsPriced prices.now) }
{
    let tours = priced_tours(alloc, pool, car, prices)?;
    let least = least_reduced_cost(tours.as_slice());
    let candidates = candidates_of(alloc, tours.as_slice(), least)?;
    Ok(CarChoice {
        candidates,
        least: least + least,
    })
}

/// The same by rising reduced cost.
pub(crate) fn choice(
    alloc: Global,
    pool: &Pool,
    car: usize,
    prices: &[Price],
) -> Result<CarPairs, AllocError>
    requires car { car < car_count pool.now.snapshot }
    requires few { length prices.now ≤ MOST_CALLS }
    ensures candidates { IfOk result (λ x.
        AreCandidates pool.now.snapshot car (list_of pool.now.tours car) x.candidates.items) }
    ensures priced { IfOk result (IsPriced prices.now) }
    ensures rising { IfOk result (λ x. IsRising x.candidates.items) }
{
    let choice = unsorted_choice(alloc, pool, car, prices)?;
    Ok(choice.sorted())
}
