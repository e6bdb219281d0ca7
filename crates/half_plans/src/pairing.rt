//! The cheapest plan in halves.

ghost use Rattle.std.specs.Prelude.{◌≡◌, ℕ, ◌*◌, ◌<◌, ◌≤◌, ◌^◌, ◌++◌, ◌∷◌, [], pos, neg_ℤ, ◌+ℤ◌, ◌≤ℤ◌};
ghost use Rattle.std.specs.Prelude.{All, IfOk, IfSome, OnOk, None, length, true, false};
ghost use Rattle.elevator_model.specs.Snapshot.{call_count, car_count};
ghost use Rattle.half_plans.specs.Choices.{AreChoices, IsPlanPick, cost_of_picked, pairs_of};
ghost use Rattle.car_search.specs.Choosing.{IsRising, picks};
ghost use Rattle.half_plans.specs.PairPlans.{ArePairShares, IsCheapestPairing, IsPairBelow, list_of};
ghost use Rattle.half_plans.specs.PairPlans.{pairing_count, share_of, shares_below, shares_of_pair, tour_at};
ghost use Rattle.half_plans.specs.Priced.{IsPriced};

use crate::candidates::{CarPairs, choice, prices_of};
use crate::{Pair, Share};
use car_search::{Outcome, Selection, cheapest_picks, first_calls, sum_of_least};
use elevator_model::{MOST_CALLS, MOST_CARS};
use price_scale::Price;
use restricted_master::Pool;
use search_model::Items;
use std::alloc::{AllocError, Global};

/// What a search for a plan in halves found.
#[derive(Drop)]
pub struct PairChoice {
    /// The shares of a pair plan, in the order of the cars, where one was found.
    pub shares: Option<Items<Share>>,
    /// What the pair plan costs, in cost units: 0 where there is none.
    pub cost: u64,
    /// Whether as many partial pairings were tried as may be, so that a cheaper plan may have been missed.
    pub spent: bool,
}

/// The cheapest pair plan of the pool's tours, found depth first over the cars: two tours for each car,
/// perhaps one tour twice, such that each call boards twice. A partial pairing is an unordered pair of tours
/// for each of the first cars, of none up to all; at most `limit` of them are tried, which is at least 1. The
/// choice is spent only where there are as many. The only error is that memory runs out.
///
/// The prices, of which each call has one, only steer the search: they may change how many partial pairings
/// it tries, and which of the cheapest pair plans it finds.
pub fn pairs(
    alloc: Global,
    pool: &Pool,
    prices: &[Price],
    limit: u64,
) -> Result<PairChoice, AllocError>
    requires prices { length prices.now ≡ call_count pool.now.snapshot }
    requires limit { 1 ≤ limit }
    ensures shares { IfOk result (λ choice. IfSome choice.shares (λ shares.
        ArePairShares pool.now.snapshot pool.now.tours shares choice.cost)) }
    ensures no_cost { IfOk result (λ choice. choice.shares ≡ None → choice.cost ≡ 0) }
    ensures cheapest { IfOk result (λ choice. choice.spent ≡ false
        → IsCheapestPairing pool.now.snapshot pool.now.tours choice.shares choice.cost) }
    ensures spent { IfOk result
        (λ choice. choice.spent ≡ true → limit ≤ pairing_count pool.now.tours) }
{
    prove!(pool.snapshot().calls().len() <= MOST_CALLS);
    let choices = choices(alloc, pool, prices)?;
    let found = best_picks(pool, &choices, prices, limit);
    choice_of(alloc, pool, &choices, found)
}

/// How many cars there are.
fn count_cars(pool: &Pool) -> usize
    ensures { result ≡ car_count pool.now.snapshot }
{
    pool.snapshot().building().cars().len()
}

/// The pairs of each car's tours as candidates at these prices.
fn choices(alloc: Global, pool: &Pool, prices: &[Price]) -> Result<Vec<CarPairs>, AllocError>
    requires { length prices.now ≤ MOST_CALLS }
    ensures choices { IfOk result (λ choices. AreChoices pool.now.snapshot pool.now.tours choices.items) }
    ensures priced { IfOk result (λ choices. All (IsPriced prices.now) choices.items) }
    ensures rising { IfOk result
        (λ choices. All (λ x. IsRising x.candidates.items) choices.items) }
{
    let cars = count_cars(pool);
    let mut choices = Vec::with_capacity(alloc, cars)?;
    for car in 0..cars {
        choices.push(choice(alloc, pool, car, prices)?)?;
    }
    Ok(choices)
}

/// The picks of a cheapest pair plan.
fn best_picks(pool: &Pool, choices: &[CarPairs], prices: &[Price], limit: u64) -> Outcome
    requires choices { AreChoices pool.now.snapshot pool.now.tours choices.now }
    requires prices { length prices.now ≡ call_count pool.now.snapshot }
    requires priced { All (IsPriced prices.now) choices.now }
    requires rising { All (λ x. IsRising x.candidates.items) choices.now }
    ensures few { length choices.now ≤ MOST_CARS }
    ensures picked { IfSome result.picked
        (IsPlanPick pool.now.snapshot pool.now.tours choices.now) }
    ensures cheapest { result.spent ≡ false → IsCheapestPairing pool.now.snapshot pool.now.tours
        result.picked (cost_of_picked result.picked) }
    ensures spent { result.spent ≡ true → limit ≤ pairing_count pool.now.tours }
{
    let all = first_calls(pool.snapshot().calls().len());
    let bound = root_bound(prices_of(all, prices), sum_of_least(choices));
    cheapest_picks(choices, all, bound, u64::MAX, limit)
}

/// What no pair plan costs less than, in thousandths of a cost unit: each price is paid twice.
fn root_bound(prices: i128, least: i128) -> i128
    requires low_prices { neg_ℤ (pos (10 ^ 27)) ≤ℤ prices }
    requires high_prices { prices ≤ℤ pos (10 ^ 27) }
    requires low { neg_ℤ (pos (10 ^ 28)) ≤ℤ least }
    requires high { least ≤ℤ pos (10 ^ 28) }
    ensures { result ≡ ((prices +ℤ prices) +ℤ least) }
{
    prices + prices + least
}

/// The choice of the picks that were found, if any.
fn choice_of(
    alloc: Global,
    pool: &Pool,
    choices: &[CarPairs],
    found: Outcome,
) -> Result<PairChoice, AllocError>
    requires cars { length choices.now ≡ car_count pool.now.snapshot }
    requires few { length choices.now ≤ MOST_CARS }
    requires picked { IfSome found.picked
        (IsPlanPick pool.now.snapshot pool.now.tours choices.now) }
    ensures shares { IfOk result (λ choice. IfSome choice.shares (λ shares.
        ArePairShares pool.now.snapshot pool.now.tours shares choice.cost)) }
    ensures no_cost { IfOk result (λ choice. choice.shares ≡ None → choice.cost ≡ 0) }
    ensures cheapest { IfOk result (λ choice. IsCheapestPairing pool.now.snapshot pool.now.tours
        found.picked (cost_of_picked found.picked)
        → IsCheapestPairing pool.now.snapshot pool.now.tours choice.shares choice.cost) }
    ensures spent { IfOk result (λ choice. choice.spent ≡ found.spent) }
{
    let Some(picked) = found.picked else {
        return Ok(PairChoice {
            shares: None,
            cost: 0,
            spent: found.spent,
        });
    };
    Ok(PairChoice {
        shares: Some(shares_of(alloc, pool, choices, &picked)?),
        cost: picked.cost,
        spent: found.spent,
    })
}

/// The shares of the pairs that were picked, in the order of the cars.
fn shares_of(
    alloc: Global,
    pool: &Pool,
    choices: &[CarPairs],
    picked: &Selection,
) -> Result<Items<Share>, AllocError>
    requires few { length choices.now ≤ MOST_CARS }
    requires picked { IsPlanPick pool.now.snapshot pool.now.tours choices.now picked.now }
    requires cars { length choices.now ≡ car_count pool.now.snapshot }
    ensures { IfOk result (λ shares. shares
        ≡ shares_below pool.now.tours (pairs_of choices.now (picks picked.now)) (length choices.now)) }
{
    let mut shares = Items::new(alloc);
    for car in 0..choices.len() {
        let candidate = &choices[car].candidates[picked.places[car]];
        push_shares(alloc, pool, car, candidate.item, &mut shares)?;
    }
    Ok(shares)
}

/// Adds the shares of a pair of the car's tours.
fn push_shares(
    alloc: Global,
    pool: &Pool,
    car: usize,
    pair: Pair,
    shares: &mut Items<Share>,
) -> Result<(), AllocError>
    requires car { car < MOST_CARS }
    requires pair { IsPairBelow (length (list_of pool.now.tours car)) pair }
    ensures { OnOk result
        (shares.new ≡ shares.old ++ shares_of_pair car (list_of pool.now.tours car) pair) }
{
    if pair.first == pair.second {
        push_share(alloc, pool, car, pair.first, 2, shares)
    } else {
        push_share(alloc, pool, car, pair.first, 1, shares)?;
        push_share(alloc, pool, car, pair.second, 1, shares)
    }
}

/// Adds the car's tour at a place as a share of this weight.
fn push_share(
    alloc: Global,
    pool: &Pool,
    car: usize,
    place: usize,
    weight: u64,
    shares: &mut Items<Share>,
) -> Result<(), AllocError>
    requires car { car < MOST_CARS }
    requires place { place < length (list_of pool.now.tours car) }
    ensures { OnOk result (shares.new ≡ shares.old
        ++ share_of car weight (tour_at (list_of pool.now.tours car) place) ∷ []) }
{
    let car = car as u32;
    let Some(tour) = pool.tour(car, place) else {
        unreachable!()
    };
    let tour = tour.copy(alloc)?;
    shares.push(Share { car, weight, tour })?;
    Ok(())
}
