//! Pools of drawn tours, and prices that are drawn.

use elevator_model::Tour;
use plain_solver::feasible_tours;
use price_scale::Price;
use restricted_master::Pool;
use search_model::Draws;
use std::alloc::{AllocError, Global};
use tour_rules::judge;

/// Puts a tour of the car in. Says whether there is such a car and the tour is feasible; else the pool stays
/// as it is.
pub(crate) fn offer(pool: &mut Pool<'_>, car: u32, tour: Tour) -> bool {
    let snapshot = pool.snapshot();
    if snapshot.building().cars().len() <= car as usize || judge(snapshot, car, &tour).is_err() {
        return false;
    }
    pool.put(car, tour);
    true
}

/// All feasible tours of the car, and none where there is no such car.
pub(crate) fn tours_of(alloc: Global, pool: &Pool<'_>, car: u32) -> Result<Vec<Tour>, AllocError> {
    let snapshot = pool.snapshot();
    if snapshot.building().cars().len() <= car as usize {
        return Ok(Vec::new(alloc));
    }
    feasible_tours(alloc, snapshot, car)
}

/// Puts a tour of the car in with a chance of one in `part`.
fn offer_drawn(pool: &mut Pool<'_>, car: u32, tour: Tour, part: u32, draws: &mut Draws) {
    if draws.pick(part.max(1)) == 0 {
        offer(pool, car, tour);
    }
}

/// Puts about one in `part` of the car's feasible tours in.
fn fill_car(
    alloc: Global,
    pool: &mut Pool<'_>,
    car: u32,
    part: u32,
    draws: &mut Draws,
) -> Result<(), AllocError> {
    for tour in tours_of(alloc, pool, car)? {
        offer_drawn(pool, car, tour, part, draws);
    }
    Ok(())
}

/// Puts drawn tours of all cars in: of some cars many, of some few.
pub(crate) fn fill(
    alloc: Global,
    pool: &mut Pool<'_>,
    draws: &mut Draws,
) -> Result<(), AllocError> {
    for car in 0..8 {
        let part = 1 + draws.pick(9) * draws.pick(4);
        fill_car(alloc, pool, car, part, draws)?;
    }
    Ok(())
}

/// A price for each call: thousandths of up to 40000 cost units, one in four of them below 0.
pub(crate) fn prices_of(
    alloc: Global,
    calls: usize,
    draws: &mut Draws,
) -> Result<Vec<Price>, AllocError> {
    let mut prices = Vec::new(alloc);
    for _ in 0..calls {
        let most = i128::from(draws.pick(40_000_001));
        let value = if draws.pick(4) == 0 { -most } else { most };
        if let Some(price) = Price::new(value) {
            prices.push(price)?;
        }
    }
    Ok(prices)
}
