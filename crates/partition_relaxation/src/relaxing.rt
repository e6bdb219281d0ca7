//! The relaxation, and what it says.

ghost use Rattle.std.specs.Prelude.{◌≡◌, ℕ, ◌<◌, ◌≤◌, IfOk, IfSome, length};
ghost use Rattle.partition_relaxation.specs.Reaching.{AreWithin, IsWithin};

use crate::columns::Column;
use crate::entries::Entry;
use crate::fixed::{LEAST_SHARE, MOST_COST};
use crate::simplex::{Costs, Simplex};
use price_scale::Price;
use std::alloc::{AllocError, Global};

/// How much of a tour is taken.
#[derive(Clone, Copy)]
pub struct Share {
    pub column: Column,
    /// In 2^40ths.
    pub share: i64,
}

/// What a relaxation says.
#[derive(Drop)]
pub struct Relaxation {
    /// Dual values of the calls.
    pub prices: Vec<Price>,
    /// What the shares cost, in thousandths of a cost unit, with what calls cost there that are not taken once:
    /// at these prices the tours say as much.
    pub value: i128,
    /// The tours of the last basis.
    pub shares: Vec<Share>,
    /// Whether some call is not taken once, so that its price was held at its reach.
    pub is_held: bool,
    /// Whether no tour lowers the cost any more: else a limit of steps was reached.
    pub is_least: bool,
}

/// A price that is moved by a way, as a cost of the linear program: None where it is too large.
fn cost_of(price: Price, way: i128) -> Option<i64> {
    let cost = i64::try_from(price.value().saturating_add(way)).ok()?;
    if cost < -MOST_COST || MOST_COST < cost {
        return None;
    }
    Some(cost)
}

/// The costs of calls at their centres, moved by a way. None where one is too large; it fails only where there is
/// no memory left.
fn costs_of(alloc: Global, centre: &[Price], way: i128) -> Result<Option<Vec<i64>>, AllocError> {
    let mut costs = Vec::new(alloc);
    for price in centre {
        let Some(cost) = cost_of(*price, way) else {
            return Ok(None);
        };
        costs.push(cost)?;
    }
    Ok(Some(costs))
}

/// What a car without a tour costs: more than any of these tours, and than any calls that are taken or not for its
/// sake.
fn idle_cost(columns: &[Column], untaken: &[i64], doubled: &[i64]) -> i64 {
    let mut cost: i64 = 1;
    for column in columns {
        cost = cost.max(column.cost);
    }
    for call in untaken.iter().chain(doubled) {
        cost = cost.saturating_add(call.saturating_abs());
    }
    cost
}

/// What the columns of the linear program cost. None where one costs too much; it fails only where there is no
/// memory left.
fn costs_in(
    alloc: Global,
    centre: &[Price],
    reach: u64,
    columns: &[Column],
) -> Result<Option<Costs>, AllocError> {
    let reach = i128::from(reach);
    let Some(untaken) = costs_of(alloc, centre, reach)? else {
        return Ok(None);
    };
    let Some(mut doubled) = costs_of(alloc, centre, -reach)? else {
        return Ok(None);
    };
    for cost in doubled.iter_mut() {
        *cost = cost.saturating_neg();
    }
    let idle = idle_cost(columns, &untaken, &doubled);
    Ok(Some(Costs {
        untaken,
        doubled,
        idle,
    }))
}

/// The price that is nearest to a dual value, of those within reach of the centre.
fn price_near(dual: i128, centre: Price, reach: u64) -> Price
    ensures { IsWithin reach centre result }
{
    let centre = centre.value();
    let reach = i128::from(reach);
    Price::nearest(dual.min(centre + reach).max(centre - reach))
}

#[tactic(auto, using(crate::proofs::WithinLemmas::within_more))]
/// The prices that are nearest to the dual values. It fails only where there is no memory left.
fn prices_in(
    alloc: Global,
    simplex: &Simplex,
    centre: &[Price],
    reach: u64,
) -> Result<Vec<Price>, AllocError>
    ensures { IfOk result (λ prices. AreWithin reach centre.now prices.items) }
{
    let mut prices = Vec::new(alloc);
    for place in 0..centre.len() {
        let dual = simplex.exact_dual(place);
        prices.push(price_near(dual, centre[place], reach))?;
    }
    Ok(prices)
}

/// The tours of the basis. It fails only where there is no memory left.
fn shares_in(alloc: Global, simplex: &Simplex) -> Result<Vec<Share>, AllocError> {
    let mut shares = Vec::new(alloc);
    for row in &simplex.rows {
        if let Entry::Tour(column) = row.basic {
            shares.push(Share {
                column,
                share: row.share(),
            })?;
        }
    }
    Ok(shares)
}

/// Whether some call is taken less or more than once, by more than rounding may tell.
fn is_held_in(simplex: &Simplex) -> bool {
    let mut is_held = false;
    for row in &simplex.rows {
        let is_tour = matches!(&row.basic, Entry::Tour(_) | Entry::Idle(_));
        is_held |= !is_tour && LEAST_SHARE < row.share();
    }
    is_held
}

/// The relaxation over these columns with prices within reach of their centres, both in thousandths of a cost
/// unit. The columns of `first` are tried first. None where a number is too large. It fails only where there is
/// no memory left.
pub fn relax(
    alloc: Global,
    cars: usize,
    centre: &[Price],
    reach: u64,
    first: &[Column],
    columns: &[Column],
) -> Result<Option<Relaxation>, AllocError>
    ensures { IfOk result (λ answer. IfSome answer (λ it. AreWithin reach centre.now it.prices.items)) }
{
    let Some(costs) = costs_in(alloc, centre, reach, columns)? else {
        return Ok(None);
    };
    let mut simplex = Simplex::new(alloc, costs, cars)?;
    let Some(is_least) = simplex.run(first, columns) else {
        return Ok(None);
    };
    Ok(Some(Relaxation {
        prices: prices_in(alloc, &simplex, centre, reach)?,
        value: simplex.value(),
        shares: shares_in(alloc, &simplex)?,
        is_held: is_held_in(&simplex),
        is_least,
    }))
}
