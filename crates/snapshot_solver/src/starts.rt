//! The leaf with which a search starts.

ghost use Rattle.std.specs.Prelude.{◌≡◌, ◌<◌, IfOk};
ghost use Rattle.elevator_model.specs.Snapshot.{car_count, call_count};
ghost use Rattle.search_model.specs.Nodes.{root_of};
ghost use Rattle.search_model.specs.Prices.{scaled as scaled_lem};
ghost use Rattle.search_model.specs.Solving.{floor_of_bound, least_lone_cost};
ghost use Rattle.search_model.specs.Solving.{start_prices as start_prices_lem};
ghost use Rattle.search_tree.specs.Sheets.{sum_of_sheet};
ghost use Rattle.search_tree.specs.Standing.{IsSheetIn};
ghost use Rattle.snapshot_solver.specs.Starts.{IsStartLeaf, start_worth as start_worth_lem};
ghost use Rattle.snapshot_solver.specs.Starts.{start_worths as start_worths_lem};

use crate::costs::{aboard_cost_of, least_lone_cost_of};
use call_state::Snapshot;
use price_scale::{Price, scaled};
use search_model::Leaf;
use search_tree::Sheet;
use std::alloc::{AllocError, Global};

/// The least claim. No partial tour is kept for a worth with which a search starts, so it is enough for each.
const LEAST_CLAIM: u64 = 1;

/// The price with which a call starts, its least lone cost.
fn start_price(snapshot: &Snapshot, call: u32) -> Price
    requires { call < call_count snapshot.now }
    ensures { result ≡ scaled_lem (least_lone_cost snapshot.now call) }
{
    match Price::new(scaled(least_lone_cost_of(snapshot, call))) {
        Some(price) => price,
        None => unreachable!(),
    }
}

/// The price of each call, in their order. It fails only where there is no memory left.
fn start_prices(alloc: Global, snapshot: &Snapshot) -> Result<Vec<Price>, AllocError>
    ensures { IfOk result (λ prices. prices.items ≡ start_prices_lem snapshot.now) }
{
    let mut prices = Vec::new(alloc);
    for call in 0..snapshot.calls().len() {
        prices.push(start_price(snapshot, call as u32))?;
    }
    Ok(prices)
}

/// The worth with which a car starts, in thousandths of a cost unit.
///
/// At these prices no waiting call adds anything to the completion bound of the empty partial tour, so it is
/// what the groups aboard cost.
fn start_worth(snapshot: &Snapshot, car: u32) -> i128
    requires { car < car_count snapshot.now }
    ensures { result ≡ start_worth_lem snapshot.now car }
{
    scaled(aboard_cost_of(snapshot, car))
}

/// The worth of each car, in their order. It fails only where there is no memory left.
fn start_worths(alloc: Global, snapshot: &Snapshot) -> Result<Vec<i128>, AllocError>
    ensures { IfOk result (λ worths. worths.items ≡ start_worths_lem snapshot.now) }
{
    let mut worths = Vec::new(alloc);
    for car in 0..snapshot.building().cars().len() {
        worths.push(start_worth(snapshot, car as u32))?;
    }
    Ok(worths)
}

/// The prices and worths with which a search starts: the price of a call is its least lone cost, the worth
/// of a car the completion bound of its empty partial tour at these prices in the root. It fails only where
/// there is no memory left.
///
/// They are right in the root, and add up to the least lone costs of all calls and what each group aboard
/// costs if its car goes straight to its destination. No plan costs less.
pub(crate) fn start_sheet(alloc: Global, snapshot: &Snapshot) -> Result<Sheet, AllocError>
    ensures prices { IfOk result (λ sheet. sheet.prices ≡ start_prices_lem snapshot.now) }
    ensures worths { IfOk result (λ sheet. sheet.worths ≡ start_worths_lem snapshot.now) }
    ensures sum { IfOk result
        (λ sheet. sum_of_sheet sheet ≡ scaled_lem (floor_of_bound snapshot.now)) }
    ensures root { IfOk result (λ sheet. IsSheetIn snapshot.now (root_of snapshot.now) sheet) }
{
    // For the proof: the reader says that the snapshot is accepted, so there are at most 128 calls and 16
    // cars.
    let _calls = snapshot.calls();
    let prices = start_prices(alloc, snapshot)?;
    let worths = start_worths(alloc, snapshot)?;
    Ok(Sheet::new(prices, worths))
}

/// The leaf with which a search starts, as a certificate states it: with claim 1 for each worth. Alone it is
/// a certificate. It fails only where there is no memory left.
pub fn start_leaf(alloc: Global, snapshot: &Snapshot) -> Result<Leaf, AllocError>
    ensures { IfOk result (IsStartLeaf snapshot.now) }
{
    let sheet = start_sheet(alloc, snapshot)?;
    sheet.to_leaf(alloc, LEAST_CLAIM)
}
