//! A case: a snapshot, some nodes of it, every car, and every list of prices.

ghost use Rattle.std.specs.Prelude.{◌≡◌, ◌<◌, length};
ghost use Rattle.elevator_model.specs.Snapshot.{car_count};
ghost use Rattle.search_model.specs.Nodes.{IsNodeOf};

use crate::lists::pricings::aims::Aim;
use crate::lists::pricings::answers::compare;
use crate::lists::pricings::prices::Pricing;
use crate::lists::pricings::snapshots::drawn;
use crate::lists::pricings::tally::Counts;
use crate::lists::pricings::tours::{Listed, mean_cost, tours_of};
use assign_branch::{CarSet, Node, Pricer, root, split};
use call_state::Snapshot;
use case_kit::draws_of_case;
use pricing_search::Searcher;
use search_model::Draws;
use std::alloc::{AllocError, Global};
use std::mem;

/// Prices a car in a node at prices that are drawn, and compares the answers.
fn compare_pricing<P: Pricer>(
    alloc: Global,
    pricer: &P,
    aim: Aim,
    pricing: Pricing,
    draws: &mut Draws,
    desk: &mut P::Desk,
    tally: &mut Counts,
) -> Result<(), AllocError>
    requires same { P.snapshot pricer.now ≡ aim.snapshot.now }
    requires car { aim.car < car_count aim.snapshot.now }
    requires node { IsNodeOf aim.snapshot.now aim.node.now }
    requires own { P.owns pricer.now desk.old }
    ensures own { P.owns pricer.now desk.new }
{
    let calls = aim.snapshot.calls().len();
    let prices = pricing.list(alloc, draws, mean_cost(aim.tours), calls)?;
    if prices.len() != calls {
        tally.least.note(false);
        return Ok(());
    }
    let aim = Aim {
        prices: &prices,
        ..aim
    };
    compare(alloc, pricer, &aim, desk, tally)
}

/// Prices a car in a node at all lists of prices, and compares the answers.
fn compare_pricings<P: Pricer>(
    alloc: Global,
    pricer: &P,
    aim: Aim,
    draws: &mut Draws,
    desk: &mut P::Desk,
    tally: &mut Counts,
) -> Result<(), AllocError>
    requires same { P.snapshot pricer.now ≡ aim.snapshot.now }
    requires car { aim.car < car_count aim.snapshot.now }
    requires node { IsNodeOf aim.snapshot.now aim.node.now }
    requires own { P.owns pricer.now desk.old }
    ensures own { P.owns pricer.now desk.new }
{
    for pricing in Pricing::ALL {
        compare_pricing(alloc, pricer, aim, pricing, draws, desk, tally)?;
    }
    Ok(())
}

/// Lists the tours of a car, and compares what is priced in a node with them.
fn compare_car<P: Pricer>(
    alloc: Global,
    pricer: &P,
    aim: Aim,
    draws: &mut Draws,
    desk: &mut P::Desk,
    tally: &mut Counts,
) -> Result<(), AllocError>
    requires same { P.snapshot pricer.now ≡ aim.snapshot.now }
    requires car { aim.car < car_count aim.snapshot.now }
    requires node { IsNodeOf aim.snapshot.now aim.node.now }
    requires own { P.owns pricer.now desk.old }
    ensures own { P.owns pricer.now desk.new }
{
    let tours = tours_of(alloc, aim.snapshot, aim.car, &mut tally.listed)?;
    let aim = Aim {
        snapshot: aim.snapshot,
        node: aim.node,
        car: aim.car,
        prices: aim.prices,
        tours: &tours,
    };
    compare_pricings(alloc, pricer, aim, draws, desk, tally)
}

/// Prices all cars in a node, and compares the answers.
fn compare_node<P: Pricer>(
    alloc: Global,
    pricer: &P,
    snapshot: &Snapshot,
    node: &Node,
    draws: &mut Draws,
    desk: &mut P::Desk,
    tally: &mut Counts,
) -> Result<(), AllocError>
    requires same { P.snapshot pricer.now ≡ snapshot.now }
    requires node { IsNodeOf snapshot.now node.now }
    requires own { P.owns pricer.now desk.old }
    ensures own { P.owns pricer.now desk.new }
{
    for car in 0..snapshot.building().cars().len() {
        let aim = Aim {
            snapshot,
            node,
            car: car as u32,
            prices: &[],
            tours: &[],
        };
        compare_car(alloc, pricer, aim, draws, desk, tally)?;
    }
    Ok(())
}

/// The first call, from a drawn one on, that more than one car may serve.
fn call_to_split(node: &Node, calls: u32, draws: &mut Draws) -> Option<u32> {
    let start = draws.pick(4);
    for place in 0..calls {
        let call = start.wrapping_add(place) % calls.max(1);
        if node.set(call).bits().count_ones() > 1 {
            return Some(call);
        }
    }
    None
}

/// Takes in place of the node one of the two nodes of a split at this call, where both others are copies of
/// it. False where the call has one car alone.
fn takes_half(
    snapshot: &Snapshot,
    node: &mut Node,
    call: u32,
    first: &mut Node,
    second: &mut Node,
    draws: &mut Draws,
) -> bool
    requires node { IsNodeOf snapshot.now node.old }
    requires first { length first.old ≡ length node.old }
    requires second { length second.old ≡ length node.old }
    ensures { IsNodeOf snapshot.now node.new }
{
    // For the proof: the snapshot is accepted.
    let _calls = snapshot.calls();
    let Some(car) = node.set(call).least() else {
        return false;
    };
    if split(node, call, CarSet::empty().with(car), first, second).is_err() {
        return false;
    }
    if draws.pick(2) == 0 {
        mem::swap(node, first);
    } else {
        mem::swap(node, second);
    }
    true
}

/// Takes in place of the node one of the two nodes of a split. False where each call has one car alone.
fn halve(
    alloc: Global,
    snapshot: &Snapshot,
    node: &mut Node,
    draws: &mut Draws,
) -> Result<bool, AllocError>
    requires { IsNodeOf snapshot.now node.old }
    ensures { IsNodeOf snapshot.now node.new }
{
    let calls = snapshot.calls().len() as u32;
    let Some(call) = call_to_split(node, calls, draws) else {
        return Ok(false);
    };
    let mut first = node.copy(alloc)?;
    let mut second = node.copy(alloc)?;
    Ok(takes_half(snapshot, node, call, &mut first, &mut second, draws))
}

/// Prices the cars in a node, and after one and after two splits.
fn compare_splits<P: Pricer>(
    alloc: Global,
    pricer: &P,
    snapshot: &Snapshot,
    node: &mut Node,
    draws: &mut Draws,
    desk: &mut P::Desk,
    tally: &mut Counts,
) -> Result<(), AllocError>
    requires same { P.snapshot pricer.now ≡ snapshot.now }
    requires node { IsNodeOf snapshot.now node.old }
    requires own { P.owns pricer.now desk.old }
    ensures own { P.owns pricer.now desk.new }
{
    compare_node(alloc, pricer, snapshot, node, draws, desk, tally)?;
    for _half in 0..2 {
        if !halve(alloc, snapshot, node, draws)? {
            return Ok(());
        }
        compare_node(alloc, pricer, snapshot, node, draws, desk, tally)?;
    }
    Ok(())
}

/// The same at a new desk.
fn compare_at_desk(
    alloc: Global,
    snapshot: &Snapshot,
    node: &mut Node,
    draws: &mut Draws,
    tally: &mut Counts,
) -> Result<(), AllocError>
    requires { IsNodeOf snapshot.now node.old }
{
    let searcher = Searcher::new(snapshot);
    let mut desk = searcher.desk(alloc)?;
    compare_splits(alloc, &searcher, snapshot, node, draws, &mut desk, tally)
}

/// Prices the cars of a snapshot at its root and at a node after one and after two splits.
fn compare_snapshot(
    alloc: Global,
    snapshot: &Snapshot,
    draws: &mut Draws,
    tally: &mut Counts,
) -> Result<(), AllocError> {
    let mut node = root(alloc, snapshot)?;
    compare_at_desk(alloc, snapshot, &mut node, draws, tally)
}

/// Draws a snapshot and compares what is asked of it. One that is refused is counted.
pub(crate) fn compare_case(alloc: Global, case: u64, tally: &mut Counts) -> Result<(), AllocError> {
    let mut draws = draws_of_case(case);
    match drawn(alloc, &mut draws) {
        Some(snapshot) => {
            tally.snapshots = tally.snapshots.wrapping_add(1);
            compare_snapshot(alloc, &snapshot, &mut draws, tally)
        }
        None => {
            tally.refused = tally.refused.wrapping_add(1);
            Ok(())
        }
    }
}
