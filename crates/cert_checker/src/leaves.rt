//! Leaves, judged.

ghost use Rattle.std.specs.Prelude.{◌≡◌, ◌<◌, All, IfOk};
ghost use Rattle.elevator_model.specs.Snapshot.{car_count};
ghost use Rattle.search_model.specs.declared.Leaf.{Leaf as LeafValue};
ghost use Rattle.search_model.specs.Certificates.{sum_needed as sum_needed_lem};
ghost use Rattle.search_model.specs.Nodes.{IsNodeOf};
ghost use Rattle.search_model.specs.Verdicts.{reason_of_car, reason_of_cars, reason_of_leaf};
ghost use Rattle.kept_tours.specs.Counting.{Holds, StaysLaidOut, found_tour};
ghost use Rattle.kept_tours.specs.Leaves.{HasWorthSize};
ghost use Rattle.cert_checker.specs.Judging.{reason_of_count as reason_of_count_lem};

use assign_branch::Node;
use kept_tours::{Count, Desk, Stake, is_whole, sum_of_leaf};
use search_model::{Leaf, Reason};
use std::alloc::{AllocError, Global};

/// The least sum of prices and worths, in thousandths of a cost unit, that is the bound when rounded up.
fn sum_needed(bound: u64) -> i128
    ensures { result ≡ sum_needed_lem bound }
{
    1000 * (i128::from(bound) - 1) + 1
}

/// Why a leaf at a node does not prove the bound, with the number that its node has in the tree: None where
/// it does.
///
/// It fails only where there is no memory left for the tour that it answers.
pub(crate) fn judge_leaf(
    alloc: Global,
    bound: u64,
    number: u32,
    node: &Node,
    leaf: &Leaf,
    desk: &mut Desk,
) -> Result<Option<Reason>, AllocError>
    requires node { IsNodeOf desk.old.snapshot.now node.now }
    requires sizes { All HasWorthSize leaf.now.worths }
    ensures desk { desk.new.snapshot.now ≡ desk.old.snapshot.now }
    ensures reason { IfOk result (λ reason.
        reason ≡ reason_of_leaf desk.old.snapshot.now bound number node.now leaf.now) }
{
    if !is_whole(desk.snapshot, leaf) {
        return Ok(Some(Reason::Lists { node: number }));
    }
    let need = sum_needed(bound);
    let got = sum_of_leaf(leaf);
    if got < need {
        return Ok(Some(Reason::Sum {
            node: number,
            need,
            got,
        }));
    }
    desk.lay_out(leaf);
    judge_cars(alloc, number, node, leaf, desk)
}

/// The first reason of a leaf's cars. The desk holds the leaf.
fn judge_cars(
    alloc: Global,
    number: u32,
    node: &Node,
    leaf: &Leaf,
    desk: &mut Desk,
) -> Result<Option<Reason>, AllocError>
    requires node { IsNodeOf desk.old.snapshot.now node.now }
    requires holds { Holds leaf.now desk.old }
    ensures desk { desk.new.snapshot.now ≡ desk.old.snapshot.now }
    ensures reason { IfOk result (λ reason. reason ≡ reason_of_cars desk.old.snapshot.now number
        node.now leaf.now (car_count desk.old.snapshot.now)) }
{
    for car in 0..desk.snapshot.building().cars().len() {
        if let Some(reason) = judge_car(alloc, number, node, car as u32, desk)? {
            return Ok(Some(reason));
        }
    }
    Ok(None)
}

/// Whether the worth of a car stands in the node that has this number, of the leaf that the desk holds: None,
/// and else why not.
///
/// It fails only where there is no memory left for the tour that it answers.
fn judge_car(
    alloc: Global,
    number: u32,
    node: &Node,
    car: u32,
    desk: &mut Desk,
) -> Result<Option<Reason>, AllocError>
    requires node { IsNodeOf desk.old.snapshot.now node.now }
    requires car { car < car_count desk.old.snapshot.now }
    ensures desk { desk.new.snapshot.now ≡ desk.old.snapshot.now }
    ensures stays { StaysLaidOut desk.old desk.new }
    ensures reason { IfOk result (λ reason. (leaf : LeafValue) → Holds leaf desk.old
        → reason ≡ reason_of_car desk.old.snapshot.now number node.now leaf car) }
{
    let stake = desk.stake(car);
    let count = desk.count(node, car, stake.worth, stake.claim);
    reason_of_count(alloc, number, car, stake, count, desk)
}

/// The reason that the count of a car's kept list gives, where the desk has the tour that was found.
fn reason_of_count(
    alloc: Global,
    number: u32,
    car: u32,
    stake: Stake,
    count: Count,
    desk: &Desk,
) -> Result<Option<Reason>, AllocError>
    ensures { IfOk result (λ reason.
        reason ≡ reason_of_count_lem number car stake count (found_tour desk.now)) }
{
    Ok(match count {
        Count::Whole(_) => None,
        Count::Longer => Some(Reason::Claim {
            node: number,
            car,
            claim: stake.claim,
        }),
        Count::Under(value) => Some(Reason::Under {
            node: number,
            car,
            worth: stake.worth,
            value,
            tour: desk.tour(alloc)?,
        }),
    })
}
