//! The claims of one leaf.

ghost use Rattle.std.specs.Prelude.{◌≡◌, ◌<◌, ◌^◌};
ghost use Rattle.elevator_model.specs.Snapshot.{Snapshot as SnapshotValue, car_count};
ghost use Rattle.search_model.specs.declared.Leaf.{Leaf as LeafValue};
ghost use Rattle.search_model.specs.Nodes.{IsNodeOf};
ghost use Rattle.kept_tours.specs.Counting.{Holds, StaysLaidOut};
ghost use Rattle.cert_claims.specs.Leaves.{AreClaimsWithin, HasWorths, IsClaimWithin};
ghost use Rattle.cert_claims.specs.Leaves.{IsProvedLeaf, leaf_of, with_claim as with_claim_lem};
ghost use Rattle.cert_claims.specs.Leaves.{with_claims as with_claims_lem};

use assign_branch::Node;
use kept_tours::{Count, Desk};
use search_model::{Items, Leaf, WorthOf};

/// The claims that are due at a leaf.
#[derive(Clone, Copy)]
pub struct Claims {
    /// For each car its claim.
    pub(crate) by_car: [u64; 16],
    /// How far they go beyond 1 each, in all.
    pub(crate) extra: u64,
}

/// The claim that is due for a car at the leaf that the desk holds: None where it goes further beyond 1 than
/// is spare.
fn claim_within(node: &Node, car: u32, spare: u64, desk: &mut Desk) -> Option<u64>
    requires node { IsNodeOf desk.old.snapshot.now node.now }
    requires car { car < car_count desk.old.snapshot.now }
    requires spare { spare < 2 ^ 63 }
    ensures snapshot { desk.new.snapshot.now ≡ desk.old.snapshot.now }
    ensures stays { StaysLaidOut desk.old desk.new }
    ensures claim { (leaf : LeafValue) → Holds leaf desk.old → HasWorths desk.old.snapshot.now node.now leaf
        → IsClaimWithin desk.old.snapshot.now spare (leaf_of node.now leaf) car result }
{
    // For the proof: its readers say that the snapshot is accepted.
    let _calls = desk.snapshot.calls();
    let worth = desk.stake(car).worth;
    match desk.count(node, car, worth, spare + 1) {
        Count::Whole(length) => Some(length.max(1)),
        Count::Longer | Count::Under(_) => None,
    }
}

/// The claims that are due at a leaf: None where they go further beyond 1, in all, than is spare.
pub(crate) fn claims_within(node: &Node, leaf: &Leaf, spare: u64, desk: &mut Desk) -> Option<Claims>
    requires leaf { IsProvedLeaf desk.old.snapshot.now (leaf_of node.now leaf.now) }
    requires spare { spare < 2 ^ 63 }
    ensures snapshot { desk.new.snapshot.now ≡ desk.old.snapshot.now }
    ensures within { AreClaimsWithin desk.old.snapshot.now spare (leaf_of node.now leaf.now) result }
{
    // For the proof: its readers say that the snapshot is accepted, so it has at most 16 cars.
    let _calls = desk.snapshot.calls();
    desk.lay_out(leaf);
    let mut by_car = [0; 16];
    let mut left = spare;
    for car in 0..desk.snapshot.building().cars().len() {
        let claim = claim_within(node, car as u32, left, desk)?;
        by_car[car] = claim;
        left -= claim - 1;
    }
    Some(Claims {
        by_car,
        extra: spare - left,
    })
}

/// What is stated of a car, with its claim.
fn with_claim(worth: WorthOf, by_car: &[u64; 16]) -> WorthOf
    ensures { result ≡ with_claim_lem by_car.now worth }
{
    WorthOf {
        car: worth.car,
        worth: worth.worth,
        claim: by_car.get(worth.car as usize).copied().unwrap_or(0),
    }
}

/// The leaf with these claims.
pub(crate) fn with_claims(leaf: Leaf, by_car: &[u64; 16]) -> Leaf
    ensures { result ≡ with_claims_lem by_car.now leaf }
{
    let mut worths = leaf.worths.into_vec();
    for place in 0..worths.len() {
        worths[place] = with_claim(worths[place], by_car);
    }
    Leaf {
        prices: leaf.prices,
        worths: Items::from_vec(worths),
    }
}
