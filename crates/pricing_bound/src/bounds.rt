//! Completion bounds.

ghost use Rattle.std.specs.Prelude.{◌≡◌, ◌*◌, ◌^◌, ◌<◌, ◌≤◌, ◌≤ℤ◌, pos, neg_ℤ, Some, length};
ghost use Rattle.call_sets.specs.Counting.{has};
ghost use Rattle.elevator_model.specs.Partial.{Course};
ghost use Rattle.elevator_model.specs.Snapshot.{call_count, car_count};
ghost use Rattle.partial_tours.specs.Courses.{reached};
ghost use Rattle.partial_tours.specs.PartialTour.{course};
ghost use Rattle.search_model.specs.Bounds.{completion_bound};
ghost use Rattle.search_model.specs.Prices.{price_at};
ghost use Rattle.search_model.specs.Sums.{int_sum_below};
ghost use Rattle.pricing_bound.specs.Laws.{IsAboveSettled, IsBelowLonger, IsBelowNarrower, IsBelowTours};
ghost use Rattle.pricing_bound.specs.Parts.{call_part as call_part_lem, group_part as group_part_lem};

use crate::parts::{call_part, group_part};
use call_sets::CallSet;
use call_state::Snapshot;
use elevator_model::{MOST_CALLS, MOST_MOVES};
use partial_tours::Prefix;
use price_scale::{Price, scaled};

/// What all calls add to the bound, with a price for each.
fn calls_part(
    snapshot: &Snapshot,
    prefix: &Prefix,
    prices: &[Price],
    allowed: CallSet,
    required: CallSet,
) -> i128
    requires same { snapshot.now ≡ prefix.now.snapshot }
    requires car { prefix.now.car < car_count snapshot.now }
    requires leads { (x : Course) × (course prefix.now ≡ Some x) }
    requires prices { length prices.now ≡ call_count snapshot.now }
    requires few { length prices.now ≤ MOST_CALLS }
    ensures sum { (x : Course) → course prefix.now ≡ Some x → result ≡ int_sum_below (length prices.now)
        (call_part_lem prefix.now.snapshot (price_at prices.now) (has allowed) (has required)
        (reached prefix.now.snapshot prefix.now.car x)) }
    ensures low { neg_ℤ (pos (256 * 10 ^ 24)) ≤ℤ result }
    ensures high { result ≤ℤ pos (256 * 10 ^ 24) }
{
    let mut sum = 0;
    for (call, price) in prices.iter().enumerate() {
        sum += call_part(snapshot, prefix, call as u32, *price, allowed, required);
    }
    sum
}

/// What all groups aboard add to the bound.
pub(crate) fn groups_part(snapshot: &Snapshot, prefix: &Prefix) -> i128
    requires same { snapshot.now ≡ prefix.now.snapshot }
    requires car { prefix.now.car < car_count snapshot.now }
    ensures sum { (x : Course) → course prefix.now ≡ Some x → result ≡ int_sum_below
        (length prefix.now.snapshot.aboard) (group_part_lem prefix.now.snapshot
        (reached prefix.now.snapshot prefix.now.car x)) }
    ensures low { pos 0 ≤ℤ result }
    ensures high { result ≤ℤ pos (1024 * 10 ^ 19) }
{
    let mut sum = 0;
    for group in 0..snapshot.aboard().len() {
        sum += group_part(snapshot, prefix, group as u32);
    }
    sum
}

/// What is settled, and what the groups aboard and the calls add to it.
fn all_parts(
    snapshot: &Snapshot,
    prefix: &Prefix,
    prices: &[Price],
    allowed: CallSet,
    required: CallSet,
) -> i128
    requires same { snapshot.now ≡ prefix.now.snapshot }
    requires car { prefix.now.car < car_count snapshot.now }
    requires leads { (x : Course) × (course prefix.now ≡ Some x) }
    requires prices { length prices.now ≡ call_count snapshot.now }
    requires few { length prices.now ≤ MOST_CALLS }
    ensures value { (x : Course) → course prefix.now ≡ Some x → result ≡ completion_bound prefix.now.snapshot
        prefix.now.car (price_at prices.now) (has allowed) (has required) x }
    ensures low { neg_ℤ (pos (10 ^ 27)) ≤ℤ result }
    ensures high { result ≤ℤ pos (10 ^ 27) }
{
    scaled(prefix.settled())
        + groups_part(snapshot, prefix)
        + calls_part(snapshot, prefix, prices, allowed, required)
}

/// The completion bound of a partial tour, in thousandths of a cost unit: what each feasible tour of its car
/// that begins with it, boards all required calls and only allowed ones is worth at least, at one price per
/// call.
///
/// The snapshot is the partial tour's. The bound is the cost of those who got off; that of those carried, if
/// the car went straight to each destination; less the prices of the calls that boarded; and for each allowed
/// call that has not boarded its cost if it boarded at once and rode straight, less its price, where that is
/// negative or the call is required. It is exact, of absolute value at most 10^27, and takes no memory.
pub fn bound(
    snapshot: &Snapshot,
    prefix: &Prefix,
    prices: &[Price],
    allowed: CallSet,
    required: CallSet,
) -> i128
    requires snapshot { snapshot.now ≡ prefix.now.snapshot }
    requires prices { length prices.now ≡ call_count snapshot.now }
    ensures value { (x : Course) → course prefix.now ≡ Some x → result ≡ completion_bound prefix.now.snapshot
        prefix.now.car (price_at prices.now) (has allowed) (has required) x }
    ensures lower { IsBelowTours prefix.now (price_at prices.now) (has allowed) (has required) result }
    ensures growth { IsBelowLonger prefix.now (price_at prices.now) (has allowed) (has required) result }
    ensures least { IsAboveSettled prefix.now (price_at prices.now) (has allowed) result }
    ensures narrow { IsBelowNarrower prefix.now (price_at prices.now) (has allowed) (has required) result }
    ensures low { neg_ℤ (pos (10 ^ 27)) ≤ℤ result }
    ensures high { result ≤ℤ pos (10 ^ 27) }
{
    // Their readers say that the snapshot is accepted, the car one of its cars and the moves lawful.
    prove!(snapshot.calls().len() <= MOST_CALLS);
    prove!((prefix.car() as usize) < snapshot.building().cars().len());
    prove!(prefix.moves().len() <= MOST_MOVES);
    all_parts(snapshot, prefix, prices, allowed, required)
}
