//! What one call and one group add to a bound, in thousandths of a cost unit.

ghost use Rattle.std.specs.Prelude.{◌≡◌, ◌*◌, ◌^◌, ◌<◌, ◌≤ℤ◌, ◌-ℤ◌, pos, neg_ℤ, if◌then◌else◌, Some, true};
ghost use Rattle.std.specs.Prelude.{length};
ghost use Rattle.call_sets.specs.Counting.{has};
ghost use Rattle.elevator_model.specs.Partial.{Course};
ghost use Rattle.elevator_model.specs.Snapshot.{call_count, car_count};
ghost use Rattle.partial_tours.specs.Courses.{reached};
ghost use Rattle.partial_tours.specs.PartialTour.{course};
ghost use Rattle.search_model.specs.Bounds.{cost_if_straight, waiting_term};
ghost use Rattle.search_model.specs.Prices.{scaled as scaled_lem};
ghost use Rattle.pricing_bound.specs.Parts.{call_part as call_part_lem, group_part as group_part_lem};

use crate::rides::{cost_alone, straight_cost_of_call, straight_cost_of_group};
use call_sets::CallSet;
use call_state::Snapshot;
use elevator_model::MOST_CALLS;
use partial_tours::Prefix;
use price_scale::{Price, scaled};

/// What a call that has not boarded adds, with its price: where it is not required, nothing that is positive.
fn waiting_part(
    snapshot: &Snapshot,
    prefix: &Prefix,
    call: u32,
    price: Price,
    is_required: bool,
) -> i128
    requires same { snapshot.now ≡ prefix.now.snapshot }
    requires call { call < call_count snapshot.now }
    ensures part { (x : Course) → course prefix.now ≡ Some x → result ≡ waiting_term prefix.now.snapshot
        (λ _. price) (λ _. is_required) (reached prefix.now.snapshot prefix.now.car x) call }
    ensures low { neg_ℤ (pos (2 * 10 ^ 24)) ≤ℤ result }
    ensures high { result ≤ℤ pos (2 * 10 ^ 24) }
{
    let term = scaled(cost_alone(snapshot, prefix, call)) - price.value();
    if is_required { term } else { term.min(0) }
}

/// What the ride of a call that boarded adds, if it is still carried.
fn riding_part(snapshot: &Snapshot, prefix: &Prefix, call: u32) -> i128
    requires same { snapshot.now ≡ prefix.now.snapshot }
    requires call { call < call_count snapshot.now }
    requires boarded { (x : Course) × (course prefix.now ≡ Some x)
        × ((reached prefix.now.snapshot prefix.now.car x).boarded call ≡ true) }
    ensures part { (x : Course) → course prefix.now ≡ Some x → result
        ≡ (if (reached prefix.now.snapshot prefix.now.car x).carried call then scaled_lem (cost_if_straight
        prefix.now.snapshot (reached prefix.now.snapshot prefix.now.car x) call) else pos 0) }
    ensures low { pos 0 ≤ℤ result }
    ensures high { result ≤ℤ pos (10 ^ 19) }
{
    if prefix.carried().contains(call) {
        scaled(straight_cost_of_call(snapshot, prefix, call))
    } else {
        0
    }
}

/// What a call that boarded adds, with its price.
fn boarded_part(snapshot: &Snapshot, prefix: &Prefix, call: u32, price: Price) -> i128
    requires same { snapshot.now ≡ prefix.now.snapshot }
    requires call { call < call_count snapshot.now }
    requires boarded { (x : Course) × (course prefix.now ≡ Some x)
        × ((reached prefix.now.snapshot prefix.now.car x).boarded call ≡ true) }
    ensures part { (x : Course) → course prefix.now ≡ Some x → result
        ≡ (if (reached prefix.now.snapshot prefix.now.car x).carried call then scaled_lem (cost_if_straight
        prefix.now.snapshot (reached prefix.now.snapshot prefix.now.car x) call) else pos 0) -ℤ price }
    ensures low { neg_ℤ (pos (2 * 10 ^ 24)) ≤ℤ result }
    ensures high { result ≤ℤ pos (2 * 10 ^ 24) }
{
    riding_part(snapshot, prefix, call) - price.value()
}

/// What a call adds to the bound, with its price.
pub(crate) fn call_part(
    snapshot: &Snapshot,
    prefix: &Prefix,
    call: u32,
    price: Price,
    allowed: CallSet,
    required: CallSet,
) -> i128
    requires same { snapshot.now ≡ prefix.now.snapshot }
    requires car { prefix.now.car < car_count snapshot.now }
    requires leads { (x : Course) × (course prefix.now ≡ Some x) }
    requires call { call < call_count snapshot.now }
    ensures part { (x : Course) → course prefix.now ≡ Some x → result ≡ call_part_lem prefix.now.snapshot
        (λ _. price) (has allowed) (has required) (reached prefix.now.snapshot prefix.now.car x) call }
    ensures low { neg_ℤ (pos (2 * 10 ^ 24)) ≤ℤ result }
    ensures high { result ≤ℤ pos (2 * 10 ^ 24) }
{
    // The reader says that the snapshot is accepted, so a call that has not boarded is not carried.
    prove!(snapshot.calls().len() <= MOST_CALLS);
    if prefix.boarded().contains(call) {
        boarded_part(snapshot, prefix, call, price)
    } else if allowed.contains(call) {
        waiting_part(snapshot, prefix, call, price, required.contains(call))
    } else {
        0
    }
}

/// What a group aboard adds to the bound.
pub(crate) fn group_part(snapshot: &Snapshot, prefix: &Prefix, group: u32) -> i128
    requires same { snapshot.now ≡ prefix.now.snapshot }
    requires car { prefix.now.car < car_count snapshot.now }
    requires group { group < length snapshot.now.aboard }
    ensures part { (x : Course) → course prefix.now ≡ Some x → result ≡ group_part_lem prefix.now.snapshot
        (reached prefix.now.snapshot prefix.now.car x) group }
    ensures low { pos 0 ≤ℤ result }
    ensures high { result ≤ℤ pos (10 ^ 19) }
{
    if prefix.carries_group(group) {
        scaled(straight_cost_of_group(snapshot, prefix, group))
    } else {
        0
    }
}
