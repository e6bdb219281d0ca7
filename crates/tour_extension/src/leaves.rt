//! Leaves to floors where nothing can happen.

ghost use Rattle.std.specs.Prelude.{◌≡◌, ◌<◌, ◌&&◌, ℕ, not, true, false, Some};
ghost use Rattle.call_sets.specs.Counting.{has, any_below};
ghost use Rattle.car_layout.specs.Layouts.{starts_at};
ghost use Rattle.elevator_model.specs.Snapshot.{call_count};
ghost use Rattle.elevator_model.specs.declared.Move.{Move};
ghost use Rattle.elevator_model.specs.Partial.{Course, move_on};
ghost use Rattle.partial_tours.specs.PartialTour.{course};
ghost use Rattle.partial_tours.specs.Followers.{AreFollowers};
ghost use Rattle.search_model.specs.Extending.{IsDemand, can_be_extended as can_be_extended_lem};
ghost use Rattle.tour_extension.specs.Leaves.{AreUseful, is_useless};

use crate::demands::Demand;
use crate::extending::any_call;
use call_sets::{CallSet, FloorSet};
use car_layout::Layout;
use partial_tours::{Followers, Point, Prefix};

/// The allowed calls that wait once the car has left its stop.
fn waiting_later(point: &Point, demand: &Demand) -> CallSet
    ensures { (j : ℕ) → has result j
        ≡ (has point.now.waiting j && not (has point.now.passed j) && has demand.now.allowed j) }
{
    point
        .waiting
        .minus(point.passed)
        .intersection(demand.allowed)
}

/// Whether a call of the set starts at the floor.
fn any_starts_at(layout: &Layout, calls: CallSet, floor: u32) -> bool
    requires { floor < 64 }
    ensures { result ≡ any_below (call_count layout.now.snapshot)
        (λ j. has calls j && starts_at layout.now.snapshot floor j) }
{
    any_call(calls.intersection(layout.starting(floor)))
}

/// The floors of the set at which no call of the other set starts.
fn floors_without(layout: &Layout, calls: CallSet, floors: FloorSet) -> FloorSet
    ensures { (g : ℕ) → has result g
        ≡ (has floors g && not (any_below (call_count layout.now.snapshot)
        (λ j. has calls j && starts_at layout.now.snapshot g j))) }
{
    let mut rest = floors;
    for floor in floors.iter() {
        if any_starts_at(layout, calls, floor) {
            rest = rest.without(floor);
        }
    }
    rest
}

/// The moves that may follow, without the leaves to floors where nobody can get off and no allowed call can
/// board.
///
/// No tour that meets the demand goes on with a leave that is left out. Before the first stop none is.
pub fn useful(prefix: &Prefix, demand: &Demand, followers: Followers) -> Followers
    requires { IsDemand prefix.now.snapshot prefix.now.car (has demand.now.allowed)
        (has demand.now.required) }
    ensures value { (x : Course) → course prefix.now ≡ Some x
        → AreFollowers prefix.now.snapshot prefix.now.car x (has demand.now.allowed) followers
        → AreUseful prefix.now.snapshot prefix.now.car x (has demand.now.allowed) result }
    ensures shut { (x y : Course) (m : Move) → course prefix.now ≡ Some x
        → move_on prefix.now.snapshot prefix.now.car x m ≡ Some y
        → is_useless prefix.now.snapshot prefix.now.car x (has demand.now.allowed) m ≡ true
        → can_be_extended_lem prefix.now.snapshot prefix.now.car (has demand.now.allowed)
        (has demand.now.required) y ≡ false }
{
    let point = prefix.point();
    if !point.place.begun {
        return followers;
    }
    let floors = followers.leaves().minus(point.bound_for);
    let useless = floors_without(prefix.layout(), waiting_later(point, demand), floors);
    followers.without_leaves(useless)
}
