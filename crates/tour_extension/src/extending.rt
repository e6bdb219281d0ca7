//! Whether some tour of a node begins with a partial tour.

ghost use Rattle.std.specs.Prelude.{◌≡◌, ◌↔◌, ◌<◌, ◌≤◌, ℕ, ◌&&◌, not, true, IsTrue, Some, nat_le, nat_lt};
ghost use Rattle.call_sets.specs.Counting.{has, any_below, sum_where};
ghost use Rattle.elevator_model.specs.Snapshot.{Snapshot, call_count, call_of};
ghost use Rattle.elevator_model.specs.Tours.{Progress, make_stop};
ghost use Rattle.elevator_model.specs.declared.Stop.{Stop};
ghost use Rattle.elevator_model.specs.Partial.{Course};
ghost use Rattle.partial_tours.specs.PartialTour.{course};
ghost use Rattle.car_layout.specs.Layouts.{starts_at, fits_in};
ghost use Rattle.partial_tours.specs.Courses.{is_after};
ghost use Rattle.search_model.specs.Extending.{IsDemand, IsExtendable, has_to_board};
ghost use Rattle.search_model.specs.Extending.{none_left as none_left_lem, none_skipped as none_skipped_lem};
ghost use Rattle.search_model.specs.Extending.{all_fit as all_fit_lem, has_use as has_use_lem};
ghost use Rattle.search_model.specs.Extending.{can_go_on as can_go_on_lem};
ghost use Rattle.search_model.specs.Extending.{can_be_extended as can_be_extended_lem};
ghost use Rattle.search_model.specs.Orders.{AreAllowed};
ghost use Rattle.tour_extension.specs.Points.{IsAtStop, StandsFor, passes_none as passes_none_lem};
ghost use Rattle.tour_extension.specs.Points.{keeps_queue_and_way as keeps_queue_and_way_lem};
ghost use Rattle.tour_extension.specs.Points.{missing_can_board as missing_can_board_lem};

use crate::demands::Demand;
use crate::sides::Sides;
use call_sets::CallSet;
use car_layout::Layout;
use partial_tours::{Point, Prefix, after_last, calls_with_room};

/// Whether there is a call in the set.
pub(crate) fn any_call(calls: CallSet) -> bool
    ensures { (n : ℕ) → ((j : ℕ) → has calls j ≡ true → j < n) → result ≡ any_below n (has calls) }
{
    match calls.least() {
        None => false,
        Some(_) => true,
    }
}

/// The required calls that have not boarded.
fn missing_calls(point: &Point, demand: &Demand) -> CallSet
    ensures { (j : ℕ) → has result j
        ≡ (has demand.now.required j && not (has point.now.place.boarded j)) }
{
    demand.required.minus(point.place.boarded)
}

/// Whether no missing call has a later one of its queue that boarded at an earlier stop.
fn none_left(point: &Point, demand: &Demand) -> bool
    ensures { (s : Snapshot) (c : ℕ) (q : Progress) (stop : Stop)
        → IsDemand s c (has demand.now.allowed) (has demand.now.required)
        → IsAtStop s c point.now q stop
        → result ≡ none_left_lem s (has demand.now.required) q (make_stop s c q stop) }
{
    let missing = missing_calls(point, demand);
    !any_call(missing.minus(point.waiting))
}

/// The missing calls of which a later one of the queue boards at the stop.
fn due_calls(point: &Point, demand: &Demand) -> CallSet
    ensures required { (j : ℕ) → has result j ≡ true → has demand.now.required j ≡ true }
    ensures due { (s : Snapshot) (c : ℕ) (q : Progress) (stop : Stop)
        → IsDemand s c (has demand.now.allowed) (has demand.now.required)
        → IsAtStop s c point.now q stop → (j : ℕ)
        → has result j ≡ has_to_board s (has demand.now.required) (make_stop s c q stop) stop j }
{
    missing_calls(point, demand).intersection(point.passed)
}

/// Whether no call that has to board at the stop has an index below one that boarded.
fn none_skipped(point: &Point, demand: &Demand) -> bool
    ensures { (s : Snapshot) (c : ℕ) (q : Progress) (stop : Stop)
        → IsDemand s c (has demand.now.allowed) (has demand.now.required)
        → IsAtStop s c point.now q stop
        → result ≡ none_skipped_lem s (has demand.now.required) (make_stop s c q stop) stop }
{
    let due = due_calls(point, demand);
    !any_call(due.minus(after_last(due, point.last)))
}

/// The persons of the calls of a set.
fn persons_in(layout: &Layout, calls: CallSet) -> u32
    requires { (j : ℕ) → has calls j ≡ true → j < call_count layout.now.snapshot }
    ensures value { result ≡ sum_where (call_count layout.now.snapshot) (has calls)
        (λ j. (call_of layout.now.snapshot j).persons) }
    ensures few { result ≤ 1024 }
{
    let all = layout.snapshot().calls();
    let mut persons = 0;
    for call in calls.iter() {
        persons += all[call as usize].persons;
    }
    persons
}

/// Whether those who have to board at the stop fit into the car.
fn all_fit(layout: &Layout, point: &Point, demand: &Demand) -> bool
    requires { IsDemand layout.now.snapshot layout.now.car (has demand.now.allowed)
        (has demand.now.required) }
    ensures { (q : Progress) (stop : Stop)
        → IsAtStop layout.now.snapshot layout.now.car point.now q stop → result
        ≡ all_fit_lem layout.now.snapshot layout.now.car (has demand.now.required)
        (make_stop layout.now.snapshot layout.now.car q stop) stop }
{
    let due = due_calls(point, demand);
    persons_in(layout, due) <= point.room
}

/// Whether no missing call is an earlier one of the queue of this call.
fn passes_none(layout: &Layout, missing: CallSet, call: u32) -> bool
    requires { call < call_count layout.now.snapshot }
    ensures { result ≡ passes_none_lem layout.now.snapshot missing call }
{
    !any_call(layout.earlier(call).intersection(missing))
}

/// Whether the call passes no missing one of its queue, and goes the way of all that are carried from this
/// floor.
fn keeps_queue_and_way(
    layout: &Layout,
    floor: u32,
    sides: Sides,
    missing: CallSet,
    call: u32,
) -> bool
    requires { call < call_count layout.now.snapshot }
    ensures { result ≡ keeps_queue_and_way_lem layout.now.snapshot missing sides floor call }
{
    let destination = layout.snapshot().calls()[call as usize].destination;
    passes_none(layout, missing, call) && sides.go_with(floor, destination)
}

/// Whether a call of the set does so.
fn any_keeps_queue_and_way(
    layout: &Layout,
    floor: u32,
    sides: Sides,
    missing: CallSet,
    calls: CallSet,
) -> bool
    requires { (j : ℕ) → has calls j ≡ true → j < call_count layout.now.snapshot }
    ensures { result ≡ any_below (call_count layout.now.snapshot)
        (λ j. has calls j && keeps_queue_and_way_lem layout.now.snapshot missing sides floor j) }
{
    // For the proof: there are at most 128 calls.
    let _accepted = layout.snapshot();
    for call in calls.iter() {
        if keeps_queue_and_way(layout, floor, sides, missing, call) {
            return true;
        }
    }
    false
}

/// The allowed calls that start at the stop, wait there and fit into the car.
fn boards_here(layout: &Layout, point: &Point, demand: &Demand) -> CallSet
    ensures { (j : ℕ) → has result j
        ≡ (has point.now.waiting j && has demand.now.allowed j
        && starts_at layout.now.snapshot point.now.place.floor j
        && fits_in layout.now.snapshot point.now.room j) }
{
    point
        .waiting
        .intersection(demand.allowed)
        .intersection(layout.starting(point.place.floor))
        .intersection(calls_with_room(layout, point.room))
}

/// Whether the stop may be left, or a call can board that gives it use.
fn has_use(layout: &Layout, point: &Point, demand: &Demand) -> bool
    requires { IsDemand layout.now.snapshot layout.now.car (has demand.now.allowed)
        (has demand.now.required) }
    ensures { (q : Progress) (stop : Stop)
        → IsAtStop layout.now.snapshot layout.now.car point.now q stop → result
        ≡ has_use_lem layout.now.snapshot layout.now.car (has demand.now.allowed) (has demand.now.required) q
        (make_stop layout.now.snapshot layout.now.car q stop) stop }
{
    if point.useful {
        return true;
    }
    any_keeps_queue_and_way(
        layout,
        point.place.floor,
        Sides::of(point),
        missing_calls(point, demand),
        boards_here(layout, point, demand),
    )
}

/// Whether the missing calls can board: none was left behind, and those that have to board at the stop can do
/// so there.
fn missing_can_board(layout: &Layout, point: &Point, demand: &Demand) -> bool
    requires { IsDemand layout.now.snapshot layout.now.car (has demand.now.allowed)
        (has demand.now.required) }
    ensures { (q : Progress) (stop : Stop)
        → IsAtStop layout.now.snapshot layout.now.car point.now q stop → result
        ≡ missing_can_board_lem layout.now.snapshot layout.now.car (has demand.now.required) q stop }
{
    if missing_calls(point, demand).is_empty() {
        return true;
    }
    none_left(point, demand) && none_skipped(point, demand) && all_fit(layout, point, demand)
}

/// Whether some tour of the node can go on from the stop.
fn can_go_on(layout: &Layout, point: &Point, demand: &Demand) -> bool
    requires { IsDemand layout.now.snapshot layout.now.car (has demand.now.allowed)
        (has demand.now.required) }
    ensures { (q : Progress) (stop : Stop)
        → IsAtStop layout.now.snapshot layout.now.car point.now q stop → result
        ≡ can_go_on_lem layout.now.snapshot layout.now.car (has demand.now.allowed) (has demand.now.required) q stop }
{
    Sides::of(point).is_one_way()
        && missing_can_board(layout, point, demand)
        && has_use(layout, point, demand)
}

/// Whether the test of the definition holds.
fn passes_test(layout: &Layout, point: &Point, demand: &Demand) -> bool
    requires { IsDemand layout.now.snapshot layout.now.car (has demand.now.allowed)
        (has demand.now.required) }
    ensures { (x : Course) → StandsFor layout.now.snapshot layout.now.car point.now x → result
        ≡ can_be_extended_lem layout.now.snapshot layout.now.car (has demand.now.allowed) (has demand.now.required) x }
{
    if point.ended {
        return !any_call(missing_calls(point, demand));
    }
    if !point.place.begun {
        return true;
    }
    can_go_on(layout, point, demand)
}

/// Whether some tour of the car begins with the partial tour and meets the demand: a feasible one, in which
/// each required call boards, and allowed calls alone. It takes no memory and passes over no list.
pub fn can_be_extended(prefix: &Prefix, demand: &Demand) -> bool
    requires { IsDemand prefix.now.snapshot prefix.now.car (has demand.now.allowed)
        (has demand.now.required) }
    ensures test { (x : Course) → course prefix.now ≡ Some x
        → result ≡ can_be_extended_lem prefix.now.snapshot prefix.now.car (has demand.now.allowed)
        (has demand.now.required) x }
    ensures tour { AreAllowed (has demand.now.allowed) prefix.now.moves
        → (IsTrue result ↔ IsExtendable prefix.now.snapshot prefix.now.car
        (has demand.now.allowed) (has demand.now.required) prefix.now.moves) }
{
    let layout = prefix.layout();
    // For the proof: the moves are lawful, the snapshot is accepted and the car one of its cars.
    let _lawful = prefix.moves();
    let _accepted = layout.snapshot();
    let _car = layout.car();
    passes_test(layout, prefix.point(), demand)
}
