//! The rules of tours, tested at one stop.

ghost use Rattle.std.specs.Prelude.{◌≡◌, ◌≢◌, ◌<◌, ◌≤◌, ◌+◌, ◌*◌, ◌&&◌, ◌||◌, not, ℕ, ◌==◌, length, count_by};
ghost use Rattle.std.specs.Prelude.{nat_le, nat_lt};
ghost use Rattle.std.specs.List.{list_any};
ghost use Rattle.call_sets.specs.Counting.{has, any_below, is_among};
ghost use Rattle.elevator_model.specs.declared.Stop.{Stop};
ghost use Rattle.elevator_model.specs.Building.{floor_count};
ghost use Rattle.elevator_model.specs.Travel.{can_stop as can_stop_lem};
ghost use Rattle.elevator_model.specs.Snapshot.{car_count, state_of, is_idle, is_coming, serves};
ghost use Rattle.elevator_model.specs.Snapshot.{is_open as is_open_lem, may_stop_first as may_stop_first_lem};
ghost use Rattle.elevator_model.specs.Tours.{Progress, breaks as breaks_lem, has_leg as has_leg_lem};
ghost use Rattle.elevator_model.specs.Tours.{turns_with, none_taken};
ghost use Rattle.elevator_model.specs.Tours.{is_later_in_queue as is_later_in_queue_lem, is_call_for};
ghost use Rattle.tour_rules.specs.Places.{call_in, Tracks, HasBoards};

use crate::places::{
    CarPlace, Heading, any_call_heads, any_carried, persons_boarding, persons_carried,
};
use call_sets::CallSet;
use call_state::{Call, CarState, Snapshot, is_open};
use elevator_model::{MOST_CALLS, Rule, Stop};

/// Whether a call of the set is a later one of the queue of `call`.
pub fn overtakes(calls: &[Call], boarded: CallSet, call: &Call) -> bool
    requires { length calls.now ≤ MOST_CALLS }
    ensures { result ≡ any_below (length calls.now)
        (λ k. has boarded k && is_later_in_queue_lem (call_in calls.now k) call.now) }
{
    for (k, other) in calls.iter().enumerate() {
        if boarded.contains(k as u32) && other.is_later_in_queue(call) {
            return true;
        }
    }
    false
}

/// Whether a call that boards is overtaken by one that boarded before.
pub fn any_overtakes(calls: &[Call], boards: CallSet, boarded: CallSet) -> bool
    requires { length calls.now ≤ MOST_CALLS }
    ensures { result ≡ any_below (length calls.now)
        (λ j. has boards j && any_below (length calls.now)
        (λ k. has boarded k && is_later_in_queue_lem (call_in calls.now k) (call_in calls.now j))) }
{
    for (j, call) in calls.iter().enumerate() {
        if boards.contains(j as u32) && overtakes(calls, boarded, call) {
            return true;
        }
    }
    false
}

/// Whether a call that boards waits at another floor.
pub fn any_elsewhere(calls: &[Call], boards: CallSet, floor: u32) -> bool
    requires { length calls.now ≤ MOST_CALLS }
    ensures { result ≡ any_below (length calls.now)
        (λ j. has boards j && not ((call_in calls.now j).origin == floor)) }
{
    for (j, call) in calls.iter().enumerate() {
        if boards.contains(j as u32) && call.origin != floor {
            return true;
        }
    }
    false
}

/// How often a call stands in a list.
fn times_in(boards: &[u32], call: u32) -> usize
    ensures { result ≡ count_by (λ x. x == call) boards.now }
{
    boards.iter().filter(|board| **board == call).count()
}

/// Whether a call boarded before, is taken by another car, or stands in the list twice.
fn is_again(call: u32, boarded: CallSet, taken: CallSet, boards: &[u32]) -> bool
    requires { call < MOST_CALLS }
    ensures { result ≡
        ((has boarded call || has taken call) || nat_le 2 (count_by (λ x. x == call) boards.now)) }
{
    boarded.contains(call) || taken.contains(call) || times_in(boards, call) >= 2
}

/// Whether a call boards that boarded before, that another car took, or that stands in the list twice.
pub fn any_twice(
    calls: usize,
    set: CallSet,
    boarded: CallSet,
    taken: CallSet,
    boards: &[u32],
) -> bool
    requires { calls ≤ MOST_CALLS }
    ensures { result ≡ any_below calls
        (λ j. has set j &&
        ((has boarded j || has taken j) || nat_le 2 (count_by (λ x. x == j) boards.now))) }
{
    for j in 0..calls as u32 {
        if set.contains(j) && is_again(j, boarded, taken, boards) {
            return true;
        }
    }
    false
}

/// Whether the list has a call that the car may not take, or an index that is no call.
pub fn any_foreign(snapshot: &Snapshot, car: u32, boards: &[u32]) -> bool
    requires { car < car_count snapshot.now }
    ensures { result ≡ list_any (λ j. not (is_call_for snapshot.now car j)) boards.now }
{
    boards.iter().any(|call| !snapshot.may_take(car, *call))
}

/// Whether the car may make its first stop at this floor.
fn may_stop_first(snapshot: &Snapshot, car: u32, floor: u32) -> bool
    requires { car < car_count snapshot.now }
    ensures { result ≡ may_stop_first_lem snapshot.now.building car snapshot.now.moment
        (state_of snapshot.now car) floor }
{
    match snapshot.car(car) {
        CarState::Idle { .. } => true,
        CarState::Coming { floor: next, .. } => floor == next,
        CarState::Moving { .. } => is_open(
            snapshot.building(),
            car,
            snapshot.now(),
            snapshot.car(car),
            floor,
        ),
    }
}

/// Whether a stop has to be of use: not so the first stop of a coming or moving car.
pub fn needs_use(snapshot: &Snapshot, car: u32, place: &CarPlace) -> bool
    requires { car < car_count snapshot.now }
    ensures { result ≡ (place.now.begun || is_idle (state_of snapshot.now car)) }
{
    place.begun || snapshot.car(car).is_idle()
}

/// Whether a leg leads to the next stop.
fn has_leg(snapshot: &Snapshot, car: u32, place: &CarPlace) -> bool
    requires { car < car_count snapshot.now }
    ensures { result ≡ (place.now.begun || not (is_coming (state_of snapshot.now car))) }
{
    place.begun || !snapshot.car(car).is_coming()
}

/// Whether nobody gets off and no call boards where the stop has to be of use.
pub fn is_useless(
    snapshot: &Snapshot,
    car: u32,
    place: &CarPlace,
    floor: u32,
    boards: CallSet,
) -> bool
    requires { car < car_count snapshot.now }
    ensures { (p : Progress) (stop : Stop) → Tracks snapshot.now car place.now p
        → stop.floor ≡ floor → HasBoards snapshot.now boards stop
        → result ≡ breaks_lem snapshot.now car none_taken p stop Rule.UselessStop }
{
    let needs_use = needs_use(snapshot, car, place);
    let anyone_off = any_carried(snapshot, car, place, Heading::To(floor));
    let anyone_on = any_call_heads(snapshot.calls(), boards, Heading::Anywhere);
    lacks_use(needs_use, anyone_off, anyone_on)
}

fn lacks_use(needs_use: bool, anyone_off: bool, anyone_on: bool) -> bool
    ensures { result ≡ ((needs_use && not anyone_off) && not anyone_on) }
{
    needs_use && !anyone_off && !anyone_on
}

/// Whether someone carried would ride past or away from the destination on the leg to this floor.
pub fn turns_away(snapshot: &Snapshot, car: u32, place: &CarPlace, floor: u32) -> bool
    requires { car < car_count snapshot.now }
    ensures { (p : Progress) → Tracks snapshot.now car place.now p
        → result ≡ (has_leg_lem snapshot.now car p && turns_with snapshot.now p p.floor floor) }
{
    let has_leg = has_leg(snapshot, car, place);
    let any_below = any_carried(snapshot, car, place, Heading::Below(floor));
    let any_above = any_carried(snapshot, car, place, Heading::Above(floor));
    is_turn(has_leg, place.floor, floor, any_below, any_above)
}

/// Whether a leg leads upwards with someone for a floor below its end, or downwards with someone for one
/// above it.
fn is_turn(has_leg: bool, from: u32, to: u32, any_below: bool, any_above: bool) -> bool
    ensures { result ≡
        (has_leg && ((nat_lt from to && any_below) || (nat_lt to from && any_above))) }
{
    has_leg && (from < to && any_below || to < from && any_above)
}

/// Whether more persons than the capacity are carried after the stop.
pub fn is_overfull(
    snapshot: &Snapshot,
    car: u32,
    place: &CarPlace,
    floor: u32,
    boards: CallSet,
) -> bool
    requires { car < car_count snapshot.now }
    ensures { (p : Progress) (stop : Stop) → Tracks snapshot.now car place.now p
        → stop.floor ≡ floor → HasBoards snapshot.now boards stop
        → result ≡ breaks_lem snapshot.now car none_taken p stop Rule.Capacity }
{
    let staying = persons_carried(snapshot, car, place, Heading::Elsewhere(floor));
    let boarding = persons_boarding(snapshot, boards);
    staying + boarding > snapshot.spec(car).capacity
}

/// Whether the floor is that of the stop before.
pub fn stays_put(place: &CarPlace, floor: u32) -> bool
    ensures { result ≡ (place.now.begun && (floor == place.now.floor)) }
{
    place.begun && floor == place.floor
}

/// Whether the car may not make its first stop at this floor.
pub fn starts_wrong(snapshot: &Snapshot, car: u32, place: &CarPlace, floor: u32) -> bool
    requires { car < car_count snapshot.now }
    ensures { result ≡
        (not place.now.begun && not
        (may_stop_first_lem snapshot.now.building car snapshot.now.moment
        (state_of snapshot.now car) floor)) }
{
    !place.begun && !may_stop_first(snapshot, car, floor)
}
