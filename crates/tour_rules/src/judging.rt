//! The judge of tours: the first bad stop, and the lowest rule broken there.

ghost use Rattle.std.specs.Prelude.{◌≡◌, ◌<◌, ◌≤◌, ◌+◌, ℕ, None, Some, MatchResult, length};
ghost use Rattle.elevator_model.specs.declared.Stop.{Stop};
ghost use Rattle.call_sets.specs.Counting.{has};
ghost use Rattle.elevator_model.specs.Snapshot.{car_count, call_count};
ghost use Rattle.elevator_model.specs.Tours.{Progress, breaks as breaks_lem, broken_at as broken_at_lem};
ghost use Rattle.elevator_model.specs.Tours.{broken_at_end as broken_at_end_lem, first_broken};
ghost use Rattle.elevator_model.specs.Tours.{first_broken_from, start_of, none_taken};
ghost use Rattle.tour_rules.specs.Places.{Tracks, HasBoards};

use crate::places::{CarPlace, Heading, after_stop, any_carried, at_start};
use crate::rules::{
    any_elsewhere, any_foreign, any_overtakes, any_twice, is_overfull, is_useless, needs_use,
    starts_wrong, stays_put, turns_away,
};
use call_sets::CallSet;
use call_state::{Snapshot, serves_floor};
use elevator_model::{Broken, Rule, Stop, Tour};

/// The rules of a stop, in the order in which they are tested.
const STOP_RULES: [Rule; 10] = [
    Rule::FirstStop,
    Rule::SameFloorTwice,
    Rule::UselessStop,
    Rule::TurnWithPassengers,
    Rule::Capacity,
    Rule::QueueOrder,
    Rule::Car,
    Rule::Floor,
    Rule::CallTwice,
    Rule::Origin,
];

/// Whether the stop breaks the rule.
fn breaks(
    snapshot: &Snapshot,
    car: u32,
    taken: CallSet,
    place: &CarPlace,
    stop: &Stop,
    boards: CallSet,
    rule: Rule,
) -> bool
    requires car { car < car_count snapshot.now }
    requires boards { HasBoards snapshot.now boards stop.now }
    ensures { (p : Progress) → Tracks snapshot.now car place.now p
        → result ≡ breaks_lem snapshot.now car (has taken) p stop.now rule }
{
    let calls = snapshot.calls();
    match rule {
        Rule::FirstStop => starts_wrong(snapshot, car, place, stop.floor),
        Rule::SameFloorTwice => stays_put(place, stop.floor),
        Rule::UselessStop => is_useless(snapshot, car, place, stop.floor, boards),
        Rule::TurnWithPassengers => turns_away(snapshot, car, place, stop.floor),
        Rule::Capacity => is_overfull(snapshot, car, place, stop.floor, boards),
        Rule::QueueOrder => any_overtakes(calls, boards, place.boarded),
        Rule::Car => any_foreign(snapshot, car, stop.boards.as_slice()),
        Rule::Floor => !serves_floor(snapshot.building(), car, stop.floor),
        Rule::CallTwice => any_twice(
            calls.len(),
            boards,
            place.boarded,
            taken,
            stop.boards.as_slice(),
        ),
        Rule::Origin => any_elsewhere(calls, boards, stop.floor),
        Rule::Delivery | Rule::Unserved => false,
    }
}

/// The lowest rule that the stop breaks, where the calls of `taken` are those of earlier cars.
fn broken_at(
    snapshot: &Snapshot,
    car: u32,
    taken: CallSet,
    place: &CarPlace,
    stop: &Stop,
    boards: CallSet,
) -> Option<Rule>
    requires car { car < car_count snapshot.now }
    requires boards { HasBoards snapshot.now boards stop.now }
    ensures { (p : Progress) → Tracks snapshot.now car place.now p
        → result ≡ broken_at_lem snapshot.now car (has taken) p stop.now }
{
    for rule in STOP_RULES {
        if breaks(snapshot, car, taken, place, stop, boards, rule) {
            return Some(rule);
        }
    }
    None
}

/// The rule that is broken where the tour ends here.
pub fn broken_at_end(snapshot: &Snapshot, car: u32, place: &CarPlace) -> Option<Rule>
    requires { car < car_count snapshot.now }
    ensures { (p : Progress) → Tracks snapshot.now car place.now p
        → result ≡ broken_at_end_lem snapshot.now car p }
{
    if !needs_use(snapshot, car, place) {
        return Some(Rule::FirstStop);
    }
    if any_carried(snapshot, car, place, Heading::Anywhere) {
        return Some(Rule::Delivery);
    }
    None
}

/// Whether the tour is feasible, and else its first bad stop and the lowest rule broken there. Stops are
/// counted from 1; where someone is carried at the end, the stop is the number of stops plus 1.
pub fn judge(snapshot: &Snapshot, car: u32, tour: &Tour) -> Result<(), Broken>
    requires { car < car_count snapshot.now }
    ensures { MatchResult result (λ _. first_broken snapshot.now car tour.now ≡ None)
        (λ b. first_broken snapshot.now car tour.now ≡ Some b) }
{
    judge_after(snapshot, car, CallSet::empty(), tour)
}

/// The same, where the calls of the set `taken` boarded in tours of other cars: such a call boards a second
/// time.
pub fn judge_after(snapshot: &Snapshot, car: u32, taken: CallSet, tour: &Tour) -> Result<(), Broken>
    requires { car < car_count snapshot.now }
    ensures { MatchResult result
        (λ _. first_broken_from snapshot.now car (has taken) (start_of snapshot.now car) 1 tour.now
        ≡ None) (λ b. first_broken_from snapshot.now car (has taken)
        (start_of snapshot.now car) 1 tour.now ≡ Some b) }
{
    // For the proof: the snapshot is accepted.
    let _accepted = snapshot.calls();
    let mut place = at_start(snapshot, car);
    let mut number = 1;
    for stop in tour.stops() {
        let boards = CallSet::of_list(stop.boards.as_slice());
        match broken_at(snapshot, car, taken, &place, stop, boards) {
            Some(rule) => return Err(Broken { stop: number, rule }),
            None => {}
        }
        place = after_stop(snapshot, &place, stop.floor, boards);
        number += 1;
    }
    match broken_at_end(snapshot, car, &place) {
        Some(rule) => Err(Broken { stop: number, rule }),
        None => Ok(()),
    }
}
