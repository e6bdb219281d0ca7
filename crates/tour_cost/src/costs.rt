//! The cost of a tour: what each rider's wait and ride cost, as the riders get off.

ghost use Rattle.std.specs.Prelude.{◌≡◌, ℕ, ◌+◌, ◌*◌, ◌≤◌, ◌<◌, slice_index, if◌then◌else◌};
ghost use Rattle.call_sets.specs.Counting.{has};
ghost use Rattle.elevator_model.specs.Snapshot.{car_count};
ghost use Rattle.elevator_model.specs.Tours.{IsFeasible};
ghost use Rattle.elevator_model.specs.Costs.{cost_of};
ghost use Rattle.tour_cost.specs.Served.{calls_served};
ghost use Rattle.tour_cost.specs.ShortForm.{short_cost_of};

use crate::plans::calls_at;
use call_sets::CallSet;
use call_state::Snapshot;
use elevator_model::{MOST_CALL_COST, MOST_CALLS, MOST_COST, MOST_GROUPS_COST, Tour};
use tour_rules::riding::cost_of_leaving;
use tour_rules::walking::Walker;

/// The cost of a feasible tour of the car: that of the calls that it takes and of the groups aboard.
///
/// A call's persons pay for each ms from its release to open doors where they board, once more for each ms
/// of it past the patience, and for each ms from there to open doors where they get off. A group aboard
/// pays for the ride alone. In a building of version 1, which knows no patience, that is the short form.
/// Each call costs at most 2.4 * 10^15, and the groups at most 6.4 * 10^15.
pub fn cost(snapshot: &Snapshot, car: u32, tour: &Tour) -> u64
    requires car { car < car_count snapshot.now }
    requires feasible { IsFeasible snapshot.now car tour.now }
    ensures cost { result ≡ cost_of snapshot.now car tour.now }
    ensures bounded { result ≤ MOST_COST }
    ensures per_call { result
        ≤ MOST_CALL_COST * calls_served snapshot.now tour.now + MOST_GROUPS_COST }
    ensures short { snapshot.now.building.version ≡ 1
        → result ≡ short_cost_of snapshot.now car tour.now }
{
    let mut walker = Walker::start(snapshot, car);
    let mut boarded = no_moments();
    let mut cost = 0;
    for stop in tour.stops() {
        let boards = calls_at(stop.boards.as_slice());
        let next = walker.make_stop(snapshot, car, stop.floor, boards);
        cost += cost_of_leaving(
            snapshot,
            car,
            walker.place.carried,
            walker.place.visited,
            stop.floor,
            next.opened,
            &boarded,
        );
        note_boarding(&mut boarded, boards, next.opened);
        walker = next;
    }
    cost
}

/// The moments before anyone boarded.
fn no_moments() -> [u64; MOST_CALLS]
    ensures { (j : ℕ) → slice_index result j ≡ 0 }
{
    [0; MOST_CALLS]
}

/// Notes the moment at which these calls boarded.
fn note_boarding(boarded: &mut [u64; MOST_CALLS], boards: CallSet, opened: u64)
    ensures { (j : ℕ) → j < MOST_CALLS
        → slice_index boarded.new j ≡ (if has boards j then opened else slice_index boarded.old j) }
{
    for j in 0..MOST_CALLS {
        if boards.contains(j as u32) {
            boarded[j] = opened;
        }
    }
}
