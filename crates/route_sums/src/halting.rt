//! Where a partial tour leads, and where its moves and its forced route lead from there.

ghost use Rattle.std.specs.Prelude.{◌≡◌, ℕ, ◌+◌, ◌<◌, ◌≤◌, ◌^◌, ◌==◌, ◌&&◌, ◌||◌, not, None, Some, true};
ghost use Rattle.call_sets.specs.Counting.{has};
ghost use Rattle.elevator_model.specs.Building.{floor_count};
ghost use Rattle.elevator_model.specs.Partial.{Course, move_on};
ghost use Rattle.elevator_model.specs.Snapshot.{IsAccepted, call_count, car_count, spec_of};
ghost use Rattle.elevator_model.specs.Tours.{Progress};
ghost use Rattle.elevator_model.specs.declared.Move.{Move};
ghost use Rattle.route_bound.specs.ForcedRoute.{halted as halted_lem, next_open as next_open_lem};
ghost use Rattle.partial_tours.specs.Courses.{reached};
ghost use Rattle.partial_tours.specs.PartialTour.{course};
ghost use Rattle.route_sums.specs.declared.stands.Newest.{Newest as NewestValue};
ghost use Rattle.route_sums.specs.Stands.{IsStand, StandsFor, boarding_moment, is_known, soonest};

use crate::leaving::leaving_at;
use crate::stands::{LATEST, LATEST_OPEN, LATEST_READY, MOST_SETTLED, Newest, Stand};
use call_state::Snapshot;
use elevator_model::{LATEST_MOMENT, MOMENT_LIMIT};
use partial_tours::{Prefix, with_board, with_stop};
use tour_rules::riding;

/// The moment in ms at which a call boarded, or boards next.
pub(crate) fn boarded_at(prefix: &Prefix, newest: Option<Newest>, call: u32) -> u64
    requires call { call < call_count prefix.now.snapshot }
    requires known { (x : Course) × (course prefix.now ≡ Some x)
        × (is_known newest (reached prefix.now.snapshot prefix.now.car x) call ≡ true) }
    ensures value { (x : Course) → course prefix.now ≡ Some x → result
        ≡ boarding_moment newest (reached prefix.now.snapshot prefix.now.car x) call }
    ensures early { result ≤ MOMENT_LIMIT }
{
    match newest {
        None => prefix.boarded_at(call),
        Some(new) => {
            if new.call == call {
                new.moment
            } else {
                prefix.boarded_at(call)
            }
        }
    }
}

/// Where a partial tour leads.
pub(crate) fn stand_at(prefix: &Prefix) -> Stand
    ensures stands { (x : Course) → course prefix.now ≡ Some x
        → IsStand prefix.now.snapshot prefix.now.car None
        (reached prefix.now.snapshot prefix.now.car x) result
        (reached prefix.now.snapshot prefix.now.car x) }
    ensures opened { (x : Course) → course prefix.now ≡ Some x
        → result.opened ≡ (reached prefix.now.snapshot prefix.now.car x).opened }
    ensures early { result.opened < LATEST_MOMENT }
    ensures begun { (x : Course) → course prefix.now ≡ Some x
        → result.place.begun ≡ (reached prefix.now.snapshot prefix.now.car x).begun }
{
    // For the proof: the snapshot is accepted, the car one of its cars.
    let _accepted = prefix.layout().snapshot();
    let _car = prefix.car();
    let point = prefix.point();
    Stand {
        place: point.place,
        bound_for: point.bound_for,
        opened: prefix.opened(),
        leaves: prefix.departs_at().min(LATEST),
        settled: prefix.settled().min(MOST_SETTLED),
    }
}

impl Stand {
    /// The moment at which the doors could be open at a next stop, if there were no way to it.
    pub(crate) fn ready(&self, snapshot: &Snapshot, car: u32) -> u64
        requires { car < car_count snapshot.now }
        ensures value { result ≡ self.now.leaves + (spec_of snapshot.now car).opening }
        ensures early { result ≤ LATEST_READY }
    {
        self.leaves + riding::opening_of(snapshot, car)
    }

    /// The earliest moment at which the doors can be open at a floor, from when the car is ready.
    pub(crate) fn next_open(&self, snapshot: &Snapshot, ready: u64, floor: u32) -> u64
        requires ready { ready ≤ LATEST_READY }
        requires from { self.now.place.floor < floor_count snapshot.now.building }
        requires to { floor < floor_count snapshot.now.building }
        ensures value { (car : ℕ) → ready ≡ self.now.leaves + (spec_of snapshot.now car).opening
            → result ≡ soonest snapshot.now car self.now floor }
        ensures early { result ≤ LATEST_OPEN }
    {
        if self.place.begun && floor == self.place.floor {
            return self.opened;
        }
        let way = snapshot.building().travel().time(self.place.floor, floor);
        ready + way
    }

    /// After a stop at a floor where nobody boards.
    pub(crate) fn halted(&self, prefix: &Prefix, newest: Option<Newest>, floor: u32) -> Stand
        requires to { floor < floor_count prefix.now.snapshot.building }
        requires stands { (p : Progress) × StandsFor prefix.now newest self.now p }
        ensures stands { (x : Course) (p : Progress) → course prefix.now ≡ Some x
            → IsStand prefix.now.snapshot prefix.now.car newest
            (reached prefix.now.snapshot prefix.now.car x) self.now p
            → IsStand prefix.now.snapshot prefix.now.car newest
            (reached prefix.now.snapshot prefix.now.car x) result
            (halted_lem prefix.now.snapshot prefix.now.car p floor) }
        ensures floor { result.place.floor ≡ floor }
        ensures bound_for { (g : ℕ) → has result.bound_for g
            ≡ (has self.now.bound_for g && not (g == floor)) }
    {
        let layout = prefix.layout();
        let snapshot = layout.snapshot();
        let car = layout.car();
        let place = &self.place;
        let arrives = riding::arrival(snapshot, car, place.begun, place.floor, self.leaves, floor);
        let opened = (arrives + riding::opening_of(snapshot, car)).min(LATEST);
        let leaving = leaving_at(prefix, newest, self, floor, opened);
        let dwell = riding::dwell_of(snapshot, car, leaving.persons, 0);
        Stand {
            place: with_stop(place, floor, layout.ending(floor)),
            bound_for: self.bound_for.without(floor),
            opened,
            leaves: (opened + dwell).min(LATEST),
            settled: (self.settled + leaving.cost).min(MOST_SETTLED),
        }
    }

    /// With one call more at the stop begun.
    pub(crate) fn with_board(&self, prefix: &Prefix, call: u32) -> Stand
        requires call { call < call_count prefix.now.snapshot }
        ensures stands { (x y : Course) (new : NewestValue) → course prefix.now ≡ Some x
            → IsStand prefix.now.snapshot prefix.now.car None
            (reached prefix.now.snapshot prefix.now.car x) self.now
            (reached prefix.now.snapshot prefix.now.car x)
            → self.now.opened ≡ (reached prefix.now.snapshot prefix.now.car x).opened
            → new.call ≡ call → new.moment ≡ self.now.opened
            → move_on prefix.now.snapshot prefix.now.car x (Move.Board call) ≡ Some y
            → IsStand prefix.now.snapshot prefix.now.car (Some new)
            (reached prefix.now.snapshot prefix.now.car x) result
            (reached prefix.now.snapshot prefix.now.car y) }
        ensures opened { result.opened ≡ self.now.opened }
    {
        let layout = prefix.layout();
        let snapshot = layout.snapshot();
        // For the proof: the car is one of the snapshot's.
        let _car = prefix.car();
        let boarding = &snapshot.calls()[call as usize];
        let time = snapshot.spec(layout.car()).boarding * boarding.persons as u64;
        Stand {
            place: with_board(&self.place, call),
            bound_for: self.bound_for.with(boarding.destination),
            opened: self.opened,
            leaves: (self.leaves + time).min(LATEST),
            settled: self.settled,
        }
    }
}
