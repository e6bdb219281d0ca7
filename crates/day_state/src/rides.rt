//! A car along its tour, with those aboard in the order in which they boarded.

ghost use Rattle.std.specs.Prelude.{◌≡◌, ◌<◌, ◌≤◌, ◌+◌, ◌++◌, ℕ, Bool, List, true, take, drop, length};
ghost use Rattle.std.specs.Prelude.{slice_index, if◌then◌else◌, IfOk, OnOk};
ghost use Rattle.call_sets.specs.Counting.{has, is_among};
ghost use Rattle.elevator_model.specs.Building.{floor_count};
ghost use Rattle.elevator_model.specs.Snapshot.{IsAccepted, car_count, call_count};
ghost use Rattle.elevator_model.specs.Tours.{Progress, start_of, make_stop, after_stops, IsFeasible};
ghost use Rattle.tour_rules.specs.Walking.{Walks};
ghost use Rattle.search_model.specs.Advancing.{done_from, riders_at_start, riders_after, riders_after_all};
ghost use Rattle.search_model.specs.Advancing.{events_at, events_of_car};
ghost use Rattle.day_state.specs.Riding.{Rides, RidesAfter, stops_by};

use crate::riders::{board, by_id, deliver, riders_aboard, riders_staying};
use call_sets::CallSet;
use call_state::Snapshot;
use elevator_model::{MOMENT_LIMIT, MOST_CALLS, Stop, Tour};
use search_model::Event;
use std::alloc::{AllocError, Global};
use tour_rules::walking::Walker;

/// A car on its tour, with those aboard.
#[derive(Drop)]
pub(crate) struct Ride {
    /// Where it is, and when.
    pub walker: Walker,
    /// Those aboard in the order in which they boarded: calls by index, and after all calls the groups.
    pub riders: Vec<usize>,
    /// The moment at which each call boarded, by index, in ms: 0 where it did not.
    pub boarded_at: Vec<u64>,
}

/// Notes the moment at which these calls boarded.
fn note_boarding(boarded_at: &mut [u64], boards: CallSet, moment: u64)
    requires { length boarded_at.old ≤ MOST_CALLS }
    ensures count { length boarded_at.new ≡ length boarded_at.old }
    ensures each { (j : ℕ) → j < length boarded_at.old → slice_index boarded_at.new j
        ≡ (if has boards j then moment else slice_index boarded_at.old j) }
{
    for call in 0..boarded_at.len() {
        if boards.contains(call as u32) {
            boarded_at[call] = moment;
        }
    }
}

impl Ride {
    /// The moment at which a call boarded, in ms: 0 where it did not.
    pub fn boarded(&self, call: usize) -> u64
        ensures { result ≡ slice_index self.now.boarded_at.items call }
    {
        self.boarded_at.as_slice().get(call).copied().unwrap_or(0)
    }

    /// The car at the start of its tour.
    fn start(alloc: Global, snapshot: &Snapshot, car: u32) -> Result<Ride, AllocError>
        requires { car < car_count snapshot.now }
        ensures rides { IfOk result (λ ride. Rides snapshot.now car ride
            (start_of snapshot.now car) (riders_at_start snapshot.now car)) }
        ensures floor { IfOk result (λ ride. ride.walker.place.floor < floor_count snapshot.now.building) }
        ensures early { IfOk result (λ ride. ride.walker.leaves ≤ 1100000000) }
        ensures accepted { IsAccepted snapshot.now }
    {
        Ok(Ride {
            walker: Walker::start(snapshot, car),
            riders: riders_aboard(alloc, snapshot, car)?,
            boarded_at: vec![in alloc; 0; snapshot.calls().len()]?,
        })
    }

    /// The car after its next stop. What happens there is appended to the events.
    fn after_stop(
        self,
        alloc: Global,
        snapshot: &Snapshot,
        car: u32,
        stop: &Stop,
        events: &mut Vec<Event>,
    ) -> Result<Ride, AllocError>
        requires car { car < car_count snapshot.now }
        requires from { self.walker.place.floor < floor_count snapshot.now.building }
        requires to { stop.now.floor < floor_count snapshot.now.building }
        requires early { self.walker.leaves ≤ MOMENT_LIMIT }
        requires boards { (j : ℕ) → is_among j stop.now.boards ≡ true → j < call_count snapshot.now }
        requires calls { length self.boarded_at.items ≤ MOST_CALLS }
        ensures rides { IfOk result (λ next. (p : Progress) (riders : List ℕ)
            → Rides snapshot.now car self p riders → Rides snapshot.now car next
            (make_stop snapshot.now car p stop.now) (riders_after snapshot.now riders stop.now)) }
        ensures events { OnOk result ((p : Progress) → Walks snapshot.now car self.walker p
            → events.new.items ≡ events.old.items ++ events_at snapshot.now car
            (make_stop snapshot.now car p stop.now).opened self.riders.items stop.now) }
        ensures floor { IfOk result (λ next. next.walker.place.floor ≡ stop.now.floor) }
        ensures late { IfOk result (λ next. next.walker.leaves ≤ self.walker.leaves + 150000000) }
    {
        let boards = CallSet::of_list(stop.boards.as_slice());
        let walker = self.walker.make_stop(snapshot, car, stop.floor, boards);
        let moment = walker.opened;
        let boarding = by_id(alloc, snapshot, boards)?;
        deliver(
            snapshot,
            car,
            self.riders.as_slice(),
            stop.floor,
            moment,
            events,
        )?;
        board(snapshot, car, boarding.as_slice(), moment, events)?;
        let mut riders = riders_staying(alloc, snapshot, self.riders.as_slice(), stop.floor)?;
        riders.extend_from_slice(boarding.as_slice())?;
        let mut boarded_at = self.boarded_at;
        note_boarding(boarded_at.as_mut_slice(), boards, moment);
        Ok(Ride {
            walker,
            riders,
            boarded_at,
        })
    }
}

/// The car after the first stops of its feasible tour. What happens there is appended to the events.
pub(crate) fn ride_along(
    alloc: Global,
    snapshot: &Snapshot,
    car: u32,
    tour: &Tour,
    stops: usize,
    events: &mut Vec<Event>,
) -> Result<Ride, AllocError>
    requires car { car < car_count snapshot.now }
    requires feasible { IsFeasible snapshot.now car tour.now }
    requires stops { stops ≤ length tour.now }
    ensures rides { IfOk result (λ ride. RidesAfter snapshot.now car ride (take stops tour.now)) }
    ensures events { OnOk result (events.new.items ≡ events.old.items ++
        events_of_car snapshot.now car (take stops tour.now)) }
    ensures floor { IfOk result (λ ride. ride.walker.place.floor < floor_count snapshot.now.building) }
    ensures early { IfOk result (λ ride. ride.walker.leaves ≤ MOMENT_LIMIT) }
{
    let mut ride = Ride::start(alloc, snapshot, car)?;
    for place in 0..stops {
        ride = ride.after_stop(alloc, snapshot, car, &tour.stops()[place], events)?;
    }
    Ok(ride)
}

/// How many stops of its feasible tour the car reaches at the moment `t` or before.
fn stops_done(snapshot: &Snapshot, car: u32, tour: &Tour, t: u64) -> usize
    requires car { car < car_count snapshot.now }
    requires feasible { IsFeasible snapshot.now car tour.now }
    ensures count { result ≡ length (stops_by snapshot.now car t tour.now) }
    ensures stops { take result tour.now ≡ stops_by snapshot.now car t tour.now }
    ensures within { result ≤ length tour.now }
{
    let mut walker = Walker::start(snapshot, car);
    let stops = tour.stops();
    for (done, stop) in stops.iter().enumerate() {
        if walker.arrival(snapshot, car, stop.floor) > t {
            return done;
        }
        let boards = CallSet::of_list(stop.boards.as_slice());
        walker = walker.make_stop(snapshot, car, stop.floor, boards);
    }
    stops.len()
}

/// How far a car is at a moment.
#[derive(Drop)]
pub(crate) struct Reached {
    /// How many of its stops it has reached.
    pub done: usize,
    /// The car after these stops.
    pub ride: Ride,
}

/// The stops of a tour that are left after this many of them.
pub(crate) fn stops_left(tour: &Tour, done: usize) -> &[Stop]
    requires { done ≤ length tour.now }
    ensures { result.now ≡ drop done tour.now }
{
    &tour.stops()[done..]
}

/// How far the car is at the moment `t`. What happens at the stops reached by then is appended to the events.
pub(crate) fn ride_until(
    alloc: Global,
    snapshot: &Snapshot,
    car: u32,
    tour: &Tour,
    t: u64,
    events: &mut Vec<Event>,
) -> Result<Reached, AllocError>
    requires car { car < car_count snapshot.now }
    requires feasible { IsFeasible snapshot.now car tour.now }
    ensures done { IfOk result
        (λ reached. reached.done ≡ length (stops_by snapshot.now car t tour.now)) }
    ensures within { IfOk result (λ reached. reached.done ≤ length tour.now) }
    ensures floor { IfOk result
        (λ reached. reached.ride.walker.place.floor < floor_count snapshot.now.building) }
    ensures early { IfOk result (λ reached. reached.ride.walker.leaves ≤ MOMENT_LIMIT) }
    ensures rides { IfOk result
        (λ reached. RidesAfter snapshot.now car reached.ride (stops_by snapshot.now car t tour.now)) }
    ensures events { OnOk result (events.new.items ≡ events.old.items ++
        events_of_car snapshot.now car (stops_by snapshot.now car t tour.now)) }
{
    let done = stops_done(snapshot, car, tour, t);
    let ride = ride_along(alloc, snapshot, car, tour, done, events)?;
    Ok(Reached { done, ride })
}
