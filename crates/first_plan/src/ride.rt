//! A car on its way through a draft tour: what it costs, and whether a rule is broken.
//!
//! Drafts are proposals, which are judged before they are used. So nothing here has to be right, and sums
//! stop at the greatest number.

ghost use Rattle.std.specs.Prelude.{◌<◌};
ghost use Rattle.elevator_model.specs.Snapshot.{car_count};

use crate::queues::Queues;
use crate::stops::DraftStop;
use call_sets::{CallSet, FloorSet};
use call_state::{Call, CarSpec, Snapshot};
use tour_rules::first_floors;

/// How far a car is in its draft tour. Moments are in ms, costs in cost units.
#[derive(Clone, Copy)]
pub(crate) struct DraftRide {
    spec: CarSpec,
    /// Whether it has made a stop.
    begun: bool,
    /// Before its first stop: whether that stop is due, and whether a leg leads there.
    due: bool,
    has_leg: bool,
    /// The floors where it may stop first.
    first: FloorSet,
    /// The floor of its last stop, or where it stands, comes to or comes from.
    floor: u32,
    /// The moments at which the doors of its last stop are open and at which it leaves.
    opened: u64,
    leaves: u64,
    /// The persons carried when it arrived at its last stop, and now.
    arriving: u64,
    load: u64,
    /// The floors where someone carried goes.
    bound_for: FloorSet,
    /// For each floor the persons carried there, and the sum of the moments at which they boarded.
    persons: [u64; 64],
    since: [u64; 64],
    /// The calls that boarded at earlier stops, and at this one.
    before: CallSet,
    here: CallSet,
    /// What a ms more of waiting would have cost the calls that boarded at earlier stops, and all so far.
    rate_before: u64,
    rate: u64,
    /// What the riders cost who boarded and got off so far.
    cost: u64,
    is_broken: bool,
}

/// The time in ms from one floor to another.
pub(crate) fn travel_time(snapshot: &Snapshot, from: u32, to: u32) -> u64 {
    let travel = snapshot.building().travel();
    if from >= travel.floors() || to >= travel.floors() {
        return 0;
    }
    travel.time(from, to)
}

/// What a person's wait costs.
fn cost_of_wait(snapshot: &Snapshot, wait: u64) -> u64 {
    let building = snapshot.building();
    let past = wait.saturating_sub(building.patience());
    building
        .wait_weight()
        .saturating_mul(wait)
        .saturating_add(building.patience_weight().saturating_mul(past))
}

/// What the wait of a call costs that boards at this moment.
pub(crate) fn waiting_cost(snapshot: &Snapshot, call: &Call, opened: u64) -> u64 {
    let wait = opened.saturating_sub(call.released);
    (call.persons as u64).saturating_mul(cost_of_wait(snapshot, wait))
}

/// What the next ms of waiting costs a call that has waited until this moment.
fn waiting_rate(snapshot: &Snapshot, call: &Call, opened: u64) -> u64 {
    let building = snapshot.building();
    let wait = opened.saturating_sub(call.released);
    let mut rate = building.wait_weight();
    if wait >= building.patience() {
        rate = rate.saturating_add(building.patience_weight());
    }
    (call.persons as u64).saturating_mul(rate)
}

impl DraftRide {
    /// The car at the start of its tour.
    pub(crate) fn start(snapshot: &Snapshot, car: u32) -> Self
        requires { car < car_count snapshot.now }
    {
        let state = snapshot.car(car);
        let moment = state.moment();
        let mut ride = Self {
            spec: *snapshot.spec(car),
            begun: false,
            due: !state.is_idle(),
            has_leg: !state.is_coming(),
            first: first_floors(snapshot, car),
            floor: state.floor(),
            opened: moment,
            leaves: moment,
            arriving: 0,
            load: 0,
            bound_for: FloorSet::empty(),
            persons: [0; 64],
            since: [0; 64],
            before: CallSet::empty(),
            here: CallSet::empty(),
            rate_before: 0,
            rate: 0,
            cost: 0,
            is_broken: false,
        };
        for group in snapshot.aboard() {
            if group.car == car {
                ride.take_up(group.destination, group.persons as u64, group.boarded);
            }
        }
        ride
    }

    /// The car.
    pub(crate) fn spec(&self) -> CarSpec {
        self.spec
    }

    /// The floor of its last stop, or where it stands, comes to or comes from.
    pub(crate) fn floor(&self) -> u32 {
        self.floor
    }

    /// The moment in ms at which it leaves its last stop, or that of its state.
    pub(crate) fn leaves(&self) -> u64 {
        self.leaves
    }

    /// The persons carried.
    pub(crate) fn load(&self) -> u64 {
        self.load
    }

    /// The calls that boarded so far.
    pub(crate) fn boarded(&self) -> CallSet {
        self.before.union(self.here)
    }

    /// What a ms more of waiting would have cost the calls that boarded so far, in cost units.
    pub(crate) fn rate(&self) -> u64 {
        self.rate
    }

    /// Whether the car may make its first stop at the floor.
    pub(crate) fn may_begin_at(&self, floor: u32) -> bool {
        self.first.contains(floor)
    }

    /// Whether the car has made a stop, and the last one at this floor.
    fn is_at(&self, floor: u32) -> bool {
        self.begun && self.floor == floor
    }

    /// What the tour costs if it ends here. None where it breaks a rule.
    pub(crate) fn cost_at_end(&self) -> Option<u64> {
        if self.is_broken || !self.bound_for.is_empty() {
            return None;
        }
        Some(self.cost)
    }

    /// The car makes a stop, if that is of use. Whether it arrives there from elsewhere.
    pub(crate) fn visit(&mut self, snapshot: &Snapshot, queues: &Queues, stop: &DraftStop) -> bool {
        let arrives = !self.is_at(stop.floor);
        if arrives {
            if stop.boards.is_empty() && !self.has_use_at(stop.floor) {
                return false;
            }
            self.arrive(snapshot, stop.floor);
        }
        for call in stop.boards.iter() {
            self.board(snapshot, queues, call);
        }
        arrives
    }

    /// The last stop as far as it was made.
    pub(crate) fn last_stop(&self) -> DraftStop {
        DraftStop {
            floor: self.floor,
            boards: self.here,
            opened: self.opened,
            leaves: self.leaves,
            arriving: self.arriving,
            load: self.load,
            before: self.before,
            rate_before: self.rate_before,
        }
    }

    /// Whether a stop at the floor is of use though nobody boards.
    fn has_use_at(&self, floor: u32) -> bool {
        !self.begun && self.due || self.bound_for.contains(floor)
    }

    /// Whether the way to the floor is not allowed.
    fn goes_wrong(&self, floor: u32) -> bool {
        if !self.begun && !self.first.contains(floor) {
            return true;
        }
        (self.begun || self.has_leg) && self.turns(floor)
    }

    /// Whether someone carried would ride past or away from the destination on the way to the floor.
    fn turns(&self, floor: u32) -> bool {
        self.floor < floor && self.bound_for.least().is_some_and(|lowest| lowest < floor)
            || floor < self.floor && !self.bound_for.above(floor).is_empty()
    }

    /// The car stops at another floor, and all get off that go there.
    fn arrive(&mut self, snapshot: &Snapshot, floor: u32) {
        if self.goes_wrong(floor) {
            self.is_broken = true;
        }
        let travel = if self.begun || self.has_leg {
            travel_time(snapshot, self.floor, floor)
        } else {
            0
        };
        self.opened = self
            .leaves
            .saturating_add(travel)
            .saturating_add(self.spec.opening);
        self.leaves = self.opened.saturating_add(self.spec.closing);
        self.begun = true;
        self.floor = floor;
        self.before = self.before.union(self.here);
        self.here = CallSet::empty();
        self.rate_before = self.rate;
        self.arriving = self.load;
        self.let_off(snapshot.building().travel_weight());
    }

    /// All get off that go to the floor where the car is.
    fn let_off(&mut self, travel_weight: u64) {
        let place = self.floor as usize % 64;
        let persons = self.persons[place];
        let ridden = persons
            .saturating_mul(self.opened)
            .saturating_sub(self.since[place]);
        self.cost = self
            .cost
            .saturating_add(travel_weight.saturating_mul(ridden));
        self.leaves = self
            .leaves
            .saturating_add(self.spec.alighting.saturating_mul(persons));
        self.load = self.load.saturating_sub(persons);
        self.persons[place] = 0;
        self.since[place] = 0;
        self.bound_for = self.bound_for.without(self.floor % 64);
    }

    /// A call boards where the car is.
    fn board(&mut self, snapshot: &Snapshot, queues: &Queues, call: u32) {
        let Some(wanted) = snapshot.calls().get(call as usize).copied() else {
            self.is_broken = true;
            return;
        };
        let later = queues.later(call);
        let persons = wanted.persons as u64;
        let load = self.load.saturating_add(persons);
        if !self.before.intersection(later).is_empty() || load > self.spec.capacity as u64 {
            self.is_broken = true;
        }
        let cost = waiting_cost(snapshot, &wanted, self.opened);
        self.cost = self.cost.saturating_add(cost);
        let rate = waiting_rate(snapshot, &wanted, self.opened);
        self.rate = self.rate.saturating_add(rate);
        self.leaves = self
            .leaves
            .saturating_add(self.spec.boarding.saturating_mul(persons));
        self.here = self.here.with(call % 128);
        self.take_up(wanted.destination, persons, self.opened);
    }

    /// Persons who boarded at this moment are carried from now on.
    fn take_up(&mut self, destination: u32, persons: u64, boarded: u64) {
        let place = destination as usize % 64;
        self.load = self.load.saturating_add(persons);
        self.persons[place] = self.persons[place].saturating_add(persons);
        self.since[place] = self.since[place].saturating_add(persons.saturating_mul(boarded));
        self.bound_for = self.bound_for.with(destination % 64);
    }
}
