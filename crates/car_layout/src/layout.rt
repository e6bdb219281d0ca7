//! The layout of a snapshot and a car.

ghost use Rattle.std.specs.Prelude.{◌≡◌, ℕ, ◌<◌, ◌≤◌, IfOk};
ghost use Rattle.call_sets.specs.Counting.{has};
ghost use Rattle.elevator_model.specs.Snapshot.{IsAccepted, car_count, call_count, state_of, serves};
ghost use Rattle.elevator_model.specs.Snapshot.{may_stop_first};
ghost use Rattle.elevator_model.specs.Tours.{is_call_for};
ghost use Rattle.car_layout.specs.Layouts.{starts_at, ends_at as ends_at_lem, is_earlier, fits_in};
ghost use Rattle.car_layout.specs.Layouts.{any_group_to, persons_to as persons_to_lem};
ghost use Rattle.car_layout.specs.Layouts.{moments_to as moments_to_lem};

use crate::floors::floors_served;
use crate::groups::{destinations, lay_out_riders};
use crate::scans::{calls_for, earlier_table, ending_table, fitting_table, starting_table};
use call_sets::{CallSet, FloorSet};
use call_state::Snapshot;
use std::alloc::{AllocError, Global};
use std::marker::Model;
use tour_rules::first_floors;

/// A snapshot and a car, laid out. All memory is taken when it is made.
#[derive(Drop)]
pub struct Layout<'a> {
    snapshot: &'a Snapshot,
    car: u32,
    /// For each floor the calls that start there, and those that end there.
    starting: Vec<CallSet>,
    ending: Vec<CallSet>,
    /// For each call the earlier ones of its queue.
    earlier: Vec<CallSet>,
    /// For each number of persons up to 8 the calls of no more.
    fitting: Vec<CallSet>,
    /// The calls that the car may take.
    possible: CallSet,
    /// The floors that it serves, and those where it may stop first.
    served: FloorSet,
    first: FloorSet,
    /// The floors to which groups aboard it go, and for each floor the persons who go there and the sum of
    /// the moments at which each of them boarded.
    destinations: FloorSet,
    persons: Vec<u32>,
    moments: Vec<u64>,
}

impl<'a> Model for Layout<'a> {
    ghost use Rattle.std.specs.Prelude.{length};
    ghost use Rattle.elevator_model.specs.Snapshot.{IsAccepted, car_count};
    ghost use Rattle.car_layout.specs.Layouts.{LaidOut, starts_at, ends_at, is_earlier, fits_in};
    ghost use Rattle.car_layout.specs.Tables.{IsTable, IsForCar};

    ghost Value = { LaidOut };

    ghost view = { λ l. record { snapshot = l.snapshot.now; car = l.car } };

    ghost invariant = { λ l. IsAccepted l.snapshot.now
        × IsTable 64 (starts_at l.snapshot.now) l.starting.items
        × IsTable 64 (ends_at l.snapshot.now) l.ending.items
        × IsTable (length l.snapshot.now.calls) (is_earlier l.snapshot.now) l.earlier.items
        × IsTable 9 (fits_in l.snapshot.now) l.fitting.items
        × IsForCar l.snapshot.now l.car l.possible l.served l.first l.destinations l.persons.items
        l.moments.items };
}

impl<'a> Layout<'a> {
    /// Lays out a snapshot and a car. The only error is that memory runs out.
    pub fn new(alloc: Global, snapshot: &'a Snapshot, car: u32) -> Result<Self, AllocError>
        requires { car < car_count snapshot.now }
        ensures { IfOk result (λ layout. layout ≡ record { snapshot = snapshot.now; car = car }) }
    {
        // For the proof: the layout is of an accepted snapshot.
        let _calls = snapshot.calls();
        let starting = starting_table(alloc, snapshot)?;
        let ending = ending_table(alloc, snapshot)?;
        let earlier = earlier_table(alloc, snapshot)?;
        let fitting = fitting_table(alloc, snapshot)?;
        let mut persons = Vec::from_array(alloc, [0; 64])?;
        let mut moments = Vec::from_array(alloc, [0; 64])?;
        lay_out_riders(
            snapshot,
            car,
            persons.as_mut_slice(),
            moments.as_mut_slice(),
        );
        Ok(Layout {
            snapshot,
            car,
            starting,
            ending,
            earlier,
            fitting,
            possible: calls_for(snapshot, car),
            served: floors_served(snapshot, car),
            first: first_floors(snapshot, car),
            destinations: destinations(snapshot, car),
            persons,
            moments,
        })
    }

    /// Lays out another car of the snapshot, in the same memory.
    pub fn restart(&mut self, car: u32)
        requires { car < car_count self.old.snapshot }
        ensures { self.new ≡ record { snapshot = self.old.snapshot; car = car } }
    {
        lay_out_riders(
            self.snapshot,
            car,
            self.persons.as_mut_slice(),
            self.moments.as_mut_slice(),
        );
        self.possible = calls_for(self.snapshot, car);
        self.served = floors_served(self.snapshot, car);
        self.first = first_floors(self.snapshot, car);
        self.destinations = destinations(self.snapshot, car);
        self.car = car;
    }

    /// The snapshot that is laid out.
    pub fn snapshot(&self) -> &'a Snapshot
        ensures value { result.now ≡ self.now.snapshot }
        ensures accepted { IsAccepted self.now.snapshot }
    {
        self.snapshot
    }

    /// The car that is laid out.
    pub fn car(&self) -> u32
        ensures value { result ≡ self.now.car }
        ensures car { self.now.car < car_count self.now.snapshot }
    {
        self.car
    }

    /// The calls that start at a floor.
    pub fn starting(&self, floor: u32) -> CallSet
        requires { floor < 64 }
        ensures { (j : ℕ) → has result j ≡ starts_at self.now.snapshot floor j }
    {
        self.starting[floor as usize]
    }

    /// The calls that end at a floor.
    pub fn ending(&self, floor: u32) -> CallSet
        requires { floor < 64 }
        ensures { (j : ℕ) → has result j ≡ ends_at_lem self.now.snapshot floor j }
    {
        self.ending[floor as usize]
    }

    /// The earlier calls of a call's queue.
    pub fn earlier(&self, call: u32) -> CallSet
        requires { call < call_count self.now.snapshot }
        ensures { (j : ℕ) → has result j ≡ is_earlier self.now.snapshot call j }
    {
        self.earlier[call as usize]
    }

    /// The calls of at most this many persons, up to 8.
    pub fn fitting(&self, persons: u32) -> CallSet
        requires { persons ≤ 8 }
        ensures { (j : ℕ) → has result j ≡ fits_in self.now.snapshot persons j }
    {
        self.fitting[persons as usize]
    }

    /// The calls that the car may take.
    pub fn possible(&self) -> CallSet
        ensures { (j : ℕ) → has result j ≡ is_call_for self.now.snapshot self.now.car j }
    {
        self.possible
    }

    /// The floors that the car serves.
    pub fn served(&self) -> FloorSet
        ensures { (g : ℕ) → has result g ≡ serves self.now.snapshot.building self.now.car g }
    {
        self.served
    }

    /// The floors where the car may make its first stop, if it serves them.
    pub fn first_floors(&self) -> FloorSet
        ensures { (g : ℕ) → g < 64 → has result g ≡ may_stop_first self.now.snapshot.building
            self.now.car self.now.snapshot.moment (state_of self.now.snapshot self.now.car) g }
    {
        self.first
    }

    /// The floors to which groups aboard the car go.
    pub fn destinations(&self) -> FloorSet
        ensures { (g : ℕ) → has result g
            ≡ any_group_to self.now.snapshot.aboard self.now.car g }
    {
        self.destinations
    }

    /// The persons aboard the car who go to a floor: at most 64.
    pub fn persons_to(&self, floor: u32) -> u32
        requires { floor < 64 }
        ensures value { result ≡ persons_to_lem self.now.snapshot.aboard self.now.car floor }
        ensures few { result ≤ 64 }
    {
        self.persons[floor as usize]
    }

    /// The sum, in ms, of the moments at which each person aboard the car who goes to a floor boarded.
    pub fn moments_to(&self, floor: u32) -> u64
        requires { floor < 64 }
        ensures { result ≡ moments_to_lem self.now.snapshot.aboard self.now.car floor }
    {
        self.moments[floor as usize]
    }
}
