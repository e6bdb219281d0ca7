//! The plain values of elevator dispatching, and in `specs/` the definitions that the contracts of the other
//! crates cite: travel times, buildings, snapshots, tours and their rules, times, costs, plans, partial
//! tours.
//!
//! Lengths are in mm, moments and times in ms. Floors are numbered from 0. Cars and calls have ids in the
//! texts; here they are named by their index, from 0, in the order of the text.
//!
//! # What is promised
//!
//! - `CarState::floor`, `Call::is_later_in_queue`, `Fault::code`, `Rule::number` and what else a value knows
//!   by itself: each is its definition. Copies are equal values.
//! - The greatest sizes, moments and costs have their one home here (`limits`).
//!
//! The definitions are over records of lists and numbers and copy no loop of the code. `specs/Worked.antt`
//! computes worked cases from them: costs of tours and plans, with patience too, and with numbers that all
//! differ, so that no two can be taken for each other; timelines; plans of several cars; moves, with what
//! they settled; moving cars; orders that the queue rule forbids; each rule of a tour broken once, and two at
//! one stop; first bad places of plans; each first fault of a building and of a snapshot, also where two come
//! together.
#![tactic(auto)]

ghost use Rattle.std.specs.Prelude.{◌≡◌, ◌↔◌, ◌≤◌, ℕ, List, [], ◌∷◌, ◌++◌, length, IsTrue, OnOk, OnErr, IfOk};
ghost use Rattle.std.specs.Prelude.{IfErr};

mod limits;

use call_sets::FloorSet;
pub use limits::{
    LATEST_MOMENT, LATEST_SNAPSHOT, LONGEST_WAY, LONGEST_WORK, MOMENT_LIMIT, MOST_CALL_COST,
    MOST_CALLS, MOST_CARS, MOST_COST, MOST_FLOORS, MOST_GROUPS_COST, MOST_MOVES, MOST_NEXT_MOVES,
    MOST_PERSONS, MOST_STOP_TIME, most_calls, most_cars,
};
use std::alloc::{AllocError, AllocFailed, Global};
use std::fmt;
use std::marker::Model;

/// A car as a building has it.
#[derive(Clone, Copy)]
pub struct CarSpec {
    /// The car's id in the texts.
    pub id: u32,
    /// How many persons may be carried, 1 to 64.
    pub capacity: u32,
    /// Time from an arrival to open doors, in ms.
    pub opening: u64,
    /// Time to close the doors, in ms.
    pub closing: u64,
    /// Time for each person that gets on, in ms.
    pub boarding: u64,
    /// Time for each person that gets off, in ms.
    pub alighting: u64,
    /// The floors that it serves.
    pub serves: FloorSet,
}

/// Where a car is.
#[derive(Clone, Copy)]
pub enum CarState {
    /// It stands with closed doors, or will at the moment `free`, and leaves no earlier.
    Idle { floor: u32, free: u64 },
    /// It is on its way and stops at this floor next, at the moment `arrives`.
    Coming { floor: u32, arrives: u64 },
    /// It left the floor `from` at the moment `left`, and may still choose where it stops first.
    Moving { from: u32, up: bool, left: u64 },
}

impl CarState {
    ghost use Rattle.std.specs.Prelude.{◌≡◌};
    ghost use Rattle.elevator_model.specs.Snapshot.{floor_of, moment_of, is_idle, is_coming, is_moving};

    /// The floor where the car stands, comes to or left.
    pub fn floor(&self) -> u32
        ensures { result ≡ floor_of self.now }
    {
        match *self {
            CarState::Idle { floor, .. } | CarState::Coming { floor, .. } => floor,
            CarState::Moving { from, .. } => from,
        }
    }

    /// The moment from which the car's tour is timed, in ms: it may leave, arrives or left.
    pub fn moment(&self) -> u64
        ensures { result ≡ moment_of self.now }
    {
        match *self {
            CarState::Idle { free, .. } => free,
            CarState::Coming { arrives, .. } => arrives,
            CarState::Moving { left, .. } => left,
        }
    }

    /// Whether it stands.
    pub fn is_idle(&self) -> bool
        ensures { result ≡ is_idle self.now }
    {
        matches!(*self, CarState::Idle { .. })
    }

    /// Whether it is on its way to a stop that is fixed.
    pub fn is_coming(&self) -> bool
        ensures { result ≡ is_coming self.now }
    {
        matches!(*self, CarState::Coming { .. })
    }

    /// Whether it moves and may still choose where it stops first.
    pub fn is_moving(&self) -> bool
        ensures { result ≡ is_moving self.now }
    {
        matches!(*self, CarState::Moving { .. })
    }
}

/// A group of passengers aboard a car.
#[derive(Clone, Copy)]
pub struct Aboard {
    pub id: u32,
    /// The index of its car.
    pub car: u32,
    pub destination: u32,
    /// 1 to 8.
    pub persons: u32,
    /// The moment it boarded, in ms.
    pub boarded: u64,
}

/// An open landing call.
#[derive(Clone, Copy)]
pub struct Call {
    pub id: u32,
    pub origin: u32,
    pub destination: u32,
    /// 1 to 8.
    pub persons: u32,
    /// The moment the call was placed, in ms.
    pub released: u64,
    /// The index of the one car that may serve it, where the call is pinned.
    pub pin: Option<u32>,
}

impl Call {
    ghost use Rattle.std.specs.Prelude.{◌≡◌};
    ghost use Rattle.elevator_model.specs.Tours.{is_upward, is_later, is_later_in_queue};

    /// Whether it goes to a higher floor.
    pub fn is_upward(&self) -> bool
        ensures { result ≡ is_upward self.now }
    {
        self.origin < self.destination
    }

    /// Whether it was released later than `other`, or with it and has the greater id.
    pub fn is_later(&self, other: &Call) -> bool
        ensures { result ≡ is_later self.now other.now }
    {
        self.released > other.released || self.released == other.released && self.id > other.id
    }

    /// Whether it is a later call of the queue of `other`: of the same origin and direction, and later by the
    /// moment of release, then by id.
    pub fn is_later_in_queue(&self, other: &Call) -> bool
        ensures { result ≡ is_later_in_queue self.now other.now }
    {
        self.origin == other.origin && self.is_upward() == other.is_upward() && self.is_later(other)
    }
}

/// What is wrong with a building, a snapshot or a square of travel times.
#[derive(Clone, Copy, PartialEq, Eq, Debug)]
pub enum Fault {
    /// A number is outside its range, the travel times are of another number of floors, or there is no car.
    OutOfRange,
    /// Heights or served floors do not rise.
    NotRising,
    /// The id was used before.
    IdUsedBefore,
    /// A floor is not a floor of the building.
    NoSuchFloor,
    /// A call's origin is its destination.
    OriginIsDestination,
    /// A call without a pin has no possible car.
    NoPossibleCar,
    /// A call's pinned car cannot take it.
    PinCannotTake,
    /// The car cannot deliver this group without a turn with passengers.
    WrongSide,
    /// The persons aboard a car, up to this group, exceed its capacity.
    OverCapacity,
    /// A moment is too early or too late.
    MomentOutOfRange,
    /// There are too many calls.
    TooManyCalls,
    /// There are too many cars.
    TooManyCars,
    /// A floor is not served by the car, or a car serves fewer than two floors.
    NotServed,
    /// The persons of a call or group are not 1 to 8.
    PersonsOutOfRange,
    /// Times that are no travel square.
    NoTravelSquare,
    /// A moving car has no floor open at which it could stop first.
    NoOpenFloor,
}

impl Fault {
    ghost use Rattle.std.specs.Prelude.{◌≡◌};
    ghost use Rattle.elevator_model.specs.Printed.{code_of};

    /// The code that is printed for it.
    pub fn code(self) -> u8
        ensures { result ≡ code_of self }
    {
        match self {
            Fault::OutOfRange => 7,
            Fault::NotRising => 10,
            Fault::IdUsedBefore => 11,
            Fault::NoSuchFloor => 12,
            Fault::OriginIsDestination => 13,
            Fault::NoPossibleCar => 14,
            Fault::PinCannotTake => 15,
            Fault::WrongSide => 16,
            Fault::OverCapacity => 17,
            Fault::MomentOutOfRange => 18,
            Fault::TooManyCalls => 19,
            Fault::TooManyCars => 20,
            Fault::NotServed => 21,
            Fault::PersonsOutOfRange => 22,
            Fault::NoTravelSquare => 28,
            Fault::NoOpenFloor => 51,
        }
    }
}

impl fmt::Display for Fault {
    fn fmt<W: fmt::Write>(&self, f: &mut fmt::Formatter<W>) -> fmt::Result {
        f.write_str(match self {
            Fault::OutOfRange => "a number is outside its range",
            Fault::NotRising => "heights or served floors do not rise",
            Fault::IdUsedBefore => "the id was used before",
            Fault::NoSuchFloor => "the building has no such floor",
            Fault::OriginIsDestination => "the origin is the destination",
            Fault::NoPossibleCar => "no car can take the call",
            Fault::PinCannotTake => "the pinned car cannot take the call",
            Fault::WrongSide => "the car cannot deliver the group without a turn",
            Fault::OverCapacity => "more persons are aboard than the capacity",
            Fault::MomentOutOfRange => "the moment is too early or too late",
            Fault::TooManyCalls => "there are too many calls",
            Fault::TooManyCars => "there are too many cars",
            Fault::NotServed => "the car does not serve the floor, or serves too few",
            Fault::PersonsOutOfRange => "the persons are not 1 to 8",
            Fault::NoTravelSquare => "the times are no travel square",
            Fault::NoOpenFloor => "no floor is open for the moving car",
        })
    }
}

/// A rule that a tour or a plan can break, in the order in which they are tested at one stop.
#[derive(Clone, Copy)]
pub enum Rule {
    /// The first stop of a coming car is its floor, and that of a moving car is open; neither may have no
    /// stop.
    FirstStop,
    /// Two stops in a row at one floor.
    SameFloorTwice,
    /// A stop where nobody gets off and no call boards.
    UselessStop,
    /// A leg past or away from the destination of someone carried.
    TurnWithPassengers,
    /// More persons carried than the capacity.
    Capacity,
    /// A call boards although a later call of its queue boarded at an earlier stop.
    QueueOrder,
    /// A call boards that this car may not take, or an index that is no call.
    Car,
    /// A floor that the building lacks or the car does not serve.
    Floor,
    /// Someone is still carried after the last stop.
    Delivery,
    /// A call boards a second time.
    CallTwice,
    /// A call boards at a floor that is not its origin.
    Origin,
    /// A call that no tour boards.
    Unserved,
}

impl Rule {
    ghost use Rattle.std.specs.Prelude.{◌≡◌};
    ghost use Rattle.elevator_model.specs.Printed.{number_of};

    /// The number that is printed for it, 1 to 12.
    pub fn number(self) -> u8
        ensures { result ≡ number_of self }
    {
        match self {
            Rule::FirstStop => 1,
            Rule::SameFloorTwice => 2,
            Rule::UselessStop => 3,
            Rule::TurnWithPassengers => 4,
            Rule::Capacity => 5,
            Rule::QueueOrder => 6,
            Rule::Car => 7,
            Rule::Floor => 8,
            Rule::Delivery => 9,
            Rule::CallTwice => 10,
            Rule::Origin => 11,
            Rule::Unserved => 12,
        }
    }
}

/// The first bad stop of a tour, counted from 1, and the lowest rule broken there.
#[derive(Clone, Copy)]
pub struct Broken {
    pub stop: u32,
    pub rule: Rule,
}

/// The first bad place of a plan. For `Rule::Unserved` the car is the number of cars, and the stop is
/// the index of the call.
#[derive(Clone, Copy)]
pub struct BadPlan {
    pub car: u32,
    pub stop: u32,
    pub rule: Rule,
}

/// One step of a partial tour.
#[derive(Clone, Copy, PartialEq, Eq)]
pub enum Move {
    /// A call boards at the present stop.
    Board(u32),
    /// The car goes to a stop at this floor.
    Leave(u32),
    /// The tour ends.
    End,
}

/// The moments of one stop, in ms.
#[derive(Clone, Copy)]
pub struct Times {
    pub arrival: u64,
    pub opened: u64,
    pub leaves: u64,
}

/// The calls that board at a stop, by index. Their order has no meaning.
#[derive(Drop)]
pub struct Boards {
    calls: Vec<u32>,
}

impl Model for Boards {
    ghost Value = { List ℕ };

    ghost view = { λ b. b.calls.items };
}

impl Boards {
    /// No calls.
    pub fn new(alloc: Global) -> Self
        ensures { result ≡ [] }
    {
        Boards {
            calls: Vec::new(alloc),
        }
    }

    /// These calls, in this order.
    pub fn from_vec(calls: Vec<u32>) -> Self
        ensures { result ≡ calls.items }
    {
        Boards { calls }
    }

    /// How many calls board.
    pub fn len(&self) -> usize
        ensures { result ≡ length self.now }
    {
        self.calls.len()
    }

    /// Whether no call boards.
    pub fn is_empty(&self) -> bool
        ensures { IsTrue result ↔ (self.now ≡ []) }
    {
        self.calls.is_empty()
    }

    /// The calls.
    pub fn as_slice(&self) -> &[u32]
        ensures { result.now ≡ self.now }
    {
        self.calls.as_slice()
    }

    /// Adds a call at the end. After an `Err` the calls are as before.
    pub fn push(&mut self, call: u32) -> Result<(), AllocError>
        ensures ok { OnOk result (self.new ≡ self.old ++ call ∷ []) }
        ensures err { OnErr result (self.new ≡ self.old) }
    {
        self.calls.push(call)?;
        Ok(())
    }

    /// The calls, as a vector.
    pub fn into_vec(self) -> Vec<u32>
        ensures { result.items ≡ self }
    {
        self.calls
    }

    /// The same calls in the same order. `Err` means that there is no memory left.
    pub fn copy(&self, alloc: Global) -> Result<Boards, AllocError>
        ensures { IfOk result (λ boards. boards ≡ self.now) }
    {
        let calls = self.as_slice().to_vec(alloc)?;
        Ok(Boards { calls })
    }
}

impl PartialEq for Boards {
    ghost use Rattle.std.specs.Prelude.{◌==◌};
    ghost use Rattle.std.specs.Cmp.Rules.{comparing};
    ghost use Rattle.std.proofs.Common.{rules};
    ghost use Rattle.std.specs.Cmp.Lexicographic.{pointwise};

    ghost eq = { pointwise ◌==◌ };

    ghost laws = { Prim.search (comparing, rules) };

    /// Whether the same calls stand in the same order.
    fn eq(&self, other: &Boards) -> bool {
        self.calls == other.calls
    }
}

/// A stop of a tour: a floor, and the calls that board there.
#[derive(Drop, PartialEq)]
pub struct Stop {
    pub floor: u32,
    pub boards: Boards,
}

impl Stop {
    /// The same stop. `Err` means that there is no memory left.
    pub fn copy(&self, alloc: Global) -> Result<Stop, AllocError>
        ensures { IfOk result (λ stop. stop ≡ self.now) }
    {
        Ok(Stop {
            floor: self.floor,
            boards: self.boards.copy(alloc)?,
        })
    }
}

/// The stops of one car, in order.
#[derive(Drop)]
pub struct Tour {
    stops: Vec<Stop>,
}

impl Model for Tour {
    ghost use Rattle.std.specs.Prelude.{List};
    ghost use Rattle.elevator_model.specs.declared.Stop.{Stop};

    ghost Value = { List Stop };

    ghost view = { λ t. t.stops.items };
}

impl Tour {
    /// No stop.
    pub fn new(alloc: Global) -> Self
        ensures { result ≡ [] }
    {
        Tour {
            stops: Vec::new(alloc),
        }
    }

    /// These stops, in this order.
    pub fn from_vec(stops: Vec<Stop>) -> Self
        ensures { result ≡ stops.items }
    {
        Tour { stops }
    }

    /// The stops.
    pub fn stops(&self) -> &[Stop]
        ensures { result.now ≡ self.now }
    {
        self.stops.as_slice()
    }

    /// Adds a stop at the end. After an `Err` the tour is as before.
    pub fn push(&mut self, stop: Stop) -> Result<(), AllocFailed<Stop>>
        ensures ok { OnOk result (self.new ≡ self.old ++ stop ∷ []) }
        ensures err { OnErr result (self.new ≡ self.old) }
        ensures returned { IfErr result (λ e. e.value ≡ stop) }
    {
        self.stops.push(stop)
    }

    /// The stops, as a vector.
    pub fn into_vec(self) -> Vec<Stop>
        ensures { result.items ≡ self }
    {
        self.stops
    }

    /// The same stops in the same order. `Err` means that there is no memory left.
    pub fn copy(&self, alloc: Global) -> Result<Tour, AllocError>
        ensures { IfOk result (λ tour. tour ≡ self.now) }
    {
        let mut stops = Vec::with_capacity(alloc, self.stops.len())?;
        for stop in &self.stops {
            stops.push(stop.copy(alloc)?)?;
        }
        Ok(Tour { stops })
    }
}

impl PartialEq for Tour {
    ghost use Rattle.std.specs.Cmp.Lexicographic.{pointwise, lists_per};
    ghost use Rattle.elevator_model.specs.Equal.{same_stop, same_stop_law};

    ghost eq = { pointwise same_stop };

    ghost laws = { lists_per same_stop_law };

    /// Whether the stops are the same, one by one.
    fn eq(&self, other: &Tour) -> bool {
        self.stops == other.stops
    }
}

/// One tour per car, in the building's order.
#[derive(Drop)]
pub struct Plan {
    tours: Vec<Tour>,
}

impl Model for Plan {
    ghost use Rattle.std.specs.Prelude.{List};
    ghost use Rattle.elevator_model.specs.declared.Stop.{Stop};

    ghost Value = { List (List Stop) };

    ghost view = { λ p. p.tours.items };
}

impl PartialEq for Plan {
    ghost use Rattle.std.specs.Cmp.Lexicographic.{pointwise, lists_per};
    ghost use Rattle.elevator_model.specs.Equal.{same_stop, same_stop_law};

    ghost eq = { pointwise (pointwise same_stop) };

    ghost laws = { lists_per (lists_per same_stop_law) };

    /// Whether the tours are the same, one by one.
    fn eq(&self, other: &Plan) -> bool {
        self.tours == other.tours
    }
}

impl Plan {
    /// No tour.
    pub fn new(alloc: Global) -> Self
        ensures { result ≡ [] }
    {
        Plan {
            tours: Vec::new(alloc),
        }
    }

    /// Adds the tour of the next car. After an `Err` the plan is as before.
    pub fn push(&mut self, tour: Tour) -> Result<(), AllocFailed<Tour>>
        ensures ok { OnOk result (self.new ≡ self.old ++ tour ∷ []) }
        ensures err { OnErr result (self.new ≡ self.old) }
        ensures returned { IfErr result (λ e. e.value ≡ tour) }
    {
        self.tours.push(tour)
    }

    /// These tours, in this order.
    pub fn from_vec(tours: Vec<Tour>) -> Self
        ensures { result ≡ tours.items }
    {
        Plan { tours }
    }

    /// The tours.
    pub fn tours(&self) -> &[Tour]
        ensures { result.now ≡ self.now }
    {
        self.tours.as_slice()
    }

    /// The tours, as a vector.
    pub fn into_vec(self) -> Vec<Tour>
        ensures { result.items ≡ self }
    {
        self.tours
    }

    /// The same tours in the same order. `Err` means that there is no memory left.
    pub fn copy(&self, alloc: Global) -> Result<Plan, AllocError>
        ensures { IfOk result (λ plan. plan ≡ self.now) }
    {
        let mut tours = Vec::with_capacity(alloc, self.tours.len())?;
        for tour in &self.tours {
            tours.push(tour.copy(alloc)?)?;
        }
        Ok(Plan { tours })
    }
}
