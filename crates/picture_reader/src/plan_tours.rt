//! What is drawn of the tours of a plan.
ghost use Rattle.std.specs.Prelude.{◌≡◌, ◌≤◌, ◌<◌, ◌++◌, IfOk, OnOk, length, slice_index_or, []};
ghost use Rattle.std.specs.List.{flat_map, range_with_len};
ghost use Rattle.elevator_model.specs.Snapshot.{call_of, car_count};
ghost use Rattle.picture_reader.specs.PlanLegs.{boarded_at, car_legs, car_legs_in, gets_off as gets_off_lem};
ghost use Rattle.picture_reader.specs.PlanLegs.{halt_at, later};
ghost use Rattle.picture_reader.specs.PlanLegs.{plan_legs as plan_legs_lem, rider_aboard as rider_aboard_lem};
ghost use Rattle.picture_reader.specs.PlanLegs.{ride_leg, rides_ended, riders_aboard as riders_aboard_lem};
ghost use Rattle.picture_reader.specs.PlanLegs.{riders_after as riders_after_lem, riders_boarding};
ghost use Rattle.picture_reader.specs.PlanLegs.{riders_staying};
ghost use Rattle.picture_reader.specs.PlanLegs.{stop_legs, tour_legs};
ghost use Rattle.picture_reader.specs.PlanLegs.{visit_leg, wait_leg, waits_ended};

use call_state::Snapshot;
use elevator_model::{Aboard, Plan, Stop};
use lift_picture::{Leg, LegKind};
use std::alloc::{AllocError, Global};

/// From one stop to the next in the picture, in ms.
const STEP: u64 = 60_000;

/// Where a car stops.
#[derive(Clone, Copy)]
pub(crate) struct Halt {
    /// The car's place in the building.
    pub car: u32,
    pub floor: u32,
    /// In ms.
    pub moment: u64,
}

/// Who rides: a call, or a group that was aboard.
#[derive(Clone, Copy)]
pub(crate) struct Rider {
    /// The call's index, or the group's id.
    pub number: u64,
    /// Where and when it got on.
    pub from: u32,
    pub since: u64,
    pub destination: u32,
}

impl Rider {
    fn gets_off(&self, floor: u32) -> bool
        ensures { result ≡ gets_off_lem floor self.now }
    {
        self.destination == floor
    }
}

/// One stop later.
fn later(moment: u64) -> u64
    ensures { result ≡ later moment }
{
    moment.saturating_add(STEP)
}

/// Where a call waits, or the lowest floor where there is no such call.
fn origin_of(snapshot: &Snapshot, call: u32) -> u32
    ensures { result ≡ (call_of snapshot.now call).origin }
{
    match snapshot.calls().get(call as usize) {
        Some(call) => call.origin,
        None => 0,
    }
}

/// Where a call wants to go, or the lowest floor where there is no such call.
fn destination_of(snapshot: &Snapshot, call: u32) -> u32
    ensures { result ≡ (call_of snapshot.now call).destination }
{
    match snapshot.calls().get(call as usize) {
        Some(call) => call.destination,
        None => 0,
    }
}

impl Halt {
    /// The car comes here, from where it left at this moment.
    fn visit(self, left: u64) -> Leg
        ensures { result ≡ visit_leg self left }
    {
        Leg {
            kind: LegKind::Visit,
            call: 0,
            car: self.car,
            from: self.floor,
            since: left,
            to: self.floor,
            until: self.moment,
            left,
            begun: self.moment,
            done: self.moment,
        }
    }

    /// The ride ends that this rider began.
    fn ride(self, rider: &Rider) -> Leg
        ensures { result ≡ ride_leg self rider.now }
    {
        Leg {
            kind: LegKind::Ride,
            call: rider.number,
            car: self.car,
            from: rider.from,
            since: rider.since,
            to: self.floor,
            until: self.moment,
            left: self.moment,
            begun: self.moment,
            done: self.moment,
        }
    }

    /// The wait ends of this call.
    fn wait(self, snapshot: &Snapshot, call: u32) -> Leg
        ensures { result ≡ wait_leg snapshot.now self call }
    {
        Leg {
            kind: LegKind::Wait,
            call: u64::from(call),
            car: self.car,
            from: origin_of(snapshot, call),
            since: 0,
            to: self.floor,
            until: self.moment,
            left: self.moment,
            begun: self.moment,
            done: self.moment,
        }
    }

    /// This call boards here.
    fn boarded(self, snapshot: &Snapshot, call: u32) -> Rider
        ensures { result ≡ boarded_at snapshot.now self call }
    {
        Rider {
            number: u64::from(call),
            from: self.floor,
            since: self.moment,
            destination: destination_of(snapshot, call),
        }
    }
}

// ---- a stop

fn rides_ended(alloc: Global, halt: Halt, riders: &[Rider]) -> Result<Vec<Leg>, AllocError>
    ensures { IfOk result (λ legs. legs.items ≡ rides_ended halt riders.now) }
{
    riders
        .iter()
        .filter(|rider| rider.gets_off(halt.floor))
        .map(|rider| halt.ride(rider))
        .collect(alloc)
}

fn waits_ended(
    alloc: Global,
    snapshot: &Snapshot,
    halt: Halt,
    boards: &[u32],
) -> Result<Vec<Leg>, AllocError>
    ensures { IfOk result (λ legs. legs.items ≡ waits_ended snapshot.now halt boards.now) }
{
    boards
        .iter()
        .map(|call| halt.wait(snapshot, *call))
        .collect(alloc)
}

/// Appends what is drawn of a stop, to which the car left at this moment.
#[tactic(auto, unfolding(crate::specs::PlanLegs::stop_legs))]
fn push_stop(
    alloc: Global,
    out: &mut Vec<Leg>,
    snapshot: &Snapshot,
    halt: Halt,
    left: u64,
    riders: &[Rider],
    stop: &Stop,
) -> Result<(), AllocError>
    ensures { OnOk result (out.new.items
        ≡ out.old.items ++ stop_legs snapshot.now halt left riders.now stop.now.boards) }
{
    let rides = rides_ended(alloc, halt, riders)?;
    let waits = waits_ended(alloc, snapshot, halt, stop.boards.as_slice())?;
    out.push(halt.visit(left))?;
    out.extend_from_slice(&rides)?;
    out.extend_from_slice(&waits)
}

fn staying(alloc: Global, halt: Halt, riders: &[Rider]) -> Result<Vec<Rider>, AllocError>
    ensures { IfOk result (λ left. left.items ≡ riders_staying halt riders.now) }
{
    riders
        .iter()
        .copied()
        .filter(|rider| !rider.gets_off(halt.floor))
        .collect(alloc)
}

fn boarding(
    alloc: Global,
    snapshot: &Snapshot,
    halt: Halt,
    boards: &[u32],
) -> Result<Vec<Rider>, AllocError>
    ensures { IfOk result (λ new. new.items ≡ riders_boarding snapshot.now halt boards.now) }
{
    boards
        .iter()
        .map(|call| halt.boarded(snapshot, *call))
        .collect(alloc)
}

/// Who rides after a stop.
fn riders_after(
    alloc: Global,
    snapshot: &Snapshot,
    halt: Halt,
    riders: &[Rider],
    stop: &Stop,
) -> Result<Vec<Rider>, AllocError>
    ensures { IfOk result (λ after.
        after.items ≡ riders_after_lem snapshot.now halt riders.now stop.now.boards) }
{
    let mut after = staying(alloc, halt, riders)?;
    let new = boarding(alloc, snapshot, halt, stop.boards.as_slice())?;
    after.extend_from_slice(&new)?;
    Ok(after)
}

// ---- a tour

fn rider_aboard(group: &Aboard, floor: u32) -> Rider
    ensures { result ≡ rider_aboard_lem floor group.now }
{
    Rider {
        number: u64::from(group.id),
        from: floor,
        since: 0,
        destination: group.destination,
    }
}

/// Who is aboard a car, which is at this floor.
fn riders_aboard(
    alloc: Global,
    snapshot: &Snapshot,
    car: u32,
    floor: u32,
) -> Result<Vec<Rider>, AllocError>
    ensures { IfOk result (λ riders. riders.items ≡ riders_aboard_lem snapshot.now car floor) }
{
    snapshot
        .aboard()
        .iter()
        .filter(|group| group.car == car)
        .map(|group| rider_aboard(group, floor))
        .collect(alloc)
}

/// Where a car stops that left for it at this moment.
fn halt_at(car: u32, left: u64, stop: &Stop) -> Halt
    ensures { result ≡ halt_at car left stop.now }
{
    Halt {
        car,
        floor: stop.floor,
        moment: later(left),
    }
}

/// Appends what is drawn of the stops of a car on which these ride at first.
fn push_stops(
    alloc: Global,
    out: &mut Vec<Leg>,
    snapshot: &Snapshot,
    car: u32,
    aboard: Vec<Rider>,
    stops: &[Stop],
) -> Result<(), AllocError>
    ensures { OnOk result (out.new.items
        ≡ out.old.items ++ tour_legs snapshot.now car 0 aboard.items stops.now) }
{
    let mut left = 0;
    let mut riders = aboard;
    for stop in stops {
        let halt = halt_at(car, left, stop);
        push_stop(alloc, out, snapshot, halt, left, &riders, stop)?;
        riders = riders_after(alloc, snapshot, halt, &riders, stop)?;
        left = halt.moment;
    }
    Ok(())
}

/// Appends what is drawn of a car and its tour.
#[tactic(auto, unfolding(crate::specs::PlanLegs::car_legs))]
fn push_car(
    alloc: Global,
    out: &mut Vec<Leg>,
    snapshot: &Snapshot,
    car: u32,
    stops: &[Stop],
) -> Result<(), AllocError>
    requires { car < car_count snapshot.now }
    ensures { OnOk result (out.new.items ≡ out.old.items ++ car_legs snapshot.now car stops.now) }
{
    let floor = snapshot.car(car).floor();
    let aboard = riders_aboard(alloc, snapshot, car, floor)?;
    let here = Halt {
        car,
        floor,
        moment: 0,
    };
    out.push(here.visit(0))?;
    push_stops(alloc, out, snapshot, car, aboard, stops)
}

/// The stops of a car in a plan.
fn stops_of(plan: &Plan, car: u32) -> &[Stop]
    requires { car < length plan.now }
    ensures { result.now ≡ slice_index_or plan.now car [] }
{
    plan.tours()[car as usize].stops()
}

/// Appends what is drawn of a car and its tour in a plan.
fn push_car_in(
    alloc: Global,
    out: &mut Vec<Leg>,
    snapshot: &Snapshot,
    plan: &Plan,
    car: u32,
) -> Result<(), AllocError>
    requires car { car < car_count snapshot.now }
    requires tours { length plan.now ≡ car_count snapshot.now }
    ensures { OnOk result (out.new.items
        ≡ out.old.items ++ car_legs_in snapshot.now plan.now car) }
{
    push_car(alloc, out, snapshot, car, stops_of(plan, car))
}

/// Appends what is drawn of the tours of all cars.
fn push_cars(
    alloc: Global,
    out: &mut Vec<Leg>,
    snapshot: &Snapshot,
    plan: &Plan,
    cars: u32,
) -> Result<(), AllocError>
    requires cars { cars ≤ car_count snapshot.now }
    requires tours { length plan.now ≡ car_count snapshot.now }
    ensures { OnOk result (out.new.items
        ≡ out.old.items ++ flat_map (car_legs_in snapshot.now plan.now) (range_with_len 0 cars)) }
{
    for car in 0..cars {
        push_car_in(alloc, out, snapshot, plan, car)?;
    }
    Ok(())
}

/// What is drawn of a plan, which has a tour for each car.
pub(crate) fn plan_legs(
    alloc: Global,
    snapshot: &Snapshot,
    plan: &Plan,
) -> Result<Vec<Leg>, AllocError>
    requires { length plan.now ≡ car_count snapshot.now }
    ensures { IfOk result (λ legs. legs.items ≡ plan_legs_lem snapshot.now plan.now) }
{
    let mut legs = Vec::new(alloc);
    let cars = snapshot.building().cars().len() as u32;
    push_cars(alloc, &mut legs, snapshot, plan, cars)?;
    Ok(legs)
}
