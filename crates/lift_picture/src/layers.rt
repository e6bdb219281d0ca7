//! The lines of each layer of a picture.
ghost use Rattle.std.specs.Prelude.{◌≡◌, ◌<◌, ◌≤◌, ◌^◌, ◌+◌, ◌*◌, IfOk, filter};
ghost use Rattle.lift_picture.specs.Layers.{doors_line as doors_line_lem, doors_of as doors_of_lem};
ghost use Rattle.lift_picture.specs.Layers.{fall_at as fall_at_lem, falls_of as falls_of_lem};
ghost use Rattle.lift_picture.specs.Layers.{floor_line as floor_line_lem, floor_lines as floor_lines_lem};
ghost use Rattle.lift_picture.specs.Layers.{is_of, is_ride, is_ride_of, is_wait, ride_line as ride_line_lem};
ghost use Rattle.lift_picture.specs.Layers.{minute_line as minute_line_lem, minute_lines as minute_lines_lem};
ghost use Rattle.lift_picture.specs.Layers.{multiples as multiples_lem, stand_line as stand_line_lem};
ghost use Rattle.lift_picture.specs.Layers.{stands_of as stands_of_lem};
ghost use Rattle.lift_picture.specs.Layers.{rides_of as rides_of_lem, rise_at as rise_at_lem};
ghost use Rattle.lift_picture.specs.Layers.{rises_of as rises_of_lem, sample_line as sample_line_lem};
ghost use Rattle.lift_picture.specs.Layers.{ticks as ticks_lem, wait_line as wait_line_lem};
ghost use Rattle.lift_picture.specs.Layers.{waits_of as waits_of_lem};
ghost use Rattle.lift_picture.specs.Layers.{way_line as way_line_lem};
ghost use Rattle.lift_picture.specs.Layers.{ways_of as ways_of_lem};

use crate::frames::{Frame, LEFT, TOP};
use crate::scenes::{Leg, LegKind, Refusal};
use crate::segments::Segment;
use std::alloc::{AllocError, Global};

/// What the lines of a layer show.
#[derive(Clone, Copy)]
pub(crate) enum Ink {
    /// A floor.
    Floor,
    /// A minute.
    Minute,
    /// A call that waits.
    Wait,
    /// A call that rides with this car.
    Ride { car: u32 },
    /// The way of this car.
    Way { car: u32 },
    /// Persons that get off this car or on.
    Doors { car: u32 },
    /// A row that was refused.
    Refused,
}

/// How far a cross goes from its middle.
const ARM: u64 = 4;

/// From one line of the legend to the next.
pub(crate) const LEGEND_STEP: u64 = 18;

impl Leg {
    /// Whether it is a wait.
    fn is_wait(&self) -> bool
        ensures { result ≡ is_wait self.now }
    {
        matches!(self.kind, LegKind::Wait)
    }

    /// Whether it is a ride.
    fn is_ride(&self) -> bool
        ensures { result ≡ is_ride self.now }
    {
        matches!(self.kind, LegKind::Ride)
    }

    /// Whether its event is one of this car.
    fn is_of(&self, car: u32) -> bool
        ensures { result ≡ is_of car self.now }
    {
        self.car == car
    }

    /// Whether it is a ride with this car.
    fn is_ride_of(&self, car: u32) -> bool
        ensures { result ≡ is_ride_of car self.now }
    {
        self.is_ride() && self.is_of(car)
    }
}

// ---- floors and minutes

fn floor_line(frame: Frame, floor: u32) -> Segment
    ensures { result ≡ floor_line_lem frame floor }
{
    let y = frame.y(floor);
    Segment {
        x1: LEFT,
        y1: y,
        x2: LEFT + u64::from(frame.across),
        y2: y,
    }
}

/// A line for each floor.
pub(crate) fn floor_lines(alloc: Global, frame: Frame) -> Result<Vec<Segment>, AllocError>
    ensures { IfOk result (λ lines. lines.items ≡ floor_lines_lem frame) }
{
    (0..frame.floors)
        .map(|floor| floor_line(frame, floor))
        .collect(alloc)
}

/// The multiples of this step among this many numbers from 0 on.
pub(crate) fn multiples(alloc: Global, count: u32, step: u64) -> Result<Vec<u32>, AllocError>
    requires { 0 < step }
    ensures { IfOk result (λ numbers. numbers.items ≡ multiples_lem count step) }
{
    (0..count)
        .filter(|number| u64::from(*number) % step == 0)
        .collect(alloc)
}

/// The minutes that have a line, counted from the first moment.
pub(crate) fn ticks(alloc: Global, frame: Frame) -> Result<Vec<u32>, AllocError>
    ensures { IfOk result (λ minutes. minutes.items ≡ ticks_lem frame) }
{
    multiples(alloc, frame.minutes() + 1, frame.minute_step())
}

fn minute_line(frame: Frame, minute: u32) -> Segment
    ensures { result ≡ minute_line_lem frame minute }
{
    let x = frame.x_of_minute(minute);
    Segment {
        x1: x,
        y1: TOP,
        x2: x,
        y2: TOP + u64::from(frame.up),
    }
}

/// A line for each of these minutes.
pub(crate) fn minute_lines(
    alloc: Global,
    frame: Frame,
    minutes: &[u32],
) -> Result<Vec<Segment>, AllocError>
    ensures { IfOk result (λ lines. lines.items ≡ minute_lines_lem frame minutes.now) }
{
    minutes
        .iter()
        .map(|minute| minute_line(frame, *minute))
        .collect(alloc)
}

// ---- calls and cars

fn wait_line(frame: Frame, leg: &Leg) -> Segment
    ensures { result ≡ wait_line_lem frame leg.now }
{
    let y = frame.y(leg.from) + frame.below(leg.call);
    Segment {
        x1: frame.x(leg.since),
        y1: y,
        x2: frame.x(leg.until),
        y2: y,
    }
}

fn ride_line(frame: Frame, leg: &Leg) -> Segment
    ensures { result ≡ ride_line_lem frame leg.now }
{
    Segment {
        x1: frame.x(leg.since),
        y1: frame.y(leg.from),
        x2: frame.x(leg.until),
        y2: frame.y(leg.to),
    }
}

/// The waits of all calls.
pub(crate) fn waits_of(
    alloc: Global,
    frame: Frame,
    legs: &[Leg],
) -> Result<Vec<Segment>, AllocError>
    ensures { IfOk result (λ lines. lines.items ≡ waits_of_lem frame legs.now) }
{
    legs.iter()
        .filter(|leg| leg.is_wait())
        .map(|leg| wait_line(frame, leg))
        .collect(alloc)
}

/// The rides with this car.
pub(crate) fn rides_of(
    alloc: Global,
    frame: Frame,
    legs: &[Leg],
    car: u32,
) -> Result<Vec<Segment>, AllocError>
    ensures { IfOk result (λ lines. lines.items ≡ rides_of_lem frame legs.now car) }
{
    legs.iter()
        .filter(|leg| leg.is_ride_of(car))
        .map(|leg| ride_line(frame, leg))
        .collect(alloc)
}

fn doors_line(frame: Frame, leg: &Leg) -> Segment
    ensures { result ≡ doors_line_lem frame leg.now }
{
    let y = frame.y(leg.to);
    Segment {
        x1: frame.x(leg.begun),
        y1: y,
        x2: frame.x(leg.done),
        y2: y,
    }
}

/// The events of this car.
pub(crate) fn doors_of(
    alloc: Global,
    frame: Frame,
    legs: &[Leg],
    car: u32,
) -> Result<Vec<Segment>, AllocError>
    ensures { IfOk result (λ lines. lines.items ≡ doors_of_lem frame legs.now car) }
{
    legs.iter()
        .filter(|leg| leg.is_of(car))
        .map(|leg| doors_line(frame, leg))
        .collect(alloc)
}

fn stand_line(frame: Frame, before: &Leg, leg: &Leg) -> Segment
    ensures { result ≡ stand_line_lem frame before.now leg.now }
{
    let y = frame.y(before.to);
    Segment {
        x1: frame.x(before.done),
        y1: y,
        x2: frame.x(leg.left),
        y2: y,
    }
}

fn way_line(frame: Frame, before: &Leg, leg: &Leg) -> Segment
    ensures { result ≡ way_line_lem frame before.now leg.now }
{
    Segment {
        x1: frame.x(leg.left),
        y1: frame.y(before.to),
        x2: frame.x(leg.begun),
        y2: frame.y(leg.to),
    }
}

/// The legs with an event of this car.
pub(crate) fn legs_of(alloc: Global, legs: &[Leg], car: u32) -> Result<Vec<Leg>, AllocError>
    ensures { IfOk result (λ own. own.items ≡ filter (is_of car) legs.now) }
{
    legs.iter()
        .copied()
        .filter(|leg| leg.is_of(car))
        .collect(alloc)
}

/// Where the car of these legs stands after each of them but the last.
pub(crate) fn stands_of(
    alloc: Global,
    frame: Frame,
    own: &[Leg],
) -> Result<Vec<Segment>, AllocError>
    ensures { IfOk result (λ lines. lines.items ≡ stands_of_lem frame own.now) }
{
    own.iter()
        .zip(own.iter().skip(1))
        .map(|(before, leg)| stand_line(frame, before, leg))
        .collect(alloc)
}

/// The way of the car of these legs from each of them to the next.
pub(crate) fn ways_of(alloc: Global, frame: Frame, own: &[Leg]) -> Result<Vec<Segment>, AllocError>
    ensures { IfOk result (λ lines. lines.items ≡ ways_of_lem frame own.now) }
{
    own.iter()
        .zip(own.iter().skip(1))
        .map(|(before, leg)| way_line(frame, before, leg))
        .collect(alloc)
}

// ---- refused rows

/// The falling line of a cross.
pub(crate) fn fall_at(x: u64, y: u64) -> Segment
    requires x { x ≤ 2 ^ 40 }
    requires y { y ≤ 2 ^ 40 }
    ensures { result ≡ fall_at_lem x y }
{
    Segment {
        x1: x.saturating_sub(ARM),
        y1: y.saturating_sub(ARM),
        x2: x + ARM,
        y2: y + ARM,
    }
}

/// The rising line of a cross.
pub(crate) fn rise_at(x: u64, y: u64) -> Segment
    requires x { x ≤ 2 ^ 40 }
    requires y { y ≤ 2 ^ 40 }
    ensures { result ≡ rise_at_lem x y }
{
    Segment {
        x1: x.saturating_sub(ARM),
        y1: y + ARM,
        x2: x + ARM,
        y2: y.saturating_sub(ARM),
    }
}

/// The falling lines of the crosses of these rows.
pub(crate) fn falls_of(
    alloc: Global,
    frame: Frame,
    refusals: &[Refusal],
) -> Result<Vec<Segment>, AllocError>
    ensures { IfOk result (λ lines. lines.items ≡ falls_of_lem frame refusals.now) }
{
    refusals
        .iter()
        .map(|refusal| fall_at(frame.x(refusal.moment), frame.y(refusal.floor)))
        .collect(alloc)
}

/// The rising lines of the crosses of these rows.
pub(crate) fn rises_of(
    alloc: Global,
    frame: Frame,
    refusals: &[Refusal],
) -> Result<Vec<Segment>, AllocError>
    ensures { IfOk result (λ lines. lines.items ≡ rises_of_lem frame refusals.now) }
{
    refusals
        .iter()
        .map(|refusal| rise_at(frame.x(refusal.moment), frame.y(refusal.floor)))
        .collect(alloc)
}

// ---- the legend

/// How far down this line of the legend is.
pub(crate) fn legend_y(place: u32) -> u64
    ensures value { result ≡ 40 + 18 * place }
    ensures near { result ≤ 2 ^ 40 }
{
    TOP + LEGEND_STEP * u64::from(place)
}

/// The sample in this line of the legend.
pub(crate) fn sample_line(frame: Frame, place: u32) -> Segment
    ensures { result ≡ sample_line_lem frame place }
{
    let y = legend_y(place);
    Segment {
        x1: u64::from(frame.width.saturating_sub(135)),
        y1: y,
        x2: u64::from(frame.width.saturating_sub(115)),
        y2: y,
    }
}
