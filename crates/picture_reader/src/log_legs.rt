//! The legs that the events of a log end.
ghost use Rattle.std.specs.Prelude.{◌≡◌};
ghost use Rattle.picture_reader.specs.LogLegs.{begun_after as begun_after_lem, done_after as done_after_lem};
ghost use Rattle.picture_reader.specs.LogLegs.{is_wait_of as is_wait_of_lem, last_of_car as last_of_car_lem};
ghost use Rattle.picture_reader.specs.LogLegs.{last_wait as last_wait_lem, left_for as left_for_lem};
ghost use Rattle.picture_reader.specs.LogLegs.{refusal_of as refusal_of_lem, ride_leg as ride_leg_lem};
ghost use Rattle.picture_reader.specs.LogLegs.{row_at as row_at_lem, serving_of, wait_leg as wait_leg_lem};
ghost use Rattle.picture_reader.specs.LogLegs.{way_time as way_time_lem};

use call_state::Travel;
use day_text::GoodRow;
use lift_picture::{Leg, LegKind, Refusal};

/// What the line of an event tells.
#[derive(Clone, Copy)]
pub(crate) struct Told {
    /// The number of the call's row.
    pub call: u64,
    /// The place of the car in the building.
    pub car: u32,
    /// In ms.
    pub moment: u64,
}

fn is_wait_of(leg: &Leg, call: u64) -> bool
    ensures { result ≡ is_wait_of_lem call leg.now }
{
    matches!(leg.kind, LegKind::Wait) && leg.call == call
}

/// The last wait of this call.
pub(crate) fn last_wait(legs: &[Leg], call: u64) -> Option<Leg>
    ensures { result ≡ last_wait_lem legs.now call }
{
    legs.iter().rev().copied().find(|leg| is_wait_of(leg, call))
}

/// The last leg with an event of this car.
pub(crate) fn last_of_car(legs: &[Leg], car: u32) -> Option<Leg>
    ensures { result ≡ last_of_car_lem legs.now car }
{
    legs.iter().rev().copied().find(|leg| leg.car == car)
}

/// The travel time from one floor to another in ms, and 0 where there is no such floor.
fn way_time(travel: &Travel, from: u32, to: u32) -> u64
    ensures { result ≡ way_time_lem travel.now from to }
{
    if from < travel.floors() && to < travel.floors() {
        travel.time(from, to)
    } else {
        0
    }
}

/// When a car left for an event at this moment and floor, in ms: at the last moment at which it could, but
/// not before the persons of its event before were done.
fn left_for(travel: &Travel, opening: u64, before: Option<Leg>, moment: u64, floor: u32) -> u64
    ensures { result ≡ left_for_lem travel.now opening before moment floor }
{
    match before {
        Some(leg) => {
            let way = way_time(travel, leg.to, floor);
            leg.done
                .max(moment.saturating_sub(way).saturating_sub(opening))
        }
        None => moment,
    }
}

/// From when on the persons of an event at this moment get off or on, in ms: after those of the event
/// before, if that is one of the same stop.
fn begun_after(before: Option<Leg>, moment: u64) -> u64
    ensures { result ≡ begun_after_lem before moment }
{
    match before {
        Some(leg) => {
            if leg.until == moment {
                leg.done
            } else {
                moment
            }
        }
        None => moment,
    }
}

/// When a car serves an event.
#[derive(Clone, Copy)]
pub(crate) struct Serving {
    /// When it left for it, in ms.
    pub left: u64,
    /// From when on persons get off or on, in ms.
    pub begun: u64,
}

impl Serving {
    /// When a car with this opening time serves an event at this moment and floor, by its event before.
    pub(crate) fn of(
        travel: &Travel,
        opening: u64,
        before: Option<Leg>,
        moment: u64,
        floor: u32,
    ) -> Serving
        ensures { result ≡ serving_of travel.now opening before moment floor }
    {
        Serving {
            left: left_for(travel, opening, before, moment, floor),
            begun: begun_after(before, moment),
        }
    }
}

/// When this many persons are done, one after another, in ms.
fn done_after(begun: u64, persons: u32, each: u64) -> u64
    ensures { result ≡ done_after_lem begun persons each }
{
    begun.saturating_add(u64::from(persons).saturating_mul(each))
}

/// The wait that a boarding ends, where each person takes this long.
pub(crate) fn wait_leg(boarding: u64, serving: Serving, row: &GoodRow, told: Told) -> Leg
    ensures { result ≡ wait_leg_lem boarding serving row.now told }
{
    Leg {
        kind: LegKind::Wait,
        call: told.call,
        car: told.car,
        from: row.origin,
        since: row.time,
        to: row.origin,
        until: told.moment,
        left: serving.left,
        begun: serving.begun,
        done: done_after(serving.begun, row.persons, boarding),
    }
}

/// The ride that a delivery ends, which began at this moment, where each person takes this long.
pub(crate) fn ride_leg(
    alighting: u64,
    serving: Serving,
    row: &GoodRow,
    since: u64,
    told: Told,
) -> Leg
    ensures { result ≡ ride_leg_lem alighting serving row.now since told }
{
    Leg {
        kind: LegKind::Ride,
        call: told.call,
        car: told.car,
        from: row.origin,
        since,
        to: row.destination,
        until: told.moment,
        left: serving.left,
        begun: serving.begun,
        done: done_after(serving.begun, row.persons, alighting),
    }
}

/// The row with this number, where it says one.
pub(crate) fn row_at(rows: &[Option<GoodRow>], number: u64) -> Option<GoodRow>
    ensures { result ≡ row_at_lem rows.now number }
{
    let place = number.saturating_sub(1) as usize;
    rows.get(place).copied().unwrap_or(None)
}

/// Where a refused row is drawn: one that says nothing at the day's beginning, on the lowest floor.
pub(crate) fn refusal_of(start: u64, row: Option<GoodRow>) -> Refusal
    ensures { result ≡ refusal_of_lem start row }
{
    match row {
        Some(row) => Refusal {
            moment: row.time,
            floor: row.origin,
        },
        None => Refusal {
            moment: start,
            floor: 0,
        },
    }
}
