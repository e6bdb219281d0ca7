//! A day of two uneven cars, step by step: what has happened by a moment, and where everyone is then. The
//! moments were worked out by hand.

use crate::plans::cases::UNEVEN_PAIR;
use call_state::{CarState, Snapshot};
use case_kit::{plan_in, put_call, put_group, put_state, snapshot_in};
use day_state::{Event, World};
use elevator_model::{Plan, Tour};
use lift_text::{put_line, put_word, put_words};
use std::alloc::{AllocError, Global};
use tour_cost::is_feasible;

/// Appends a tour, whose calls are named by their places.
fn put_tour(text: &mut Vec<u8>, tour: &Tour) -> Result<(), AllocError> {
    text.extend_from_slice(b"tour\n")?;
    for stop in tour.stops() {
        put_words(text, b"stop", &[u64::from(stop.floor)])?;
        for call in stop.boards.as_slice() {
            put_word(text, u64::from(*call))?;
        }
        text.push(b'\n')?;
    }
    Ok(())
}

fn put_event(text: &mut Vec<u8>, event: Event) -> Result<(), AllocError> {
    match event {
        Event::Board { call, car, moment } => {
            put_line(text, b"board", &[u64::from(call), u64::from(car), moment])
        }
        Event::Deliver { call, car, moment } => {
            put_line(text, b"deliver", &[u64::from(call), u64::from(car), moment])
        }
    }
}

fn put_events(text: &mut Vec<u8>, events: &[Event]) -> Result<(), AllocError> {
    for event in events {
        put_event(text, *event)?;
    }
    Ok(())
}

/// Appends where everyone is, with cars named by their places.
fn put_snapshot(text: &mut Vec<u8>, snapshot: &Snapshot) -> Result<(), AllocError> {
    for car in 0..snapshot.building().cars().len() {
        put_state(text, car as u32, snapshot.car(car as u32))?;
    }
    for group in snapshot.aboard() {
        put_group(text, group)?;
    }
    for call in snapshot.calls() {
        put_call(text, call)?;
    }
    Ok(())
}

/// Appends what has happened, where everyone is, and the plan that is left.
fn put_world(text: &mut Vec<u8>, world: &World, events: &[Event]) -> Result<(), AllocError> {
    put_events(text, events)?;
    put_snapshot(text, world.snapshot())?;
    for tour in world.plan().tours() {
        put_tour(text, tour)?;
    }
    Ok(())
}

/// Whether this is the text of the world, after these events.
fn is_told(alloc: Global, world: &World, events: &[Event], due: &str) -> bool {
    let mut text = Vec::new(alloc);
    put_world(&mut text, world, events).is_ok() && text.as_slice() == due.as_bytes()
}

/// Goes on to the moment, where the plan is feasible and the moment may be.
fn advance(alloc: Global, world: &mut World, t: u64, events: &mut Vec<Event>) -> bool {
    t >= world.snapshot().now()
        && t <= 1_000_000_000
        && is_feasible(world.snapshot(), world.plan())
        && world.advance(alloc, t, events).is_ok()
}

/// Whether at the moment this is the text of the world and of what has happened since it was told last.
fn is_then(alloc: Global, world: &mut World, t: u64, due: &str) -> bool {
    let mut events = Vec::new(alloc);
    advance(alloc, world, t, &mut events) && is_told(alloc, world, events.as_slice(), due)
}

/// Whether the rest of the plan brings these events.
fn runs_out(alloc: Global, world: &World, due: &str) -> bool {
    let mut events = Vec::new(alloc);
    let mut text = Vec::new(alloc);
    is_feasible(world.snapshot(), world.plan())
        && world.run_out(alloc, &mut events).is_ok()
        && put_events(&mut text, events.as_slice()).is_ok()
        && text.as_slice() == due.as_bytes()
}

/// What is due at some moments, one after another, and after the last of them.
#[derive(Clone, Copy)]
struct Day<'a> {
    plan: &'a str,
    moments: &'a [(u64, &'a str)],
    rest: &'a str,
}

impl Day<'_> {
    fn goes_on(self, alloc: Global, world: &mut World) -> bool {
        for (t, due) in self.moments {
            if !is_then(alloc, world, *t, due) {
                return false;
            }
        }
        runs_out(alloc, world, self.rest)
    }

    fn begins(self, alloc: Global, snapshot: Snapshot, plan: Plan) -> bool {
        self.goes_on(alloc, &mut World::of_parts(snapshot, plan))
    }

    fn is_planned(self, alloc: Global, plan: Plan) -> bool {
        match snapshot_in(alloc, UNEVEN_PAIR.as_bytes()) {
            Some(snapshot) => self.begins(alloc, snapshot, plan),
            None => false,
        }
    }

    /// Whether the two cars go so.
    fn is_right(self, alloc: Global) -> bool {
        match plan_in(alloc, self.plan) {
            Some(plan) => self.is_planned(alloc, plan),
            None => false,
        }
    }
}

/// The large car delivers its group and takes two calls; the small one stops where it comes to and takes one.
const TOGETHER: &str = "0 1:01 3 / 0 2:2 0";

/// Nothing has happened: the small car has not come yet.
const BEFORE_THE_ARRIVAL: &str = "car 0 idle 2 5000
car 1 coming 0 2500
aboard 0 30 0 3 400
call 5 1 3 2 900 any
call 2 1 3 1 950 any
call 9 2 0 1 400 any
tour
stop 0
stop 1 0 1
stop 3
tour
stop 0
stop 2 2
stop 0
";

const AT_THE_ARRIVAL: &str = "car 0 idle 2 5000
car 1 idle 0 3800
aboard 0 30 0 3 400
call 5 1 3 2 900 any
call 2 1 3 1 950 any
call 9 2 0 1 400 any
tour
stop 0
stop 1 0 1
stop 3
tour
stop 2 2
stop 0
";

#[test]
fn a_car_arrives(rt: HostRuntime) {
    let day = Day {
        plan: TOGETHER,
        moments: &[(2499, BEFORE_THE_ARRIVAL), (2500, AT_THE_ARRIVAL)],
        rest: "deliver 30 7 13975
board 2 7 22350
board 5 7 22350
deliver 2 7 31592
deliver 5 7 31592
board 9 8 12475
deliver 9 8 22050
",
    };
    assert!(rt; day.is_right(rt.alloc()));
}

/// Both cars have opened their doors.
const WHILE_DOORS_ARE_OPEN: &str = "deliver 30 7 13975
board 9 8 12475
car 0 idle 0 17375
car 1 idle 2 13375
aboard 1 9 0 1 12475
call 5 1 3 2 900 any
call 2 1 3 1 950 any
tour
stop 1 0 1
stop 3
tour
stop 0
";

/// Each car can stop at its next floor alone.
const UNDER_WAY: &str = "car 0 coming 1 21250
car 1 coming 0 21250
aboard 1 9 0 1 12475
call 5 1 3 2 900 any
call 2 1 3 1 950 any
tour
stop 1 0 1
stop 3
tour
stop 0
";

#[test]
fn cars_are_under_way(rt: HostRuntime) {
    let day = Day {
        plan: TOGETHER,
        moments: &[(12875, WHILE_DOORS_ARE_OPEN), (21125, UNDER_WAY)],
        rest: "board 2 7 22350
board 5 7 22350
deliver 2 7 31592
deliver 5 7 31592
deliver 9 8 22050
",
    };
    assert!(rt; day.is_right(rt.alloc()));
}

/// Those who boarded together come by their ids.
const BOARDED_TOGETHER: &str = "deliver 30 7 13975
board 2 7 22350
board 5 7 22350
board 9 8 12475
deliver 9 8 22050
car 0 moving 1 up 23950
car 1 idle 0 24000
aboard 0 2 3 1 22350
aboard 0 5 3 2 22350
tour
stop 3
tour
";

#[test]
fn calls_board_together(rt: HostRuntime) {
    let day = Day {
        plan: TOGETHER,
        moments: &[(24000, BOARDED_TOGETHER)],
        rest: "deliver 2 7 31592\ndeliver 5 7 31592\n",
    };
    assert!(rt; day.is_right(rt.alloc()));
}

/// The second call waits, and has become the first.
const BOARDED_ALONE: &str = "deliver 30 7 13975
board 5 7 22350
board 9 8 12475
deliver 9 8 22050
car 0 moving 1 up 23650
car 1 idle 0 24000
aboard 0 5 3 2 22350
call 2 1 3 1 950 any
tour
stop 3
stop 1 0
stop 3
tour
";

#[test]
fn the_place_of_a_call_that_waits_falls(rt: HostRuntime) {
    let day = Day {
        plan: "0 1:0 3 1:1 3 / 0 2:2 0",
        moments: &[(24000, BOARDED_ALONE)],
        rest: "deliver 5 7 31292\nboard 2 7 41434\ndeliver 2 7 50076\n",
    };
    assert!(rt; day.is_right(rt.alloc()));
}
