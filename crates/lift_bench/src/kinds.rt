//! Small snapshots of eight kinds, drawn by chance: four floors 4000 mm apart, 2000 mm/s and 1000 mm/s²,
//! weights 1 and 1, cars that need 1000 ms for their doors each way and 500 ms a person, and three calls.

use call_state::{Aboard, Call, CarState, Snapshot};
use case_kit::{put_call, put_group, put_state, snapshot_in};
use search_model::Draws;
use std::alloc::{AllocError, Global};

/// What the snapshots of a kind have in common.
#[derive(Clone, Copy)]
pub(crate) struct Kind {
    /// The first word of the kind's line.
    pub(crate) name: &'static str,
    /// The text up to the lines of the cars.
    head: &'static str,
    /// The state of the second car, if there is one.
    second: Second,
    /// Whether one or two groups are aboard the first car.
    has_groups: bool,
    /// Whether the first call is pinned to one of the two cars.
    has_pin: bool,
    /// The most persons of a call.
    most_persons: u32,
}

#[derive(Clone, Copy)]
enum Second {
    Missing,
    Idle,
    Coming,
    Moving,
}

const ONE_CAR: &str = "building 1
speed 2000
accel 1000
weights 1 1
floors 0 4000 8000 12000
car 1 8 1000 1000 500 500 all
end
snapshot 1
now 10000
";

const TWO_CARS: &str = "building 1
speed 2000
accel 1000
weights 1 1
floors 0 4000 8000 12000
car 1 8 1000 1000 500 500 all
car 2 8 1000 1000 500 500 all
end
snapshot 1
now 10000
";

const TIGHT_CARS: &str = "building 1
speed 2000
accel 1000
weights 1 1
floors 0 4000 8000 12000
car 1 2 1000 1000 500 500 all
car 2 2 1000 1000 500 500 all
end
snapshot 1
now 10000
";

const MOVING_CAR: &str = "building 2
speed 2000
accel 1000
weights 1 1
patience 0 0
floors 0 4000 8000 12000
car 1 8 1000 1000 500 500 all
car 2 8 1000 1000 500 500 all
end
snapshot 2
now 10000
";

const PATIENCE: &str = "building 2
speed 2000
accel 1000
weights 1 1
patience 5000 3
floors 0 4000 8000 12000
car 1 8 1000 1000 500 500 all
car 2 8 1000 1000 500 500 all
end
snapshot 1
now 10000
";

const IDLE_PAIR: Kind = Kind {
    name: "two_cars",
    head: TWO_CARS,
    second: Second::Idle,
    has_groups: false,
    has_pin: false,
    most_persons: 3,
};

/// All kinds, in the order of the lines that are printed.
pub(crate) const KINDS: [Kind; 8] = [
    Kind {
        name: "one_car",
        head: ONE_CAR,
        second: Second::Missing,
        ..IDLE_PAIR
    },
    IDLE_PAIR,
    Kind {
        name: "coming",
        second: Second::Coming,
        ..IDLE_PAIR
    },
    Kind {
        name: "aboard",
        has_groups: true,
        ..IDLE_PAIR
    },
    Kind {
        name: "moving",
        head: MOVING_CAR,
        second: Second::Moving,
        ..IDLE_PAIR
    },
    Kind {
        name: "pinned",
        has_pin: true,
        ..IDLE_PAIR
    },
    Kind {
        name: "patience",
        head: PATIENCE,
        ..IDLE_PAIR
    },
    Kind {
        name: "tight",
        head: TIGHT_CARS,
        most_persons: 2,
        ..IDLE_PAIR
    },
];

const FLOORS: u32 = 4;

/// The moment of every snapshot, in ms.
const NOW: u64 = 10_000;

/// A floor other than this one.
fn other_floor(draws: &mut Draws, floor: u32) -> u32 {
    (floor % FLOORS + 1 + draws.pick(FLOORS - 1)) % FLOORS
}

fn idle_at(draws: &mut Draws, floor: u32) -> CarState {
    CarState::Idle {
        floor,
        free: NOW + u64::from(draws.pick(3_000)),
    }
}

fn put_second(text: &mut Vec<u8>, second: Second, draws: &mut Draws) -> Result<(), AllocError> {
    let state = match second {
        Second::Missing => return Ok(()),
        Second::Idle => {
            let floor = draws.pick(FLOORS);
            idle_at(draws, floor)
        }
        Second::Coming => CarState::Coming {
            floor: draws.pick(FLOORS),
            arrives: NOW + u64::from(draws.pick(5_000)),
        },
        Second::Moving => CarState::Moving {
            from: draws.pick(FLOORS),
            up: draws.pick(2) == 1,
            left: NOW - u64::from(draws.pick(5_000)),
        },
    };
    put_state(text, 2, state)
}

/// One or two groups aboard the first car, which stands at this floor. They may want to go to two sides of
/// it: then the snapshot is refused.
fn put_groups(text: &mut Vec<u8>, draws: &mut Draws, floor: u32) -> Result<(), AllocError> {
    for group in 0..1 + draws.pick(2) {
        let group = Aboard {
            id: 11 + group,
            car: 1,
            destination: other_floor(draws, floor),
            persons: 1 + draws.pick(3),
            boarded: NOW - u64::from(draws.pick(10_001)),
        };
        put_group(text, &group)?;
    }
    Ok(())
}

fn put_calls(text: &mut Vec<u8>, kind: &Kind, draws: &mut Draws) -> Result<(), AllocError> {
    for id in 1..=3 {
        let pin = if kind.has_pin && id == 1 {
            Some(1 + draws.pick(2))
        } else {
            None
        };
        let origin = draws.pick(FLOORS);
        let call = Call {
            id,
            origin,
            destination: other_floor(draws, origin),
            persons: 1 + draws.pick(kind.most_persons.max(1)),
            released: NOW - u64::from(draws.pick(10_001)),
            pin,
        };
        put_call(text, &call)?;
    }
    Ok(())
}

/// Appends the text of a case of this kind. False where memory is wanting.
fn put_case(text: &mut Vec<u8>, kind: &Kind, draws: &mut Draws) -> bool {
    let floor = draws.pick(FLOORS);
    text.extend_from_slice(kind.head.as_bytes()).is_ok()
        && put_state(text, 1, idle_at(draws, floor)).is_ok()
        && put_second(text, kind.second, draws).is_ok()
        && (!kind.has_groups || put_groups(text, draws, floor).is_ok())
        && put_calls(text, kind, draws).is_ok()
        && text.extend_from_slice(b"end\n").is_ok()
}

/// The next snapshot of this kind. None where what was drawn is refused, or memory runs out.
pub(crate) fn drawn_snapshot(alloc: Global, kind: &Kind, draws: &mut Draws) -> Option<Snapshot> {
    let mut text = Vec::new(alloc);
    if put_case(&mut text, kind, draws) {
        snapshot_in(alloc, &text)
    } else {
        None
    }
}
