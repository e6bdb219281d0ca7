//! Snapshots that are drawn by chance.

use crate::lists::pricings::buildings::{Sizes, car_id, put_building};
use call_state::{Aboard, Call, CarState, Snapshot};
use case_kit::{put_call, put_group, put_state, snapshot_in};
use lift_text::put_line;
use search_model::Draws;
use std::alloc::{AllocError, Global};

/// The moment of every snapshot, in ms.
const NOW: u64 = 60_000;

/// A floor, and another one.
fn two_floors(draws: &mut Draws, floors: u32) -> (u32, u32) {
    let from = draws.pick(floors.max(1));
    let step = 1 + draws.pick(floors.max(3) - 1);
    (from, from.wrapping_add(step) % floors.max(1))
}

/// Half of the cars stand; the others come to a floor, or move past some.
fn state(draws: &mut Draws, floors: u32) -> CarState {
    let floor = draws.pick(floors.max(1));
    match draws.pick(6) {
        0 | 1 => CarState::Coming {
            floor,
            arrives: NOW + u64::from(draws.pick(4000)),
        },
        2 => CarState::Moving {
            from: floor,
            up: draws.pick(2) == 0,
            left: NOW - u64::from(draws.pick(2500)),
        },
        _ => CarState::Idle {
            floor,
            free: NOW + u64::from(draws.pick(3000)),
        },
    }
}

fn put_states(text: &mut Vec<u8>, draws: &mut Draws, sizes: Sizes) -> Result<(), AllocError> {
    for place in 0..sizes.cars {
        put_state(text, car_id(place), state(draws, sizes.floors))?;
    }
    Ok(())
}

/// Appends the groups aboard: one in every third car.
fn put_groups(text: &mut Vec<u8>, draws: &mut Draws, sizes: Sizes) -> Result<(), AllocError> {
    for place in 0..sizes.cars {
        if draws.pick(3) == 0 {
            let group = Aboard {
                id: place.wrapping_add(40),
                car: car_id(place),
                destination: draws.pick(sizes.floors.max(1)),
                persons: 1 + draws.pick(3),
                boarded: NOW - u64::from(draws.pick(12_000)),
            };
            put_group(text, &group)?;
        }
    }
    Ok(())
}

/// The id of a car in one call of six, which is pinned to it.
fn pin(draws: &mut Draws, cars: u32) -> Option<u32> {
    if draws.pick(6) == 0 {
        Some(car_id(draws.pick(cars.max(1))))
    } else {
        None
    }
}

fn call(draws: &mut Draws, sizes: Sizes, id: u32) -> Call {
    let (origin, destination) = two_floors(draws, sizes.floors);
    Call {
        id,
        origin,
        destination,
        persons: 1 + draws.pick(3),
        released: NOW - u64::from(draws.pick(30_000)),
        pin: pin(draws, sizes.cars),
    }
}

/// One call in three goes the way of the one before it, and was released with it.
fn joined(draws: &mut Draws, call: Call, before: Option<Call>) -> Call {
    match before {
        Some(before) if draws.pick(3) == 0 => Call {
            origin: before.origin,
            destination: before.destination,
            released: before.released,
            ..call
        },
        _ => call,
    }
}

/// Appends one to four calls. Their ids do not rise.
fn put_calls(text: &mut Vec<u8>, draws: &mut Draws, sizes: Sizes) -> Result<(), AllocError> {
    let mut before = None;
    for place in 0..1 + draws.pick(4) {
        let drawn = call(draws, sizes, 90 - 7 * place);
        let next = joined(draws, drawn, before);
        put_call(text, &next)?;
        before = Some(next);
    }
    Ok(())
}

/// Appends the next snapshot with its building.
fn put_case(text: &mut Vec<u8>, rest: &mut Vec<u8>, draws: &mut Draws) -> Result<(), AllocError> {
    let sizes = Sizes::drawn(draws);
    put_building(text, rest, draws, sizes)?;
    put_line(text, b"snapshot", &[2])?;
    put_line(text, b"now", &[NOW])?;
    put_states(text, draws, sizes)?;
    put_groups(text, draws, sizes)?;
    put_calls(text, draws, sizes)?;
    text.extend_from_slice(b"end\n")
}

/// The next snapshot. None where what was drawn breaks a rule, or memory is wanting.
pub(crate) fn drawn(alloc: Global, draws: &mut Draws) -> Option<Snapshot> {
    let (mut text, mut rest) = (Vec::new(alloc), Vec::new(alloc));
    match put_case(&mut text, &mut rest, draws) {
        Ok(()) => snapshot_in(alloc, &text),
        Err(_) => None,
    }
}
