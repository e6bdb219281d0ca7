//! Lines of the text of a snapshot. Cars are named by their ids in them.

use call_state::{Aboard, Call, CarState};
use lift_text::{put_line, put_words};
use std::alloc::AllocError;

/// Appends the line of the car with this id.
pub fn put_state(text: &mut Vec<u8>, id: u32, state: CarState) -> Result<(), AllocError> {
    put_words(text, b"car", &[u64::from(id)])?;
    match state {
        CarState::Idle { floor, free } => put_line(text, b" idle", &[u64::from(floor), free]),
        CarState::Coming { floor, arrives } => {
            put_line(text, b" coming", &[u64::from(floor), arrives])
        }
        CarState::Moving { from, up, left } => {
            put_words(text, b" moving", &[u64::from(from)])?;
            let way: &[u8] = if up { b" up" } else { b" down" };
            put_line(text, way, &[left])
        }
    }
}

/// Appends the line of a group, whose `car` is here the id of its car.
pub fn put_group(text: &mut Vec<u8>, group: &Aboard) -> Result<(), AllocError> {
    put_words(
        text,
        b"aboard",
        &[u64::from(group.car), u64::from(group.id)],
    )?;
    let (destination, persons) = (u64::from(group.destination), u64::from(group.persons));
    put_line(text, b"", &[destination, persons, group.boarded])
}

/// Appends the line of a call, whose `pin` is here the id of a car.
pub fn put_call(text: &mut Vec<u8>, call: &Call) -> Result<(), AllocError> {
    let (origin, destination) = (u64::from(call.origin), u64::from(call.destination));
    put_words(text, b"call", &[u64::from(call.id), origin, destination])?;
    put_words(text, b"", &[u64::from(call.persons), call.released])?;
    match call.pin {
        Some(car) => put_line(text, b"", &[u64::from(car)]),
        None => text.extend_from_slice(b" any\n"),
    }
}

/// Appends lines, which strokes part here: `now 0 / car 1 idle 0 0`.
pub fn put_lines(text: &mut Vec<u8>, lines: &str) -> Result<(), AllocError> {
    for byte in lines.bytes() {
        text.push(if byte == b'/' { b'\n' } else { byte })?;
    }
    text.extend_from_slice(b"\n")
}
