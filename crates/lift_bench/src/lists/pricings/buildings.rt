//! Texts of buildings that are drawn by chance.

use car_motion::least_time;
use lift_text::{put_line, put_words};
use search_model::Draws;
use std::alloc::AllocError;

/// mm/s.
const SPEED: u64 = 2300;

/// mm/s².
const ACCEL: u64 = 1100;

/// The most floors.
const MOST_FLOORS: usize = 5;

/// The id of the car at this place.
pub(crate) fn car_id(place: u32) -> u32 {
    place.wrapping_add(3)
}

/// The sizes of a building.
#[derive(Clone, Copy)]
pub(crate) struct Sizes {
    /// 4 or 5.
    pub(crate) floors: u32,
    /// 1 to 3.
    pub(crate) cars: u32,
}

impl Sizes {
    pub(crate) fn drawn(draws: &mut Draws) -> Self {
        Sizes {
            floors: 4 + draws.pick(2),
            cars: 1 + draws.pick(3),
        }
    }
}

/// The heights of as many floors as there may be, in mm.
fn heights_of(draws: &mut Draws, floors: u32) -> [u64; MOST_FLOORS] {
    let mut heights = [0; MOST_FLOORS];
    let mut height: u64 = 0;
    for (place, each) in heights.iter_mut().enumerate() {
        *each = height;
        if place < floors as usize {
            height = height.wrapping_add(3100 + u64::from(draws.pick(1700)));
        }
    }
    heights
}

/// Appends the lines of the stated times, in ms. Each is the least time and up to 700 ms more.
fn put_times(text: &mut Vec<u8>, draws: &mut Draws, heights: &[u64]) -> Result<(), AllocError> {
    for from in heights {
        text.extend_from_slice(b"times")?;
        for to in heights {
            let distance = from.abs_diff(*to).min(1_000_000);
            let least = least_time(SPEED, ACCEL, distance);
            let delay = if distance > 0 {
                u64::from(draws.pick(700))
            } else {
                0
            };
            put_words(text, b"", &[least + delay])?;
        }
        put_line(text, b"", &[])?;
    }
    Ok(())
}

/// Appends the floors that a car serves: mostly all.
fn put_served(text: &mut Vec<u8>, draws: &mut Draws, floors: u32) -> Result<(), AllocError> {
    if draws.pick(5) != 0 {
        return text.extend_from_slice(b" all\n");
    }
    let lacking = draws.pick(5);
    for floor in 0..floors {
        if floor != lacking {
            put_words(text, b"", &[u64::from(floor)])?;
        }
    }
    put_line(text, b"", &[])
}

fn put_cars(text: &mut Vec<u8>, draws: &mut Draws, sizes: Sizes) -> Result<(), AllocError> {
    for place in 0..sizes.cars {
        let capacity = 2 + u64::from(draws.pick(5));
        let [opening, closing] = [
            800 + u64::from(draws.pick(700)),
            900 + u64::from(draws.pick(800)),
        ];
        let [boarding, alighting] = [
            300 + u64::from(draws.pick(400)),
            350 + u64::from(draws.pick(300)),
        ];
        put_words(text, b"car", &[u64::from(car_id(place)), capacity])?;
        put_words(text, b"", &[opening, closing, boarding, alighting])?;
        put_served(text, draws, sizes.floors)?;
    }
    Ok(())
}

/// Appends the lines of a building of this version up to its floors, with weights that are drawn.
fn put_head(
    text: &mut Vec<u8>,
    draws: &mut Draws,
    version: u64,
    heights: &[u64],
) -> Result<(), AllocError> {
    let patience = [
        9000 + u64::from(draws.pick(9000)),
        1 + u64::from(draws.pick(6)),
    ];
    let weights = [1 + u64::from(draws.pick(5)), 1 + u64::from(draws.pick(4))];
    put_line(text, b"building", &[version])?;
    put_line(text, b"speed", &[SPEED])?;
    put_line(text, b"accel", &[ACCEL])?;
    put_line(text, b"weights", &weights)?;
    if version > 1 {
        put_line(text, b"patience", &patience)?;
    }
    put_line(text, b"floors", heights)
}

/// Appends the next building of these sizes, of version 1, 2 or 3. What is drawn of its cars and times is
/// drawn before its weights.
pub(crate) fn put_building(
    text: &mut Vec<u8>,
    rest: &mut Vec<u8>,
    draws: &mut Draws,
    sizes: Sizes,
) -> Result<(), AllocError> {
    let version = 1 + u64::from(draws.pick(3));
    let heights = heights_of(draws, sizes.floors);
    let heights = heights.get(..sizes.floors as usize).unwrap_or(&heights);
    if version == 3 {
        put_times(rest, draws, heights)?;
    }
    put_cars(rest, draws, sizes)?;
    put_head(text, draws, version, heights)?;
    text.extend_from_slice(rest)?;
    text.extend_from_slice(b"end\n")
}
