//! How long a car travels.
//!
//! A car speeds up with a constant acceleration to at most its greatest speed, and brakes as strongly as it
//! speeds up. The travel time over a distance is the time from rest to rest, rounded up to a whole
//! millisecond.
//!
//! # What is promised
//!
//! - `least_time` is the least whole time in which a distance can be covered, found in constant time.
//! - `travel_of` is the square of these times, which is a travel square.
#![tactic(auto)]

ghost use Rattle.std.specs.Prelude.{◌≡◌, ℕ, ◌+◌, ◌*◌, ◌≤◌, ◌<◌, length, slice_index, IfOk};
ghost use Rattle.elevator_model.specs.Travel.{IsLeastTime, IsTravelOf};
ghost use Rattle.car_motion.specs.Times.{AreTimes};

use call_state::Travel;
use std::alloc::{AllocError, Global};

/// The travel time in ms over a distance in mm, of a car with this greatest speed in mm/s and this
/// acceleration and braking in mm/s². It is the least whole time in which the car can cover the distance.
pub fn least_time(speed: u64, accel: u64, mm: u64) -> u64
    requires speed_low { 100 ≤ speed }
    requires speed_high { speed ≤ 20000 }
    requires accel_low { 100 ≤ accel }
    requires accel_high { accel ≤ 5000 }
    requires distance { mm ≤ 1000000 }
    ensures least { IsLeastTime speed accel mm result }
    ensures bounded { result ≤ 10001000 }
{
    if accel * mm <= speed * speed {
        // The car brakes before it is at its greatest speed.
        root_up((4_000_000 * mm).div_ceil(accel))
    } else {
        (1000 * accel * mm + 1000 * speed * speed).div_ceil(accel * speed)
    }
}

/// The square root, rounded up.
fn root_up(n: u64) -> u64
    ensures enough { n ≤ result * result }
    ensures least { (r : ℕ) → n ≤ r * r → result ≤ r }
{
    let root = n.isqrt();
    if root * root < n { root + 1 } else { root }
}

/// The travel times between floors of these heights in mm, of a car with this greatest speed in mm/s and
/// this acceleration and braking in mm/s².
///
/// It fails only where there is no memory left.
pub fn travel_of(
    alloc: Global,
    heights: &[u64],
    speed: u64,
    accel: u64,
) -> Result<Travel, AllocError>
    requires floors_low { 2 ≤ length heights.now }
    requires floors_high { length heights.now ≤ 64 }
    requires low { (f : ℕ) → f < length heights.now → slice_index heights.now f ≤ 1000000 }
    requires rising { (f g : ℕ)
        → f < g → g < length heights.now → slice_index heights.now f < slice_index heights.now g }
    requires speed_low { 100 ≤ speed }
    requires speed_high { speed ≤ 20000 }
    requires accel_low { 100 ≤ accel }
    requires accel_high { accel ≤ 5000 }
    ensures { IfOk result (λ travel. IsTravelOf heights.now speed accel travel) }
{
    let times = times_of(alloc, heights, speed, accel)?;
    Ok(Travel::of_square(heights.len() as u32, times))
}

/// The travel times, row after row.
fn times_of(alloc: Global, heights: &[u64], speed: u64, accel: u64) -> Result<Vec<u64>, AllocError>
    requires floors_high { length heights.now ≤ 64 }
    requires low { (f : ℕ) → f < length heights.now → slice_index heights.now f ≤ 1000000 }
    requires speed_low { 100 ≤ speed }
    requires speed_high { speed ≤ 20000 }
    requires accel_low { 100 ≤ accel }
    requires accel_high { accel ≤ 5000 }
    ensures { IfOk result
        (λ times. AreTimes heights.now speed accel (length heights.now * length heights.now) times.items) }
{
    let floors = heights.len();
    let mut times = Vec::with_capacity(alloc, floors * floors)?;
    for place in 0..floors * floors {
        let from = heights[place / floors];
        let to = heights[place % floors];
        times.push(least_time(speed, accel, from.abs_diff(to)))?;
    }
    Ok(times)
}
