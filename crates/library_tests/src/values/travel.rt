//! How long a car travels.

use car_motion::{least_time, travel_of};
use std::alloc::Global;

/// Distances in mm, and the least time in ms at 2,000 mm/s and 1,000 mm/s².
const TIMES: [(u64, u64); 6] = [
    (0, 0),
    (1, 64),
    (4000, 4000),
    (4001, 4001),
    (8000, 6000),
    (12000, 8000),
];

#[test]
fn travel_times_of_a_car(rt: HostRuntime) {
    for (mm, ms) in TIMES {
        assert!(rt;
            mm <= 1_000_000 && least_time(2000, 1000, mm) == ms,
            "over {mm} mm"
        );
    }
}

/// Whether three uneven floors have these times: between the lowest two, the highest two and the outer two.
fn have_times(alloc: Global, times: [u64; 3]) -> bool {
    let [low, high, outer] = times;
    match travel_of(alloc, &[0, 4000, 12000], 2000, 1000) {
        Ok(travel) => {
            travel.floors() == 3
                && travel.time(0, 1) == low
                && travel.time(1, 2) == high
                && travel.time(2, 0) == outer
        }
        Err(_) => false,
    }
}

#[test]
fn travel_times_between_floors(rt: HostRuntime) {
    assert!(rt; have_times(rt.alloc(), [4000, 6000, 8000]));
}
