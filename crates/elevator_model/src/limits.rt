//! The greatest sizes, moments and costs that accepted snapshots and their feasible tours can reach.

ghost use Rattle.std.specs.Prelude.{◌≡◌, ◌≤◌};
ghost use Rattle.elevator_model.specs.Building.{most_cars as most_cars_lem, most_calls as most_calls_lem};

/// The most floors of a building.
pub const MOST_FLOORS: u32 = 64;

/// The most cars of a building, in the versions that have most.
pub const MOST_CARS: u32 = 16;

/// The most open calls of a snapshot, in the versions that have most.
pub const MOST_CALLS: usize = 128;

/// The most moves of a partial tour: three for each of 128 calls (it boards, and two legs end at its
/// floors), one for each of 64 groups aboard, and two.
pub const MOST_MOVES: usize = 450;

/// The most moves that may follow a partial tour: 128 boards, 64 leaves and the end.
pub const MOST_NEXT_MOVES: usize = 193;

/// The most persons of one call.
pub const MOST_PERSONS: u32 = 8;

/// No moment of a snapshot and no row of a day is later, in ms.
pub const LATEST_SNAPSHOT: u64 = 1_000_000_000;

/// The longest time between two floors, in ms.
pub const LONGEST_WAY: u64 = 20_000_000;

/// How long after the snapshot's moment a car may become free or arrive, in ms.
pub const LONGEST_WORK: u64 = 100_000_000;

/// The most time, in ms, that a leg and a stop at its end take: at most 20,000,000 to travel, 60,000 each for
/// opening and closing, and 60,000 for each of at most 2,112 persons that get off and on.
pub const MOST_STOP_TIME: u64 = 150_000_000;

/// No moment of a feasible tour is later, in ms: a tour starts at most 1,100,000,000 ms after 0, and each
/// call and each group aboard adds less than its share of what is left.
pub const LATEST_MOMENT: u64 = 10_000_000_000;

/// Moments that a running state may hold stay at most this, in ms: ten times the latest one, so that what the
/// code adds and multiplies stays in 64 bits before a moment is known to be early.
pub const MOMENT_LIMIT: u64 = 100_000_000_000;

/// One call costs at most this much, in cost units: 8 persons, weights of 1,000 for waiting, for waiting past
/// the patience and for riding, over `MOMENT_LIMIT`.
pub const MOST_CALL_COST: u64 = 2_400_000_000_000_000;

/// The groups aboard one car cost at most this much, in cost units: 64 persons, weight 1,000, over
/// `MOMENT_LIMIT`.
pub const MOST_GROUPS_COST: u64 = 6_400_000_000_000_000;

/// No feasible plan costs more, in cost units: 128 calls and the groups of 16 cars.
pub const MOST_COST: u64 = 1_000_000_000_000_000_000;

/// The greatest number of cars in a building of this version: 8 in version 1, else 16.
pub fn most_cars(version: u8) -> u32
    ensures value { result ≡ most_cars_lem version }
    ensures small { result ≤ MOST_CARS }
{
    if version == 1 { 8 } else { 16 }
}

/// The greatest number of open calls in a building of this version: 64 in version 1, else 128.
pub fn most_calls(version: u8) -> u32
    ensures value { result ≡ most_calls_lem version }
    ensures small { result ≤ MOST_CALLS }
{
    if version == 1 { 64 } else { 128 }
}
