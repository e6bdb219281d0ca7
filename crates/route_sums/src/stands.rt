//! Where a car is: at the end of a partial tour, after the next move, or on its forced route.

ghost use Rattle.std.specs.Prelude.{◌≤◌, ◌<◌};
ghost use Rattle.elevator_model.specs.declared.limits.TheConstants.{LATEST_MOMENT};
ghost use Rattle.route_sums.specs.declared.stands.TheConstants.{LATEST, MOST_SETTLED};

use call_sets::FloorSet;
use tour_rules::places::CarPlace;

/// Moments in ms are cut here. No tour is as late.
pub(crate) const LATEST: u64 = 99_000_000_000;

/// No car is found to be ready later for the way to a stop, in ms: doors open within a minute.
pub(crate) const LATEST_READY: u64 = 99_000_060_000;

/// No doors are found to open later, in ms.
pub(crate) const LATEST_OPEN: u64 = 99_100_000_000;

/// Costs in cost units are cut here. No tour costs as much.
pub(crate) const MOST_SETTLED: u64 = 500_000_000_000_000_000;

/// The call that boards next, and the moment of that in ms.
#[derive(Clone, Copy)]
pub(crate) struct Newest {
    pub(crate) call: u32,
    pub(crate) moment: u64,
    ghost early: { moment ≤ LATEST_MOMENT },
}

/// Where a car is, with those who boarded at the stop begun. Its moments and what is settled may be cut.
#[derive(Clone, Copy)]
pub(crate) struct Stand {
    pub(crate) place: CarPlace,
    /// The floors to which someone is carried.
    pub(crate) bound_for: FloorSet,
    /// The moment in ms at which the doors are open, and that at which the car leaves.
    pub(crate) opened: u64,
    pub(crate) leaves: u64,
    /// What those who got off cost, in cost units.
    pub(crate) settled: u64,
    ghost near: { place.floor < 64 },
    ghost early: { opened ≤ LATEST },
    ghost late: { leaves ≤ LATEST },
    ghost small: { settled ≤ MOST_SETTLED },
}
