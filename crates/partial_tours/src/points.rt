//! Where a partial tour is.

ghost use Rattle.std.specs.Prelude.{◌≤◌, ◌<◌};

use call_sets::{CallSet, FloorSet};
use tour_rules::places::CarPlace;

/// Where a partial tour is.
#[derive(Clone, Copy)]
pub struct Point {
    /// The car with the present stop made by those who boarded there so far.
    pub place: CarPlace,
    /// Whether the tour has ended.
    pub ended: bool,
    /// Whether the present stop may be left: somebody got off or boards there, or it needs no use.
    pub useful: bool,
    /// The highest index that boarded at the present stop.
    pub last: Option<u32>,
    /// How many more persons the car can carry.
    pub room: u32,
    /// The calls that the car may take, that have not boarded, and of whose queue no later call boarded at an
    /// earlier stop.
    pub waiting: CallSet,
    /// The earlier calls of the queues of those that board at the present stop.
    pub passed: CallSet,
    /// The floors to which someone is carried.
    pub bound_for: FloorSet,
    ghost near: { place.floor < 64 },
    ghost small: { room ≤ 64 },
}
