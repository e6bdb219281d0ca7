//! The moments of a tour's stops.

ghost use Rattle.std.specs.Prelude.{◌≡◌, ◌<◌, All, IfOk};
ghost use Rattle.elevator_model.specs.Snapshot.{car_count};
ghost use Rattle.elevator_model.specs.Tours.{IsFeasible};
ghost use Rattle.elevator_model.specs.Costs.{timeline_of};
ghost use Rattle.tour_cost.specs.Entries.{TellsEachStop};

use crate::plans::calls_at;
use call_state::Snapshot;
use elevator_model::{LATEST_MOMENT, Times, Tour};
use std::alloc::{AllocError, Global};
use tour_rules::walking::Walker;

/// The moments of each stop of a feasible tour of the car: the arrival, open doors, and the leaving. An
/// entry has the arrival after the stops before its own, and the other two after its own. `Err` means that
/// there is no memory left. Every moment, in ms, is below 10^10.
pub fn timeline(
    alloc: Global,
    snapshot: &Snapshot,
    car: u32,
    tour: &Tour,
) -> Result<Vec<Times>, AllocError>
    requires car { car < car_count snapshot.now }
    requires feasible { IsFeasible snapshot.now car tour.now }
    ensures timeline { IfOk result (λ times. times.items ≡ timeline_of snapshot.now car tour.now) }
    ensures each_stop { IfOk result (λ times. TellsEachStop snapshot.now car tour.now times.items) }
    ensures early { IfOk result (λ times. All (λ t. t.leaves < LATEST_MOMENT) times.items) }
{
    let mut walker = Walker::start(snapshot, car);
    let mut times = Vec::new(alloc);
    for stop in tour.stops() {
        let arrival = walker.arrival(snapshot, car, stop.floor);
        let boards = calls_at(stop.boards.as_slice());
        walker = walker.make_stop(snapshot, car, stop.floor, boards);
        times.push(Times {
            arrival,
            opened: walker.opened,
            leaves: walker.leaves,
        })?;
    }
    Ok(times)
}
