//! A car on its tour, stop after stop, with the moments of its last stop.

ghost use Rattle.std.specs.Prelude.{Bool, false, ◌≡◌, ◌<◌, ◌≤◌, ◌+◌, ℕ};
ghost use Rattle.call_sets.specs.Counting.{has};
ghost use Rattle.elevator_model.specs.Building.{floor_count};
ghost use Rattle.elevator_model.specs.Snapshot.{IsAccepted, car_count, call_count};
ghost use Rattle.elevator_model.specs.Tours.{Progress, start_of, stop_at, gets_off, arrival};
ghost use Rattle.tour_rules.specs.Places.{IsBoardSet};
ghost use Rattle.tour_rules.specs.Walking.{Walks};

use crate::places::{self, CarPlace, Heading};
use crate::riding;
use call_sets::CallSet;
use call_state::Snapshot;
use elevator_model::MOMENT_LIMIT;

/// How far a car is in its tour: where it is, and when. Moments are in ms.
#[derive(Clone, Copy)]
pub struct Walker {
    /// The floor of its last stop, who boarded and who is carried.
    pub place: CarPlace,
    /// The moment at which the doors of its last stop are open. Before the first stop it is the moment from
    /// which the tour is timed.
    pub opened: u64,
    /// The moment at which it leaves its last stop. Before the first stop it is the same moment.
    pub leaves: u64,
}

impl Walker {
    /// A car at the start of its tour.
    pub fn start(snapshot: &Snapshot, car: u32) -> Self
        requires { car < car_count snapshot.now }
        ensures start { Walks snapshot.now car result (start_of snapshot.now car) }
        ensures floor { result.place.floor < floor_count snapshot.now.building }
        ensures early { result.leaves ≤ 1100000000 }
        ensures accepted { IsAccepted snapshot.now }
    {
        let moment = snapshot.car(car).moment();
        Self {
            place: places::at_start(snapshot, car),
            opened: moment,
            leaves: moment,
        }
    }

    /// The moment at which the car arrives at a next stop at this floor.
    pub fn arrival(&self, snapshot: &Snapshot, car: u32, floor: u32) -> u64
        requires car { car < car_count snapshot.now }
        requires from { self.now.place.floor < floor_count snapshot.now.building }
        requires to { floor < floor_count snapshot.now.building }
        requires early { self.now.leaves ≤ MOMENT_LIMIT }
        ensures value { (p : Progress) → Walks snapshot.now car self.now p
            → result ≡ arrival snapshot.now car p floor }
        ensures late { result ≤ self.now.leaves + 20000000 }
    {
        let place = &self.place;
        riding::arrival(snapshot, car, place.begun, place.floor, self.leaves, floor)
    }

    /// The calls that get off at a next stop at this floor. Of the groups aboard `riding::is_off` says which
    /// ones do.
    pub fn calls_off(&self, snapshot: &Snapshot, floor: u32) -> CallSet
        ensures off { (c : ℕ) (p : Progress) → Walks snapshot.now c self.now p
            → (j : ℕ) → j < call_count snapshot.now
            → has result j ≡ gets_off snapshot.now p floor j }
        ensures only { (j : ℕ) → call_count snapshot.now ≤ j → has result j ≡ false }
    {
        places::calls_off(snapshot, &self.place, floor)
    }

    /// The car makes its next stop, at this floor. These calls board.
    pub fn make_stop(&self, snapshot: &Snapshot, car: u32, floor: u32, boards: CallSet) -> Self
        requires car { car < car_count snapshot.now }
        requires from { self.now.place.floor < floor_count snapshot.now.building }
        requires to { floor < floor_count snapshot.now.building }
        requires early { self.now.leaves ≤ MOMENT_LIMIT }
        ensures stops { (p : Progress) (test : ℕ → Bool) → Walks snapshot.now car self.now p
            → IsBoardSet snapshot.now boards test
            → Walks snapshot.now car result (stop_at snapshot.now car p floor test) }
        ensures floor { result.place.floor ≡ floor }
        ensures opened { result.opened ≤ result.leaves }
        ensures late { result.leaves ≤ self.now.leaves + 150000000 }
    {
        let opened = self.arrival(snapshot, car, floor) + riding::opening_of(snapshot, car);
        let off = places::persons_carried(snapshot, car, &self.place, Heading::To(floor)) as u64;
        let on = places::persons_boarding(snapshot, boards) as u64;
        Self {
            place: places::after_stop(snapshot, &self.place, floor, boards),
            opened,
            leaves: opened + riding::dwell_of(snapshot, car, off, on),
        }
    }
}
