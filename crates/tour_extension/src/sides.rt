//! To which sides of its floor a car carries someone.

ghost use Rattle.std.specs.Prelude.{◌≡◌, ℕ, ◌&&◌, not, true, false};
ghost use Rattle.call_sets.specs.Counting.{has};
ghost use Rattle.elevator_model.specs.Snapshot.{Snapshot};
ghost use Rattle.elevator_model.specs.Tours.{Progress, make_stop};
ghost use Rattle.elevator_model.specs.declared.Stop.{Stop};
ghost use Rattle.tour_extension.specs.Points.{IsAtStop, AreSides, goes_with};

use call_sets::FloorSet;
use partial_tours::Point;

/// To which sides of its floor a car carries someone.
#[derive(Clone, Copy)]
pub(crate) struct Sides {
    pub(crate) above: bool,
    pub(crate) below: bool,
}

impl Sides {
    /// Of a car at a stop.
    pub(crate) fn of(point: &Point) -> Self
        ensures { (s : Snapshot) (c : ℕ) (q : Progress) (stop : Stop)
            → IsAtStop s c point.now q stop → AreSides s (make_stop s c q stop) result }
    {
        let above = point.bound_for.above(point.place.floor);
        let below = point
            .bound_for
            .intersection(FloorSet::lowest(point.place.floor));
        Self {
            above: any_floor(above),
            below: any_floor(below),
        }
    }

    /// Whether there is one side at most.
    pub(crate) fn is_one_way(self) -> bool
        ensures { result ≡ not (self.above && self.below) }
    {
        !(self.above && self.below)
    }

    /// Whether a call from one floor to another goes the way of all that are carried.
    pub(crate) fn go_with(self, from: u32, to: u32) -> bool
        ensures { result ≡ goes_with self from to }
    {
        if from < to { !self.below } else { !self.above }
    }
}

/// Whether there is a floor in the set.
fn any_floor(floors: FloorSet) -> bool
    ensures some { result ≡ true → (g : ℕ) × (has floors g ≡ true) }
    ensures none { result ≡ false → (g : ℕ) → has floors g ≡ false }
{
    match floors.least() {
        None => false,
        Some(_) => true,
    }
}
