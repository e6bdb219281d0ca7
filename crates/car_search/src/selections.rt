//! Picks of candidates.

ghost use Rattle.std.specs.Prelude.{◌≡◌, ℕ, ◌+◌, ◌<◌, ◌^◌};
ghost use Rattle.car_search.specs.Choosing.{picks};

use elevator_model::MOST_CARS;

/// Picks of the cars from one on, each the place of a candidate, and what they cost together in cost units.
#[derive(Clone, Copy)]
pub struct Selection {
    /// By car. What stands before the first of the cars has no meaning.
    pub places: [usize; MOST_CARS as usize],
    pub cost: u64,
}

impl Selection {
    /// No picks.
    pub(crate) fn empty() -> Self
        ensures { result.cost ≡ 0 }
    {
        Selection {
            places: [0; MOST_CARS as usize],
            cost: 0,
        }
    }

    /// The picks with that of one car more.
    pub(crate) fn with(self, car: usize, place: usize, cost: u64) -> Self
        requires car { car < MOST_CARS }
        requires cost { self.cost + cost < 2 ^ 64 }
        ensures here { picks result car ≡ place }
        ensures others { (d : ℕ) → (d ≡ car → ⊥) → picks result d ≡ picks self d }
        ensures cost { result.cost ≡ self.cost + cost }
    {
        let mut places = self.places;
        places[car] = place;
        Selection {
            places,
            cost: self.cost + cost,
        }
    }
}
