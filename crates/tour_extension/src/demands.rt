//! What a node asks of a car.

ghost use Rattle.std.specs.Prelude.{◌≡◌, ℕ, ◌&&◌, ◌↔◌, IsTrue, true};
ghost use Rattle.call_sets.specs.Counting.{has};
ghost use Rattle.search_model.specs.Extending.{IsDemand};

use call_sets::CallSet;
use partial_tours::Prefix;

/// What a node asks of a car: a tour in which allowed calls alone board, and each required one does.
#[derive(Clone, Copy)]
pub struct Demand {
    /// The calls that may board. The car may take each of them.
    pub allowed: CallSet,
    /// The calls that have to board. Each of them is allowed.
    pub required: CallSet,
}

impl Demand {
    /// Whether it can be asked of the car of the partial tour: each required call is allowed, and each
    /// allowed one is a call that the car may take.
    pub fn is_for(&self, prefix: &Prefix) -> bool
        ensures { IsTrue result ↔ IsDemand prefix.now.snapshot prefix.now.car (has self.now.allowed)
            (has self.now.required) }
    {
        self.allowed.contains_all(self.required)
            && prefix.layout().possible().contains_all(self.allowed)
    }
}
