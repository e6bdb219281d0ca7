//! The place of each id in a list.

ghost use Rattle.std.specs.Prelude.{◌≡◌, ℕ, ◌<◌, ◌==◌, ◌∷◌, ◌++◌, [], length, map, slice_index, IfOk, OnOk};
ghost use Rattle.std.specs.Prelude.{OnErr, MatchOption};
ghost use Rattle.std.specs.List.{list_any};
ghost use Rattle.elevator_model.specs.declared.CarSpec.{CarSpec};
ghost use Rattle.elevator_model.specs.declared.Call.{Call};
ghost use Rattle.call_state.specs.Ids.{AreDifferent};

use elevator_model::{Call, CarSpec};
use std::alloc::{AllocError, Global};
use std::marker::Model;

/// Different ids in their order.
///
/// They are few, the cars of a building or the calls of a snapshot, so an id is found by going through them.
#[derive(Drop)]
pub struct IdIndex {
    ids: Vec<u32>,
}

impl Model for IdIndex {
    ghost use Rattle.std.specs.Prelude.{ℕ, List};

    ghost Value = { List ℕ };

    ghost view = { λ x. x.ids.items };
}

impl IdIndex {
    /// No ids. It takes no memory.
    pub fn new(alloc: Global) -> IdIndex
        ensures { result ≡ [] }
    {
        IdIndex {
            ids: Vec::new(alloc),
        }
    }

    /// Puts an id that is not among them last. It fails only where there is no memory left, and then the ids
    /// are as they were.
    pub fn push(&mut self, id: u32) -> Result<(), AllocError>
        requires { (k : ℕ) → k < length self.old → slice_index self.old k ≡ id → ⊥ }
        ensures added { OnOk result (self.new ≡ self.old ++ id ∷ []) }
        ensures unchanged { OnErr result (self.new ≡ self.old) }
    {
        self.ids.push(id)?;
        Ok(())
    }

    /// Whether an id is among them.
    pub fn contains(&self, id: u32) -> bool
        ensures { result ≡ list_any (λ x. id == x) self.now }
    {
        self.ids.contains(&id)
    }

    /// The place of an id.
    pub(crate) fn place_of(&self, id: u32) -> Option<usize>
        ensures { MatchOption
            result
            ((k : ℕ) → k < length self.now → slice_index self.now k ≡ id → ⊥)
            (λ k. (k < length self.now) × (slice_index self.now k ≡ id)) }
    {
        self.ids.iter().position(|other| *other == id)
    }

    /// The ids of cars, in their order. It fails only where there is no memory left.
    pub(crate) fn of_cars(alloc: Global, cars: &[CarSpec]) -> Result<IdIndex, AllocError>
        requires { AreDifferent (map (λ (x : CarSpec). x.id) cars.now) }
        ensures { IfOk result (λ index. index ≡ map (λ (x : CarSpec). x.id) cars.now) }
    {
        let mut index = IdIndex::new(alloc);
        for car in cars {
            index.push(car.id)?;
        }
        Ok(index)
    }

    /// The ids of calls, in their order. It fails only where there is no memory left.
    pub(crate) fn of_calls(alloc: Global, calls: &[Call]) -> Result<IdIndex, AllocError>
        requires { AreDifferent (map (λ (x : Call). x.id) calls.now) }
        ensures { IfOk result (λ index. index ≡ map (λ (x : Call). x.id) calls.now) }
    {
        let mut index = IdIndex::new(alloc);
        for call in calls {
            index.push(call.id)?;
        }
        Ok(index)
    }
}
