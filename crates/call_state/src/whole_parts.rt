//! Whether the parts of a snapshot fit together, before they are tested for faults.

ghost use Rattle.std.specs.Prelude.{◌↔◌, ℕ, ◌<◌, IsTrue, IfSome, length, slice_index_or};
ghost use Rattle.elevator_model.specs.Snapshot.{IsUnmoving, no_state, no_group, no_call};

use elevator_model::{Aboard, Call, CarState};

fn is_unmoving(state: CarState) -> bool
    ensures { IsTrue result ↔ IsUnmoving state }
{
    !state.is_moving()
}

/// Whether no car is moving.
pub(crate) fn are_unmoving(states: &[CarState]) -> bool
    ensures { IsTrue result
        ↔ ((c : ℕ) → c < length states.now → IsUnmoving (slice_index_or states.now c no_state)) }
{
    for state in states {
        if !is_unmoving(*state) {
            return false;
        }
    }
    true
}

/// Whether each group's car is one of this many.
pub(crate) fn ride_in_cars(groups: &[Aboard], cars: usize) -> bool
    ensures { IsTrue result
        ↔ ((k : ℕ) → k < length groups.now → (slice_index_or groups.now k no_group).car < cars) }
{
    for group in groups {
        if group.car as usize >= cars {
            return false;
        }
    }
    true
}

fn is_free_or_below(pin: Option<u32>, cars: usize) -> bool
    ensures { IsTrue result ↔ IfSome pin (λ c. c < cars) }
{
    match pin {
        Some(car) => (car as usize) < cars,
        None => true,
    }
}

/// Whether each pin is one of this many cars.
pub(crate) fn are_pinned_to_cars(calls: &[Call], cars: usize) -> bool
    ensures { IsTrue result
        ↔ ((j : ℕ) → j < length calls.now → IfSome (slice_index_or calls.now j no_call).pin
        (λ c. c < cars)) }
{
    for call in calls {
        if !is_free_or_below(call.pin, cars) {
            return false;
        }
    }
    true
}
