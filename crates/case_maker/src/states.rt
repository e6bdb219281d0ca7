//! The states of a case's cars.

ghost use Rattle.std.specs.Prelude.{◌≡◌, ◌<◌, IfOk, OnOk, map};
ghost use Rattle.std.specs.List.{range_with_len};
ghost use Rattle.search_model.specs.Cases.{state_of_draw, case_state};

use crate::NOW;
use elevator_model::CarState;
use search_model::Draws;
use std::alloc::{AllocError, Global};

/// One state per car: idle at a drawn floor.
pub(crate) fn states_of(
    alloc: Global,
    draws: &mut Draws,
    floors: u32,
    cars: u32,
) -> Result<Vec<CarState>, AllocError>
    requires { 0 < floors }
    ensures states { IfOk result
        (λ states. states.items ≡ map (case_state draws.old.state floors) (range_with_len 0 cars)) }
    ensures drawn { OnOk result (draws.new.state ≡ state_of_draw draws.old.state cars) }
{
    let mut states = Vec::new(alloc);
    for _car in 0..cars {
        states.push(CarState::Idle {
            floor: draws.pick(floors),
            free: NOW,
        })?;
    }
    Ok(states)
}
