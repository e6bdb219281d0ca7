//! The calls of a case.

ghost use Rattle.std.specs.Prelude.{◌≡◌, ◌*◌, ◌<◌, ◌≤◌, IfOk, map};
ghost use Rattle.std.specs.List.{range_with_len};
ghost use Rattle.search_model.specs.Cases.{other_floor as other_floor_lem, state_of_draw, case_call};
ghost use Rattle.case_maker.specs.NextCall.{next_call};

use crate::NOW;
use elevator_model::Call;
use search_model::Draws;
use std::alloc::{AllocError, Global};

/// Another floor than the origin, where one floor fewer was picked from.
fn other_floor(origin: u32, pick: u32) -> u32
    requires { pick < u32.MAX }
    ensures { result ≡ other_floor_lem origin pick }
{
    if pick < origin { pick } else { pick + 1 }
}

/// The next call: its origin, destination, persons and moment are drawn, in this order.
fn call_of(draws: &mut Draws, floors: u32, id: u32) -> Call
    requires { 2 ≤ floors }
    ensures call { result ≡ next_call draws.old.state floors id }
    ensures drawn { draws.new.state ≡ state_of_draw draws.old.state 4 }
{
    let origin = draws.pick(floors);
    let destination = other_floor(origin, draws.pick(floors - 1));
    let persons = 1 + draws.pick(2);
    let released = NOW - 1000 * u64::from(draws.pick(64));
    Call {
        id,
        origin,
        destination,
        persons,
        released,
        pin: None,
    }
}

/// This many calls, with the ids from 1 on.
pub(crate) fn calls_of(
    alloc: Global,
    draws: &mut Draws,
    floors: u32,
    calls: u32,
) -> Result<Vec<Call>, AllocError>
    requires { 2 ≤ floors }
    ensures { IfOk result
        (λ made. made.items ≡ map (case_call draws.old.state floors 0) (range_with_len 0 calls)) }
{
    let mut made = Vec::new(alloc);
    for call in 0..calls {
        made.push(call_of(draws, floors, call + 1))?;
    }
    Ok(made)
}
