//! Generated cases: a building and a snapshot from a number and three sizes, the same ones on every machine.
//!
//! Lengths are in mm, moments and times in ms. Floors are named by their index, from 0; cars and calls have
//! the ids from 1 on.
//!
//! # What is promised
//!
//! - `make` gives exactly the generated case of a number and three sizes (2 to 64 floors, 1 to 8 cars, at
//!   most 64 calls), draw by draw as the definition says. It fails only when out of memory: each case is an
//!   accepted snapshot (`proofs/CaseLemmas.antt`, `proofs/AcceptedCases.antt`), so neither the building nor
//!   the snapshot can be refused for a fault.
#![tactic(auto)]

ghost use Rattle.std.specs.Prelude.{◌≡◌, ◌≤◌, IfOk, IfErr, OnErr};
ghost use Rattle.elevator_model.specs.Snapshot.{IsAccepted};
ghost use Rattle.call_state.specs.declared.StateFault.TheVariants.{NoMemory};
ghost use Rattle.search_model.specs.Cases.{IsCase};

mod buildings;
mod calls;
mod states;

use buildings::building_of;
use call_state::{Snapshot, SnapshotParts, StateFault};
use calls::calls_of;
use search_model::Draws;
use states::states_of;
use std::alloc::{AllocError, Global};

/// The moment that each case shows, in ms.
const NOW: u64 = 600_000;

/// The case of a number, with this many floors, cars and open calls: nobody is aboard, each car is idle at a
/// drawn floor, and each call has drawn floors, persons and a drawn moment.
///
/// It fails only where there is no memory left.
pub fn make(
    alloc: Global,
    number: u64,
    floors: u32,
    cars: u32,
    calls: u32,
) -> Result<Snapshot, AllocError>
    requires floors_low { 2 ≤ floors }
    requires floors_high { floors ≤ 64 }
    requires cars_low { 1 ≤ cars }
    requires cars_high { cars ≤ 8 }
    requires calls_high { calls ≤ 64 }
    ensures case { IfOk result (λ snapshot. IsCase number floors cars calls snapshot) }
    ensures accepted { IfOk result (λ snapshot. IsAccepted snapshot) }
{
    let building = building_of(alloc, floors, cars)?;
    let mut draws = Draws::from_number(number);
    let states = states_of(alloc, &mut draws, floors, cars)?;
    let calls = calls_of(alloc, &mut draws, floors, calls)?;
    let parts = SnapshotParts {
        version: 1,
        building,
        now: NOW,
        cars: states,
        aboard: Vec::new(alloc),
        calls,
    };
    faultless(Snapshot::build(alloc, parts))
}

/// The value that was built without a fault, unless there was no memory left.
fn faultless<T>(built: Result<T, StateFault>) -> Result<T, AllocError>
    requires { IfErr built (λ e. e ≡ NoMemory) }
    ensures value { IfOk result (λ value. built ≡ Ok value) }
    ensures memory { OnErr result (built ≡ Err NoMemory) }
{
    match built {
        Ok(value) => Ok(value),
        Err(StateFault::NoMemory) => Err(AllocError),
        Err(StateFault::Bad { .. }) => unreachable!(),
    }
}
