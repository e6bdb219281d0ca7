//! The states that the rules allow: a square of travel times between floors, a building with its cars, and a
//! snapshot of a building with its cars' states, the groups aboard and the open calls. What breaks the rules
//! is refused with its first fault, and a value of these types keeps them.
//!
//! Lengths are in mm, moments and times in ms. Floors, cars and calls are named by their index, from 0.
//!
//! # What is promised
//!
//! - `Travel::build` takes exactly the travel squares. `are_rows_direct` tells whether no way over a third
//!   floor is shorter.
//! - `Building::build` and `Snapshot::build` take exactly the ones that keep the rules, and name the first
//!   fault of any other: what is wrong, and at which item.
//! - `Travel::of_square`, `Building::of_faultless`, `Snapshot::of_accepted`: the value of parts that the
//!   caller knows to keep the rules (a `requires`), which are not judged again: `snapshot_text`, which judged
//!   each line, and `day_state` use these; `building_text` uses `Travel::of_square`, and `Building::build`
//!   for the whole.
//! - `spec_fault`, `state_fault`, `aboard_fault`, `call_fault`: the first fault of one item after those
//!   before it, for readers that judge line by line. `indexed_aboard_fault` and `indexed_call_fault` are the
//!   same where the ids before it are in an `IdIndex`, which tells whether it has an id.
//! - `Building::car_of` and `Snapshot::call_of` give the index of exactly the car, the call, with an id, from
//!   an index of the ids. Copies are equal values.
//! - `any_can_take` tells whether some car's size and floors allow a call. `time_at` is the time between two
//!   floors in a list that need not be a travel square, and 0 where it has none.
//! - `SnapshotParts::flaw` tells whether the parts fit together, and a condition of `Snapshot::build` that
//!   fails where they do not. `Snapshot::possible` and `may_take` are exactly the cars that may take a call;
//!   they are worked out once, when the snapshot is built.
//!
//! Every reader of these types also says that what it reads is accepted, so callers need no condition for it.
//! The triangle inequality is tested row by row, with an inner loop that has no exit, since that is faster.
#![tactic(auto)]

ghost use Rattle.std.specs.Prelude.{◌≡◌};
ghost use Rattle.call_state.specs.declared.StateFault.TheVariants.{NoMemory};

mod aboard_faults;
mod buildings;
mod call_faults;
mod car_faults;
mod id_index;
mod possible_cars;
mod snapshots;
mod squares;
mod state_faults;
mod whole_parts;

pub use aboard_faults::{aboard_fault, indexed_aboard_fault};
pub use buildings::{Building, BuildingParts, are_rising};
pub use call_faults::{any_can_take, call_fault, indexed_call_fault};
pub use call_sets::{CarSet, FloorSet};
pub use car_faults::{has_car, spec_fault};
pub use elevator_model::{Aboard, Call, CarSpec, CarState, Fault};
pub use id_index::IdIndex;
pub use snapshots::{PartsFlaw, Snapshot, SnapshotParts};
pub use squares::{Travel, are_rows_direct, time_at};
pub use state_faults::{can_stop, is_open, serves_floor, state_fault};
use std::alloc::AllocError;
use std::error::Error;
use std::fmt;

/// Why a travel square, a building or a snapshot is refused.
#[derive(Clone, Copy, PartialEq, Eq, Debug)]
pub enum StateFault {
    /// What is wrong, and at which item. Of a building, the item is the place of the bad car from 1, and
    /// 0 for the building itself and for a travel square. Of a snapshot, it is the place of the bad item
    /// from 1, counted through the cars, then the groups aboard, then the calls; 0 stands for none.
    Bad { fault: Fault, item: u32 },
    /// There is no memory left.
    NoMemory,
}

impl fmt::Display for StateFault {
    fn fmt<W: fmt::Write>(&self, f: &mut fmt::Formatter<W>) -> fmt::Result {
        match self {
            StateFault::Bad { fault, item } => write!(f, "item {item}: {fault}"),
            StateFault::NoMemory => write!(f, "out of memory"),
        }
    }
}

impl Error for StateFault {}

impl From<AllocError> for StateFault {
    ghost from_gives = { λ _ fault. fault ≡ NoMemory };

    fn from(_error: AllocError) -> StateFault {
        StateFault::NoMemory
    }
}
