//! The sets of calls that are kept for each car.

ghost use Rattle.std.specs.Prelude.{◌≡◌, ℕ, ◌^◌, ◌<◌, ◌==◌, length, if◌then◌else◌};
ghost use Rattle.call_sets.specs.Counting.{has};
ghost use Rattle.assign_branch.specs.Demands.{Places};

use call_sets::{CallSet, CarSet};
use elevator_model::{MOST_CALLS, MOST_CARS};

/// The set itself where it has one car alone, and else no car.
pub(crate) fn if_single(set: CarSet) -> CarSet
    ensures { (c : ℕ) → c < MOST_CARS → has result c ≡ (set == 2 ^ c) }
{
    let Some(car) = set.least() else {
        return CarSet::empty();
    };
    if set.bits() == 1 << car {
        set
    } else {
        CarSet::empty()
    }
}

/// The set with this call or without it.
fn with_or_without(set: CallSet, call: u32, is_member: bool) -> CallSet
    requires { call < MOST_CALLS }
    ensures { (j : ℕ) → has result j ≡ (if j == call then is_member else has set j) }
{
    if is_member {
        set.with(call)
    } else {
        set.without(call)
    }
}

/// Puts the call into the sets of these cars, and takes it out of those of all others.
pub(crate) fn place(sets: &mut [CallSet], call: u32, cars: CarSet)
    requires cars { length sets.old ≡ 16 }
    requires call { call < MOST_CALLS }
    ensures { Places call cars sets.old sets.new }
{
    for car in 0..16u32 {
        let set = sets[car as usize];
        sets[car as usize] = with_or_without(set, call, cars.contains(car));
    }
}
