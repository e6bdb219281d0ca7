//! The partial tours that some tour of the node begins with.

ghost use Rattle.std.specs.Prelude.{◌≡◌, ◌<◌, length};
ghost use Rattle.elevator_model.specs.Snapshot.{car_count, call_count};

use crate::lists::pricings::aims::Aim;
use partial_tours::Prefix;
use std::alloc::{AllocError, Global};

/// A walk stops once it has come to this many partial tours.
const TOO_MANY: u32 = 200_000;

/// How many partial tours some tour of the node begins with, of those that begin with this one. None where
/// there are too many.
fn count_from(aim: &Aim, prefix: &mut Prefix) -> Option<u64>
    requires same { aim.now.snapshot.now ≡ prefix.old.snapshot }
{
    let mut begun = u64::from(aim.has_begun_with(prefix));
    let mut seen: u32 = 0;
    let mut next = prefix.first_move(aim.allowed());
    while seen < TOO_MANY {
        match next {
            Some(step) => {
                prefix.push(step);
                seen += 1;
                begun = begun.wrapping_add(u64::from(aim.has_begun_with(prefix)));
                next = prefix.first_move(aim.allowed());
            }
            None => match prefix.pop() {
                Some(last) => next = prefix.move_after(aim.allowed(), last),
                None => return Some(begun),
            },
        }
    }
    None
}

/// The least value of a tour in the node, the bound of the empty partial tour, and how many partial tours some
/// tour of the node begins with.
#[derive(Clone, Copy)]
pub(crate) struct Listed {
    pub(crate) worth: i128,
    pub(crate) first_bound: i128,
    /// None where there are too many.
    pub(crate) begun: Option<u64>,
}

impl Listed {
    pub(crate) fn at(alloc: Global, aim: &Aim, worth: i128) -> Result<Self, AllocError>
        requires car { aim.now.car < car_count aim.now.snapshot.now }
        requires prices { length aim.now.prices.now ≡ call_count aim.now.snapshot.now }
    {
        let mut prefix = Prefix::new(alloc, aim.snapshot, aim.car)?;
        Ok(Listed {
            worth,
            first_bound: aim.bound(&prefix),
            begun: count_from(aim, &mut prefix),
        })
    }
}
