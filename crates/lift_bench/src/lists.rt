//! What is searched for, beside lists of everything: the pricings of the cars of small snapshots beside a list of
//! all tours of the car, and what is chosen from pools of drawn tours beside a list of all that can be made of
//! these tours. For each kind of check it is printed how many were made and how many failed.

mod pools;
mod pricings;

use pools::compare_pools;
use pricings::compare_pricings;
use std::io;

/// Makes all comparisons. Says whether no check failed.
pub(crate) fn compare_lists(rt: &HostRuntime) -> io::Result<bool> {
    let are_priced = compare_pricings(rt)?;
    let are_pooled = compare_pools(rt)?;
    Ok(are_priced && are_pooled)
}
