//! Splits: one call's set divided between two nodes.

ghost use Rattle.std.specs.Prelude.{◌≡◌, ◌↔◌, ◌&&◌, not, length, IfErr, IsTrue, IsOk, OnOk, OnErr};
ghost use Rattle.call_sets.specs.Counting.{any_below, has};
ghost use Rattle.search_model.specs.Nodes.{first_of_split, is_part as is_part_lem, rest_of, second_of_split};
ghost use Rattle.search_model.specs.Nodes.{set_of};
ghost use Rattle.assign_branch.specs.Splits.{AreNodes, KeepsPlans};

use crate::nodes::Node;
use call_sets::CarSet;

/// A part that does not divide the set of its call.
#[derive(Clone, Copy, PartialEq, Eq)]
pub struct BadSplit {
    pub part: CarSet,
}

/// Whether some car is in the set.
fn has_any(set: CarSet) -> bool
    ensures { result ≡ any_below 16 (has set) }
{
    set.least().is_some()
}

/// Whether some car of the set is not in the other one.
fn has_outside(set: CarSet, other: CarSet) -> bool
    ensures { result ≡ any_below 16 (λ c. has set c && not (has other c)) }
{
    has_any(set.minus(other))
}

/// The cars of the set that are not in the part.
fn rest(set: CarSet, part: CarSet) -> CarSet
    ensures { result ≡ rest_of set part }
{
    set.minus(part)
}

/// Whether the part is not empty, not the whole set, and has no car outside it.
pub fn is_part(set: CarSet, part: CarSet) -> bool
    ensures { result ≡ is_part_lem set part }
{
    has_any(part) && has_outside(set, part) && !has_outside(part, set)
}

/// Splits a node at a call: in `first` the cars of the part may serve it, in `second` the rest of its cars,
/// and all other sets stay.
///
/// It is refused exactly where the part is empty, is the whole set or has a car outside the set, which is
/// always so where there is no such call; then both nodes are as before.
pub fn split(
    from: &Node,
    call: u32,
    part: CarSet,
    first: &mut Node,
    second: &mut Node,
) -> Result<(), BadSplit>
    requires first_calls { length first.old ≡ length from.now }
    requires second_calls { length second.old ≡ length from.now }
    ensures accepted { IsTrue (is_part_lem (set_of from.now call) part) ↔ IsOk result }
    ensures split { OnOk result ((first.new ≡ first_of_split from.now call part)
        × (second.new ≡ second_of_split from.now call part)) }
    ensures plans { OnOk result (KeepsPlans from.now first.new second.new) }
    ensures nodes { OnOk result (AreNodes from.now first.new second.new) }
    ensures calls { (length first.new ≡ length from.now) × (length second.new ≡ length from.now) }
    ensures refused { OnErr result ((first.new ≡ first.old) × (second.new ≡ second.old)) }
    ensures part { IfErr result (λ bad. bad.part ≡ part) }
{
    let whole = from.set(call);
    if !is_part(whole, part) {
        return Err(BadSplit { part });
    }
    first.copy_from(from);
    first.give(call, part);
    second.copy_from(from);
    second.give(call, rest(whole, part));
    Ok(())
}
