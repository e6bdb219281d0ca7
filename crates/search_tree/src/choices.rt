//! Calls that more than one car may still serve.

ghost use Rattle.std.specs.Prelude.{◌≡◌, ◌<◌, ◌≤◌, ◌^◌, ℕ, IfSome, MatchOption, true};
ghost use Rattle.call_sets.specs.Counting.{has};
ghost use Rattle.search_model.specs.Nodes.{is_part, set_of};
ghost use Rattle.search_tree.specs.Branches.{AreSingle, IsLeastAlone};

use crate::branches::SplitAt;
use assign_branch::{CarSet, Node};
use elevator_model::MOST_CALLS;

/// A split of the set into its least car and the others, where it has two cars or more.
fn least_alone(set: CarSet) -> Option<CarSet>
    ensures part { MatchOption result ((k : ℕ) → has set k ≡ true → set ≡ 2 ^ k)
        (λ part. is_part set part ≡ true) }
    ensures least { IfSome result (IsLeastAlone set) }
{
    let car = set.least()?;
    set.without(car).least()?;
    Some(CarSet::empty().with(car))
}

/// The first call that two or more cars may serve, with its least car as the first part.
pub fn first_choice(node: &Node, calls: usize) -> Option<SplitAt>
    requires { calls ≤ MOST_CALLS }
    ensures call { MatchOption result (AreSingle calls node.now)
        (λ at. (at.call < calls) × AreSingle at.call node.now) }
    ensures part { IfSome result (λ at. is_part (set_of node.now at.call) at.part ≡ true) }
    ensures least { IfSome result (λ at. IsLeastAlone (set_of node.now at.call) at.part) }
{
    for call in 0..calls as u32 {
        if let Some(part) = least_alone(node.set(call)) {
            return Some(SplitAt { call, part });
        }
    }
    None
}
