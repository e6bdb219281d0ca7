//! Which leaves a round prices.

ghost use Rattle.std.specs.Prelude.{◌≡◌, ◌<◌, ◌≤◌, ℕ, IfOk, MatchOption, length, true, false};
ghost use Rattle.elevator_model.specs.Snapshot.{Snapshot, call_count};
ghost use Rattle.search_tree.specs.Branches.{at_place};
ghost use Rattle.node_search.specs.Searches.{AreChosen, AreSome, IsLeft, IsWanted};

use elevator_model::MOST_CALLS;
use search_tree::{Branch, first_choice};
use std::alloc::{AllocError, Global};

/// The most nodes that a round prices.
const MOST_NODES: usize = 4;

/// Whether a round may price the node: it is a leaf whose bound is below the cost, and it was not priced yet
/// or some call has two cars or more.
fn is_wanted(branch: &Branch, cost: u64, calls: usize) -> bool
    requires { calls ≤ MOST_CALLS }
    ensures wanted { (s : Snapshot) → call_count s ≡ calls → result ≡ true → IsWanted s cost branch.now }
    ensures left { (s : Snapshot) → call_count s ≡ calls → result ≡ false → IsLeft s cost branch.now }
{
    if branch.is_split() || branch.sheet.bound() >= i128::from(cost) {
        return false;
    }
    branch.rounds == 0 || first_choice(&branch.node, calls).is_some()
}

/// Whether the first node is to be priced before the second one: the one with the lower bound, then the
/// deeper one.
fn comes_first(first: &Branch, second: &Branch) -> bool {
    let (bound, other) = (first.sheet.bound(), second.sheet.bound());
    bound < other || bound == other && first.depth > second.depth
}

/// The node that comes first of those that a round may price and that are not marked, the older one of two
/// like ones.
fn best_place(branches: &[Branch], marks: &[bool], cost: u64, calls: usize) -> Option<usize>
    requires { calls ≤ MOST_CALLS }
{
    let mut best: Option<usize> = None;
    for place in 0..branches.len() {
        let is_marked = marks.get(place).copied().unwrap_or(true);
        if !is_marked && is_wanted(&branches[place], cost, calls) {
            best = better_of(branches, best, place);
        }
    }
    best
}

/// The place of these two whose node comes first.
fn better_of(branches: &[Branch], best: Option<usize>, place: usize) -> Option<usize> {
    let (Some(old), Some(new)) = (branches.get(best.unwrap_or(place)), branches.get(place)) else {
        return Some(place);
    };
    if best.is_none() || comes_first(new, old) {
        Some(place)
    } else {
        best
    }
}

/// Marks for the nodes that come first, at most four. It fails only where there is no memory left.
fn marks_of(
    alloc: Global,
    branches: &[Branch],
    cost: u64,
    calls: usize,
) -> Result<Vec<bool>, AllocError>
    requires { calls ≤ MOST_CALLS }
{
    let mut marks = vec![in alloc; false; branches.len()]?;
    for _ in 0..MOST_NODES {
        let Some(place) = best_place(branches, &marks, cost, calls) else {
            break;
        };
        if let Some(mark) = marks.get_mut(place) {
            *mark = true;
        }
    }
    Ok(marks)
}

/// The first node that a round may price.
pub(crate) fn first_wanted(branches: &[Branch], cost: u64, calls: usize) -> Option<usize>
    requires { calls ≤ MOST_CALLS }
    ensures { (s : Snapshot) → call_count s ≡ calls → MatchOption result
        ((k : ℕ) → k < length branches.now → IsLeft s cost (at_place branches.now k))
        (λ place. (place < length branches.now) × IsWanted s cost (at_place branches.now place)) }
{
    for place in 0..branches.len() {
        if is_wanted(&branches[place], cost, calls) {
            return Some(place);
        }
    }
    None
}

/// The marked nodes that a round may price, rising. It fails only where there is no memory left.
fn marked(
    alloc: Global,
    branches: &[Branch],
    marks: &[bool],
    cost: u64,
    calls: usize,
) -> Result<Vec<usize>, AllocError>
    requires { calls ≤ MOST_CALLS }
    ensures { IfOk result (λ places. (s : Snapshot) → call_count s ≡ calls
        → AreSome s cost branches.now places.items) }
{
    let mut places = Vec::new(alloc);
    for place in 0..branches.len() {
        let is_marked = marks.get(place).copied().unwrap_or(false);
        if places.len() < MOST_NODES && is_marked && is_wanted(&branches[place], cost, calls) {
            places.push(place)?;
        }
    }
    Ok(places)
}

/// The places of the nodes that a round prices, rising: at most four, those with the lowest bounds first,
/// then the deeper, then the older ones. None only where no node may be priced any more. It fails only where
/// there is no memory left.
pub(crate) fn chosen(
    alloc: Global,
    branches: &[Branch],
    cost: u64,
    calls: usize,
) -> Result<Vec<usize>, AllocError>
    requires { calls ≤ MOST_CALLS }
    ensures { IfOk result (λ places. (s : Snapshot) → call_count s ≡ calls
        → AreChosen s cost branches.now places.items) }
{
    let marks = marks_of(alloc, branches, cost, calls)?;
    let mut places = marked(alloc, branches, &marks, cost, calls)?;
    if places.is_empty() {
        if let Some(place) = first_wanted(branches, cost, calls) {
            places.push(place)?;
        }
    }
    Ok(places)
}
