//! What the gate is told of a search. Nothing rests on it.

use crate::root::Root;
use crate::search::Search;
use branching_rules::Steps;
use byte_streams::SearchState;
use search_tree::SearchTree;

/// Where a search stands with this tree and this cost of its cheapest plan, after this many rounds.
fn state_of(tree: &SearchTree<Steps>, cost: u64, rounds: u64) -> SearchState {
    let mut open_nodes = 0u64;
    for branch in tree.branches() {
        if !branch.is_split() && branch.sheet.bound() < i128::from(cost) {
            open_nodes = open_nodes.saturating_add(1);
        }
    }
    SearchState {
        rounds,
        open_nodes,
        cost,
        bound: u64::try_from(tree.bound(cost)).unwrap_or(0),
    }
}

impl Root<'_> {
    /// Where the search stands between turns at the root.
    pub(crate) fn state(&self) -> SearchState {
        state_of(&self.tree, self.best.cost, self.series.turns.len() as u64)
    }
}

impl Search<'_> {
    /// Where the search stands between rounds.
    pub(crate) fn state(&self) -> SearchState {
        state_of(&self.tree, self.best.cost, self.done)
    }
}
