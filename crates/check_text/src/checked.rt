//! What a check finds.

use call_state::Snapshot;
use search_model::Verdict;

/// A case whose certificate was checked, with what its answer states, and the verdict.
#[derive(Drop)]
pub struct Checked {
    pub snapshot: Snapshot,
    /// The stated cost of the plan, in cost units.
    pub cost: u64,
    /// The stated bound, in cost units.
    pub bound: u64,
    /// Whether the certificate proves the plan, its cost and the bound.
    pub verdict: Verdict,
}
