//! States the claims of a search's tree.

ghost use Rattle.std.specs.Prelude.{◌≡◌, ◌≤◌, ◌^◌, All, IfOk};
ghost use Rattle.search_model.specs.Certificates.{Proves};
ghost use Rattle.search_model.specs.Solving.{floor_of_bound};
ghost use Rattle.search_tree.specs.Sheets.{IsSizedLeaf, IsSizedTwig};
ghost use Rattle.snapshot_solver.specs.Starts.{IsStartLeaf};
ghost use Rattle.cert_claims.specs.Stating.{IsLastResort};
ghost use Rattle.cert_text.specs.Trees.{AreTwigsKnown};
ghost use Rattle.certified_search.specs.Certified.{IsCertified};

use assign_branch::Tree;
use byte_streams::Gate;
use call_state::Snapshot;
use cert_claims::{Claimed, CountingCrew, LastResort, state_claims};
use kept_tours::sum_of_leaf;
use search_model::Stated;
use snapshot_solver::start_leaf;
use std::alloc::{AllocError, Global};
use work_fan::Runtime;

/// The leaf with which a search starts, as the last resort of a certificate.
///
/// Its bound is at most this one. It fails only where there is no memory left.
fn last_resort(alloc: Global, snapshot: &Snapshot, most: u64) -> Result<LastResort, AllocError>
    requires { floor_of_bound snapshot.now ≤ most }
    ensures resort { IfOk result (λ last. IsLastResort snapshot.now last.bound last.leaf) }
    ensures bound { IfOk result (λ last. last.bound ≡ floor_of_bound snapshot.now) }
    ensures start { IfOk result (λ last. IsStartLeaf snapshot.now last.leaf) }
    ensures sized { IfOk result (λ last. IsSizedLeaf last.leaf) }
{
    // For the proof: the reader says that the snapshot is accepted, so the leaf's sums are small.
    let _calls = snapshot.calls();
    let leaf = start_leaf(alloc, snapshot)?;
    let bound = (sum_of_leaf(&leaf) / 1000) as u64;
    Ok(LastResort { leaf, bound })
}

/// The tree of a search with the claims that are due in it, and the bound that it proves, where they sum to
/// no more than this; else a tree with fewer, and its lesser bound.
///
/// It fails only where there is no memory left.
pub fn certify<C: CountingCrew, G: Gate>(
    runtime: &Runtime<C, G>,
    snapshot: &Snapshot,
    stated: &Stated,
    tree: Tree,
    claims: u64,
) -> Result<Claimed, AllocError>
    requires proves { Proves snapshot.now stated.now.plan stated.now.cost stated.now.bound tree.twigs }
    requires least { floor_of_bound snapshot.now ≤ stated.now.bound }
    requires sized { All IsSizedTwig tree.twigs }
    requires claims { claims ≤ 10 ^ 10 }
    ensures certified { IfOk result (λ claimed.
        IsCertified snapshot.now claims stated.now tree.twigs claimed.bound claimed.tree.twigs) }
    ensures sized { IfOk result (λ claimed. All IsSizedTwig claimed.tree.twigs) }
    ensures known { IfOk result (λ claimed. AreTwigsKnown snapshot.now claimed.tree.twigs) }
{
    // For the proof: the reader says that the snapshot is accepted.
    let _calls = snapshot.calls();
    let resort = last_resort(runtime.alloc, snapshot, stated.bound)?;
    state_claims(runtime, snapshot, stated, tree, resort, claims)
}
