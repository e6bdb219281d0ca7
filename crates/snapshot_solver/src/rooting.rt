//! What turns at the root of a snapshot tell.

ghost use Rattle.std.specs.Prelude.{◌≤◌, IfOk};
ghost use Rattle.snapshot_solver.specs.Roots.{IsRootSolution};

use crate::crews::ByCrew;
use crate::starts::start_sheet;
use byte_streams::OpenGate;
use call_state::Snapshot;
use first_plan::{DEFAULT_ROUNDS, first};
use pricing_search::Searcher;
use root_prices::{MOST_ROUNDS, RootAnswer, root_best};
use search_model::{Interruption, Limits};
use std::alloc::{AllocError, Global};
use work_fan::{Alone, Runtime, Workers};

/// Makes turns at the root of the snapshot, as many as the limits have rounds, from the prices and the plan
/// with which `solve` starts, and answers the best prices of them, the cheapest plan in halves of their
/// tours, and whether the two meet. The calling thread alone makes them. It fails only where there is no
/// memory left.
pub fn solve_root(
    alloc: Global,
    snapshot: &Snapshot,
    limits: Limits,
) -> Result<RootAnswer, AllocError>
    requires { limits.rounds ≤ MOST_ROUNDS }
    ensures { IfOk result (IsRootSolution snapshot.now limits.rounds limits.most_tours) }
{
    let start = first(alloc, snapshot, DEFAULT_ROUNDS, &OpenGate)?;
    let sheet = start_sheet(alloc, snapshot)?;
    let searcher = Searcher::new(snapshot);
    let runtime = Runtime {
        crew: &ByCrew { crew: &Alone },
        workers: Workers::one(),
        alloc,
        gate: &OpenGate,
    };
    let answered = root_best(&runtime, snapshot, &searcher, &start, sheet, limits);
    Interruption::unstopped(answered)
}
