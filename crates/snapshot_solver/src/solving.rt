//! The cheapest plan of a snapshot.

ghost use Rattle.std.specs.Prelude.{◌≡◌, ◌≤◌, ◌^◌, ◌⊎◌, All, IfOk};
ghost use Rattle.elevator_model.specs.Plans.{IsFeasiblePlan};
ghost use Rattle.search_model.specs.declared.StopReason.TheVariants.{Solved, Told};
ghost use Rattle.search_model.specs.Solving.{IsSnapshotAnswer, IsSolveAnswer};
ghost use Rattle.search_model.specs.Verdicts.{tours_enough, rounds_enough};
ghost use Rattle.search_tree.specs.Sheets.{IsSizedTwig};
ghost use Rattle.snapshot_solver.specs.Reasons.{HasReasonOf};

use crate::crews::{ByCrew, SearchCrew};
use crate::gates::Unasked;
use crate::starts::start_sheet;
use byte_streams::{Gate, OpenGate};
use call_state::Snapshot;
use elevator_model::Plan;
use first_plan::{DEFAULT_ROUNDS, first};
use node_search::{Found, find_plan};
use pricing_search::Searcher;
use search_model::Limits;
use std::alloc::AllocError;
use work_fan::Runtime;

/// Searches for the cheapest plan of the snapshot within the limits and as long as the runtime's gate lets
/// it go on, from a feasible plan.
///
/// What it answers is a feasible plan with its cost, a bound that no feasible plan's cost is below, and the
/// tree that proves them, whose prices and worths lie in their ranges. Cost and bound are equal unless a
/// limit was reached or it was told to stop, and where the limits are enough for the snapshot none is.
/// Which limit is named follows from the state after the last round. Where it was told to stop, all holds but
/// the reason that holds of a search which may do some number of rounds, at most the limit. It fails only
/// where there is no memory left.
pub fn solve_from<C: SearchCrew, G: Gate>(
    runtime: &Runtime<C, G>,
    snapshot: &Snapshot,
    start: Plan,
    limits: Limits,
) -> Result<Found, AllocError>
    requires { IsFeasiblePlan snapshot.now start }
    ensures any { IfOk result (λ f. IsSnapshotAnswer snapshot.now limits.rounds limits.most_tours
        f.stated.plan f.stated.cost f.stated.bound f.tree.twigs f.turns f.why) }
    ensures answer { G.never_stops runtime.now.gate.now
        → IfOk result (λ f. IsSolveAnswer snapshot.now limits.rounds limits.most_tours
        f.stated.plan f.stated.cost f.stated.bound f.tree.twigs f.turns f.why) }
    ensures why { IfOk result (λ f. (f.why ≡ Told)
        ⊎ HasReasonOf snapshot.now limits.rounds limits.most_tours f) }
    ensures sized { IfOk result (λ f. All IsSizedTwig f.tree.twigs) }
    ensures enough { G.never_stops runtime.now.gate.now
        → rounds_enough snapshot.now ≤ limits.rounds → tours_enough snapshot.now ≤ limits.most_tours
        → IfOk result (λ f. f.why ≡ Solved) }
{
    let sheet = start_sheet(runtime.alloc, snapshot)?;
    let searcher = Searcher::new(snapshot);
    let by_crew = ByCrew { crew: runtime.crew };
    let rounds = Runtime {
        crew: &by_crew,
        workers: runtime.workers,
        alloc: runtime.alloc,
        gate: runtime.gate,
    };
    find_plan(&rounds, snapshot, &searcher, start, sheet, limits)
}

/// Searches for the cheapest plan of the snapshot within the limits, from a plan of its own.
///
/// It answers what `solve_from` does under a gate that never stops: the runtime's gate is told how far the
/// search has come, and is not asked.
pub fn solve<C: SearchCrew, G: Gate>(
    runtime: &Runtime<C, G>,
    snapshot: &Snapshot,
    limits: Limits,
) -> Result<Found, AllocError>
    ensures answer { IfOk result (λ f. IsSolveAnswer snapshot.now limits.rounds limits.most_tours
        f.stated.plan f.stated.cost f.stated.bound f.tree.twigs f.turns f.why) }
    ensures why { IfOk result (HasReasonOf snapshot.now limits.rounds limits.most_tours) }
    ensures sized { IfOk result (λ f. All IsSizedTwig f.tree.twigs) }
    ensures enough { rounds_enough snapshot.now ≤ limits.rounds
        → tours_enough snapshot.now ≤ limits.most_tours
        → IfOk result (λ f. f.why ≡ Solved) }
{
    let start = first(runtime.alloc, snapshot, DEFAULT_ROUNDS, &OpenGate)?;
    let gate = Unasked { gate: runtime.gate };
    let unasked = Runtime {
        crew: runtime.crew,
        workers: runtime.workers,
        alloc: runtime.alloc,
        gate: &gate,
    };
    solve_from(&unasked, snapshot, start, limits)
}
