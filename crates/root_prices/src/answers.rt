//! What turns at the root answer.

ghost use Rattle.std.specs.Prelude.{◌≡◌, ◌≤◌, IfOk, IsOkUnless, length};
ghost use Rattle.elevator_model.specs.Plans.{IsFeasiblePlan};
ghost use Rattle.search_model.specs.declared.interruptions.Interruption.TheVariants.{OutOfMemory};
ghost use Rattle.search_model.specs.Nodes.{root_of};
ghost use Rattle.search_tree.specs.Sheets.{PriceSheet};
ghost use Rattle.search_tree.specs.Standing.{IsSheetIn};
ghost use Rattle.root_prices.specs.RootAnswers.{IsRootAnswer};
ghost use Rattle.root_prices.specs.KeptTurns.{AreKept};

use crate::halves::{Halves, find_halves};
use crate::kept::KeptTurns;
use crate::reasons::{RootReason, reason_of, spent_car};
use assign_branch::{Pricer, root};
use byte_streams::Gate;
use call_state::Snapshot;
use elevator_model::Plan;
use half_plans::{Share, mixture_laws};
use pricing_rounds::{PricingCrew, desks_for};
use search_model::{Interruption, Items, Limits, Turn};
use search_tree::Sheet;
use std::alloc::{AllocError, Global};
use work_fan::Runtime;

/// The most turns that may be asked for: with the start plan they have 32 tours of a car, as many as a pool
/// holds.
pub const MOST_ROUNDS: u32 = 31;

/// The best prices and worths of turns at the root, and the cheapest plan in halves that their tours allow.
#[derive(Drop)]
pub struct RootAnswer {
    /// The prices and worths with the greatest sum.
    pub sheet: Sheet,
    /// Their sum in cost units, rounded up: no feasible plan costs less.
    pub bound: i128,
    pub turns: Items<Turn>,
    /// A pair plan, which is a mixture of the whole 2.
    pub shares: Items<Share>,
    /// What the shares cost, in cost units.
    pub cost: u64,
    pub why: RootReason,
}

/// What the turns answer. It fails only where there is no memory left.
fn answer(alloc: Global, kept: KeptTurns, limits: Limits) -> Result<RootAnswer, AllocError>
    requires kept { (first : PriceSheet)
        × AreKept kept.pool.snapshot limits.most_tours first kept }
    requires few { length kept.series.turns.items ≤ MOST_ROUNDS }
    ensures { IfOk result (λ a. (first : PriceSheet)
        → AreKept kept.entry.pool.snapshot limits.most_tours first kept.entry
        → IsRootAnswer kept.entry.pool.snapshot kept.entry.start.now first
        (length kept.entry.series.turns.items) limits.most_tours a) }
{
    mixture_laws();
    let _snapshot = kept.pool.snapshot();
    let car = spent_car(&kept.series.turns);
    let prices = kept.sheet.prices();
    let most_tours = limits.most_tours();
    let Halves {
        shares,
        cost,
        is_spent,
    } = find_halves(alloc, &kept.pool, prices, kept.start, most_tours)?;
    let KeptTurns { sheet, series, .. } = kept;
    let bound = sheet.bound();
    Ok(RootAnswer {
        sheet,
        bound,
        turns: Items::from_vec(series.turns),
        shares,
        cost,
        why: reason_of(bound, cost, car, is_spent, most_tours),
    })
}

/// Makes turns at the root from these prices, as many as the limits have rounds, with one worker, and
/// answers the best prices and worths of them, the cheapest plan in halves of their tours and the start
/// plan's, and whether the two meet: if so, no prices and worths at the root have a greater bound.
///
/// The limit of partial tours holds for each pricing, and for the partial pairings that the search for the
/// plan in halves tries. It fails only where there is no memory left, or where it was told to stop.
pub fn root_best<P: Pricer, C: PricingCrew<P>, G: Gate>(
    runtime: &Runtime<C, G>,
    snapshot: &Snapshot,
    pricer: &P,
    start: &Plan,
    sheet: Sheet,
    limits: Limits,
) -> Result<RootAnswer, Interruption>
    requires snapshot { P.snapshot pricer.now ≡ snapshot.now }
    requires start { IsFeasiblePlan snapshot.now start.now }
    requires sheet { IsSheetIn snapshot.now (root_of snapshot.now) sheet }
    requires rounds { limits.rounds ≤ MOST_ROUNDS }
    ensures answer { IfOk result
        (IsRootAnswer snapshot.now start.now sheet limits.rounds limits.most_tours) }
    ensures goes_on { G.never_stops runtime.now.gate.now
        → IsOkUnless result OutOfMemory }
{
    // For the proof: the reader says that the snapshot is accepted.
    let _calls = snapshot.calls();
    let node = root(runtime.alloc, snapshot)?;
    let mut desks = desks_for(runtime.alloc, pricer, 1)?;
    let mut kept = KeptTurns::new(runtime.alloc, snapshot, start, sheet)?;
    kept.run(runtime, pricer, &node, limits, &mut desks)?;
    let best = answer(runtime.alloc, kept, limits)?;
    Ok(best)
}
