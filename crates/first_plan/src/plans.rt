//! A first plan, and a plan with one call more.

ghost use Rattle.std.specs.Prelude.{◌<◌, ◌≤◌, ◌↔◌, List, IsTrue, IfOk, IfSome};
ghost use Rattle.elevator_model.specs.declared.Stop.{Stop};
ghost use Rattle.elevator_model.specs.Snapshot.{call_count};
ghost use Rattle.elevator_model.specs.Plans.{IsFeasiblePlan, plan_cost_of};

use crate::proposing::{proposal, with_call_put};
use byte_streams::{Gate, OpenGate};
use call_state::Snapshot;
use elevator_model::{MOST_CALLS, Plan};
use plain_plan::plan_of;
use std::alloc::{AllocError, Global};
use tour_cost::{is_feasible, plan_cost};

/// How many rounds of moving calls there are at most where nothing else is wanted.
pub const DEFAULT_ROUNDS: u32 = 8_000;

/// The proposed plan, if it is feasible and costs less than the plain plan, and else that one.
fn better_plan(snapshot: &Snapshot, plain: Plan, proposed: Option<Plan>) -> Plan
    requires { IsFeasiblePlan snapshot.now plain }
    ensures feasible { IsFeasiblePlan snapshot.now result }
    ensures plain { plan_cost_of snapshot.now result ≤ plan_cost_of snapshot.now plain }
    ensures proposed { IfSome proposed (λ plan. IsFeasiblePlan snapshot.now plan
        → plan_cost_of snapshot.now result ≤ plan_cost_of snapshot.now plan) }
{
    if let Some(proposed) = proposed {
        if is_feasible(snapshot, &proposed) {
            if plan_cost(snapshot, &proposed) < plan_cost(snapshot, &plain) {
                return proposed;
            }
        }
    }
    plain
}

/// A feasible plan, after at most this many rounds of moving calls.
fn feasible_plan<G: Gate>(
    alloc: Global,
    snapshot: &Snapshot,
    rounds: u32,
    gate: &G,
) -> Result<Plan, AllocError>
    ensures { IfOk result (λ plan. IsFeasiblePlan snapshot.now plan) }
{
    let plain = plan_of(alloc, snapshot)?;
    let proposed = proposal(alloc, snapshot, rounds, gate)?;
    Ok(better_plan(snapshot, plain, proposed))
}

/// A feasible plan of the snapshot: every accepted snapshot has one. The only error is that memory runs out.
///
/// It is made by putting the calls one after another where the cost rises least, and then taking calls out
/// and putting them back, some at a time: for 100 rounds a call, as many as `rounds` at most, and as long
/// as the gate lets the work go on, which is asked before each round. Where that fails, each car serves its
/// calls one after another.
pub fn first<G: Gate>(
    alloc: Global,
    snapshot: &Snapshot,
    rounds: u32,
    gate: &G,
) -> Result<Plan, AllocError>
    ensures feasible { IfOk result (λ plan. IsFeasiblePlan snapshot.now plan) }
    ensures exists { (plan : List (List Stop)) × IsFeasiblePlan snapshot.now plan }
{
    prove!(snapshot.calls().len() <= MOST_CALLS);
    feasible_plan(alloc, snapshot, rounds, gate)
}

/// A feasible plan of the snapshot, made from a plan that lacks this call. The only error is that memory runs
/// out.
///
/// The call is put where the cost rises least, if the given plan with it is feasible; else the plan is made
/// anew. Only that the plan is feasible is promised, nothing of its cost or of what it keeps of the given
/// one.
pub fn insert(
    alloc: Global,
    snapshot: &Snapshot,
    plan: &Plan,
    call: u32,
) -> Result<Plan, AllocError>
    requires { call < call_count snapshot.now }
    ensures { IfOk result (λ plan. IsFeasiblePlan snapshot.now plan) }
{
    if let Some(longer) = with_call_put(alloc, snapshot, plan, call)? {
        if is_feasible(snapshot, &longer) {
            return Ok(longer);
        }
    }
    feasible_plan(alloc, snapshot, DEFAULT_ROUNDS, &OpenGate)
}
