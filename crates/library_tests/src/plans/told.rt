//! Searches that are told to stop.

use crate::plans::cases::FOUR_CALLS;
use byte_streams::Gate;
use call_state::Snapshot;
use case_kit::{is_so_of, snapshot_in};
use first_plan::{DEFAULT_ROUNDS, first};
use plain_solver::cheapest_plan;
use search_model::{Limits, StopReason};
use snapshot_solver::{Found, solve_from};
use std::alloc::{AllocError, Global};
use std::sync::atomic::{AtomicU32, Ordering};
use tour_cost::{is_feasible, plan_cost};
use work_fan::{Alone, Runtime, Workers};

/// More questions than any search of these tests asks.
const ENOUGH: u32 = 1_000_000;

/// A gate that answers yes to its first questions, and no from then on.
#[derive(Drop)]
struct Until {
    /// How many questions it still answers by yes.
    left: AtomicU32,
}

impl Until {
    /// A gate that answers this many questions by yes.
    fn new(asked: u32) -> Until {
        Until {
            left: AtomicU32::new(asked),
        }
    }

    /// How many questions were answered by yes, of this many that were to be.
    fn said_yes(&self, asked: u32) -> u32 {
        asked.saturating_sub(self.left.load(Ordering::Relaxed))
    }
}

impl Gate for Until {
    ghost never_stops = { λ _. ⊥ };

    fn enter(&self, _job: u32) {}

    fn may_go_on(&self) -> bool {
        let left = self.left.load(Ordering::Relaxed);
        self.left.store(left.saturating_sub(1), Ordering::Relaxed);
        left > 0
    }
}

/// What a search under the gate answers, by the calling thread alone.
fn found_within(
    alloc: Global,
    snapshot: &Snapshot,
    limits: Limits,
    gate: &Until,
) -> Result<Found, AllocError> {
    let runtime = Runtime {
        crew: &Alone,
        workers: Workers::one(),
        alloc,
        gate,
    };
    let start = first(alloc, snapshot, DEFAULT_ROUNDS, gate)?;
    solve_from(&runtime, snapshot, start, limits)
}

/// Whether a search was told to stop.
fn is_told(found: &Found) -> bool {
    matches!(found.why, StopReason::Told)
}

/// Whether the plan is feasible with its cost, and the least cost lies between bound and cost.
fn is_true(snapshot: &Snapshot, found: &Found, least: u64) -> bool {
    is_feasible(snapshot, &found.stated.plan)
        && plan_cost(snapshot, &found.stated.plan) == found.stated.cost
        && found.stated.bound <= least
        && least <= found.stated.cost
}

/// How many turns the root had in a search whose first `asked` questions were answered by yes; None where
/// its answer is not true, or where it was told to stop and says that it was not, or the other way round.
fn turns_within(alloc: Global, snapshot: &Snapshot, asked: u32, least: u64) -> Option<usize> {
    let limits = Limits::new(2000, 75_000)?;
    let gate = Until::new(asked);
    let found = found_within(alloc, snapshot, limits, &gate).ok()?;
    let ran_out = gate.said_yes(asked) == asked;
    let is_right = is_true(snapshot, &found, least)
        && (ran_out || !is_told(&found))
        && (is_told(&found) || found.stated.bound == found.stated.cost);
    let turns = found.turns.as_slice().len();
    is_right.then_some(turns)
}

/// How often a start plan of the snapshot asks.
fn asked_by_start(alloc: Global, snapshot: &Snapshot, rounds: u32) -> Option<u32> {
    let gate = Until::new(ENOUGH);
    let plan = first(alloc, snapshot, rounds, &gate).ok()?;
    is_feasible(snapshot, &plan).then_some(gate.said_yes(ENOUGH))
}

/// Whether the start plan asks before each of its rounds, of which there are 100 a call and no more than is
/// said.
fn start_asks(alloc: Global, snapshot: &Snapshot) -> bool {
    asked_by_start(alloc, snapshot, 1000) == Some(400)
        && asked_by_start(alloc, snapshot, 37) == Some(37)
        && asked_by_start(alloc, snapshot, 0) == Some(0)
}

#[test]
fn a_start_plan_asks_before_each_round(rt: HostRuntime) {
    let alloc = rt.alloc();
    let snapshot = snapshot_in(alloc, FOUR_CALLS.as_bytes());
    assert!(rt; is_so_of(snapshot, &|snapshot: &Snapshot| start_asks(alloc, snapshot)));
}

/// Whether the search is told in its first turn where the start plan's questions are all that is answered, or
/// the round's and those of some jobs, and goes on by a turn for the round's and a job's of each car.
fn is_told_at_each_job(alloc: Global, snapshot: &Snapshot, least: u64) -> bool {
    turns_within(alloc, snapshot, 0, least) == Some(0)
        && turns_within(alloc, snapshot, 400, least) == Some(0)
        && turns_within(alloc, snapshot, 401, least) == Some(0)
        && turns_within(alloc, snapshot, 403, least) == Some(0)
        && turns_within(alloc, snapshot, 404, least) == Some(1)
        && turns_within(alloc, snapshot, 407, least) == Some(1)
}

/// Whether searches tell the truth whose first 390, 393, 396 .. questions were answered by yes, and none
/// has fewer turns than one before it.
fn are_true(alloc: Global, snapshot: &Snapshot, least: u64) -> bool {
    let mut most = 0;
    for step in 0..200 {
        match turns_within(alloc, snapshot, 390 + 3 * step, least) {
            Some(turns) if turns >= most => most = turns,
            _ => return false,
        }
    }
    turns_within(alloc, snapshot, ENOUGH, least) == Some(most)
}

/// What the cheapest plan costs.
fn least_cost(alloc: Global, snapshot: &Snapshot) -> Option<u64> {
    Some(cheapest_plan(alloc, snapshot).ok()?.cost)
}

#[test]
fn a_search_is_told_before_each_round_and_each_job(rt: HostRuntime) {
    let alloc = rt.alloc();
    let snapshot = snapshot_in(alloc, FOUR_CALLS.as_bytes());
    assert!(rt;
        is_so_of(
            snapshot,
            &|snapshot: &Snapshot| {
                match least_cost(alloc, snapshot) {
                    Some(least) => is_told_at_each_job(alloc, snapshot, least),
                    None => false,
                }
            }
        )
    );
}

#[test]
fn a_search_that_is_told_to_stop_tells_the_truth(rt: HostRuntime) {
    let alloc = rt.alloc();
    let snapshot = snapshot_in(alloc, FOUR_CALLS.as_bytes());
    assert!(rt;
        is_so_of(
            snapshot,
            &|snapshot: &Snapshot| {
                match least_cost(alloc, snapshot) {
                    Some(least) => are_true(alloc, snapshot, least),
                    None => false,
                }
            }
        )
    );
}
