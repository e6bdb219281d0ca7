//! What first plans cost, and how much more than the cheapest ones.

ghost use Rattle.std.specs.Prelude.{◌≤◌};

use crate::kinds::{KINDS, Kind, drawn_snapshot};
use byte_streams::OpenGate;
use call_state::Snapshot;
use case_maker::make;
use first_plan::{DEFAULT_ROUNDS, first};
use plain_solver::cheapest_plan;
use search_model::Draws;
use std::alloc::{AllocError, Global};
use std::io;
use tour_cost::plan_cost;

/// What the draws of the first kind begin with; each later kind begins one higher.
const SEED: u64 = 20_261_127;

/// How often a snapshot is drawn until one is accepted.
const MOST_DRAWS: u32 = 20;

/// The generated cases of these sizes with the numbers from 1 to `count`, and how many rounds of moving calls
/// their first plans have at most.
#[derive(Clone, Copy)]
pub(crate) struct Cases {
    pub(crate) floors: u32,
    pub(crate) cars: u32,
    pub(crate) calls: u32,
    pub(crate) count: u32,
    pub(crate) rounds: u32,
}

/// What the first plan of a snapshot costs after at most this many rounds, in cost units.
fn first_cost(alloc: Global, snapshot: &Snapshot, rounds: u32) -> Result<u64, AllocError> {
    let plan = first(alloc, snapshot, rounds, &OpenGate)?;
    Ok(plan_cost(snapshot, &plan))
}

/// What a cheapest plan costs.
fn cheapest_cost(alloc: Global, snapshot: &Snapshot) -> Result<u64, AllocError> {
    Ok(cheapest_plan(alloc, snapshot)?.cost)
}

/// What the first plan of a generated case costs.
fn case_cost(alloc: Global, number: u32, cases: Cases) -> Result<u64, AllocError>
    requires floors { (2 ≤ cases.floors) × (cases.floors ≤ 64) }
    requires cars { (1 ≤ cases.cars) × (cases.cars ≤ 8) }
    requires calls { cases.calls ≤ 64 }
{
    let snapshot = make(
        alloc,
        u64::from(number),
        cases.floors,
        cases.cars,
        cases.calls,
    )?;
    let cost = first_cost(alloc, &snapshot, cases.rounds);
    drop(snapshot);
    cost
}

/// Prints a line for each case: floors, cars, calls, number, and what its first plan costs. False where there
/// are no cases of these sizes.
pub(crate) fn print_costs(rt: &HostRuntime, cases: Cases) -> io::Result<bool> {
    let Cases {
        floors,
        cars,
        calls,
        count,
        ..
    } = cases;
    if floors < 2 || floors > 64 || cars < 1 || cars > 8 || calls > 64 {
        return Ok(false);
    }
    for number in 1..=count {
        let cost = case_cost(rt.alloc(), number, cases)?;
        println!(rt; "{floors} {cars} {calls} {number} {cost}")?;
    }
    Ok(true)
}

/// The comparisons of one kind's snapshots.
#[derive(Clone, Copy, Default)]
struct Score {
    /// How many snapshots were compared.
    made: u64,
    /// How many were skipped, since none of the draws was accepted.
    skipped: u64,
    /// For how many the first plan is as cheap as the cheapest.
    equal: u64,
    /// The greatest excess, in thousandths of the cheapest plan's cost, and 0 where that is 0.
    worst: u64,
    /// The sum of the excesses, in thousandths.
    total: u64,
}

impl Score {
    /// Counts a snapshot whose plans have these costs.
    fn add(&mut self, first: u64, cheapest: u64) {
        let excess = first.saturating_sub(cheapest).saturating_mul(1000);
        let excess = excess.checked_div(cheapest).unwrap_or(0);
        self.made = self.made.saturating_add(1);
        self.equal = self.equal.saturating_add(u64::from(first == cheapest));
        self.worst = self.worst.max(excess);
        self.total = self.total.saturating_add(excess);
    }
}

/// Counts a snapshot in the score. False when out of memory.
fn compare(alloc: Global, snapshot: &Snapshot, score: &mut Score) -> bool {
    let first = first_cost(alloc, snapshot, DEFAULT_ROUNDS);
    match (first, cheapest_cost(alloc, snapshot)) {
        (Ok(first), Ok(cheapest)) => {
            score.add(first, cheapest);
            true
        }
        _ => false,
    }
}

/// Draws a snapshot of this kind and counts it in the score. False where it is refused, or memory runs out.
fn compare_next(alloc: Global, kind: &Kind, draws: &mut Draws, score: &mut Score) -> bool {
    match drawn_snapshot(alloc, kind, draws) {
        Some(snapshot) => {
            let is_counted = compare(alloc, &snapshot, score);
            drop(snapshot);
            is_counted
        }
        None => false,
    }
}

/// Counts the first of 20 snapshots of this kind that is accepted, or counts that none is.
fn compare_first(alloc: Global, kind: &Kind, draws: &mut Draws, score: &mut Score) {
    for _ in 0..MOST_DRAWS {
        if compare_next(alloc, kind, draws, score) {
            return;
        }
    }
    score.skipped = score.skipped.saturating_add(1);
}

/// Compares the plans of this many snapshots of this kind. Each is compared or skipped.
fn score_of(alloc: Global, kind: &Kind, seed: u64, count: u32) -> Score {
    let mut draws = Draws::from_number(seed);
    let mut score = Score::default();
    for _ in 0..count {
        compare_first(alloc, kind, &mut draws, &mut score);
    }
    score
}

/// Compares the plans of this many snapshots of each kind, and prints a line for each.
pub(crate) fn print_kinds(rt: &HostRuntime, count: u32) -> io::Result<bool> {
    for (place, kind) in KINDS.iter().enumerate() {
        let score = score_of(rt.alloc(), kind, SEED.wrapping_add(place as u64), count);
        println!(rt;
            "{} made {} equal {} excess_permille_worst {} excess_permille_mean {}",
            kind.name,
            score.made,
            score.equal,
            score.worst,
            score.total / score.made.max(1)
        )?;
        if score.skipped != 0 {
            eprintln!(rt; "{} skipped {}", kind.name, score.skipped)?;
        }
    }
    Ok(true)
}
