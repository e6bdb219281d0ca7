//! The claims of many leaves, which workers share.

ghost use Rattle.std.specs.Prelude.{◌≡◌, ◌+◌, ◌≤◌, ◌<◌, ◌^◌, ◌*◌, All, IfOk, List, ℕ, []};
ghost use Rattle.std.specs.Prelude.{drop, length, map, option_map, take};
ghost use Rattle.elevator_model.specs.Snapshot.{Snapshot as SnapshotValue};
ghost use Rattle.cert_claims.specs.Leaves.{AreAllWithin, AreAnswers, HasTaken, IsProvedTask, LeafAt, leaf_at};

use crate::crews::CountingCrew;
use crate::leaves::{Claims, claims_within};
use crate::tasks::Task;
use byte_streams::Gate;
use call_state::Snapshot;
use kept_tours::{Desk, desks_for};
use std::alloc::{AllocError, Global};
use work_fan::{Jobs, MOST_WORKERS, Runtime};

/// How many leaves are shared out at a time, for each worker.
const LEAVES_A_WORKER: usize = 4;

/// Leaves: job `k` is to find the claims of that of task `k`.
#[derive(Drop)]
pub struct Counting<'a> {
    snapshot: &'a Snapshot,
    tasks: &'a [Task<'a>],
    /// How far the claims of one leaf may go beyond 1.
    spare: u64,
    ghost few: { length tasks.now ≤ 64 },
    ghost small: { spare < 2 ^ 63 },
    ghost are_proved: { All (IsProvedTask snapshot.now) tasks.now },
}

impl<'a> Jobs for Counting<'a> {
    ghost use Rattle.std.specs.Prelude.{◌≡◌, length, slice_get, Some};
    ghost use Rattle.cert_claims.specs.declared.tasks.Task.{Task as TaskValue};
    ghost use Rattle.cert_claims.specs.Leaves.{AreClaimsWithin, leaf_at};

    type Desk = Desk<'a>;

    type Answer = Option<Claims>;

    ghost number = { λ it. length it.tasks.now };

    ghost serves = { λ it desk. desk.snapshot.now ≡ it.snapshot.now };

    ghost is_right = { λ it k answer. (task : TaskValue) → slice_get it.tasks.now k ≡ Some task
        → AreClaimsWithin it.snapshot.now it.spare (leaf_at task) answer };

    // It is done whether or not the work may go on: no search is in it that could be stopped.
    ghost is_done = { λ _ _. Unit {0} };

    fn count(&self) -> u32 {
        self.tasks.len() as u32
    }

    fn work(
        &self,
        k: u32,
        _may_go_on: bool,
        desk: &mut Desk<'a>,
    ) -> Result<Option<Claims>, AllocError> {
        let task = &self.tasks[k as usize];
        Ok(claims_within(&task.node, task.leaf, self.spare, desk))
    }
}

/// The claims of the first leaves, and how far those of the others may go beyond 1.
#[derive(Drop)]
struct ClaimsSoFar {
    claims: Vec<Claims>,
    spare: u64,
}

impl ClaimsSoFar {
    /// Takes the answers of the next leaves: false where their claims go further beyond 1 than is spare.
    ///
    /// It fails only where there is no memory left.
    fn take(&mut self, answers: &[Option<Claims>]) -> Result<bool, AllocError>
        ensures { IfOk result (λ fits. (s : SnapshotValue) (leaves : List LeafAt)
            → AreAnswers s self.old.spare leaves answers.now → HasTaken s leaves self.old self.new fits) }
    {
        for answer in answers {
            let Some(claims) = answer else {
                return Ok(false);
            };
            if claims.extra > self.spare {
                return Ok(false);
            }
            self.spare -= claims.extra;
            self.claims.push(*claims)?;
        }
        Ok(true)
    }
}

/// Finds the claims of the next leaves and takes them: false where they go further beyond 1 than is spare.
///
/// It fails only where there is no memory left.
fn count_some<'a, C: CountingCrew, G: Gate>(
    runtime: &Runtime<C, G>,
    snapshot: &'a Snapshot,
    tasks: &'a [Task<'a>],
    desks: &mut [Desk<'a>],
    tally: &mut ClaimsSoFar,
) -> Result<bool, AllocError>
    requires few { length tasks.now ≤ 64 }
    requires small { tally.old.spare < 2 ^ 63 }
    requires tasks { All (IsProvedTask snapshot.now) tasks.now }
    requires workers { (1 ≤ length desks.old) × (length desks.old ≤ MOST_WORKERS) }
    requires desks { All (λ desk. desk.snapshot.now ≡ snapshot.now) desks.old }
    ensures taken { IfOk result (HasTaken snapshot.now (map leaf_at tasks.now) tally.old tally.new) }
    ensures count { length desks.new ≡ length desks.old }
    ensures desks { All (λ desk. desk.snapshot.now ≡ snapshot.now) desks.new }
{
    let counting = Counting {
        snapshot,
        tasks,
        spare: tally.spare,
    };
    let answers = runtime.crew.count_all(runtime.alloc, &counting, desks)?;
    tally.take(answers.as_slice())
}

/// The next tasks after the first ones: this many, or all where fewer are left.
fn next_tasks<'t, 'a>(tasks: &'t [Task<'a>], done: usize, step: usize) -> &'t [Task<'a>]
    requires done { done ≤ length tasks.now }
    requires step { done + step < 2 ^ 64 }
    ensures { result.now ≡ take step (drop done tasks.now) }
{
    &tasks[done..tasks.len().min(done + step)]
}

/// Finds the claims of all leaves and takes them: false where they go further beyond 1 than is spare.
///
/// It fails only where there is no memory left.
fn count_all<'a, C: CountingCrew, G: Gate>(
    runtime: &Runtime<C, G>,
    snapshot: &'a Snapshot,
    tasks: &'a [Task<'a>],
    desks: &mut [Desk<'a>],
    tally: &mut ClaimsSoFar,
) -> Result<bool, AllocError>
    requires small { tally.old.spare < 2 ^ 63 }
    requires none { tally.old.claims.items ≡ [] }
    requires tasks { All (IsProvedTask snapshot.now) tasks.now }
    requires workers { (1 ≤ length desks.old) × (length desks.old ≤ MOST_WORKERS) }
    requires desks { All (λ desk. desk.snapshot.now ≡ snapshot.now) desks.old }
    ensures { IfOk result (HasTaken snapshot.now (map leaf_at tasks.now) tally.old tally.new) }
{
    let step = LEAVES_A_WORKER * desks.len();
    while tally.claims.len() < tasks.len() {
        let some = next_tasks(tasks, tally.claims.len(), step);
        if !count_some(runtime, snapshot, some, desks, tally)? {
            return Ok(false);
        }
    }
    Ok(true)
}

/// The claims that are due at these leaves: None where they go further beyond 1, in all, than is spare.
///
/// The runtime's crew finds them. It fails only where there is no memory left.
pub(crate) fn claims_of_all<'a, C: CountingCrew, G: Gate>(
    runtime: &Runtime<C, G>,
    snapshot: &'a Snapshot,
    tasks: &'a [Task<'a>],
    spare: u64,
) -> Result<Option<Vec<Claims>>, AllocError>
    requires small { spare < 2 ^ 63 }
    requires tasks { All (IsProvedTask snapshot.now) tasks.now }
    ensures { IfOk result (λ found. AreAllWithin snapshot.now spare (map leaf_at tasks.now)
        (option_map (λ claims. claims.items) found)) }
{
    let mut desks = desks_for(runtime.alloc, snapshot, runtime.workers.count())?;
    let mut tally = ClaimsSoFar {
        claims: Vec::new(runtime.alloc),
        spare,
    };
    if count_all(runtime, snapshot, tasks, desks.as_mut_slice(), &mut tally)? {
        Ok(Some(tally.claims))
    } else {
        Ok(None)
    }
}
