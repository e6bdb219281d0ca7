//! The leaves of a piece, judged by workers.

ghost use Rattle.std.specs.Prelude.{◌≡◌, ◌<◌, ◌≤◌, ◌^◌, All, IfOk, length};
ghost use Rattle.elevator_model.specs.Snapshot.{Snapshot as SnapshotValue};
ghost use Rattle.cert_checker.specs.Judging.{IsTask, first_some, reason_of_tasks};

use crate::crews::JudgingCrew;
use crate::leaves::judge_leaf;
use crate::tasks::Task;
use byte_streams::Gate;
use call_state::Snapshot;
use kept_tours::{Desk, desks_for};
use search_model::Reason;
use std::alloc::{AllocError, Global};
use work_fan::{Jobs, Runtime};

/// The leaves of a piece: job `k` is to judge that of task `k`.
#[derive(Drop)]
pub struct Judging<'a> {
    snapshot: &'a Snapshot,
    bound: u64,
    tasks: &'a [Task<'a>],
    alloc: Global,
    ghost few: { length tasks.now < 2 ^ 32 },
    ghost are_tasks: { All (IsTask snapshot.now) tasks.now },
}

impl<'a> Jobs for Judging<'a> {
    ghost use Rattle.std.specs.Prelude.{◌≡◌, length, slice_get, Some};
    ghost use Rattle.cert_checker.specs.declared.tasks.Task.{Task as TaskValue};
    ghost use Rattle.cert_checker.specs.Judging.{reason_of_task};

    type Desk = Desk<'a>;

    type Answer = Option<Reason>;

    ghost number = { λ it. length it.tasks.now };

    ghost serves = { λ it desk. desk.snapshot.now ≡ it.snapshot.now };

    ghost is_right = { λ it k answer. (task : TaskValue) → slice_get it.tasks.now k ≡ Some task
        → answer ≡ reason_of_task it.snapshot.now it.bound task };

    // It is done whether or not the work may go on: no search is in it that could be stopped.
    ghost is_done = { λ _ _. Unit {0} };

    fn count(&self) -> u32 {
        self.tasks.len() as u32
    }

    fn work(
        &self,
        k: u32,
        _may_go_on: bool,
        desk: &mut Desk<'a>,
    ) -> Result<Option<Reason>, AllocError> {
        let task = &self.tasks[k as usize];
        judge_leaf(
            self.alloc,
            self.bound,
            task.number,
            &task.node,
            task.leaf,
            desk,
        )
    }
}

/// The first reason among answers.
fn first_of(mut answers: Vec<Option<Reason>>) -> Option<Reason>
    ensures { result ≡ first_some answers.items }
{
    let mut first = None;
    while let Some(answer) = answers.pop() {
        first = answer.or(first);
    }
    first
}

/// The first reason of the leaves, which the runtime's crew judges.
///
/// It fails only where there is no memory left.
pub(crate) fn judge_tasks<C: JudgingCrew, G: Gate>(
    runtime: &Runtime<C, G>,
    snapshot: &Snapshot,
    bound: u64,
    tasks: &[Task],
) -> Result<Option<Reason>, AllocError>
    requires few { length tasks.now < 2 ^ 32 }
    requires tasks { All (IsTask snapshot.now) tasks.now }
    ensures { IfOk result (λ reason. reason ≡ reason_of_tasks snapshot.now bound tasks.now) }
{
    if tasks.is_empty() {
        return Ok(None);
    }
    let judging = Judging {
        snapshot,
        bound,
        tasks,
        alloc: runtime.alloc,
    };
    let mut desks = desks_for(runtime.alloc, snapshot, runtime.workers.count())?;
    let answers = runtime
        .crew
        .judge_all(runtime.alloc, &judging, desks.as_mut_slice())?;
    Ok(first_of(answers))
}
