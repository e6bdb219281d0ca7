//! Who judges leaves.

ghost use Rattle.std.specs.Prelude.{◌≡◌, ℕ, All, IfOk, Option, Some, length, slice_get};
ghost use Rattle.work_fan.specs.Work.{Serving};
ghost use Rattle.cert_checker.specs.declared.tasks.Task.{Task as TaskValue};
ghost use Rattle.cert_checker.specs.Judging.{reason_of_task};

use crate::judging::Judging;
use byte_streams::OpenGate;
use kept_tours::Desk;
use search_model::Reason;
use std::alloc::{AllocError, Global};
use work_fan::{Alone, fan_alone};

/// Who judges the leaves of a certificate.
pub trait JudgingCrew {
    /// Judges all leaves of a piece, at 1 to 16 desks of its snapshot: in place `k` stands the reason to say no,
    /// if any, of the leaf of task `k`. The desks are the snapshot's afterwards too, also where memory ran out.
    /// It fails only where there is no memory left.
    fn judge_all<'a>(
        &self,
        alloc: Global,
        judging: &Judging<'a>,
        desks: &mut [Desk<'a>],
    ) -> Result<Vec<Option<Reason>>, AllocError>
        requires { Serving (λ desk. desk.snapshot.now ≡ judging.now.snapshot.now) desks.old }
        ensures count { IfOk result (λ answers. length answers.items ≡ length judging.now.tasks.now) }
        ensures right { IfOk result (λ answers. (k : ℕ) → (answer : Option Reason)
            → slice_get answers.items k ≡ Some answer
            → (task : TaskValue) → slice_get judging.now.tasks.now k ≡ Some task
            → answer ≡ reason_of_task judging.now.snapshot.now judging.now.bound task) }
        ensures desks { All (λ desk. desk.snapshot.now ≡ judging.now.snapshot.now) desks.new };
}

impl JudgingCrew for Alone {
    fn judge_all<'a>(
        &self,
        alloc: Global,
        judging: &Judging<'a>,
        desks: &mut [Desk<'a>],
    ) -> Result<Vec<Option<Reason>>, AllocError> {
        fan_alone(alloc, judging, desks, &OpenGate)
    }
}
