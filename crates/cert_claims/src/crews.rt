//! Who finds the claims of leaves.

ghost use Rattle.std.specs.Prelude.{◌≡◌, ℕ, All, IfOk, Option, Some, length, slice_get};
ghost use Rattle.work_fan.specs.Work.{Serving};
ghost use Rattle.cert_claims.specs.declared.tasks.Task.{Task as TaskValue};
ghost use Rattle.cert_claims.specs.Leaves.{AreClaimsWithin, leaf_at};

use crate::counting::Counting;
use crate::leaves::Claims;
use byte_streams::OpenGate;
use kept_tours::Desk;
use std::alloc::{AllocError, Global};
use work_fan::{Alone, fan_alone};

/// Who finds the claims of leaves.
pub trait CountingCrew {
    /// Finds the claims of all leaves of a count, at 1 to 16 desks of its snapshot: in place `k` stand those of
    /// the leaf of task `k`. The desks are the snapshot's afterwards too, also where memory ran out. It fails
    /// only where there is no memory left.
    fn count_all<'a>(
        &self,
        alloc: Global,
        counting: &Counting<'a>,
        desks: &mut [Desk<'a>],
    ) -> Result<Vec<Option<Claims>>, AllocError>
        requires { Serving (λ desk. desk.snapshot.now ≡ counting.now.snapshot.now) desks.old }
        ensures count { IfOk result (λ answers. length answers.items ≡ length counting.now.tasks.now) }
        ensures right { IfOk result (λ answers. (k : ℕ) → (answer : Option Claims)
            → slice_get answers.items k ≡ Some answer
            → (task : TaskValue) → slice_get counting.now.tasks.now k ≡ Some task
            → AreClaimsWithin counting.now.snapshot.now counting.now.spare (leaf_at task) answer) }
        ensures desks { All (λ desk. desk.snapshot.now ≡ counting.now.snapshot.now) desks.new };
}

impl CountingCrew for Alone {
    fn count_all<'a>(
        &self,
        alloc: Global,
        counting: &Counting<'a>,
        desks: &mut [Desk<'a>],
    ) -> Result<Vec<Option<Claims>>, AllocError> {
        fan_alone(alloc, counting, desks, &OpenGate)
    }
}
