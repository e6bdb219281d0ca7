//! By what a day is planned.

ghost use Rattle.std.specs.Prelude.{◌≡◌, ◌++◌, ℕ, List, IfOk};
ghost use Rattle.std.specs.Io.{appended_bytes};
ghost use Rattle.elevator_model.specs.Snapshot.{Snapshot as SnapshotValue};
ghost use Rattle.elevator_model.specs.declared.Stop.{Stop};
ghost use Rattle.search_model.specs.declared.Stated.{Stated as StatedValue};

use call_state::Snapshot;
use elevator_model::Plan;
use search_model::Stated;
use std::alloc::AllocError;

/// What plans the rows of days.
pub trait Planner {
    /// The plan with its cost and bound is right for the snapshot and the plan that held before, with what a
    /// log says in their place.
    ghost right: { Self → SnapshotValue → (held : List (List Stop)) → StatedValue → List ℕ → Type 0 };

    /// A plan of the snapshot, whose last call is the new one. `held` is what is left of the plan that held
    /// before that call came: its stops name the other calls by the same indexes. What a log says in place of
    /// cost, bound and plan is appended to it, if anything is to stand there. It fails only where there is no
    /// memory left: then a beginning of that may stand there.
    fn plan(
        &self,
        snapshot: &Snapshot,
        held: &Plan,
        log: &mut Vec<u8>,
    ) -> Result<Stated, AllocError>
        ensures planned { IfOk result (λ stated. right self.now snapshot.now held.now stated
            (appended_bytes log.old.items log.new.items)) }
        ensures kept { log.new.items ≡ log.old.items ++ appended_bytes log.old.items log.new.items };
}
