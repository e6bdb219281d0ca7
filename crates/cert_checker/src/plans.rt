//! A stated plan and its cost, judged.

ghost use Rattle.std.specs.Prelude.{◌≡◌, length};
ghost use Rattle.elevator_model.specs.Plans.{first_bad, first_of};
ghost use Rattle.elevator_model.specs.Snapshot.{car_count};
ghost use Rattle.search_model.specs.Verdicts.{reason_of_cost, reason_of_plan};

use call_state::Snapshot;
use search_model::{Reason, Stated};
use tour_cost::{judge_plan, plan_cost};

/// Why the plan is not feasible, or does not have the stated cost: None where it is and does.
pub(crate) fn judge_stated(snapshot: &Snapshot, stated: &Stated) -> Option<Reason>
    requires { length stated.now.plan ≡ car_count snapshot.now }
    ensures { result ≡ first_of (reason_of_plan (first_bad snapshot.now stated.now.plan))
        (reason_of_cost snapshot.now stated.now.plan stated.now.cost) }
{
    if let Err(bad) = judge_plan(snapshot, &stated.plan) {
        return Some(Reason::Plan(bad));
    }
    let actual = plan_cost(snapshot, &stated.plan);
    if actual == stated.cost {
        None
    } else {
        Some(Reason::Cost {
            stated: stated.cost,
            actual,
        })
    }
}
