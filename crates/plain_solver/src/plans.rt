//! The cheapest plan of a snapshot.

ghost use Rattle.std.specs.Prelude.{◌≡◌, ◌≤◌, length, IfOk};
ghost use Rattle.elevator_model.specs.Snapshot.{IsAccepted};
ghost use Rattle.elevator_model.specs.Plans.{IsOptimal, plan_cost_of};
ghost use Rattle.plain_solver.specs.Rests.{AreChoicesFrom};

use crate::choices::{Choices, cheapest_rest};
use call_sets::CallSet;
use call_state::Snapshot;
use elevator_model::{MOST_CARS, Plan};
use std::alloc::{AllocError, Global};

/// An optimal plan and its cost.
#[derive(Drop)]
pub struct Cheapest {
    pub plan: Plan,
    /// In cost units.
    pub cost: u64,
}

/// The cheapest plan of a snapshot. The only error is that memory runs out: every snapshot has a feasible
/// plan.
///
/// It tries every choice of one feasible tour for each car: this is for a few calls only.
pub fn cheapest_plan(alloc: Global, snapshot: &Snapshot) -> Result<Cheapest, AllocError>
    ensures optimal { IfOk result (λ cheapest. IsOptimal snapshot.now cheapest.plan) }
    ensures cost { IfOk result
        (λ cheapest. cheapest.cost ≡ plan_cost_of snapshot.now cheapest.plan) }
{
    let choices = all_choices(alloc, snapshot)?;
    let cheapest = cheapest_rest(alloc, snapshot, choices.as_slice(), 0, CallSet::empty())?;
    let Some(cheapest) = cheapest else {
        unreachable!()
    };
    Ok(Cheapest {
        cost: cheapest.cost(),
        plan: Plan::from_vec(cheapest.into_tours()),
    })
}

/// The choices of each car.
fn all_choices(alloc: Global, snapshot: &Snapshot) -> Result<Vec<Choices>, AllocError>
    ensures choices { IfOk result (λ choices. AreChoicesFrom snapshot.now 0 choices.items) }
    ensures few { IfOk result (λ choices. length choices.items ≤ MOST_CARS) }
    ensures accepted { IsAccepted snapshot.now }
{
    let mut choices = Vec::new(alloc);
    for car in 0..snapshot.building().cars().len() {
        choices.push(Choices::new(alloc, snapshot, car as u32)?)?;
    }
    Ok(choices)
}
