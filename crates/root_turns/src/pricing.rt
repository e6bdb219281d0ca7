//! The pricings of one turn.

ghost use Rattle.std.specs.Prelude.{◌≡◌, IfOk, IsOkUnless};
ghost use Rattle.elevator_model.specs.Snapshot.{IsAccepted, car_count};
ghost use Rattle.search_model.specs.declared.interruptions.Interruption.TheVariants.{OutOfMemory};
ghost use Rattle.search_tree.specs.Answers.{AreAnswersIn};
ghost use Rattle.work_fan.specs.Work.{Serving};
ghost use Rattle.pricing_rounds.specs.Rounds.{IsTaskOf};

use assign_branch::Pricer;
use byte_streams::Gate;
use pricing_rounds::{PricingCrew, Task, price_nodes};
use search_model::{Interruption, Limits, Turn, TurnOf};
use std::alloc::{AllocError, Global};
use work_fan::Runtime;

/// How many partial tours each car's pricing tried in the turn; none where there is no turn. It fails only
/// where there is no memory left.
fn sizes_of(alloc: Global, turn: Option<&Turn>) -> Result<Vec<u64>, AllocError> {
    let mut sizes = Vec::new(alloc);
    if let Some(turn) = turn {
        for car in turn.cars.as_slice() {
            sizes.push(car.priced.visits)?;
        }
    }
    Ok(sizes)
}

/// The pricings of all cars in one node at these prices, by the runtime's crew. The last turn, if
/// there was one, only tells which pricings are drawn first. It fails only where there is no memory left, or
/// where it was told to stop.
pub(crate) fn price_turn<P: Pricer, C: PricingCrew<P>, G: Gate>(
    runtime: &Runtime<C, G>,
    pricer: &P,
    cars: u32,
    task: Task,
    last: Option<&Turn>,
    limits: Limits,
    desks: &mut [P::Desk],
) -> Result<Vec<TurnOf>, Interruption>
    requires accepted { IsAccepted (P.snapshot pricer.now) }
    requires cars { cars ≡ car_count (P.snapshot pricer.now) }
    requires task { IsTaskOf (P.snapshot pricer.now) task }
    requires desks { Serving (P.owns pricer.now) desks.old }
    ensures answers { IfOk result (λ answers. AreAnswersIn (P.snapshot pricer.now) limits.most_tours
        task.entry.node.now task.entry.prices.now answers.items) }
    ensures goes_on { G.never_stops runtime.now.gate.now
        → IsOkUnless result OutOfMemory }
    ensures desks { Serving (P.owns pricer.now) desks.new }
{
    let tasks = [task];
    let sizes = sizes_of(runtime.alloc, last)?;
    price_nodes(runtime, pricer, cars, &tasks, &sizes, limits, desks)
}
