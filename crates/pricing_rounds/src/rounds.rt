//! A round of pricings, shared by workers.

ghost use Rattle.std.specs.Prelude.{◌≡◌, ◌*◌, ◌≤◌, All, IfOk, IsOkUnless, length};
ghost use Rattle.elevator_model.specs.Snapshot.{IsAccepted, car_count};
ghost use Rattle.search_model.specs.declared.interruptions.Interruption.TheVariants.{OutOfMemory};
ghost use Rattle.work_fan.specs.Work.{Serving};
ghost use Rattle.pricing_rounds.specs.Rounds.{AreAnswersOf, IsRound, IsTaskOf};

use crate::crews::PricingCrew;
use crate::drawing::{drawing_order, in_places};
use crate::stopping::all_done;
use crate::tasks::Task;
use assign_branch::Pricer;
use byte_streams::{Gate, Progress};
use search_model::{Interruption, Limits, TurnOf};
use std::alloc::{AllocError, Global};
use work_fan::{Jobs, Runtime};

/// The pricings of every car at each of the nodes: pricing `p` is that of car `p % cars` at the node of
/// task `p / cars`, and job `k` is pricing `order[k]`.
#[derive(Drop)]
pub struct Round<'a, P: Pricer> {
    pricer: &'a P,
    tasks: &'a [Task<'a>],
    cars: u32,
    /// How many partial tours each pricing may try.
    limits: Limits,
    order: &'a [u32],
    alloc: Global,
    ghost is_round: { IsRound (P.snapshot pricer.now) tasks.now cars order.now },
}

impl<'a, P: Pricer> Jobs for Round<'a, P> {
    ghost use Rattle.std.specs.Prelude.{◌*◌, IfSome, IsSome, length, slice_index};
    ghost use Rattle.pricing_rounds.specs.Rounds.{IsAnswerAt};

    type Desk = P::Desk;

    /// None of a pricing that was told to stop.
    type Answer = Option<TurnOf>;

    ghost number = { λ it. length it.tasks.now * it.cars };

    ghost serves = { λ it desk. P.owns it.pricer.now desk };

    ghost is_right = { λ it k answer. IfSome answer (IsAnswerAt (P.snapshot it.pricer.now)
        it.limits.most_tours it.tasks.now it.cars (slice_index it.order.now k)) };

    ghost is_done = { λ _ answer. IsSome answer };

    fn count(&self) -> u32 {
        self.tasks.len() as u32 * self.cars
    }

    fn work(
        &self,
        k: u32,
        may_go_on: bool,
        desk: &mut P::Desk,
    ) -> Result<Option<TurnOf>, AllocError> {
        if !may_go_on {
            return Ok(None);
        }
        let pricing = self.order[k as usize];
        let task = self.tasks[(pricing / self.cars) as usize];
        let car = pricing % self.cars;
        let most_tours = self.limits.most_tours();
        let priced = self
            .pricer
            .price(car, task.node, task.prices, most_tours, desk);
        let tour = self.pricer.tour(self.alloc, desk)?;
        Ok(Some(TurnOf { priced, tour }))
    }
}

/// How many partial tours the pricings visited.
fn visits_of(priced: &[TurnOf]) -> u64 {
    let mut visits = 0u64;
    for turn in priced {
        visits = visits.saturating_add(turn.priced.visits);
    }
    visits
}

/// Prices every car at each of the nodes, by the runtime's crew: at `i * cars + c` stands the pricing of
/// car `c` at the node of task `i`, of at most as many partial tours as `limits` says, and the tour that it
/// gave.
///
/// `sizes` tells how many partial tours each pricing may try, as far as one can tell, in the order of the
/// answers. It only says which pricings are drawn first, and may be of any length.
///
/// It needs at most four tasks and 1 to 16 desks of the pricer, which are its own afterwards too, also
/// where memory ran out. The runtime's gate is asked before the round whether the work may go on, and
/// before each pricing that the calling thread makes; it is told after the last one how many partial tours
/// were visited. A round that was told to stop answers nothing. It fails else only where there is no memory
/// left.
pub fn price_nodes<P: Pricer, C: PricingCrew<P>, G: Gate>(
    runtime: &Runtime<C, G>,
    pricer: &P,
    cars: u32,
    tasks: &[Task],
    sizes: &[u64],
    limits: Limits,
    desks: &mut [P::Desk],
) -> Result<Vec<TurnOf>, Interruption>
    requires accepted { IsAccepted (P.snapshot pricer.now) }
    requires cars { cars ≡ car_count (P.snapshot pricer.now) }
    requires few { length tasks.now ≤ 4 }
    requires tasks { All (IsTaskOf (P.snapshot pricer.now)) tasks.now }
    requires desks { Serving (P.owns pricer.now) desks.old }
    ensures count { IfOk result (λ answers. length answers.items ≡ length tasks.now * cars) }
    ensures answers { IfOk result (λ answers. AreAnswersOf (P.snapshot pricer.now)
        limits.most_tours tasks.now cars answers.items) }
    ensures goes_on { G.never_stops runtime.now.gate.now
        → IsOkUnless result OutOfMemory }
    ensures desks { All (P.owns pricer.now) desks.new }
{
    if !runtime.gate.may_go_on() {
        return Err(Interruption::Told);
    }
    let count = tasks.len() as u32 * cars;
    let order = drawing_order(runtime.alloc, sizes, count)?;
    let round = Round {
        pricer,
        tasks,
        cars,
        limits,
        order: &order,
        alloc: runtime.alloc,
    };
    let answers = runtime
        .crew
        .price_all(runtime.alloc, &round, desks, runtime.gate)?;
    let drawn = all_done(runtime.alloc, answers)?;
    runtime.gate.tell(Progress::Priced(visits_of(&drawn)));
    let turns = in_places(runtime.alloc, count, &order, drawn)?;
    Ok(turns)
}
