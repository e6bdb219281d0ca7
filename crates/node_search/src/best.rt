//! The cheapest plan that is known.

ghost use Rattle.std.specs.Prelude.{◌≡◌, ◌<◌, ◌≤◌, ◌^◌, ℕ, IfOk, OnOk, List, length};
ghost use Rattle.elevator_model.specs.Snapshot.{car_count, call_count};
ghost use Rattle.elevator_model.specs.declared.Stop.{Stop};
ghost use Rattle.elevator_model.specs.Plans.{IsFeasiblePlan, plan_cost_of};
ghost use Rattle.restricted_master.specs.Pools.{IsMadeOf, tours_of_car};
ghost use Rattle.root_turns.specs.Pools.{AreToursOf, with_turn};
ghost use Rattle.node_search.specs.Best.{IsBest};

use call_state::Snapshot;
use elevator_model::Plan;
use partition_relaxation::{Column, SeenTours};
use price_scale::Price;
use restricted_master::{Choice, Pool};
use root_turns::{pool_of, put_turn};
use search_model::{Limits, TurnOf};
use std::alloc::{AllocError, Global};
use tour_cost::plan_cost;

/// The cheapest plan that is known, with what it costs, and the tours of which a cheaper one may be made.
#[derive(Drop)]
pub(crate) struct Best<'a> {
    pub(crate) plan: Plan,
    /// In cost units.
    pub(crate) cost: u64,
    pub(crate) pool: Pool<'a>,
    /// The columns of all tours that were ever in the pool.
    pub(crate) seen: SeenTours,
}

/// Puts the newest tour of each car into the tours seen. It fails only where there is no memory left.
fn put_newest(seen: &mut SeenTours, pool: &Pool) -> Result<(), AllocError> {
    let cars = pool.snapshot().building().cars().len();
    for car in 0..cars as u32 {
        if let Some(newest) = pool.columns(car).last() {
            if let Some(column) = Column::new(newest.cost, car, newest.calls) {
                seen.put(column)?;
            }
        }
    }
    Ok(())
}

impl<'a> Best<'a> {
    /// A feasible plan, whose tours are in the pool. It fails only where there is no memory left.
    pub(crate) fn new(alloc: Global, snapshot: &'a Snapshot, plan: Plan) -> Result<Self, AllocError>
        requires { IsFeasiblePlan snapshot.now plan }
        ensures best { IfOk result (IsBest snapshot.now) }
        ensures few { IfOk result (λ best. (c : ℕ) → length (tours_of_car best.pool c) ≤ 1) }
    {
        let pool = pool_of(alloc, snapshot, &plan)?;
        let mut seen = SeenTours::new(alloc);
        put_newest(&mut seen, &pool)?;
        Ok(Best {
            cost: plan_cost(snapshot, &plan),
            pool,
            plan,
            seen,
        })
    }

    /// Takes a feasible plan with its cost where it is cheaper.
    pub(crate) fn offer(&mut self, plan: Plan, cost: u64)
        requires best { IsBest self.old.pool.snapshot self.old }
        requires feasible { IsFeasiblePlan self.old.pool.snapshot plan }
        requires costs { plan_cost_of self.old.pool.snapshot plan ≡ cost }
        ensures best { IsBest self.old.pool.snapshot self.new }
        ensures pool { self.new.pool ≡ self.old.pool }
        ensures cheaper { self.new.cost ≤ self.old.cost }
        ensures least { self.new.cost ≤ cost }
    {
        if cost < self.cost {
            self.plan = plan;
            self.cost = cost;
        }
    }

    /// Puts the tours of a pricing of all cars into the pool. It fails only where there is no memory left.
    pub(crate) fn put_tours(&mut self, alloc: Global, cars: &[TurnOf]) -> Result<(), AllocError>
        requires best { IsBest self.old.pool.snapshot self.old }
        requires count { length cars.now ≡ car_count self.old.pool.snapshot }
        requires tours { AreToursOf self.old.pool.snapshot cars.now }
        ensures best { OnOk result (IsBest self.old.pool.snapshot self.new) }
        ensures cost { OnOk result (self.new.cost ≡ self.old.cost) }
        ensures pool { OnOk result (self.new.pool ≡ with_turn self.old.pool 0 cars.now) }
        ensures cars { length self.old.pool.tours ≡ car_count self.old.pool.snapshot }
    {
        put_turn(&mut self.pool, alloc, cars)?;
        put_newest(&mut self.seen, &self.pool)?;
        Ok(())
    }

    /// Takes the cheapest plan of the pool's tours that as many tries find as a pricing may make, where it is
    /// cheaper. It fails only where there is no memory left.
    pub(crate) fn select(
        &mut self,
        alloc: Global,
        prices: &[Price],
        limits: Limits,
    ) -> Result<(), AllocError>
        requires best { IsBest self.old.pool.snapshot self.old }
        requires prices { length prices.now ≡ call_count self.old.pool.snapshot }
        ensures best { OnOk result (IsBest self.old.pool.snapshot self.new) }
        ensures pool { OnOk result (self.new.pool ≡ self.old.pool) }
        ensures cheaper { OnOk result (self.new.cost ≤ self.old.cost) }
        ensures least { OnOk result (34 ^ car_count self.old.pool.snapshot ≤ limits.most_tours
            → (plan : List (List Stop)) → IsMadeOf self.old.pool plan
            → self.new.cost ≤ plan_cost_of self.old.pool.snapshot plan) }
    {
        let below = self.cost;
        let tries = limits.most_tours();
        let Choice { plan, cost, .. } = self.pool.select_below(alloc, prices, below, tries)?;
        if let Some(plan) = plan {
            self.offer(plan, cost);
        }
        Ok(())
    }
}
