//! The tours of a plan and of turns in a pool.

ghost use Rattle.std.specs.Prelude.{◌≡◌, ◌<◌, ◌≤◌, ℕ, IfOk, OnOk, IfSome, length};
ghost use Rattle.elevator_model.specs.Snapshot.{car_count};
ghost use Rattle.elevator_model.specs.Tours.{IsFeasible};
ghost use Rattle.elevator_model.specs.Plans.{IsFeasiblePlan};
ghost use Rattle.restricted_master.specs.Pools.{IsEmptyPool, tours_of_car};
ghost use Rattle.root_turns.specs.Pools.{AreToursOf, HoldsPlan, with_given, with_turn};

use call_state::Snapshot;
use elevator_model::{MOST_CALLS, Plan, Tour};
use restricted_master::Pool;
use search_model::TurnOf;
use std::alloc::{AllocError, Global};

/// Puts the tours of a feasible plan into a pool without tours. It fails only where there is no memory left.
fn put_plan(
    pool: &mut Pool,
    alloc: Global,
    snapshot: &Snapshot,
    plan: &Plan,
) -> Result<(), AllocError>
    requires empty { IsEmptyPool snapshot.now pool.old }
    requires plan { IsFeasiblePlan snapshot.now plan.now }
    ensures { OnOk result (HoldsPlan snapshot.now plan.now pool.new) }
{
    prove!(snapshot.calls().len() <= MOST_CALLS);
    let tours = plan.tours();
    for car in 0..tours.len() {
        let tour = tours[car].copy(alloc)?;
        pool.put(car as u32, tour);
    }
    Ok(())
}

/// A pool with the tours of a feasible plan. It fails only where there is no memory left.
pub fn pool_of<'a>(
    alloc: Global,
    snapshot: &'a Snapshot,
    plan: &Plan,
) -> Result<Pool<'a>, AllocError>
    requires { IsFeasiblePlan snapshot.now plan.now }
    ensures plan { IfOk result (HoldsPlan snapshot.now plan.now) }
    ensures snapshot { IfOk result (λ pool. pool.snapshot ≡ snapshot.now) }
    ensures few { IfOk result (λ pool. (c : ℕ) → length (tours_of_car pool c) ≤ 1) }
{
    let mut pool = Pool::new(alloc, snapshot)?;
    put_plan(&mut pool, alloc, snapshot, plan)?;
    Ok(pool)
}

/// Puts the tour of a pricing into the pool, if it gave one. It fails only where there is no memory left.
fn put_given(
    pool: &mut Pool,
    alloc: Global,
    car: u32,
    tour: &Option<Tour>,
) -> Result<(), AllocError>
    requires car { car < car_count pool.old.snapshot }
    requires feasible { IfSome tour.now (IsFeasible pool.old.snapshot car) }
    ensures pool { OnOk result (pool.new ≡ with_given pool.old car tour.now) }
    ensures snapshot { OnOk result (pool.new.snapshot ≡ pool.old.snapshot) }
{
    if let Some(tour) = tour {
        pool.put(car, tour.copy(alloc)?);
    }
    Ok(())
}

/// Puts the tours of a pricing of all cars into the pool. It fails only where there is no memory left.
pub fn put_turn(pool: &mut Pool, alloc: Global, cars: &[TurnOf]) -> Result<(), AllocError>
    requires count { length cars.now ≡ car_count pool.old.snapshot }
    requires tours { AreToursOf pool.old.snapshot cars.now }
    ensures pool { OnOk result (pool.new ≡ with_turn pool.old 0 cars.now) }
    ensures snapshot { OnOk result (pool.new.snapshot ≡ pool.old.snapshot) }
    ensures cars { length pool.old.tours ≡ car_count pool.old.snapshot }
{
    prove!(pool.snapshot().calls().len() <= MOST_CALLS);
    for car in 0..cars.len() {
        put_given(pool, alloc, car as u32, &cars[car].tour)?;
    }
    Ok(())
}
