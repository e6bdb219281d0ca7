//! All plans that are made of tours of a pool.

use call_state::Snapshot;
use case_kit::{Checks, boards_of, lawful_cost, plan_price};
use elevator_model::{Plan, Tour};
use restricted_master::{Column, MOST_TOURS, Pool};
use std::alloc::{AllocError, Global};

/// The car's columns. None where there is no such car.
pub(crate) fn columns_of<'a>(pool: &'a Pool<'_>, car: u32) -> Option<&'a [Column]> {
    if pool.snapshot().building().cars().len() <= car as usize {
        return None;
    }
    Some(pool.columns(car))
}

/// How many tours of the car the pool has.
pub(crate) fn count_of(pool: &Pool<'_>, car: u32) -> u64 {
    match columns_of(pool, car) {
        Some(columns) => columns.len() as u64,
        None => 0,
    }
}

/// Whether the column is a feasible tour of the car, with its cost and the calls that board in it.
fn is_column(snapshot: &Snapshot, car: u32, column: &Column) -> bool {
    boards_of(&column.tour).bits() == column.calls.bits()
        && lawful_cost(snapshot, car, &column.tour) == Some(column.cost)
}

/// Notes of each column of the pool whether it is what it says.
pub(crate) fn note_columns(pool: &Pool<'_>, columns: &mut Checks) {
    for car in 0..cars_of(pool) {
        for column in columns_of(pool, car).unwrap_or(&[]) {
            columns.note(is_column(pool.snapshot(), car, column));
        }
    }
}

/// How many cars there are.
pub(crate) fn cars_of(pool: &Pool<'_>) -> u32 {
    pool.snapshot().building().cars().len() as u32
}

/// How many ways there are to take a tour of each car.
pub(crate) fn ways(pool: &Pool<'_>) -> u64 {
    let mut ways: u64 = 1;
    for car in 0..cars_of(pool) {
        ways = ways.wrapping_mul(count_of(pool, car));
    }
    ways
}

/// How many partial selections there are: tours of the first cars, of none up to all.
pub(crate) fn selections(pool: &Pool<'_>) -> u64 {
    let (mut ways, mut sum): (u64, u64) = (1, 1);
    for car in 0..cars_of(pool) {
        ways = ways.wrapping_mul(count_of(pool, car));
        sum = sum.wrapping_add(ways);
    }
    sum
}

fn push_copy(alloc: Global, plan: &mut Plan, tour: &Tour) -> Result<(), AllocError> {
    plan.push(tour.copy(alloc)?)?;
    Ok(())
}

/// Appends the tours of one of these ways, which are numbered from 0.
fn put_tours(alloc: Global, pool: &Pool<'_>, way: u64, plan: &mut Plan) -> Result<(), AllocError> {
    let mut left = way;
    for car in 0..cars_of(pool) {
        let count = count_of(pool, car).max(1);
        if let Some(tour) = pool.tour(car, (left % count) as usize) {
            push_copy(alloc, plan, tour)?;
        }
        left /= count;
    }
    Ok(())
}

/// What the plan of a way costs. None where it is not feasible.
fn cost_of(alloc: Global, pool: &Pool<'_>, way: u64) -> Result<Option<u64>, AllocError> {
    let mut plan = Plan::new(alloc);
    put_tours(alloc, pool, way, &mut plan)?;
    Ok(plan_price(pool.snapshot(), &plan))
}

/// The least cost of a feasible plan that is made of tours of the pool. None where there is no such plan.
pub(crate) fn least_cost(alloc: Global, pool: &Pool<'_>) -> Result<Option<u64>, AllocError> {
    let mut least: Option<u64> = None;
    for way in 0..ways(pool) {
        if let Some(cost) = cost_of(alloc, pool, way)? {
            least = Some(least.unwrap_or(cost).min(cost));
        }
    }
    Ok(least)
}

pub(crate) fn has_tour(pool: &Pool<'_>, car: u32, tour: &Tour) -> bool {
    for place in 0..MOST_TOURS {
        if pool.tour(car, place) == Some(tour) {
            return true;
        }
    }
    false
}

/// Whether each tour of the plan is one of the pool.
pub(crate) fn is_pooled(pool: &Pool<'_>, plan: &Plan) -> bool {
    for (car, tour) in plan.tours().iter().enumerate() {
        if !has_tour(pool, u32::try_from(car).unwrap_or(u32::MAX), tour) {
            return false;
        }
    }
    true
}
