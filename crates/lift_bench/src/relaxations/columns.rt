//! Drawn columns.

use crate::relaxations::shapes::{Costs, Shape};
use call_sets::CallSet;
use partition_relaxation::Column;
use search_model::Draws;
use std::alloc::{AllocError, Global};

/// The set with one call more, where calls are below 128.
fn with_call(calls: CallSet, call: u32) -> CallSet {
    if call < 128 { calls.with(call) } else { calls }
}

/// How many calls there are in a set.
fn count(calls: CallSet) -> u32 {
    let mut count: u32 = 0;
    for _ in calls.iter() {
        count = count.saturating_add(1);
    }
    count
}

/// What a column of these calls costs, in thousandths.
fn drawn_cost(costs: Costs, calls: CallSet, draws: &mut Draws) -> i64 {
    match costs {
        Costs::Any => i64::from(draws.pick(20_000_001)),
        Costs::Equal => 1_000_000 * i64::from(1 + draws.pick(3)),
        Costs::ByCall => {
            let base = 500_000 + i64::from(draws.pick(1_000_000));
            let a_call = 500_000 + i64::from(draws.pick(3_000_000));
            base.saturating_add(a_call.saturating_mul(i64::from(count(calls))))
        }
    }
}

/// Calls for a column.
fn drawn_calls(shape: &Shape, draws: &mut Draws) -> CallSet {
    let mut calls = CallSet::empty();
    for _ in 0..draws.pick(shape.most_taken.saturating_add(1)) {
        calls = with_call(calls, draws.pick(shape.takable.max(1)));
    }
    calls
}

/// The drawn columns of a shape, where a car has one.
pub(crate) fn drawn_columns(
    alloc: Global,
    shape: &Shape,
    draws: &mut Draws,
) -> Result<Vec<Column>, AllocError> {
    let mut columns = Vec::new(alloc);
    if shape.usable == 0 || shape.takable == 0 {
        return Ok(columns);
    }
    for _ in 0..shape.columns {
        let calls = drawn_calls(shape, draws);
        columns.push(Column {
            cost: drawn_cost(shape.costs, calls, draws),
            car: draws.pick(shape.usable.max(1)),
            calls,
        })?;
    }
    Ok(columns)
}

/// Adds a column for each car, so that together they take each call once.
pub(crate) fn planned_columns(
    shape: &Shape,
    draws: &mut Draws,
    columns: &mut Vec<Column>,
) -> Result<(), AllocError> {
    let mut rest = CallSet::empty();
    for call in 0..shape.calls {
        rest = with_call(rest, call);
    }
    for car in 0..shape.cars {
        let is_last = car.saturating_add(1) == shape.cars;
        let mut calls = CallSet::empty();
        for call in rest.iter() {
            if is_last || draws.pick(shape.cars.max(1)) == 0 {
                calls = with_call(calls, call);
            }
        }
        rest = rest.minus(calls);
        columns.push(Column {
            cost: drawn_cost(shape.costs, calls, draws),
            car,
            calls,
        })?;
    }
    Ok(())
}
