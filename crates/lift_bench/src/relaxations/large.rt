//! Large pools, of which the answer is summed up.

use crate::relaxations::blocks::relaxed;
use crate::relaxations::columns::drawn_columns;
use crate::relaxations::pools::ColumnPool;
use crate::relaxations::shapes::{Centre, Costs, Firsts, Shape};
use partition_relaxation::{Column, Relaxation};
use price_scale::Price;
use search_model::Draws;
use std::alloc::{AllocError, Global};
use std::io;

/// What large pools have in common.
const SHAPE: Shape = Shape {
    calls: 128,
    cars: 16,
    columns: 0,
    most_taken: 14,
    reach: 1,
    costs: Costs::ByCall,
    centre: Centre::Near,
    firsts: Firsts::None,
    takable: 128,
    usable: 16,
    has_plan: false,
    is_seen: false,
};

/// What large pools differ in.
#[derive(Clone, Copy)]
struct Large {
    columns: u32,
    reach: u64,
}

/// Pools of which some take few steps, and those of a wide reach more than the relaxation makes.
const LARGE: [Large; 6] = [
    Large {
        columns: 1000,
        reach: 100_000,
    },
    Large {
        columns: 8000,
        reach: 100_000,
    },
    Large {
        columns: 8000,
        reach: 1_000_000,
    },
    Large {
        columns: 8000,
        reach: 10_000_000,
    },
    Large {
        columns: 1000,
        reach: 1_000_000_000,
    },
    Large {
        columns: 8000,
        reach: 1_000_000_000,
    },
];

/// A large pool.
fn large_pool(alloc: Global, large: Large) -> Result<ColumnPool, AllocError> {
    let mut draws = Draws::from_number(u64::from(large.columns));
    let shape = Shape {
        columns: large.columns,
        reach: large.reach,
        ..SHAPE
    };
    let mut centres = Vec::new(alloc);
    for _ in 0..shape.calls {
        centres.push(Price::nearest(i128::from(draws.pick(4_000_001))))?;
    }
    Ok(ColumnPool {
        cars: shape.cars,
        reach: shape.reach,
        centres,
        offers: Vec::new(alloc),
        first: Vec::new(alloc),
        columns: drawn_columns(alloc, &shape, &mut draws)?,
    })
}

/// What a column costs less the prices of its calls.
fn cost_less_prices(column: &Column, prices: &[Price]) -> i128 {
    let mut rest = i128::from(column.cost);
    for call in column.calls.iter() {
        if let Some(price) = prices.get(call as usize) {
            rest = rest.saturating_sub(price.value());
        }
    }
    rest
}

/// The least that columns of a car cost less the prices of their calls.
fn least_of_car(columns: &[Column], car: u32, prices: &[Price]) -> Option<i128> {
    let mut least: Option<i128> = None;
    for column in columns {
        if column.car == car {
            let rest = cost_less_prices(column, prices);
            least = Some(least.map_or(rest, |least| least.min(rest)));
        }
    }
    least
}

/// What the prices say that the columns cost at least: no more than the value, where each car has a column.
fn bound(pool: &ColumnPool, prices: &[Price]) -> i128 {
    let mut bound: i128 = 0;
    for price in prices {
        bound = bound.saturating_add(price.value());
    }
    for car in 0..pool.cars {
        let least = least_of_car(&pool.columns, car, prices);
        bound = bound.saturating_add(least.unwrap_or(0));
    }
    bound
}

/// Prints a line of a large pool's answer.
fn print_summary(rt: &HostRuntime, pool: &ColumnPool, answer: &Relaxation) -> io::Result<()> {
    println!(rt;
        "large columns {} reach {} least {} held {} value {} bound {}",
        pool.columns.len(),
        pool.reach,
        answer.is_least,
        answer.is_held,
        answer.value,
        bound(pool, &answer.prices)
    )
}

/// Prints a line of each large pool.
pub(crate) fn print_large(rt: &HostRuntime) -> io::Result<()> {
    for large in LARGE {
        let pool = large_pool(rt.alloc(), large)?;
        match relaxed(rt, &pool)? {
            Some(answer) => print_summary(rt, &pool, &answer)?,
            None => println!(rt; "large none")?,
        }
    }
    Ok(())
}
