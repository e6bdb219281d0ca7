//! Pools with numbers at the limit of what is taken, which is 10^15 thousandths.

use crate::relaxations::blocks::print_block;
use crate::relaxations::pools::ColumnPool;
use call_sets::CallSet;
use partition_relaxation::Column;
use price_scale::Price;
use std::alloc::{AllocError, Global};
use std::io;

/// The greatest cost that is taken, in thousandths.
const MOST: i128 = 1_000_000_000_000_000;

/// The greatest cost that is taken, in cost units.
const MOST_UNITS: u64 = 1_000_000_000_000;

/// The centre of a call, and the reach.
#[derive(Clone, Copy)]
struct Box {
    centre: i128,
    reach: u64,
}

/// Centres and reaches on both sides of the limit.
const BOXES: [Box; 17] = [
    Box {
        centre: MOST - 1,
        reach: 1,
    },
    Box {
        centre: MOST,
        reach: 0,
    },
    Box {
        centre: MOST,
        reach: 1,
    },
    Box {
        centre: MOST + 1,
        reach: 0,
    },
    Box {
        centre: MOST + 1,
        reach: 1,
    },
    Box {
        centre: 1 - MOST,
        reach: 1,
    },
    Box {
        centre: -MOST,
        reach: 0,
    },
    Box {
        centre: -MOST,
        reach: 1,
    },
    Box {
        centre: -MOST - 1,
        reach: 0,
    },
    Box {
        centre: 0,
        reach: 1_000_000_000_000_000,
    },
    Box {
        centre: 0,
        reach: 1_000_000_000_000_001,
    },
    Box {
        centre: 0,
        reach: u64::MAX,
    },
    Box {
        centre: 5,
        reach: 999_999_999_999_995,
    },
    Box {
        centre: 5,
        reach: 999_999_999_999_996,
    },
    Box {
        centre: -5,
        reach: 999_999_999_999_995,
    },
    Box {
        centre: -5,
        reach: 999_999_999_999_996,
    },
    Box {
        centre: MOST * 1_000_000_000,
        reach: 1,
    },
];

/// Costs in cost units on both sides of the limit.
const COSTS: [u64; 6] = [0, 1, MOST_UNITS - 1, MOST_UNITS, MOST_UNITS + 1, u64::MAX];

/// A pool of two cars and two calls, of which the second has this centre.
fn pool_at(alloc: Global, at: Box, column: Column) -> Result<ColumnPool, AllocError> {
    let mut centres = Vec::new(alloc);
    centres.push(Price::nearest(0))?;
    centres.push(Price::nearest(at.centre))?;
    let mut columns = Vec::new(alloc);
    columns.push(column)?;
    Ok(ColumnPool {
        cars: 2,
        reach: at.reach,
        centres,
        offers: Vec::new(alloc),
        first: Vec::new(alloc),
        columns,
    })
}

/// Prints the pool of each box.
fn print_boxes(rt: &HostRuntime) -> io::Result<()> {
    let column = Column {
        cost: 1_234_567,
        car: 0,
        calls: CallSet::from_bits(3),
    };
    for at in BOXES {
        println!(rt; "pool box")?;
        print_block(rt, &pool_at(rt.alloc(), at, column)?)?;
    }
    Ok(())
}

/// Prints what becomes of each cost, and the pool with its column.
fn print_costs(rt: &HostRuntime) -> io::Result<()> {
    for units in COSTS {
        let Some(column) = Column::new(units, 1, CallSet::from_bits(2)) else {
            println!(rt; "units {units} none")?;
            continue;
        };
        println!(rt; "units {units} cost {}", column.cost)?;
        println!(rt; "pool cost")?;
        let at = Box {
            centre: MOST / 2,
            reach: 400_000_000_000_000,
        };
        print_block(rt, &pool_at(rt.alloc(), at, column)?)?;
    }
    Ok(())
}

/// Prints pools at the limits.
pub(crate) fn print_limits(rt: &HostRuntime) -> io::Result<()> {
    print_boxes(rt)?;
    print_costs(rt)
}
