//! Prices at which the tours of a pool come close to what a plan costs.
//!
//! None of what `select` answers rests on them: they only steer the search.

ghost use Rattle.std.specs.Prelude.{◌≡◌, ◌≤◌, IfOk, length};

use crate::columns::cheapest_column;
use crate::pools::Pool;
use elevator_model::MOST_CALLS;
use price_ascent::{Pace, Reading, Rounding, Tours, raise};
use price_scale::{Price, SCALE};
use std::alloc::{AllocError, Global};

/// In thousandths. What is looked for is a bound that, rounded up to whole cost units, reaches the target.
const PACE: Pace = Pace {
    moves: 60,
    one: 1000,
    newest_share: 3,
    rounding: Rounding::Average,
    up_percent: 107,
    down_percent: 78,
    tolerance: SCALE - 1,
    // No gap of 128 prices and 16 reduced costs is greater.
    most_gap: 10_000_000_000_000_000_000_000_000_000,
};

/// All tours of a pool.
#[derive(Clone, Copy)]
struct PooledTours<'a> {
    pool: &'a Pool<'a>,
}

impl<'a> Tours for PooledTours<'a> {
    fn read(&self, prices: &[Price]) -> Reading {
        let mut reading = Reading::new(prices);
        let cars = self.pool.snapshot().building().cars().len();
        for car in 0..cars {
            let columns = self.pool.columns(car as u32);
            if let Some((column, reduced_cost)) = cheapest_column(columns, prices) {
                reading.note(reduced_cost, column.calls);
            }
        }
        reading
    }
}

impl<'a> Pool<'a> {
    /// The prices after the ascent from these on. What a plan is hoped to cost, in cost units, is the target.
    pub(crate) fn raised(
        &self,
        alloc: Global,
        start: &[Price],
        target: u64,
    ) -> Result<Vec<Price>, AllocError>
        requires { length start.now ≤ MOST_CALLS }
        ensures { IfOk result (λ prices. length prices.items ≡ length start.now) }
    {
        let mut best = start.to_vec(alloc)?;
        let mut next = start.to_vec(alloc)?;
        raise(
            &PooledTours { pool: self },
            PACE,
            SCALE * i128::from(target),
            best.as_mut_slice(),
            next.as_mut_slice(),
        );
        Ok(best)
    }
}
