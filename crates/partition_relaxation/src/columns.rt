//! Tours as the relaxation sees them.

use crate::fixed::MOST_COST;
use call_sets::CallSet;
use price_scale::SCALE;
use std::alloc::{AllocError, Global};

/// A tour as the relaxation sees it.
#[derive(Clone, Copy)]
pub struct Column {
    /// In thousandths of a cost unit.
    pub cost: i64,
    pub car: u32,
    /// The calls that it takes.
    pub calls: CallSet,
}

impl Column {
    /// The column of a tour of this cost in cost units: None where that is above 10^12.
    pub fn new(cost: u64, car: u32, calls: CallSet) -> Option<Self> {
        let cost = i128::from(cost).saturating_mul(SCALE);
        let cost = i64::try_from(cost).ok()?;
        if MOST_COST < cost {
            return None;
        }
        Some(Column { cost, car, calls })
    }

    /// Whether the other one is a tour of the same car with the same calls.
    fn is_like(&self, other: &Column) -> bool {
        self.car == other.car && self.calls == other.calls
    }
}

/// The columns of all tours that a search has seen: for each car and set of calls the cheapest one.
#[derive(Drop)]
pub struct SeenTours {
    columns: Vec<Column>,
}

impl SeenTours {
    /// None yet.
    pub fn new(alloc: Global) -> Self {
        SeenTours {
            columns: Vec::new(alloc),
        }
    }

    /// In the order in which they were first seen.
    pub fn as_slice(&self) -> &[Column] {
        self.columns.as_slice()
    }

    /// Puts a column in: where there is one of the same car and calls, the cheaper of the two is kept. It fails
    /// only where there is no memory left.
    pub fn put(&mut self, column: Column) -> Result<(), AllocError> {
        for seen in self.columns.iter_mut() {
            if seen.is_like(&column) {
                seen.cost = seen.cost.min(column.cost);
                return Ok(());
            }
        }
        self.columns.push(column)?;
        Ok(())
    }
}
