//! The tours of a pool that lie in a node.

ghost use Rattle.std.specs.Prelude.{◌≤◌, length};

use assign_branch::{CallSet, Node};
use price_ascent::{Reading, Tours};
use price_scale::{Price, SCALE};
use restricted_master::{Column, Pool};

/// The tour of the least value.
#[derive(Clone, Copy)]
struct Cheapest {
    /// What it costs without the prices of its calls, in thousandths of a cost unit.
    value: i128,
    calls: CallSet,
}

/// What a tour costs without the prices of its calls, in thousandths of a cost unit.
fn value_of(column: &Column, prices: &[Price]) -> i128 {
    let mut value = SCALE.saturating_mul(i128::from(column.cost));
    for call in column.calls.iter() {
        if let Some(price) = prices.get(call as usize) {
            value = value.saturating_sub(price.value());
        }
    }
    value
}

/// Whether a tour that takes these calls may be one of the car in the node.
pub(crate) fn is_in(node: &Node, car: u32, calls: CallSet) -> bool {
    calls.minus(node.allowed(car)).is_empty() && node.required(car).minus(calls).is_empty()
}

/// The car's tour of the least value among these that lie in the node.
fn cheapest_in(columns: &[Column], node: &Node, car: u32, prices: &[Price]) -> Option<Cheapest> {
    let mut cheapest = None;
    let mut least = i128::MAX;
    for column in columns {
        let calls = column.calls;
        if !is_in(node, car, calls) {
            continue;
        }
        let value = value_of(column, prices);
        if value < least {
            least = value;
            cheapest = Some(Cheapest { value, calls });
        }
    }
    cheapest
}

/// The pool's tours that lie in the node.
#[derive(Clone, Copy)]
pub(crate) struct NodeTours<'a> {
    pub(crate) pool: &'a Pool<'a>,
    pub(crate) node: &'a Node,
}

impl<'a> Tours for NodeTours<'a> {
    fn read(&self, prices: &[Price]) -> Reading {
        let mut reading = Reading::new(prices);
        let cars = self.pool.snapshot().building().cars().len();
        for car in 0..cars {
            let columns = self.pool.columns(car as u32);
            if let Some(cheapest) = cheapest_in(columns, self.node, car as u32, prices) {
                reading.note(cheapest.value, cheapest.calls);
            }
        }
        reading
    }
}
