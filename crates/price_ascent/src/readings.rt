//! What tours say at prices.

ghost use Rattle.std.specs.Prelude.{◌≡◌, ◌≤◌, ◌+ℤ◌, length};
ghost use Rattle.std.specs.Int.{saturate_signed, w128};
ghost use Rattle.price_scale.specs.Scale.{price_sum};

use crate::lacking::Lacks;
use call_sets::CallSet;
use elevator_model::MOST_CALLS;
use price_scale::{Price, sum_prices};

/// What the cheapest tours of the cars say at some prices.
#[derive(Clone, Copy)]
pub struct Reading {
    /// The prices and the least values together.
    pub(crate) sum: i128,
    pub(crate) lacks: Lacks,
}

impl Reading {
    /// Before any tour is noted.
    pub fn new(prices: &[Price]) -> Self
        requires { length prices.now ≤ MOST_CALLS }
        ensures { result.sum ≡ price_sum prices.now }
    {
        Reading {
            sum: sum_prices(prices),
            lacks: Lacks::new(prices.len()),
        }
    }

    /// Notes the cheapest tour of a car, by its value and its calls.
    pub fn note(&mut self, value: i128, calls: CallSet)
        ensures { self.new.sum ≡ saturate_signed w128 (self.old.sum +ℤ value) }
    {
        self.sum = self.sum.saturating_add(value);
        self.lacks.note(calls);
    }
}

/// The tours of some cars.
pub trait Tours {
    /// What they say at these prices. A car without tours says nothing.
    fn read(&self, prices: &[Price]) -> Reading
        requires { length prices.now ≤ MOST_CALLS };
}
