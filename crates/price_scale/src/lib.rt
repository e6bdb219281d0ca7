//! Exact prices: whole numbers of thousandths of a cost unit, and sums of them.
//!
//! Nothing here takes memory.
//!
//! # What is promised
//!
//! - `Price`, `unscale_up`, `sum_prices`: exact sums, rounded up to whole cost units. Each sum of 128 prices
//!   can be rounded.
#![tactic(auto)]

ghost use Rattle.std.specs.Prelude.{◌≡◌, ◌≤◌, ◌^◌, ◌*ℤ◌, ◌≤ℤ◌, pos, neg_ℤ, length, SomeIff};
ghost use Rattle.price_scale.specs.Scale.{IsPrice, IsPriceSum, cut, price_sum, RoundsUp};

use std::marker::Model;

/// How many thousandths make one cost unit.
pub const SCALE: i128 = 1000;

/// The greatest absolute value of a price, in thousandths of a cost unit.
pub const MOST_PRICE: i128 = 1_000_000_000_000_000_000_000_000;

/// The greatest absolute value of a worth, in thousandths of a cost unit.
pub const MOST_WORTH: i128 = 1_000_000_000_000_000_000_000_000_000;

/// A price in thousandths of a cost unit, of absolute value at most 10^24.
///
/// Contracts see it as that whole number.
#[derive(Clone, Copy, PartialEq, Eq, PartialOrd, Ord)]
pub struct Price {
    value: i128,
}

impl Model for Price {
    ghost use Rattle.std.specs.Prelude.{ℤ};
    ghost use Rattle.price_scale.specs.Scale.{IsPrice};

    ghost Value = { ℤ };

    ghost view = { λ p. p.value };

    ghost invariant = { λ p. IsPrice p.value };

    ghost inverse = { λ z. record { value = z } };
}

impl Price {
    /// The price of this many thousandths, or None exactly where its absolute value is above 10^24.
    pub fn new(value: i128) -> Option<Price>
        ensures { SomeIff result (IsPrice value) value }
    {
        if -MOST_PRICE <= value && value <= MOST_PRICE {
            Some(Price { value })
        } else {
            None
        }
    }

    /// The price that is nearest to this many thousandths: they are cut at plus and minus 10^24.
    pub fn nearest(value: i128) -> Price
        ensures { result ≡ cut value }
    {
        match Price::new(value.min(MOST_PRICE).max(-MOST_PRICE)) {
            Some(price) => price,
            None => unreachable!(),
        }
    }

    /// The thousandths of a cost unit.
    pub fn value(&self) -> i128
        ensures value { result ≡ self.now }
        ensures range { IsPrice self.now }
    {
        self.value
    }
}

/// A cost, in cost units, as thousandths of a cost unit.
pub fn scaled(cost: u64) -> i128
    requires { cost ≤ 10 ^ 18 }
    ensures { result ≡ SCALE *ℤ pos cost }
{
    SCALE * i128::from(cost)
}

/// Thousandths as whole cost units, rounded up: the least number of units that is no less.
pub fn unscale_up(sum: i128) -> i128
    requires low { neg_ℤ (pos (10 ^ 30)) ≤ℤ sum }
    requires high { sum ≤ℤ pos (10 ^ 30) }
    ensures { RoundsUp SCALE sum result }
{
    -(-sum).div_euclid(SCALE)
}

/// The sum of at most 128 prices, in thousandths of a cost unit. `unscale_up` takes each such sum.
pub fn sum_prices(prices: &[Price]) -> i128
    requires { length prices.now ≤ 128 }
    ensures sum { result ≡ price_sum prices.now }
    ensures range { IsPriceSum result }
{
    let mut sum = 0;
    for price in prices {
        sum += price.value();
    }
    sum
}
