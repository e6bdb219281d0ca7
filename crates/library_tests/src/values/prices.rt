//! Prices and their sums.

ghost use Rattle.std.specs.Prelude.{◌≤◌, length};
ghost use Rattle.price_scale.specs.Scale.{RoundsUp, price_sum};

use price_scale::{Price, SCALE, sum_prices, unscale_up};

/// The sum of the prices of 128 calls in whole cost units, rounded up once.
fn units_of(prices: &[Price]) -> i128
    requires { length prices.now ≤ 128 }
    ensures { RoundsUp SCALE (price_sum prices.now) result }
{
    unscale_up(sum_prices(prices))
}

const MOST: i128 = 1_000_000_000_000_000_000_000_000;

#[test]
fn accepts_exactly_the_range(rt: HostRuntime) {
    let is_refused = Price::new(MOST + 1).is_none() && Price::new(-MOST - 1).is_none();
    let is_accepted = Price::new(MOST).is_some() && Price::new(-MOST).is_some();
    assert!(rt; is_refused && is_accepted);
}

#[test]
fn rounds_towards_the_greater_number(rt: HostRuntime) {
    let above = unscale_up(1) == 1 && unscale_up(1000) == 1;
    assert!(rt; above && unscale_up(-999) == 0 && unscale_up(-1000) == -1);
}

/// What the sum of these prices is, rounded up once.
fn units_of_three(first: i128, second: i128) -> Option<i128> {
    let (first, second) = (Price::new(first)?, Price::new(second)?);
    Some(units_of(&[first, second, second]))
}

#[test]
fn a_sum_is_rounded_up_once(rt: HostRuntime) {
    assert!(rt; units_of_three(1700, 1701) == Some(6));
}
