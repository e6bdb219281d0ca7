//! Prices of calls, and sums of them.

ghost use Rattle.std.specs.Prelude.{◌≡◌, ◌≤◌, length};
ghost use Rattle.price_scale.specs.Scale.{IsPrice, IsPriceSum};
ghost use Rattle.search_model.specs.Prices.{price_at};
ghost use Rattle.restricted_master.specs.Priced.{prices_in};

use call_sets::CallSet;
use elevator_model::MOST_CALLS;
use price_scale::Price;

/// The sum of the prices of a set's calls.
pub(crate) fn prices_of(prices: &[Price], calls: CallSet) -> i128
    requires { length prices.now ≤ MOST_CALLS }
    ensures sum { result ≡ prices_in prices.now calls }
    ensures range { IsPriceSum result }
{
    let mut sum = 0;
    for call in calls.iter() {
        sum += price_of(prices, call);
    }
    sum
}

/// The price of a call, and 0 where it has none.
fn price_of(prices: &[Price], call: u32) -> i128
    ensures value { result ≡ price_at prices.now call }
    ensures range { IsPrice result }
{
    match prices.get(call as usize) {
        Some(price) => price.value(),
        None => 0,
    }
}
