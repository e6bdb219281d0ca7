//! Moves of prices.

ghost use Rattle.std.specs.Prelude.{◌≡◌, length};

use price_scale::Price;

/// Halves this many times.
fn halved(way: i128, times: u32) -> i128 {
    let mut way = way;
    for _ in 0..times {
        way /= 2;
    }
    way
}

/// Takes prices back towards these: the way between them is halved this many times.
pub(crate) fn take_back(prices: &mut [Price], from: &[Price], times: u32)
    ensures { length prices.new ≡ length prices.old }
{
    for (price, from) in prices.iter_mut().zip(from) {
        let way = price.value().saturating_sub(from.value());
        *price = Price::nearest(from.value().saturating_add(halved(way, times)));
    }
}
