//! Moves of prices.

ghost use Rattle.std.specs.Prelude.{◌≡◌, ℕ, ◌<◌, ◌≤◌, ◌^◌, ℤ, pos, ◌+ℤ◌, ◌-ℤ◌, ◌*ℤ◌, ◌≤ℤ◌, length};
ghost use Rattle.std.specs.Prelude.{slice_index, slice_index_or};
ghost use Rattle.price_scale.specs.Scale.{cut};
ghost use Rattle.search_model.specs.Prices.{price_at};
ghost use Rattle.price_ascent.specs.Steps.{FollowsPart};

use crate::paces::Pace;
use elevator_model::MOST_CARS;
use price_scale::Price;

/// Moves the price of each call by `step * (1 - count)`, where `count` says how many tours take the call, and
/// cuts it at plus and minus 10^24: the price rises where no tour takes the call, and falls where two or more
/// do. Prices and step are in thousandths of a cost unit.
pub fn adjust(prices: &mut [Price], counts: &[u32], step: i128)
    requires lengths { length prices.old ≡ length counts.now }
    requires counts { (j : ℕ) → slice_index counts.now j ≤ MOST_CARS }
    requires low { pos 0 ≤ℤ step }
    requires high { step ≤ℤ pos (10 ^ 24) }
    ensures { (j : ℕ) → j < length prices.old → price_at prices.new j
        ≡ cut (price_at prices.old j
        +ℤ (step *ℤ (pos 1 -ℤ pos (slice_index counts.now j)))) }
{
    for call in 0..prices.len() {
        prices[call] = moved(prices[call], counts[call], step);
    }
}

/// The price after a move, where `count` tours take the call.
fn moved(price: Price, count: u32, step: i128) -> Price
    requires count { count ≤ MOST_CARS }
    requires low { pos 0 ≤ℤ step }
    requires high { step ≤ℤ pos (10 ^ 24) }
    ensures { result ≡ cut (price +ℤ (step *ℤ (pos 1 -ℤ pos count))) }
{
    Price::nearest(price.value() + step * (1 - i128::from(count)))
}

/// The price after a step from this one on: by `way * part / square`, rounded towards 0.
fn moved_along(from: Price, way: i128, part: i64, square: i128) -> Price
    ensures { pos 0 ≤ℤ way → pos 0 ≤ℤ square → FollowsPart part from result }
{
    let change = way
        .saturating_mul(i128::from(part))
        .checked_div(square)
        .unwrap_or(0);
    Price::nearest(from.value().saturating_add(change))
}

/// The square of a direction's length, of the calls that have these prices.
fn square_of(direction: &[i64], prices: &[Price]) -> i64
    ensures { pos 0 ≤ℤ result }
{
    let mut square: i64 = 0;
    for (part, _) in direction.iter().zip(prices) {
        square = square.saturating_add(part.saturating_mul(*part));
    }
    square
}

impl Pace {
    /// How much of a gap a move is to close at this rate: thousandths of a cost unit, in parts of one.
    fn way(&self, gap: i128, rate: i64) -> i128
        ensures { pos 0 ≤ℤ rate → pos 0 ≤ℤ result }
    {
        gap.min(self.most_gap)
            .max(0)
            .saturating_mul(i128::from(rate))
    }

    /// Moves prices from these on in a direction, in parts of one for each call: so far that what rises with
    /// the direction alone would close the gap, in thousandths of a cost unit, at this rate (Polyak's step).
    pub fn step(&self, from: &[Price], direction: &[i64], gap: i128, rate: i64, next: &mut [Price])
        ensures count { length next.new ≡ length next.old }
        ensures follows { pos 0 ≤ℤ rate → (j : ℕ) → j < length next.old → j < length from.now
            → j < length direction.now → FollowsPart (slice_index_or direction.now j (pos 0))
            (price_at from.now j) (price_at next.new j) }
    {
        // A part is at most 16 in absolute value, and a rate at most 2.
        let way = self.way(gap, rate);
        let square = i128::from(square_of(direction, from));
        let calls = next.len().min(from.len()).min(direction.len());
        for call in 0..calls {
            next[call] = moved_along(from[call], way, direction[call], square);
        }
    }
}
