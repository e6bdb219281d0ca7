//! Why the best prices and the cheapest plan in halves meet or do not.

ghost use Rattle.std.specs.Prelude.{◌≤◌, pos, ◌*ℤ◌, ◌≤ℤ◌, IsTrue, ◌↔◌, MatchOption, All, Any, length};
ghost use Rattle.root_prices.specs.Reasons.{HasFewCars, IsChosen, IsNoneSpent, IsSpentCar};

use elevator_model::MOST_CARS;
use search_model::Turn;

/// What is known of better prices at the root.
#[derive(Clone, Copy)]
pub enum RootReason {
    /// No prices and worths at the root have a greater bound.
    Best,
    /// No plan in halves of the tours is as cheap as twice the bound.
    Gap,
    /// The car has at least this many partial tours, which is the limit.
    Moves { car: u32, count: u64 },
    /// The tours allow at least this many partial pairings, which is the limit.
    Pairs { count: u64 },
}

/// The first car whose pricing in the turn reached the limit of partial tours.
fn spent_in(turn: &Turn) -> Option<u32>
    requires { length turn.now.cars ≤ MOST_CARS }
    ensures { MatchOption result (IsNoneSpent turn.now) (λ car. IsSpentCar car turn.now) }
{
    let cars = turn.cars.as_slice();
    for car in 0..cars.len() {
        if cars[car].priced.spent {
            return Some(car as u32);
        }
    }
    None
}

/// A car whose pricing reached the limit in some turn, if there is one: the first of the first such turn.
pub(crate) fn spent_car(turns: &[Turn]) -> Option<u32>
    requires { All HasFewCars turns.now }
    ensures { MatchOption result (All IsNoneSpent turns.now)
        (λ car. Any (IsSpentCar car) turns.now) }
{
    for place in 0..turns.len() {
        if let Some(car) = spent_in(&turns[place]) {
            return Some(car);
        }
    }
    None
}

/// Whether the cost is at most twice the bound.
fn is_met(bound: i128, cost: u64) -> bool
    ensures { IsTrue result ↔ (pos cost ≤ℤ (pos 2 *ℤ bound)) }
{
    i128::from(cost / 2 + cost % 2) <= bound
}

/// What the bound and the cost of the shares tell, where this car was spent in a turn, if one was, and the
/// search for shares was spent or not. As many partial tours may a pricing try, and as many partial
/// pairings the search, as `most_tours` says.
pub(crate) fn reason_of(
    bound: i128,
    cost: u64,
    car: Option<u32>,
    is_spent: bool,
    most_tours: u64,
) -> RootReason
    ensures { IsChosen bound cost car is_spent most_tours result }
{
    if is_met(bound, cost) {
        return RootReason::Best;
    }
    if let Some(car) = car {
        return RootReason::Moves {
            car,
            count: most_tours,
        };
    }
    if is_spent {
        RootReason::Pairs { count: most_tours }
    } else {
        RootReason::Gap
    }
}
