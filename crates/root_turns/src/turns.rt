//! How prices move from one turn to the next.

ghost use Rattle.std.specs.Prelude.{◌≡◌, ◌<◌, ◌≤◌, ◌^◌, ℕ, ℤ, pos, ◌≤ℤ◌, ◌+◌, ◌/◌, IfOk};
ghost use Rattle.std.specs.Prelude.{IfSome, length, slice_index};
ghost use Rattle.search_model.specs.declared.TurnOf.{TurnOf};
ghost use Rattle.search_model.specs.Prices.{price_at};
ghost use Rattle.search_model.specs.Solving.{boards_in, greatest_price};
ghost use Rattle.root_turns.specs.Turns.{BoardBelow, BoardsBelow, boards_of_cars, moved_price};

use elevator_model::{MOST_CALLS, MOST_CARS};
use price_scale::Price;
use restricted_master::adjust;
use search_model::TurnOf;
use std::alloc::{AllocError, Global};
use tour_cost::calls_of;

/// The greatest of 0 and the prices, in thousandths of a cost unit.
pub(crate) fn greatest_of(prices: &[Price]) -> i128
    ensures value { result ≡ pos (greatest_price prices.now) }
    ensures high { result ≤ℤ pos (10 ^ 24) }
{
    let mut greatest = 0;
    for place in 0..prices.len() {
        greatest = prices[place].value().max(greatest);
    }
    greatest
}

/// The step of the turn after these: the first turn's step, divided by the number of the turn and rounded
/// down.
pub(crate) fn step_after(step: i128, turns: usize) -> i128
    requires low { pos 0 ≤ℤ step }
    requires high { step ≤ℤ pos (10 ^ 24) }
    ensures value { (most : ℕ) → step ≡ pos most → result ≡ pos (most / (turns + 1)) }
    ensures low { pos 0 ≤ℤ result }
    ensures high { result ≤ℤ pos (10 ^ 24) }
{
    step / (turns as i128 + 1)
}

/// Whether the pricing gave a tour in which the call boards.
fn boards(turn: &TurnOf, call: u32) -> bool
    requires { IfSome turn.now.tour BoardsBelow }
    ensures { result ≡ boards_in turn.now.tour call }
{
    match &turn.tour {
        Some(tour) => calls_of(tour).contains(call),
        None => false,
    }
}

/// In how many of the tours the call boards.
fn boards_count(cars: &[TurnOf], call: u32) -> u32
    requires cars { length cars.now ≤ MOST_CARS }
    requires tours { BoardBelow cars.now }
    ensures count { result ≡ boards_of_cars cars.now call }
    ensures few { result ≤ MOST_CARS }
{
    let mut count = 0;
    for car in 0..cars.len() {
        if boards(&cars[car], call) {
            count += 1;
        }
    }
    count
}

/// In how many of the tours each call boards. It fails only where there is no memory left.
fn boards_counts(alloc: Global, cars: &[TurnOf], calls: usize) -> Result<Vec<u32>, AllocError>
    requires cars { length cars.now ≤ MOST_CARS }
    requires tours { BoardBelow cars.now }
    requires calls { calls ≤ MOST_CALLS }
    ensures count { IfOk result (λ counts. length counts.items ≡ calls) }
    ensures each { IfOk result (λ counts. (j : ℕ) → j < calls
        → slice_index counts.items j ≡ boards_of_cars cars.now j) }
    ensures few { IfOk result (λ counts. (j : ℕ) → slice_index counts.items j ≤ MOST_CARS) }
{
    let mut counts = Vec::with_capacity(alloc, calls)?;
    for call in 0..calls {
        counts.push(boards_count(cars, call as u32))?;
    }
    Ok(counts)
}

/// The prices of the turn after one at these prices: each moves by `step * (1 - count)`, where `count` says
/// in how many of the turn's tours its call boards. It fails only where there is no memory left.
pub(crate) fn prices_after(
    alloc: Global,
    prices: &[Price],
    cars: &[TurnOf],
    step: i128,
) -> Result<Vec<Price>, AllocError>
    requires cars { length cars.now ≤ MOST_CARS }
    requires tours { BoardBelow cars.now }
    requires calls { length prices.now ≤ MOST_CALLS }
    requires low { pos 0 ≤ℤ step }
    requires high { step ≤ℤ pos (10 ^ 24) }
    ensures count { IfOk result (λ next. length next.items ≡ length prices.now) }
    ensures each { IfOk result (λ next. (j : ℕ) → j < length prices.now
        → price_at next.items j ≡ moved_price prices.now step cars.now j) }
{
    let counts = boards_counts(alloc, cars, prices.len())?;
    let mut next = prices.to_vec(alloc)?;
    adjust(&mut next, &counts, step);
    Ok(next)
}
