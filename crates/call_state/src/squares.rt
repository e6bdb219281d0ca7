//! Travel times between floors.

ghost use Rattle.std.specs.Prelude.{◌≡◌, ◌↔◌, ℕ, ◌*◌, ◌≤◌, ◌<◌, length, slice_index, IsTrue, IsOk, IfOk};
ghost use Rattle.std.specs.Prelude.{IfErr};
ghost use Rattle.elevator_model.specs.Travel.{IsTravelSquare, time_between};
ghost use Rattle.elevator_model.specs.declared.Fault.TheVariants.{NoTravelSquare};
ghost use Rattle.call_state.specs.Squares.{square_of, IsEntry, IsRow, AreRows, IsNowhereShorter, IsRowDirect};
ghost use Rattle.call_state.specs.Squares.{AreRowsDirect};

use crate::{Fault, StateFault};
use elevator_model::LONGEST_WAY;
use std::alloc::{AllocError, Global};
use std::marker::Model;

/// A square of travel times: from each floor to each floor.
///
/// It has 2 to 64 floors. The time is 0 from a floor to itself and 1 to 20,000,000 ms between two floors,
/// and no way over a third floor is shorter.
#[derive(Drop)]
pub struct Travel {
    floors: u32,
    times: Vec<u64>,
}

impl Model for Travel {
    ghost use Rattle.elevator_model.specs.Travel.{Square, IsTravelSquare};

    ghost Value = { Square };

    ghost view = { λ t. record { floors = t.floors; times = t.times.items } };

    ghost invariant = { λ t. IsTravelSquare (record { floors = t.floors; times = t.times.items }) };
}

impl Travel {
    /// The square with these times in ms, row after row: the times from floor 0 to each floor come first.
    ///
    /// It fails with `NoTravelSquare` of item 0 exactly where the times are no travel square of this number
    /// of floors. It takes no memory.
    pub fn build(floors: u32, times: Vec<u64>) -> Result<Travel, StateFault>
        ensures valid { IsOk result ↔ IsTravelSquare (square_of floors times.items) }
        ensures value { IfOk result (λ travel. travel ≡ square_of floors times.items) }
        ensures fault { IfErr result (λ e. e ≡ StateFault.Bad NoTravelSquare 0) }
    {
        if !is_travel_square(floors, &times) {
            return Err(StateFault::Bad {
                fault: Fault::NoTravelSquare,
                item: 0,
            });
        }
        Ok(Travel::of_square(floors, times))
    }

    /// The square with these times in ms, which is known to be a travel square, so that nothing is judged
    /// once more. It takes no memory.
    pub fn of_square(floors: u32, times: Vec<u64>) -> Travel
        requires { IsTravelSquare (square_of floors times.items) }
        ensures { result ≡ square_of floors times.items }
    {
        Travel { floors, times }
    }

    /// The number of floors, 2 to 64.
    pub fn floors(&self) -> u32
        ensures value { result ≡ self.now.floors }
        ensures square { IsTravelSquare self.now }
    {
        self.floors
    }

    /// The travel time in ms from one floor to another.
    pub fn time(&self, from: u32, to: u32) -> u64
        requires from_floor { from < self.now.floors }
        requires to_floor { to < self.now.floors }
        ensures value { result ≡ time_between self.now from to }
        ensures bounded { result ≤ 20000000 }
        ensures square { IsTravelSquare self.now }
    {
        self.times[from as usize * self.floors as usize + to as usize]
    }

    /// A copy of the square. It fails only where there is no memory left.
    pub fn copy(&self, alloc: Global) -> Result<Travel, AllocError>
        ensures { IfOk result (λ travel. travel ≡ self.now) }
    {
        Ok(Travel {
            floors: self.floors,
            times: self.times.as_slice().to_vec(alloc)?,
        })
    }

    /// The travel time in ms from one floor to another, and 0 where the times lack it.
    pub(crate) fn time_or_zero(&self, from: u32, to: u32) -> u64
        ensures value { result ≡ time_between self.now from to }
        ensures square { IsTravelSquare self.now }
    {
        time_at(self.floors, &self.times, from, to)
    }
}

/// The time in ms from one floor to another, and 0 where the times lack it.
pub fn time_at(floors: u32, times: &[u64], from: u32, to: u32) -> u64
    ensures { result ≡ time_between (square_of floors times.now) from to }
{
    let place = from as usize * floors as usize + to as usize;
    times.get(place).copied().unwrap_or(0)
}

/// Whether the time between two floors is in its range.
fn is_entry(floors: u32, times: &[u64], from: u32, to: u32) -> bool
    ensures { IsTrue result ↔ IsEntry (square_of floors times.now) from to }
{
    let time = time_at(floors, times, from, to);
    if from == to {
        time == 0
    } else {
        1 <= time && time <= LONGEST_WAY
    }
}

/// Whether the times from one floor are in their ranges.
fn is_row(floors: u32, times: &[u64], from: u32) -> bool
    ensures { IsTrue result ↔ IsRow (square_of floors times.now) from }
{
    for to in 0..floors {
        if !is_entry(floors, times, from, to) {
            return false;
        }
    }
    true
}

/// Whether all times are in their ranges.
fn are_rows(floors: u32, times: &[u64]) -> bool
    ensures { IsTrue result ↔ AreRows (square_of floors times.now) }
{
    for from in 0..floors {
        if !is_row(floors, times, from) {
            return false;
        }
    }
    true
}

/// The times from one floor to each floor.
fn row_of(floors: u32, times: &[u64], from: u32) -> &[u64]
    requires whole { length times.now ≡ floors * floors }
    requires from_floor { from < floors }
    ensures count { length result.now ≡ floors }
    ensures times { (to : ℕ) → to < floors
        → slice_index result.now to ≡ time_between (square_of floors times.now) from to }
{
    let start = from as usize * floors as usize;
    &times[start..start + floors as usize]
}

/// Whether no way over a floor is shorter, which lies `leg` from the first floor: `rest` has the times from
/// it to each floor, `direct` those from the first floor. It goes through all of them, since that is faster
/// than to stop at the first one.
fn is_leg_direct(leg: u64, rest: &[u64], direct: &[u64]) -> bool
    requires { length rest.now ≡ length direct.now }
    ensures { IsTrue result ↔ IsNowhereShorter leg rest.now direct.now }
{
    let mut is_shorter = false;
    for to in 0..direct.len() {
        is_shorter |= rest[to] < direct[to].saturating_sub(leg);
    }
    !is_shorter
}

/// Whether no way over a third floor is shorter than the way from this floor.
fn is_row_direct(floors: u32, times: &[u64], from: u32) -> bool
    requires whole { length times.now ≡ floors * floors }
    requires from_floor { from < floors }
    ensures { IsTrue result ↔ IsRowDirect (square_of floors times.now) from }
{
    let direct = row_of(floors, times, from);
    for over in 0..floors {
        if !is_leg_direct(direct[over as usize], row_of(floors, times, over), direct) {
            return false;
        }
    }
    true
}

/// Whether no way over a third floor is shorter, in a square of times in ms, row after row.
pub fn are_rows_direct(floors: u32, times: &[u64]) -> bool
    requires { length times.now ≡ floors * floors }
    ensures { IsTrue result ↔ AreRowsDirect (square_of floors times.now) }
{
    for from in 0..floors {
        if !is_row_direct(floors, times, from) {
            return false;
        }
    }
    true
}

fn is_travel_square(floors: u32, times: &[u64]) -> bool
    ensures { IsTrue result ↔ IsTravelSquare (square_of floors times.now) }
{
    2 <= floors
        && floors <= 64
        && times.len() == floors as usize * floors as usize
        && are_rows(floors, times)
        && are_rows_direct(floors, times)
}
