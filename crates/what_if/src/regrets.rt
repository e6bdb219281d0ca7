//! What it costs to send the nearest car in place of the best one.

ghost use Rattle.std.specs.Prelude.{◌≡◌, ◌<◌, ◌↔◌, ◌&&◌, ◌-ℤ◌, ℕ, IsTrue, length, true};
ghost use Rattle.what_if.specs.WhatIf.{AreSettled, HasEnds, extra_at as extra_at_lem, has_extra};
ghost use Rattle.what_if.specs.WhatIf.{high_of, low_of};
ghost use Rattle.what_if.specs.Ends.{IsFirstLeast, IsRanged, has_extra_at, is_less, low_at};

use crate::extras::{Extra, extra_at};

/// How much more the call costs with a car than with the best one lies between these, both included, in cost
/// units.
#[derive(Clone, Copy)]
pub struct Regret {
    pub car: u32,
    pub low: i128,
    pub high: i128,
}

/// Whether the car can take the call, for less than the cheapest so far, if there is one.
fn is_cheaper(extras: &[Extra], car: usize, cheapest: Option<usize>) -> bool
    ensures { result ≡ (has_extra_at extras.now car && is_less (low_at extras.now) car cheapest) }
{
    let extra = extra_at(extras, car);
    extra.has_extra()
        && match cheapest {
            Some(other) => extra.low() < extra_at(extras, other).low(),
            None => true,
        }
}

/// The car whose extra has the least low end.
fn cheapest_of(extras: &[Extra]) -> Option<usize>
    ensures { IsFirstLeast (has_extra_at extras.now) (low_at extras.now) (length extras.now) result }
{
    let mut cheapest = None;
    for car in 0..extras.len() {
        if is_cheaper(extras, car, cheapest) {
            cheapest = Some(car);
        }
    }
    cheapest
}

/// Whether no extra is known by its ends alone.
pub fn are_settled(extras: &[Extra]) -> bool
    ensures { IsTrue result ↔ AreSettled extras.now }
{
    for extra in extras {
        if !extra.is_settled() {
            return false;
        }
    }
    true
}

/// The greatest difference that the ends leave between the car and the cheapest one.
fn greatest_regret(extras: &[Extra], car: usize, cheapest: usize) -> i128
    requires { (c : ℕ) → IsRanged (extra_at_lem extras.now c) }
    ensures { result ≡ high_of (extra_at_lem extras.now car) -ℤ low_of (extra_at_lem extras.now cheapest) }
{
    extra_at(extras, car).high() - extra_at(extras, cheapest).low()
}

/// What it costs to send this car in place of the best one.
pub(crate) fn regret_of(extras: &[Extra], car: u32) -> Regret
    requires car { car < length extras.now }
    requires has_extra { has_extra (extra_at_lem extras.now car) ≡ true }
    requires ranged { (c : ℕ) → IsRanged (extra_at_lem extras.now c) }
    ensures car { result.car ≡ car }
    ensures ends { HasEnds extras.now result }
{
    let cheapest = match cheapest_of(extras) {
        Some(cheapest) => cheapest,
        None => unreachable!(),
    };
    let high = greatest_regret(extras, car as usize, cheapest);
    Regret {
        car,
        low: if are_settled(extras) { high } else { 0 },
        high,
    }
}
