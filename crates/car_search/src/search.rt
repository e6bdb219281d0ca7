//! The cheapest picks, depth first over the cars.

ghost use Rattle.std.specs.Prelude.{◌≡◌, ℕ, ◌+◌, ◌*◌, ◌<◌, ◌≤◌, ◌^◌, IfSome, MatchOption, All, length};
ghost use Rattle.std.specs.Prelude.{nat_lt, true, false, ◌||◌, is_some, pos, neg_ℤ, ◌≤ℤ◌};
ghost use Rattle.call_sets.specs.Counting.{has};
ghost use Rattle.car_search.specs.Counts.{AreWhole, no_times};
ghost use Rattle.car_search.specs.Choosing.{AreRising, AreSmall, IsBound, IsInRange, IsRising, IsSmall};
ghost use Rattle.car_search.specs.Choosing.{IsSelection, NoneBeats, Reaches, least_sum, pick_count};
ghost use Rattle.car_search.specs.Choosing.{reach_of, to_beat};

use crate::candidates::CarChoice;
use crate::counts::CallCounts;
use crate::cover::Cover;
use crate::selections::Selection;
use call_sets::CallSet;
use elevator_model::{MOST_CALLS, MOST_CARS};

/// The cheapest picks that were found, if any, and whether all tries were made.
#[derive(Clone, Copy)]
pub struct Outcome {
    pub picked: Option<Selection>,
    /// Cheaper picks may have been missed then.
    pub spent: bool,
}

impl Outcome {
    /// Whether there is nothing more to look for: picks were found, or no try is left.
    pub fn is_decided(&self) -> bool
        ensures { result ≡ (self.now.spent || is_some self.now.picked) }
    {
        self.spent || self.picked.is_some()
    }
}

/// The cheapest picks of the cars that take all these calls, each as often as it has to be, and cost less
/// than `beat`. None where no picks do. A partial selection is a pick for each of the first cars, for none up
/// to all; at most `limit` of them are tried. The outcome is spent only where there are as many.
///
/// No picks cost less than `bound` and their excess together, in thousandths of a cost unit.
pub fn cheapest_picks<T, C: CallCounts>(
    cars: &[CarChoice<T, C>],
    all: CallSet,
    bound: i128,
    beat: u64,
    limit: u64,
) -> Outcome
    requires few { length cars.now ≤ MOST_CARS }
    requires bound { IsBound C.times C.whole (has all) no_times cars.now bound }
    requires range { IsInRange 0 bound }
    requires small { All (λ x. All IsSmall x.candidates.items) cars.now }
    requires rising { All (λ x. IsRising x.candidates.items) cars.now }
    requires beat { 0 < beat }
    ensures selection { IfSome result.picked
        (IsSelection C.times C.whole (has all) no_times 0 cars.now beat) }
    ensures cheapest { result.spent ≡ false
        → NoneBeats C.times C.whole (has all) no_times cars.now (to_beat beat result.picked) }
    ensures spent { result.spent ≡ true → limit ≤ pick_count cars.now }
{
    let demand = Cover::new(all, cars, 0);
    let mut left = limit;
    let picked = cheapest(cars, 0, &demand, &C::none(), bound, beat, &mut left);
    Outcome {
        picked,
        spent: left == 0,
    }
}

/// The cheapest picks of the cars from `car` on, whose candidates these are, with which each call is taken as
/// often as it has to be, and which cost less than `beat`. None where no picks do. Each partial selection
/// that it tries takes one of the tries that are left; where none is left at the end, cheaper picks may have
/// been missed.
///
/// No picks cost less than `bound` and their excess together, in thousandths of a cost unit. Where that
/// reaches the cost to beat at a candidate, the car's later ones, whose excess is no less, are left out too.
fn cheapest<T, C: CallCounts>(
    cars: &[CarChoice<T, C>],
    car: usize,
    demand: &Cover,
    taken: &C,
    bound: i128,
    beat: u64,
    left: &mut u64,
) -> Option<Selection>
    requires few { car + length cars.now ≤ MOST_CARS }
    requires room { (j : ℕ) → C.times taken.now j ≤ C.whole }
    requires bound { IsBound C.times C.whole (has demand.now.all) (C.times taken.now) cars.now bound }
    requires range { IsInRange car bound }
    requires small { AreSmall cars.now }
    requires rising { AreRising cars.now }
    requires reach { Reaches C.times (reach_of demand.now) car cars.now }
    requires beat { 0 < beat }
    ensures selection { IfSome result
        (IsSelection C.times C.whole (has demand.now.all) (C.times taken.now) car cars.now beat) }
    ensures cheapest { 0 < left.new
        → NoneBeats C.times C.whole (has demand.now.all) (C.times taken.now) cars.now
        (to_beat beat result) }
    ensures tries { left.old ≤ left.new + pick_count cars.now }
    ensures fewer { left.new ≤ left.old }
{
    if *left == 0 {
        return None;
    }
    *left -= 1;
    let Some((first, later)) = cars.split_first() else {
        return end_of(demand.all, taken);
    };
    let due = demand.due(car);
    let mut least = beat;
    let mut best = None;
    for place in 0..first.candidates.len() {
        let next = &first.candidates[place];
        if next.reaches(bound, least) {
            return best;
        }
        if next.fits(taken, due, least) {
            let with_next = taken.with(&next.calls);
            let rest_bound = next.bound_of_rest(bound);
            let rest_beat = least - next.cost;
            let rest = cheapest(
                later,
                car + 1,
                demand,
                &with_next,
                rest_bound,
                rest_beat,
                left,
            );
            if let Some(rest) = rest {
                let better = rest.with(car, place, next.cost);
                least = better.cost;
                best = Some(better);
            }
        }
    }
    best
}

/// No picks, where each call is taken as often as it has to be: what the cars after the last one need.
fn end_of<C: CallCounts>(all: CallSet, taken: &C) -> Option<Selection>
    ensures { MatchOption result (AreWhole C.whole (has all) (C.times taken.now) → ⊥)
        (λ x. (x.cost ≡ 0) × AreWhole C.whole (has all) (C.times taken.now)) }
{
    if taken.are_whole(all) {
        Some(Selection::empty())
    } else {
        None
    }
}

/// The first calls, this many.
pub fn first_calls(count: usize) -> CallSet
    requires { count ≤ MOST_CALLS }
    ensures { (k : ℕ) → has result k ≡ nat_lt k count }
{
    let mut calls = CallSet::empty();
    for call in 0..count {
        calls = calls.with(call as u32);
    }
    calls
}

/// The least reduced costs of the cars together.
pub fn sum_of_least<T, C>(cars: &[CarChoice<T, C>]) -> i128
    requires few { length cars.now ≤ MOST_CARS }
    requires low { All (λ x. neg_ℤ (pos (4 * 10 ^ 26)) ≤ℤ x.least) cars.now }
    requires high { All (λ x. x.least ≤ℤ pos (4 * 10 ^ 26)) cars.now }
    ensures sum { result ≡ least_sum cars.now }
    ensures low { neg_ℤ (pos (4 * 10 ^ 26 * length cars.now)) ≤ℤ result }
    ensures high { result ≤ℤ pos (4 * 10 ^ 26 * length cars.now) }
{
    match cars.split_first() {
        Some((first, later)) => first.least + sum_of_least(later),
        None => 0,
    }
}
