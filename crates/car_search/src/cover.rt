//! What picks have to take, and which cars can take it.

ghost use Rattle.std.specs.Prelude.{◌≡◌, ℕ, ◌+◌, ◌<◌, ◌≤◌, length, false};
ghost use Rattle.call_sets.specs.Counting.{has};
ghost use Rattle.car_search.specs.Choosing.{AreDue, Reaches, TakesAll, reach_of};

use crate::candidates::CarChoice;
use crate::counts::CallCounts;
use call_sets::CallSet;
use elevator_model::MOST_CARS;

/// The calls that picks have to take, and those that the candidates of the cars from each one on can take.
#[derive(Clone, Copy)]
pub(crate) struct Cover {
    pub(crate) all: CallSet,
    /// By car. It has an entry more, for no car.
    reach: [CallSet; MOST_CARS as usize + 1],
}

impl Cover {
    /// The demand of all these calls on these cars, of which `car` is the first.
    pub(crate) fn new<T, C: CallCounts>(all: CallSet, cars: &[CarChoice<T, C>], car: usize) -> Self
        requires { car + length cars.now ≤ MOST_CARS }
        ensures all { result.all ≡ all }
        ensures reach { Reaches C.times (reach_of result) car cars.now }
    {
        match cars.split_first() {
            Some((first, later)) => Cover::new(all, later, car + 1).with_car(car, first),
            None => Cover {
                all,
                reach: [CallSet::empty(); MOST_CARS as usize + 1],
            },
        }
    }

    /// The demand with the car that comes before those that it has.
    fn with_car<T, C: CallCounts>(self, car: usize, choice: &CarChoice<T, C>) -> Self
        requires { car < MOST_CARS }
        ensures all { result.all ≡ self.all }
        ensures takes { TakesAll C.times choice.now.candidates.items (reach_of result car) }
        ensures later { (j : ℕ) → has (reach_of result car) j ≡ false
            → has (reach_of result (car + 1)) j ≡ false }
        ensures others { (d : ℕ) → (d ≡ car → ⊥) → reach_of result d ≡ reach_of self d }
    {
        self.with_calls(car, choice.calls())
    }

    /// The same, by the calls of the car's candidates.
    fn with_calls(self, car: usize, calls: CallSet) -> Self
        requires { car < MOST_CARS }
        ensures all { result.all ≡ self.all }
        ensures takes { (j : ℕ) → has (reach_of result car) j ≡ false → has calls j ≡ false }
        ensures later { (j : ℕ) → has (reach_of result car) j ≡ false
            → has (reach_of result (car + 1)) j ≡ false }
        ensures others { (d : ℕ) → (d ≡ car → ⊥) → reach_of result d ≡ reach_of self d }
    {
        let mut reach = self.reach;
        reach[car] = calls.union(reach[car + 1]);
        Cover {
            all: self.all,
            reach,
        }
    }

    /// The calls that have to be taken as often as they have to be once a car has its pick: no later car can
    /// take them.
    pub(crate) fn due(&self, car: usize) -> CallSet
        requires { car < MOST_CARS }
        ensures { AreDue (has self.now.all) (has result) (reach_of self.now (car + 1)) }
    {
        self.all.minus(self.reach[car + 1])
    }
}
