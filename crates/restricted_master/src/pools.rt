//! Pools of tours.

ghost use Rattle.std.specs.Prelude.{◌≡◌, ℕ, ◌≤◌, ◌<◌, IfOk, length, option_copied, slice_get, All};
ghost use Rattle.elevator_model.specs.Snapshot.{car_count};
ghost use Rattle.elevator_model.specs.Tours.{IsFeasible};

use crate::columns::{CarColumns, Column, Columns, least_reduced_cost};
use call_state::Snapshot;
use car_search::CarChoice;
use elevator_model::{MOST_CALLS, Tour};
use price_scale::Price;
use std::alloc::{AllocError, Global};
use std::marker::Model;

/// Feasible tours of the cars of a snapshot: of each car at most 32, no two the same, the oldest first.
///
/// Contracts see it as its snapshot and, for each car, a list of tours. What a tour costs and the calls that
/// it takes are laid out when it is put in.
#[derive(Drop)]
pub struct Pool<'a> {
    snapshot: &'a Snapshot,
    cars: Vec<Columns>,
}

impl<'a> Model for Pool<'a> {
    ghost use Rattle.std.specs.Prelude.{map};
    ghost use Rattle.restricted_master.specs.Pools.{TourPool};

    ghost Value = { TourPool };

    ghost use Rattle.restricted_master.specs.Columns.{tours_of};
    ghost use Rattle.restricted_master.specs.Pools.{AreColumns};

    ghost view = { λ p. record { snapshot = p.snapshot.now; tours = map tours_of p.cars.items } };

    ghost invariant = { λ p. AreColumns p.snapshot.now p.cars.items };
}

impl<'a> Pool<'a> {
    ghost use Rattle.restricted_master.specs.Choices.{AreCandidates};
    ghost use Rattle.car_search.specs.Choosing.{IsRising};
    ghost use Rattle.restricted_master.specs.Columns.{IsColumn, tours_of};
    ghost use Rattle.restricted_master.specs.Priced.{IsPriced};
    ghost use Rattle.restricted_master.specs.Pools.{IsEmptyPool, IsPool, tours_of_car, with_tour_of_car};

    /// A pool without tours. It fails only where there is no memory left.
    pub fn new(alloc: Global, snapshot: &'a Snapshot) -> Result<Self, AllocError>
        ensures { IfOk result (IsEmptyPool snapshot.now) }
    {
        let count = snapshot.building().cars().len();
        let mut cars = Vec::with_capacity(alloc, count)?;
        for _ in 0..count {
            cars.push(Columns::new(alloc)?)?;
        }
        Ok(Pool { snapshot, cars })
    }

    /// The snapshot whose tours the pool holds.
    pub fn snapshot(&self) -> &'a Snapshot
        ensures value { result.now ≡ self.now.snapshot }
        ensures pool { IsPool self.now }
    {
        prove!(self.snapshot.calls().len() <= MOST_CALLS);
        self.snapshot
    }

    /// The car's tour at a place, the oldest at 0, where there is one.
    pub fn tour(&self, car: u32, place: usize) -> Option<&Tour>
        ensures { option_copied result ≡ slice_get (tours_of_car self.now car) place }
    {
        let columns = self.cars.get(car as usize)?;
        let column = columns.as_slice().get(place)?;
        Some(&column.tour)
    }

    /// The car's columns, the oldest first: each is a feasible tour of the car, with its cost and with
    /// exactly the calls that board in it.
    pub fn columns(&self, car: u32) -> &[Column]
        requires { car < car_count self.now.snapshot }
        ensures tours { tours_of result.now ≡ tours_of_car self.now car }
        ensures columns { All (IsColumn self.now.snapshot car) result.now }
    {
        let columns = &self.cars[car as usize];
        columns.as_slice()
    }

    /// How many cars there are.
    pub(crate) fn cars(&self) -> usize
        ensures cars { result ≡ car_count self.now.snapshot }
    {
        self.cars.len()
    }

    /// The car's tours as candidates at these prices, by rising reduced cost.
    pub(crate) fn choice(
        &self,
        alloc: Global,
        car: usize,
        prices: &[Price],
    ) -> Result<CarColumns, AllocError>
        requires car { car < car_count self.now.snapshot }
        requires few { length prices.now ≤ MOST_CALLS }
        ensures candidates { IfOk result
            (λ x. AreCandidates self.now.snapshot car (tours_of_car self.now car) x.candidates.items) }
        ensures priced { IfOk result (IsPriced prices.now) }
        ensures rising { IfOk result (λ x. IsRising x.candidates.items) }
    {
        let choice = self.candidates(alloc, car, prices)?;
        Ok(choice.sorted())
    }

    /// The car's tours as candidates at these prices, in the order in which they were put in.
    fn candidates(
        &self,
        alloc: Global,
        car: usize,
        prices: &[Price],
    ) -> Result<CarColumns, AllocError>
        requires car { car < car_count self.now.snapshot }
        requires few { length prices.now ≤ MOST_CALLS }
        ensures candidates { IfOk result
            (λ x. AreCandidates self.now.snapshot car (tours_of_car self.now car) x.candidates.items) }
        ensures priced { IfOk result (IsPriced prices.now) }
    {
        let columns = self.cars[car].as_slice();
        let least = least_reduced_cost(columns, prices);
        let mut candidates = Vec::with_capacity(alloc, columns.len())?;
        for place in 0..columns.len() {
            candidates.push(columns[place].candidate(place, prices, least))?;
        }
        Ok(CarChoice { candidates, least })
    }

    /// Puts a feasible tour of the car in, as its newest. A tour that is there already is kept once, and the
    /// car's oldest tour is dropped for a 33rd. It takes no memory.
    pub fn put(&mut self, car: u32, tour: Tour)
        requires car { car < car_count self.old.snapshot }
        requires feasible { IsFeasible self.old.snapshot car tour }
        ensures { self.new ≡ with_tour_of_car self.old car tour }
    {
        let column = Column::new(self.snapshot, car, tour);
        let columns = &mut self.cars[car as usize];
        columns.put(column);
    }
}
