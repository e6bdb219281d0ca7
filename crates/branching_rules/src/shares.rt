//! How often each car took each call lately.

ghost use Rattle.std.specs.Prelude.{◌<◌, IfSome};

use crate::fixed::ONE;
use assign_branch::{CallSet, CarSet};
use elevator_model::{MOST_CALLS, MOST_CARS};
use std::alloc::{AllocError, Global};

/// For each call and car a share, in 2^20ths: of the pricings in which the car took the call, where 0 is never and
/// 2^20 always and the newest pricing makes a quarter of it, or of the tours of a relaxation.
#[derive(Drop)]
pub(crate) struct Shares {
    calls: usize,
    /// Car by car.
    items: Vec<i64>,
}

impl Shares {
    /// No car took a call. It fails only where there is no memory left.
    pub(crate) fn new(alloc: Global, calls: usize, cars: usize) -> Result<Self, AllocError> {
        Ok(Shares {
            calls,
            items: vec![in alloc; 0; calls.saturating_mul(cars)]?,
        })
    }

    /// A copy of it. It fails only where there is no memory left.
    pub(crate) fn copy(&self, alloc: Global) -> Result<Self, AllocError> {
        Ok(Shares {
            calls: self.calls,
            items: self.items.as_slice().to_vec(alloc)?,
        })
    }

    /// Where the share of a car in a call stands.
    fn place(&self, call: usize, car: usize) -> usize {
        car.saturating_mul(self.calls).saturating_add(call)
    }

    /// The share of a car in a call: 0 where there is none.
    fn of(&self, call: usize, car: usize) -> i64 {
        match self.items.get(self.place(call, car)) {
            Some(share) => *share,
            None => 0,
        }
    }

    /// Notes a tour of the car that takes these calls and no others.
    pub(crate) fn note(&mut self, car: usize, calls: CallSet) {
        for call in 0..self.calls.min(MOST_CALLS) {
            let place = self.place(call, car);
            if let Some(share) = self.items.get_mut(place) {
                let newest = if calls.contains(call as u32) { ONE } else { 0 };
                *share = share.saturating_add(newest.saturating_sub(*share) / 4);
            }
        }
    }

    /// Adds a share of a tour of the car that takes these calls, in 2^40ths.
    pub(crate) fn add(&mut self, car: usize, calls: CallSet, share: i64) {
        for call in calls.iter() {
            let place = self.place(call as usize, car);
            if let Some(sum) = self.items.get_mut(place) {
                *sum = sum.saturating_add(share / ONE);
            }
        }
    }

    /// The shares of the set's cars in a call, added up.
    pub(crate) fn sum(&self, call: usize, set: CarSet) -> i64 {
        let mut sum: i64 = 0;
        for car in set.iter() {
            sum = sum.saturating_add(self.of(call, car as usize));
        }
        sum
    }

    /// The car of the set that has the greatest share in a call, the first of equal ones.
    pub(crate) fn greatest(&self, call: usize, set: CarSet) -> Option<u32>
        ensures { IfSome result (λ car. car < MOST_CARS) }
    {
        let mut greatest = None;
        let mut most = -1;
        for car in 0..MOST_CARS {
            let share = self.of(call, car as usize);
            if set.contains(car) && most < share {
                most = share;
                greatest = Some(car);
            }
        }
        greatest
    }
}
