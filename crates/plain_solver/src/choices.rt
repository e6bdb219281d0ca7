//! The tours among which each car has a choice, and the cheapest choice.

ghost use Rattle.std.specs.Prelude.{◌≡◌, ℕ, ◌+◌, ◌*◌, ◌-◌, ◌^◌, ◌≤◌, ◌<◌, ◌↔◌, [], length, IsTrue, IfOk};
ghost use Rattle.std.specs.Prelude.{IfSome, true, false, slice_index_or};
ghost use Rattle.call_sets.specs.Counting.{has};
ghost use Rattle.elevator_model.specs.Snapshot.{car_count, call_count};
ghost use Rattle.elevator_model.specs.Tours.{IsFeasible};
ghost use Rattle.elevator_model.specs.Costs.{cost_of};
ghost use Rattle.elevator_model.specs.Plans.{is_boarded_in};
ghost use Rattle.plain_solver.specs.Rests.{AreChoices, AreChoicesFrom, IsCheapest, better_of, begun_with};
ghost use Rattle.plain_solver.specs.Rests.{IsSmallCost};

use crate::tours::feasible_tours;
use call_sets::CallSet;
use call_state::Snapshot;
use elevator_model::{MOST_CALLS, MOST_CARS, MOST_COST, Tour};
use std::alloc::{AllocError, Global};
use std::marker::Model;
use tour_cost::{calls_of, cost};

/// What a tour costs, in cost units, and the calls that it takes.
#[derive(Clone, Copy)]
pub(crate) struct Sums {
    pub(crate) cost: u64,
    pub(crate) calls: CallSet,
}

/// Every feasible tour of a car, and beside each its sums.
#[derive(Drop)]
pub(crate) struct Choices {
    pub(crate) tours: Vec<Tour>,
    pub(crate) sums: Vec<Sums>,
}

impl Choices {
    /// The choices of a car. The only error is that memory runs out.
    pub(crate) fn new(alloc: Global, snapshot: &Snapshot, car: u32) -> Result<Self, AllocError>
        requires { car < car_count snapshot.now }
        ensures { IfOk result
            (λ choices. AreChoices snapshot.now car choices.tours.items choices.sums.items) }
    {
        prove!(snapshot.calls().len() <= MOST_CALLS);
        let tours = feasible_tours(alloc, snapshot, car)?;
        let mut sums = Vec::new(alloc);
        for tour in &tours {
            sums.push(sums_of(snapshot, car, tour))?;
        }
        Ok(Choices { tours, sums })
    }
}

/// What a feasible tour costs and takes.
fn sums_of(snapshot: &Snapshot, car: u32, tour: &Tour) -> Sums
    requires car { car < car_count snapshot.now }
    requires feasible { IsFeasible snapshot.now car tour.now }
    ensures cost { result.cost ≡ cost_of snapshot.now car tour.now }
    ensures small { result.cost ≤ MOST_COST }
    ensures calls { (j : ℕ) → has result.calls j ≡ is_boarded_in tour.now j }
{
    prove!(snapshot.calls().len() <= MOST_CALLS);
    Sums {
        cost: cost(snapshot, car, tour),
        calls: calls_of(tour),
    }
}

/// Tours of the cars from one on, the last car's first, and what they cost together in cost units.
#[derive(Drop)]
pub(crate) struct Rest {
    tours: Vec<Tour>,
    cost: u64,
}

impl Model for Rest {
    ghost use Rattle.std.specs.Prelude.{reverse};
    ghost use Rattle.plain_solver.specs.Rests.{Chosen};

    ghost Value = { Chosen };

    ghost view = { λ r. record { tours = reverse r.tours.items; cost = r.cost } };
}

impl Rest {
    /// No tours.
    fn new(alloc: Global) -> Self
        ensures { result ≡ record { tours = []; cost = 0 } }
    {
        Rest {
            tours: Vec::new(alloc),
            cost: 0,
        }
    }

    /// What the tours cost.
    pub(crate) fn cost(&self) -> u64
        ensures { result ≡ self.now.cost }
    {
        self.cost
    }

    /// The tours in the order of the cars.
    pub(crate) fn into_tours(self) -> Vec<Tour>
        ensures { result.items ≡ self.tours }
    {
        let mut tours = self.tours;
        tours.reverse();
        tours
    }

    /// The tours with one before them, which has this cost.
    fn with(self, tour: Tour, cost: u64) -> Result<Self, AllocError>
        requires { cost + self.cost < 2 ^ 64 }
        ensures { IfOk result (λ rest. rest ≡ begun_with tour cost self) }
    {
        let Rest {
            mut tours,
            cost: so_far,
        } = self;
        tours.push(tour)?;
        Ok(Rest {
            tours,
            cost: cost + so_far,
        })
    }
}

/// Whether no call is in both sets.
fn are_apart(left: CallSet, right: CallSet) -> bool
    ensures { IsTrue result ↔ ((k : ℕ) → k < MOST_CALLS → has left k ≡ true → has right k ≡ false) }
{
    for call in 0..MOST_CALLS as u32 {
        if left.contains(call) && right.contains(call) {
            return false;
        }
    }
    true
}

/// The cheaper one of the best so far and a tour with the rest, where there is a rest.
fn better(
    alloc: Global,
    best: Option<Rest>,
    tour: &Tour,
    cost: u64,
    rest: Option<Rest>,
) -> Result<Option<Rest>, AllocError>
    requires { IfSome rest (λ rest. cost + rest.cost < 2 ^ 64) }
    ensures { IfOk result (λ better. better ≡ better_of best tour.now cost rest) }
{
    let Some(rest) = rest else { return Ok(best) };
    match best {
        Some(best) if best.cost <= cost + rest.cost => Ok(Some(best)),
        Some(_) | None => Ok(Some(rest.with(tour.copy(alloc)?, cost)?)),
    }
}

/// No tours, where each call is taken: what the cars after the last one need.
fn end_of(alloc: Global, snapshot: &Snapshot, taken: CallSet) -> Option<Rest>
    ensures cheapest { (c : ℕ) → c ≡ car_count snapshot.now
        → IsCheapest snapshot.now (has taken) c result }
    ensures small { IsSmallCost 0 result }
{
    prove!(snapshot.calls().len() <= MOST_CALLS);
    if taken.has_first(snapshot.calls().len()) {
        Some(Rest::new(alloc))
    } else {
        None
    }
}

/// The cheapest tours of the cars from `car` on, whose choices these are, that serve each call that is not
/// taken. None where no tours do. The only error is that memory runs out.
pub(crate) fn cheapest_rest(
    alloc: Global,
    snapshot: &Snapshot,
    choices: &[Choices],
    car: usize,
    taken: CallSet,
) -> Result<Option<Rest>, AllocError>
    requires choices { AreChoicesFrom snapshot.now car choices.now }
    requires few { car + length choices.now ≤ MOST_CARS }
    ensures cheapest { IfOk result (λ rest. IsCheapest snapshot.now (has taken) car rest) }
    ensures small { IfOk result (λ rest. IsSmallCost (length choices.now) rest) }
{
    let Some((first, later)) = choices.split_first() else {
        return Ok(end_of(alloc, snapshot, taken));
    };
    let mut best = None;
    for place in 0..first.tours.len() {
        let next = first.sums[place];
        if are_apart(next.calls, taken) {
            let with_next = taken.union(next.calls);
            let rest = cheapest_rest(alloc, snapshot, later, car + 1, with_next)?;
            best = better(alloc, best, &first.tours[place], next.cost, rest)?;
        }
    }
    Ok(best)
}
