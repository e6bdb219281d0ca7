//! The tours of one car that a pool holds.

ghost use Rattle.std.specs.Prelude.{◌≡◌, ℕ, ◌≤◌, ◌<◌, [], IfOk, length, not, ◌*◌, ◌^◌, pos, neg_ℤ, ◌≤ℤ◌};
ghost use Rattle.std.specs.Prelude.{slice_index_or};
ghost use Rattle.elevator_model.specs.Snapshot.{car_count};
ghost use Rattle.elevator_model.specs.Tours.{IsFeasible};
ghost use Rattle.restricted_master.specs.declared.columns.Column.{Column};
ghost use Rattle.restricted_master.specs.Priced.{reduced_cost_of};

use crate::prices::prices_of;
use call_sets::CallSet;
use call_state::Snapshot;
use car_search::{Candidate, CarChoice};
use elevator_model::{MOST_CALLS, Tour};
use price_scale::{Price, scaled};
use std::alloc::{AllocError, Global};
use std::marker::Model;
use tour_cost::{calls_of, cost};

/// The most tours of one car that a pool holds.
pub const MOST_TOURS: usize = 32;

/// No reduced cost is greater, in thousandths of a cost unit: 10^18 cost units and 128 prices of 10^24.
const MOST_REDUCED_COST: i128 = 200_000_000_000_000_000_000_000_000;

/// A column of a car as a candidate: it stands for the column's place.
pub(crate) type PlacedColumn = Candidate<usize, CallSet>;

/// The columns of a car as candidates.
pub(crate) type CarColumns = CarChoice<usize, CallSet>;

/// A feasible tour of a car, with what a choice of tours asks of it.
#[derive(Drop)]
pub struct Column {
    /// The tour itself.
    pub tour: Tour,
    /// What the tour costs, in cost units.
    pub cost: u64,
    /// The calls that board in it.
    pub calls: CallSet,
}

impl Column {
    ghost use Rattle.car_search.specs.Choosing.{IsSmall};
    ghost use Rattle.restricted_master.specs.Columns.{IsColumn, same_tour};
    ghost use Rattle.restricted_master.specs.Priced.{candidate_of, reduced_cost_of};

    /// The column of a feasible tour of the car.
    pub(crate) fn new(snapshot: &Snapshot, car: u32, tour: Tour) -> Self
        requires car { car < car_count snapshot.now }
        requires feasible { IsFeasible snapshot.now car tour }
        ensures tour { result.tour ≡ tour }
        ensures column { IsColumn snapshot.now car result }
    {
        prove!(snapshot.calls().len() <= MOST_CALLS);
        Column {
            cost: cost(snapshot, car, &tour),
            calls: calls_of(&tour),
            tour,
        }
    }

    /// The reduced cost at these prices: what the tour costs without the prices of its calls, in thousandths
    /// of a cost unit.
    pub(crate) fn reduced_cost(&self, prices: &[Price]) -> i128
        requires few { length prices.now ≤ MOST_CALLS }
        requires small { self.now.cost ≤ 10 ^ 18 }
        ensures value { result ≡ reduced_cost_of prices.now self.now.cost self.now.calls }
        ensures low { neg_ℤ (pos (2 * 10 ^ 26)) ≤ℤ result }
        ensures high { result ≤ℤ pos (2 * 10 ^ 26) }
    {
        scaled(self.cost) - prices_of(prices, self.calls)
    }

    /// The column as a candidate, which stands at a place. `least` is the least reduced cost of the car.
    pub(crate) fn candidate(&self, place: usize, prices: &[Price], least: i128) -> PlacedColumn
        requires few { length prices.now ≤ MOST_CALLS }
        requires small { self.now.cost ≤ 10 ^ 18 }
        requires low { neg_ℤ (pos (2 * 10 ^ 26)) ≤ℤ least }
        requires least { least ≤ℤ reduced_cost_of prices.now self.now.cost self.now.calls }
        ensures value { result ≡ candidate_of prices.now least place self.now }
        ensures small { IsSmall result }
    {
        Candidate {
            item: place,
            cost: self.cost,
            calls: self.calls,
            excess: self.reduced_cost(prices) - least,
        }
    }

    /// Whether this is another tour.
    fn is_other(&self, tour: &Tour) -> bool
        ensures { result ≡ not (same_tour self.now.tour tour.now) }
    {
        self.tour != *tour
    }
}

/// At most 32 columns of one car, no two with the same tour, the oldest first.
#[derive(Drop)]
pub(crate) struct Columns {
    items: Vec<Column>,
}

impl Model for Columns {
    ghost use Rattle.std.specs.Prelude.{List, ◌≤◌, length, vec_capacity};
    ghost use Rattle.restricted_master.specs.declared.columns.Column.{Column};

    ghost Value = { List Column };

    ghost view = { λ c. c.items.items };

    ghost invariant = { λ c. (length c.items.items ≤ 32) × (32 ≤ vec_capacity c.items) };
}

impl Columns {
    ghost use Rattle.restricted_master.specs.Columns.{with_column};

    /// No columns, with room for all that it may hold.
    pub(crate) fn new(alloc: Global) -> Result<Self, AllocError>
        ensures { IfOk result (λ columns. columns ≡ []) }
    {
        Ok(Columns {
            items: Vec::with_capacity(alloc, MOST_TOURS)?,
        })
    }

    /// The columns, the oldest first.
    pub(crate) fn as_slice(&self) -> &[Column]
        ensures value { result.now ≡ self.now }
        ensures few { length self.now ≤ MOST_TOURS }
    {
        self.items.as_slice()
    }

    /// Puts the column in as the newest: one with the same tour goes, and else the oldest where there are 32.
    pub(crate) fn put(&mut self, column: Column)
        ensures value { self.new ≡ with_column self.old column }
        ensures few { length self.new ≤ MOST_TOURS }
    {
        self.items.retain(|other| other.is_other(&column.tour));
        if self.items.len() == MOST_TOURS {
            self.items.remove(0);
        }
        self.items.push_reserved(column);
    }
}

/// The least reduced cost of the columns at these prices, in thousandths of a cost unit.
pub(crate) fn least_reduced_cost(columns: &[Column], prices: &[Price]) -> i128
    requires few { length prices.now ≤ MOST_CALLS }
    requires small { (k : ℕ) (d : Column) → k < length columns.now
        → (slice_index_or columns.now k d).cost ≤ 10 ^ 18 }
    ensures least { (k : ℕ) (d : Column) → k < length columns.now
        → result ≤ℤ reduced_cost_of prices.now (slice_index_or columns.now k d).cost
        (slice_index_or columns.now k d).calls }
    ensures low { neg_ℤ (pos (2 * 10 ^ 26)) ≤ℤ result }
    ensures high { result ≤ℤ pos (2 * 10 ^ 26) }
{
    let mut least = MOST_REDUCED_COST;
    for column in columns {
        least = least.min(column.reduced_cost(prices));
    }
    least
}

/// The column of the least reduced cost at these prices, with that, in thousandths of a cost unit.
pub(crate) fn cheapest_column<'a>(
    columns: &'a [Column],
    prices: &[Price],
) -> Option<(&'a Column, i128)>
    requires few { length prices.now ≤ MOST_CALLS }
    requires small { (k : ℕ) (d : Column) → k < length columns.now
        → (slice_index_or columns.now k d).cost ≤ 10 ^ 18 }
{
    let mut cheapest = None;
    let mut least = i128::MAX;
    for column in columns {
        let reduced_cost = column.reduced_cost(prices);
        if reduced_cost < least {
            least = reduced_cost;
            cheapest = Some((column, least));
        }
    }
    cheapest
}
