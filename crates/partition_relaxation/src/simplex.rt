//! A revised simplex.

use crate::columns::Column;
use crate::entries::Entry;
use crate::fixed::{DUAL_PARTS, WIDE_ONE};
use crate::leaving::leaving_row;
use crate::rows::Row;
use elevator_model::MOST_CARS;
use std::alloc::{AllocError, Global};

/// How many pivots are made at most.
const MOST_PIVOTS: u32 = 4_000;

/// How often all columns are looked through at most.
const MOST_TURNS: u32 = 1_000;

/// An entry lowers the cost only where its reduced cost is below this, in parts of a dual value: half a
/// thousandth of a cost unit.
const LEAST_GAIN: i128 = -DUAL_PARTS / 2;

/// How many cars there may be.
const CARS: usize = MOST_CARS as usize;

/// A column with its reduced cost.
#[derive(Clone, Copy)]
struct Promising {
    column: Column,
    reduced_cost: i128,
}

/// What the columns of the linear program cost.
#[derive(Drop)]
pub(crate) struct Costs {
    /// What each call costs that is not taken.
    pub(crate) untaken: Vec<i64>,
    /// What each call costs that is taken once more than it should be: what it gives back is below 0.
    pub(crate) doubled: Vec<i64>,
    /// What a car without a tour costs.
    pub(crate) idle: i64,
}

impl Costs {
    /// What an entry costs, in thousandths of a cost unit.
    pub(crate) fn of(&self, entry: &Entry) -> i64 {
        match entry {
            Entry::Untaken(call) => self.untaken.get(*call).copied().unwrap_or(0),
            Entry::Doubled(call) => self.doubled.get(*call).copied().unwrap_or(0),
            Entry::Idle(_) => self.idle,
            Entry::Tour(column) => column.cost,
        }
    }
}

/// A basis with its inverse and its dual values.
#[derive(Drop)]
pub(crate) struct Simplex {
    pub(crate) costs: Costs,
    pub(crate) calls: usize,
    pub(crate) rows: Vec<Row>,
    /// Call by call and then car by car, in 2^20ths of a thousandth of a cost unit.
    duals: Vec<i128>,
    /// By how much the share in each row falls where that of the entry that comes in rises by one.
    rates: Vec<i64>,
    /// The row of the last pivot.
    pivot_row: Vec<i64>,
    pivots: u32,
}

impl Simplex {
    /// The basis in which no call is taken and each car is without a tour. It fails only where there is no
    /// memory left.
    pub(crate) fn new(alloc: Global, costs: Costs, cars: usize) -> Result<Self, AllocError> {
        let calls = costs.untaken.len();
        let size = calls.saturating_add(cars);
        let mut rows = Vec::new(alloc);
        for place in 0..size {
            let basic = if place < calls {
                Entry::Untaken(place)
            } else {
                Entry::Idle(place - calls)
            };
            rows.push(Row::new(alloc, basic, place, size)?)?;
        }
        let mut duals = Vec::new(alloc);
        for row in &rows {
            duals.push(DUAL_PARTS.saturating_mul(i128::from(costs.of(&row.basic))))?;
        }
        Ok(Simplex {
            costs,
            calls,
            rows,
            duals,
            rates: vec![in alloc; 0; size]?,
            pivot_row: vec![in alloc; 0; size.saturating_add(1)]?,
            pivots: 0,
        })
    }

    /// The dual value at a place.
    fn dual(&self, place: usize) -> i128 {
        self.duals.get(place).copied().unwrap_or(0)
    }

    /// What an entry costs without the dual values of what it takes.
    fn reduced_cost(&self, entry: &Entry) -> i128 {
        let cost = DUAL_PARTS.saturating_mul(i128::from(self.costs.of(entry)));
        match entry {
            Entry::Untaken(call) => cost.saturating_sub(self.dual(*call)),
            Entry::Doubled(call) => cost.saturating_add(self.dual(*call)),
            Entry::Idle(car) => cost.saturating_sub(self.dual(self.calls.saturating_add(*car))),
            Entry::Tour(column) => {
                let car = self.calls.saturating_add(column.car as usize);
                let mut rest = cost.saturating_sub(self.dual(car));
                for call in column.calls.iter() {
                    rest = rest.saturating_sub(self.dual(call as usize));
                }
                rest
            }
        }
    }

    /// Finds the rates of an entry.
    fn find_rates(&mut self, entry: &Entry) {
        for (rate, row) in self.rates.iter_mut().zip(self.rows.iter()) {
            *rate = row.rate(entry, self.calls);
        }
    }

    /// Divides the row at a place by its rate, and notes it. None where an entry would not fit.
    fn divide_row(&mut self, place: usize, entry: Entry) -> Option<()> {
        let rate = *self.rates.get(place)?;
        let row = self.rows.get_mut(place)?;
        row.divide(rate)?;
        row.basic = entry;
        for (noted, part) in self.pivot_row.iter_mut().zip(row.parts.iter()) {
            *noted = *part;
        }
        Some(())
    }

    /// Takes the noted row, which stands at this place, away from the others as often as their rates say. None
    /// where an entry would not fit.
    fn clear_others(&mut self, place: usize) -> Option<()> {
        for (at, (row, rate)) in self.rows.iter_mut().zip(self.rates.iter()).enumerate() {
            if at != place && *rate != 0 {
                row.take_away(*rate, self.pivot_row.as_slice())?;
            }
        }
        Some(())
    }

    /// Moves the dual values so that an entry with this reduced cost has none. None where one would not fit.
    fn move_duals(&mut self, reduced_cost: i128) -> Option<()> {
        for (dual, part) in self.duals.iter_mut().zip(self.pivot_row.iter()) {
            let change = reduced_cost.checked_mul(i128::from(*part))? / WIDE_ONE;
            *dual = dual.checked_add(change)?;
        }
        Some(())
    }

    /// Brings an entry into the basis where that lowers the cost, and says whether it did. None where a number
    /// would not fit.
    fn enter(&mut self, entry: &Entry) -> Option<bool> {
        let reduced_cost = self.reduced_cost(entry);
        if LEAST_GAIN <= reduced_cost || MOST_PIVOTS <= self.pivots {
            return Some(false);
        }
        self.find_rates(entry);
        let Some(place) = leaving_row(&self.rows, &self.rates) else {
            return Some(false);
        };
        self.divide_row(place, *entry)?;
        self.clear_others(place)?;
        self.move_duals(reduced_cost)?;
        self.pivots = self.pivots.saturating_add(1);
        Some(true)
    }

    /// For each car the column of the least reduced cost, where that is below 0.
    fn most_promising(&self, columns: &[Column]) -> [Option<Promising>; CARS] {
        let mut best: [Option<Promising>; CARS] = [None; CARS];
        for column in columns {
            let reduced_cost = self.reduced_cost(&Entry::Tour(*column));
            if let Some(place) = best.get_mut(column.car as usize) {
                let least = place.map_or(LEAST_GAIN, |best| best.reduced_cost);
                if reduced_cost < least {
                    *place = Some(Promising {
                        column: *column,
                        reduced_cost,
                    });
                }
            }
        }
        best
    }

    /// Brings in what lowers the cost: of each car the column of the least reduced cost, and what stands for
    /// calls that are not taken or taken too often. It says whether anything did. None where a number would not
    /// fit.
    fn turn(&mut self, columns: &[Column]) -> Option<bool> {
        let best = self.most_promising(columns);
        let mut has_entered = false;
        for call in 0..self.calls {
            has_entered |= self.enter(&Entry::Untaken(call))?;
            has_entered |= self.enter(&Entry::Doubled(call))?;
        }
        for promising in best {
            if let Some(promising) = promising {
                has_entered |= self.enter(&Entry::Tour(promising.column))?;
            }
        }
        Some(has_entered)
    }

    /// Turns until nothing lowers the cost or a limit is reached; the columns of `first` are tried first. It says
    /// whether nothing lowers the cost any more. None where a number would not fit.
    pub(crate) fn run(&mut self, first: &[Column], columns: &[Column]) -> Option<bool> {
        for column in first {
            self.enter(&Entry::Tour(*column))?;
        }
        for _ in 0..MOST_TURNS {
            if !self.turn(columns)? {
                return Some(self.pivots < MOST_PIVOTS);
            }
        }
        Some(false)
    }

    /// The dual value at a place, from the costs of what is basic: in thousandths of a cost unit.
    pub(crate) fn exact_dual(&self, place: usize) -> i128 {
        let mut dual: i128 = 0;
        for row in &self.rows {
            let part = i128::from(self.costs.of(&row.basic)) * i128::from(row.part(place));
            dual = dual.saturating_add(part);
        }
        dual / WIDE_ONE
    }

    /// What the shares cost, in thousandths of a cost unit.
    pub(crate) fn value(&self) -> i128 {
        let mut value: i128 = 0;
        for row in &self.rows {
            let part = i128::from(self.costs.of(&row.basic)) * i128::from(row.share());
            value = value.saturating_add(part);
        }
        value / WIDE_ONE
    }
}
