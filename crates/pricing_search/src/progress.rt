//! How far a walk is.

ghost use Rattle.std.specs.Prelude.{◌≡◌, ◌<◌, ◌+◌, ◌-◌, ◌^◌, not, if◌then◌else◌, int_lt, nat_eq};

use crate::found::BestMoves;
use partial_tours::Prefix;
use std::alloc::{AllocError, Global};

/// How far a walk over the partial tours of a car is. Values and bounds are in thousandths of a cost unit.
#[derive(Drop)]
pub(crate) struct Progress {
    /// How many partial tours were visited.
    pub(crate) visits: u64,
    /// The least value of a tour that was found.
    pub(crate) best: i128,
    /// At most the bound of each partial tour that was left out for the limit.
    pub(crate) untried: i128,
    /// The moves of a tour that has the least value.
    pub(crate) found: BestMoves,
}

impl Progress {
    /// Takes note of the tour of a partial tour that has ended, with its value.
    pub(crate) fn note(&mut self, prefix: &Prefix, value: i128)
        ensures visits { self.new.visits ≡ self.old.visits }
        ensures untried { self.new.untried ≡ self.old.untried }
        ensures best { self.new.best ≡ (if int_lt value self.old.best then value else self.old.best) }
        ensures found { self.new.found
            ≡ (if int_lt value self.old.best then prefix.now.moves else self.old.found) }
    {
        if value < self.best {
            self.best = value;
            self.found.take(prefix);
        }
    }

    /// Counts one visit more.
    pub(crate) fn count(&mut self)
        requires { self.old.visits < 2 ^ 64 - 1 }
        ensures visits { self.new.visits ≡ self.old.visits + 1 }
        ensures best { self.new.best ≡ self.old.best }
        ensures untried { self.new.untried ≡ self.old.untried }
        ensures found { self.new.found ≡ self.old.found }
    {
        self.visits += 1;
    }

    /// Whether a bound is not below the best value.
    pub(crate) fn is_reached(&self, least: i128) -> bool
        ensures { result ≡ not (int_lt least self.now.best) }
    {
        least >= self.best
    }

    /// Takes note of the bound of a partial tour that is left out for the limit.
    pub(crate) fn leave_out(&mut self, least: i128)
        ensures visits { self.new.visits ≡ self.old.visits }
        ensures best { self.new.best ≡ self.old.best }
        ensures found { self.new.found ≡ self.old.found }
        ensures untried { self.new.untried
            ≡ (if int_lt least self.old.untried then least else self.old.untried) }
    {
        if least < self.untried {
            self.untried = least;
        }
    }

    /// Begins with the tour of a partial tour that has ended, with its value.
    pub(crate) fn begin(&mut self, prefix: &Prefix, value: i128)
        ensures visits { self.new.visits ≡ 0 }
        ensures best { self.new.best ≡ value }
        ensures untried { self.new.untried ≡ value }
        ensures found { self.new.found ≡ prefix.now.moves }
    {
        self.visits = 0;
        self.best = value;
        self.untried = value;
        self.found.take(prefix);
    }

    /// The least of the best value and of what was left out.
    pub(crate) fn worth(&self) -> i128
        ensures { result ≡ (if int_lt self.now.untried self.now.best
            then self.now.untried else self.now.best) }
    {
        if self.untried < self.best {
            self.untried
        } else {
            self.best
        }
    }

    /// Nothing visited, and no tour found.
    pub(crate) fn new(alloc: Global) -> Result<Self, AllocError> {
        Ok(Progress {
            visits: 0,
            best: 0,
            untried: 0,
            found: BestMoves::new(alloc)?,
        })
    }

    /// How many partial tours were visited: at least one, since the empty one always is.
    pub(crate) fn visits(&self) -> u64
        ensures { result ≡ (if nat_eq self.now.visits 0 then 1 else self.now.visits) }
    {
        if self.visits == 0 { 1 } else { self.visits }
    }
}
