//! How many checks were made, and how many failed.

use case_kit::{Checks, are_right, print_kinds};
use std::io;

/// What the comparisons of plans in halves came to.
#[derive(Clone, Copy, Default)]
pub(crate) struct PairCounts {
    /// How many pools were compared.
    pub(crate) pools: u64,
    /// Shares that are given have each car and each call twice, are tours of the pool in the order of the
    /// cars, and have the stated cost.
    pub(crate) plans: Checks,
    /// Where none are given, the cost is 0.
    pub(crate) none: Checks,
    /// Where the choice is not spent, it has the least cost, or there is no plan in halves.
    pub(crate) least: Checks,
    /// Where it is spent, the pool has as many partial pairings as the limit.
    pub(crate) spent: Checks,
    /// The limit 1 is reached before there is a plan in halves.
    pub(crate) first: Checks,
    /// How many pools had too many plans in halves to list.
    pub(crate) large: u64,
    /// In how many of these the limit was not reached.
    pub(crate) quick: u64,
}

impl PairCounts {
    /// Prints the tally, a line for each kind of checks. Says whether no check failed, and there were some of
    /// each kind.
    fn print(&self, rt: &HostRuntime) -> io::Result<bool> {
        let kinds = [
            ("pair plans", self.plans),
            ("no pair plans", self.none),
            ("least pair plans", self.least),
            ("spent on pairs", self.spent),
            ("first of pairs", self.first),
        ];
        println!(rt; "pools of pairs {}", self.pools)?;
        print_kinds(rt, &kinds)?;
        println!(rt;
            "large pools of pairs {} within 100 tries {}",
            self.large, self.quick
        )?;
        Ok(are_right(&kinds))
    }
}

/// What all comparisons came to.
#[derive(Clone, Copy, Default)]
pub(crate) struct Counts {
    /// How many pools were compared.
    pub(crate) pools: u64,
    /// A column is a feasible tour of its car, with its cost and the calls that board in it.
    pub(crate) columns: Checks,
    /// A plan that is given is feasible, made of tours of the pool, and has the stated cost.
    pub(crate) plans: Checks,
    /// Where no plan is given, the cost is 0.
    pub(crate) none: Checks,
    /// Where the choice is not spent, it is a plan of the least cost, or there is no plan.
    pub(crate) least: Checks,
    /// A plan that is to cost less than a target does so, and there is one of the least cost exactly where
    /// that is less, unless the choice is spent.
    pub(crate) below: Checks,
    /// Where it is spent, the pool has as many partial selections as the limit.
    pub(crate) spent: Checks,
    /// A limit that is great enough is not reached.
    pub(crate) ample: Checks,
    /// The limit 1 is reached before there is a plan.
    pub(crate) first: Checks,
    /// Of a pool with too many plans to list, a choice with a low limit has the least cost, unless it is
    /// spent.
    pub(crate) large: Checks,
    /// How many of these were not spent.
    pub(crate) quick: u64,
    /// A case that was worked out by hand.
    pub(crate) worked: Checks,
    pub(crate) pairs: PairCounts,
}

impl Counts {
    /// Prints the tally, a line for each kind of checks. Says whether no check failed, and there were some of
    /// each kind.
    pub(crate) fn print(&self, rt: &HostRuntime) -> io::Result<bool> {
        let kinds = [
            ("columns", self.columns),
            ("plans", self.plans),
            ("none", self.none),
            ("least", self.least),
            ("below", self.below),
            ("spent", self.spent),
            ("ample", self.ample),
            ("first", self.first),
            ("large", self.large),
            ("worked", self.worked),
        ];
        println!(rt; "pools {}", self.pools)?;
        print_kinds(rt, &kinds)?;
        println!(rt; "large pools within 20 tries {}", self.quick)?;
        let are_pairs_right = self.pairs.print(rt)?;
        Ok(are_right(&kinds) && are_pairs_right)
    }
}
