//! How many checks were made, and how many failed.

use case_kit::{Checks, are_right, print_kinds};
use std::io;

/// What all comparisons came to.
#[derive(Clone, Copy, Default)]
pub(crate) struct Counts {
    /// How many snapshots were compared.
    pub(crate) snapshots: u64,
    /// How many that were drawn break a rule of buildings or snapshots.
    pub(crate) refused: u64,
    /// The judge takes each listed tour.
    pub(crate) listed: Checks,
    /// The worth is the least value, and the limit was not reached.
    pub(crate) least: Checks,
    /// The tour is in the node and has the worth.
    pub(crate) tours: Checks,
    /// There are no more visits than partial tours that tours of the node begin with.
    pub(crate) visits: Checks,
    /// With a limit, the visits are at most that, and as many exactly where it was reached.
    pub(crate) limits: Checks,
    /// With a limit, the worth is at most the least value and at least the bound of the empty partial tour.
    pub(crate) bounds: Checks,
    /// With a limit that was not reached, the worth is the least value.
    pub(crate) unspent: Checks,
    /// With a limit, a tour that is given is in the node, and has the worth where the limit was not reached.
    pub(crate) given: Checks,
    /// With the limit 1 there is one visit, and the limit was reached.
    pub(crate) first: Checks,
    /// A case that was worked out by hand.
    pub(crate) worked: Checks,
    /// All visits of the pricings without a limit.
    pub(crate) all_visits: u64,
    /// All partial tours that tours of the nodes begin with.
    pub(crate) all_begun: u64,
}

impl Counts {
    /// Prints the tally, a line for each kind of checks. Says whether no check failed, and there were some of
    /// each kind.
    pub(crate) fn print(&self, rt: &HostRuntime) -> io::Result<bool> {
        let kinds = [
            ("listed", self.listed),
            ("least", self.least),
            ("tours", self.tours),
            ("visits", self.visits),
            ("limits", self.limits),
            ("bounds", self.bounds),
            ("unspent", self.unspent),
            ("given", self.given),
            ("first", self.first),
            ("worked", self.worked),
        ];
        println!(rt; "snapshots {} refused {}", self.snapshots, self.refused)?;
        print_kinds(rt, &kinds)?;
        println!(rt; "visited {} of {}", self.all_visits, self.all_begun)?;
        Ok(are_right(&kinds))
    }
}
