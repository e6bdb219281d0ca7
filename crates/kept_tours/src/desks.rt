//! Where a worker counts kept lists.

ghost use Rattle.std.specs.Prelude.{◌≡◌, ◌<◌, All, IfOk, IsTrue, length};
ghost use Rattle.elevator_model.specs.Snapshot.{car_count};
ghost use Rattle.search_model.specs.declared.Leaf.{Leaf as LeafValue};
ghost use Rattle.search_model.specs.Certificates.{claim_in, has_whole_lists, worth_in};
ghost use Rattle.search_model.specs.Nodes.{IsNodeOf};
ghost use Rattle.kept_tours.specs.Leaves.{IsDesk};

use crate::counts::Count;
use crate::entries::{Stake, write_prices, write_stakes};
use crate::scan::scan;
use assign_branch::Node;
use call_state::Snapshot;
use elevator_model::Tour;
use partial_tours::{Prefix, tour_of};
use price_scale::Price;
use pricing_bound::{Rates, StraightRides};
use search_model::Leaf;
use std::alloc::{AllocError, Global};
use tour_extension::Demand;

/// Where one worker counts kept lists: the partial tour that it is at, what each call costs alone, and the
/// prices, worths and claims of the leaf that is laid out. All memory is taken when it is made.
#[derive(Drop)]
pub struct Desk<'a> {
    pub snapshot: &'a Snapshot,
    prefix: Prefix<'a>,
    rates: Rates<'a>,
    prices: Vec<Price>,
    stakes: Vec<Stake>,
    ghost own: { IsDesk snapshot.now prefix rates prices.items stakes.items },
}

impl<'a> Desk<'a> {
    ghost use Rattle.kept_tours.specs.Counting.{Holds, IsCounted, StaysLaidOut, found_tour};

    /// A desk for the snapshot's leaves. It fails only where there is no memory left.
    pub fn new(alloc: Global, snapshot: &'a Snapshot) -> Result<Self, AllocError>
        ensures { IfOk result (λ desk. desk.snapshot.now ≡ snapshot.now) }
    {
        let calls = snapshot.calls().len();
        let cars = snapshot.building().cars().len();
        Ok(Desk {
            snapshot,
            prefix: Prefix::new(alloc, snapshot, 0)?,
            rates: Rates::new(alloc, snapshot)?,
            prices: no_prices(alloc, calls)?,
            stakes: no_stakes(alloc, cars)?,
        })
    }

    /// Takes the leaf's prices, worths and claims: one for each call and for each car.
    pub fn lay_out(&mut self, leaf: &Leaf)
        requires { IsTrue (has_whole_lists self.old.snapshot.now leaf.now) }
        ensures snapshot { self.new.snapshot.now ≡ self.old.snapshot.now }
        ensures holds { Holds leaf.now self.new }
    {
        write_prices(leaf.prices.as_slice(), self.prices.as_mut_slice());
        write_stakes(leaf.worths.as_slice(), self.stakes.as_mut_slice());
        self.rates.lay_out(self.prices.as_slice());
    }

    /// What the leaf that is laid out states of a car.
    pub fn stake(&self, car: u32) -> Stake
        requires { car < car_count self.now.snapshot.now }
        ensures worth { (leaf : LeafValue) → Holds leaf self.now → result.worth ≡ worth_in leaf car }
        ensures claim { (leaf : LeafValue) → Holds leaf self.now → result.claim ≡ claim_in leaf car }
    {
        self.stakes[car as usize]
    }

    /// How long the kept list of a car in a node is for this worth, up to a limit, at the prices that are
    /// laid out: the list is visited from its first partial tour on, until one ends a tour of a value below
    /// the worth, or one more than the limit is due.
    ///
    /// What is laid out stays. It takes no memory.
    pub fn count(&mut self, node: &Node, car: u32, worth: i128, limit: u64) -> Count
        requires node { IsNodeOf self.old.snapshot.now node.now }
        requires car { car < car_count self.old.snapshot.now }
        ensures snapshot { self.new.snapshot.now ≡ self.old.snapshot.now }
        ensures stays { StaysLaidOut self.old self.new }
        ensures counted { (leaf : LeafValue) → Holds leaf self.old
            → IsCounted self.old.snapshot.now node.now leaf car worth limit (found_tour self.new) result }
    {
        // For the proof: its readers say that the snapshot is accepted.
        let _calls = self.snapshot.calls();
        let demand = Demand {
            allowed: node.allowed(car),
            required: node.required(car),
        };
        self.prefix.restart(car);
        let bound = StraightRides::new(&self.rates, car, demand.allowed, demand.required);
        let visits = scan(&bound, &demand, worth, limit, &mut self.prefix);
        Count::of_visits(visits, limit)
    }

    /// The tour that the last count found, where that was one under the worth.
    ///
    /// It fails only where there is no memory left.
    pub fn tour(&self, alloc: Global) -> Result<Tour, AllocError>
        ensures { IfOk result (λ tour. tour ≡ found_tour self.now) }
    {
        tour_of(alloc, self.prefix.moves())
    }
}

/// As many desks as there are workers. It fails only where there is no memory left.
pub fn desks_for<'a>(
    alloc: Global,
    snapshot: &'a Snapshot,
    workers: u32,
) -> Result<Vec<Desk<'a>>, AllocError>
    ensures count { IfOk result (λ desks. length desks.items ≡ workers) }
    ensures own { IfOk result (λ desks. All (λ desk. desk.snapshot.now ≡ snapshot.now) desks.items) }
{
    let mut desks = Vec::new(alloc);
    for _worker in 0..workers {
        desks.push(Desk::new(alloc, snapshot)?)?;
    }
    Ok(desks)
}

/// The price 0.
fn no_price() -> Price {
    let Some(price) = Price::new(0) else {
        unreachable!()
    };
    price
}

/// Room for a price for each call.
fn no_prices(alloc: Global, calls: usize) -> Result<Vec<Price>, AllocError>
    ensures { IfOk result (λ prices. length prices.items ≡ calls) }
{
    let mut prices = Vec::new(alloc);
    for _call in 0..calls {
        prices.push(no_price())?;
    }
    Ok(prices)
}

/// Room for a stake for each car.
fn no_stakes(alloc: Global, cars: usize) -> Result<Vec<Stake>, AllocError>
    ensures { IfOk result (λ stakes. length stakes.items ≡ cars) }
{
    let mut stakes = Vec::new(alloc);
    for _car in 0..cars {
        stakes.push(Stake { worth: 0, claim: 0 })?;
    }
    Ok(stakes)
}
