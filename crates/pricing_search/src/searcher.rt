//! Searchers and their desks.

ghost use Rattle.std.specs.Prelude.{◌≡◌, ◌↔◌, ◌<◌, ◌≤◌, ◌^◌, ◌≤ℤ◌, false, length, true};
ghost use Rattle.elevator_model.specs.Snapshot.{car_count, call_count};
ghost use Rattle.search_model.specs.Nodes.{IsNodeOf};
ghost use Rattle.search_model.specs.Prices.{IsWorth, price_at};
ghost use Rattle.search_model.specs.Solving.{HasPartialTours, ReachesLeast};
ghost use Rattle.assign_branch.specs.Pricings.{IsWorthSize};
ghost use Rattle.pricing_search.specs.Searches.{HoldsPricing, IsDeskOf, IsPriced, bound_of_empty};

use crate::least::least_worth;
use crate::progress::Progress;
use crate::search::search;
use assign_branch::{Node, Priced, Pricer};
use call_state::Snapshot;
use elevator_model::Tour;
use partial_tours::{Prefix, tour_of};
use price_scale::Price;
use pricing_bound::{Rates, StraightRides};
use route_sums::{RouteRates, RouteSums};
use std::alloc::{AllocError, Global};
use tour_extension::Demand;

/// Prices the cars of a snapshot exactly: finds the tour of least value by a walk over the partial tours that
/// some tour of the node begins with and whose bound along the forced route is below the best value.
#[derive(Drop)]
pub struct Searcher<'a> {
    snapshot: &'a Snapshot,
}

/// Where a searcher works: the partial tour that it is at, what each call costs alone and with its least
/// ride, and how far it is. All memory is taken when it is made.
#[derive(Drop)]
pub struct Desk<'a> {
    prefix: Prefix<'a>,
    rates: Rates<'a>,
    route_rates: RouteRates,
    progress: Progress,
    has_priced: bool,
}

impl<'a> Searcher<'a> {
    /// The searcher of a snapshot.
    pub fn new(snapshot: &'a Snapshot) -> Self
        ensures { result.snapshot.now ≡ snapshot.now }
    {
        Searcher { snapshot }
    }

    /// What `price` does.
    fn price_car(
        &self,
        car: u32,
        node: &Node,
        prices: &[Price],
        most_tours: u64,
        desk: &mut Desk<'a>,
    ) -> Priced
        requires own { IsDeskOf self.now.snapshot.now desk.old.prefix desk.old.rates
            desk.old.route_rates desk.old.progress.found desk.old.has_priced }
        requires car { car < car_count self.now.snapshot.now }
        requires node { IsNodeOf self.now.snapshot.now node.now }
        requires prices { length prices.now ≡ call_count self.now.snapshot.now }
        requires most_tours { (1 ≤ most_tours) × (most_tours ≤ 10 ^ 18) }
        ensures own { IsDeskOf self.now.snapshot.now desk.new.prefix desk.new.rates
            desk.new.route_rates desk.new.progress.found desk.new.has_priced }
        ensures priced { IsPriced self.now.snapshot.now node.now car prices.now most_tours
            desk.new.progress.found desk.new.has_priced result }
    {
        let demand = Demand {
            allowed: node.allowed(car),
            required: node.required(car),
        };
        desk.prefix.restart(car);
        desk.rates.lay_out(prices);
        desk.route_rates
            .lay_out(self.snapshot, car, prices, node.required(car));
        desk.has_priced = true;
        // For the proof: each price is in its range.
        let _priced = desk.rates.snapshot();
        let rides = StraightRides::new(&desk.rates, car, demand.allowed, demand.required);
        let least = least_worth(&rides, &desk.prefix);
        let walk_bound = RouteSums::new(
            self.snapshot,
            &desk.route_rates,
            car,
            prices,
            demand.allowed,
            demand.required,
        );
        search(
            &rides,
            &walk_bound,
            &demand,
            most_tours,
            least,
            &mut desk.prefix,
            &mut desk.progress,
        )
    }
}

impl<'a> Pricer for Searcher<'a> {
    type Desk = Desk<'a>;

    ghost snapshot = { λ it. it.snapshot.now };

    ghost owns = { λ it desk. IsDeskOf it.snapshot.now desk.prefix desk.rates desk.route_rates
        desk.progress.found desk.has_priced };

    ghost holds = { λ it desk p. HoldsPricing it.snapshot.now desk.progress.found desk.has_priced p };

    fn desk(&self, alloc: Global) -> Result<Desk<'a>, AllocError> {
        // For the proof: their readers say that the snapshot is accepted, so there is a first car.
        let _calls = self.snapshot.calls();
        Ok(Desk {
            prefix: Prefix::new(alloc, self.snapshot, 0)?,
            rates: Rates::new(alloc, self.snapshot)?,
            route_rates: RouteRates::new(alloc, self.snapshot)?,
            progress: Progress::new(alloc)?,
            has_priced: false,
        })
    }

    /// Beside what every pricer promises, the worth, whether the limit was reached or not, is no less than
    /// the completion bound of the empty partial tour (`bound`).
    fn price(
        &self,
        car: u32,
        node: &Node,
        prices: &[Price],
        most_tours: u64,
        desk: &mut Desk<'a>,
    ) -> Priced
        requires own { IsDeskOf self.now.snapshot.now desk.old.prefix desk.old.rates
            desk.old.route_rates desk.old.progress.found desk.old.has_priced }
        requires car { car < car_count self.now.snapshot.now }
        requires node { IsNodeOf self.now.snapshot.now node.now }
        requires prices { length prices.now ≡ call_count self.now.snapshot.now }
        requires most_tours { (1 ≤ most_tours) × (most_tours ≤ 10 ^ 18) }
        ensures own { IsDeskOf self.now.snapshot.now desk.new.prefix desk.new.rates
            desk.new.route_rates desk.new.progress.found desk.new.has_priced }
        ensures held { HoldsPricing self.now.snapshot.now desk.new.progress.found desk.new.has_priced
            (record { car = car; node = node.now; prices = prices.now; answer = result }) }
        ensures worth { IsWorth self.now.snapshot.now node.now car (price_at prices.now) result.worth }
        ensures size { IsWorthSize result.worth }
        ensures visits { (1 ≤ result.visits) × (result.visits ≤ most_tours) }
        ensures least { result.spent ≡ false
            → ReachesLeast self.now.snapshot.now node.now car (price_at prices.now) result.worth }
        ensures spent { result.spent ≡ true
            → HasPartialTours self.now.snapshot.now node.now car most_tours }
        ensures reached { (result.spent ≡ true) ↔ (result.visits ≡ most_tours) }
        ensures bound { bound_of_empty self.now.snapshot.now node.now car prices.now ≤ℤ result.worth }
    {
        self.price_car(car, node, prices, most_tours, desk)
    }

    fn tour(&self, alloc: Global, desk: &Desk<'a>) -> Result<Option<Tour>, AllocError> {
        if !desk.has_priced {
            return Ok(None);
        }
        Ok(Some(tour_of(alloc, desk.progress.found.moves())?))
    }
}
