//! What the calls of a snapshot cost one car and are worth to it, laid out once for all its partial tours.

ghost use Rattle.std.specs.Prelude.{◌≡◌, ℕ, ℤ, pos, neg_ℤ, ◌+◌, ◌-◌, ◌*◌, ◌^◌, ◌<◌, ◌≤◌, ◌≤ℤ◌, ◌-ℤ◌};
ghost use Rattle.std.specs.Prelude.{false, true, IfOk, length, slice_index, slice_index_or};
ghost use Rattle.call_sets.specs.Counting.{has};
ghost use Rattle.elevator_model.specs.Snapshot.{call_count, car_count};
ghost use Rattle.route_bound.specs.ForcedRoute.{least_ride as least_ride_lem};
ghost use Rattle.price_scale.specs.Scale.{IsPrice};
ghost use Rattle.search_model.specs.Prices.{price_at, scaled as scaled_lem};
ghost use Rattle.route_sums.specs.CallRates.{AreCallRates, HasRoomFor, IsCallRate, IsLaidOut};
ghost use Rattle.route_sums.specs.Rows.{cost_at, no_term};

use crate::origins::{below_table, upward_calls};
use crate::rows::{RowTerm, has_row, no_sets, no_terms, set_apart, set_terms};
use crate::stands::LATEST_OPEN;
use call_sets::CallSet;
use call_state::Snapshot;
use elevator_model::MOST_CALLS;
use price_scale::{Price, scaled};
use std::alloc::{AllocError, Global};
use std::marker::Model;

/// What a call costs that rides no longer than it has to, by the moment at which it boards: cost units for
/// each ms past its release, more for each ms past its patience, and what the ride costs. Moments are in ms.
#[derive(Clone, Copy)]
pub(crate) struct CallRate {
    /// The floor where it begins.
    pub(crate) origin: u32,
    /// Whether a tour has to board it.
    pub(crate) is_required: bool,
    pub(crate) released: u64,
    /// The moment at which its patience ends.
    late: u64,
    pub(crate) wait: u64,
    over: u64,
    /// What the least ride costs, in cost units.
    pub(crate) ride: u64,
    /// Its price, in thousandths of a cost unit.
    pub(crate) price: i128,
    /// From this moment on it adds nothing.
    pub(crate) enough: u64,
    /// Whether the rows have its terms.
    pub(crate) has_row: bool,
}

impl CallRate {
    /// What the call costs that boards at this moment, in cost units.
    fn cost(&self, boarded: u64) -> u64
        requires wait { self.now.wait ≤ 8000 }
        requires over { self.now.over ≤ 8000 }
        requires ride { self.now.ride ≤ 1600000000000 }
        requires early { boarded ≤ LATEST_OPEN }
        ensures value { result ≡ cost_at self.now boarded }
        ensures small { result ≤ 1600000000000000 }
    {
        self.wait * boarded.saturating_sub(self.released)
            + self.over * boarded.saturating_sub(self.late)
            + self.ride
    }

    /// The same without its price, in thousandths of a cost unit.
    pub(crate) fn term(&self, boarded: u64) -> i128
        requires wait { self.now.wait ≤ 8000 }
        requires over { self.now.over ≤ 8000 }
        requires ride { self.now.ride ≤ 1600000000000 }
        requires price { IsPrice self.now.price }
        requires early { boarded ≤ LATEST_OPEN }
        ensures value { result ≡ scaled_lem (cost_at self.now boarded) -ℤ self.now.price }
        ensures low { neg_ℤ (pos (2 * 10 ^ 24)) ≤ℤ result }
        ensures high { result ≤ℤ pos (2 * 10 ^ 24) }
    {
        scaled(self.cost(boarded)) - self.price
    }
}

/// The least time in ms from the boarding of a call to its delivery.
fn least_ride(snapshot: &Snapshot, car: u32, call: u32) -> u64
    requires car { car < car_count snapshot.now }
    requires call { call < call_count snapshot.now }
    ensures value { result ≡ least_ride_lem snapshot.now car call }
    ensures short { result ≤ 200000000 }
{
    let spec = snapshot.spec(car);
    let rider = &snapshot.calls()[call as usize];
    let way = snapshot
        .building()
        .travel()
        .time(rider.origin, rider.destination);
    spec.boarding * rider.persons as u64 + spec.closing + way + spec.opening
}

/// No wait lifts a term to 0 that is below this.
const LOWEST: i128 = -10_000_000_000_000_000_000;

/// How far a term is below 0 that is not far below.
fn depth_of(term: i128) -> u64
    requires low { neg_ℤ (pos (10 ^ 19)) ≤ℤ term }
    requires high { term ≤ℤ pos 0 }
    ensures { pos result ≡ neg_ℤ term }
{
    (-term) as u64
}

/// A moment from which on a call costs no less than its price, by its wait alone; for a required one none
/// that comes.
fn enough_of(released: u64, wait: u64, ride: u64, price: i128, is_required: bool) -> u64
    requires released { released ≤ 1000000000 }
    requires wait { wait ≤ 8000 }
    requires ride { ride ≤ 1600000000000 }
    requires price { IsPrice price }
    ensures { (k : ℕ) → k ≤ LATEST_OPEN → result ≤ k → (is_required ≡ false)
        × (pos 0 ≤ℤ (scaled_lem (wait * (k - released) + ride) -ℤ price)) }
{
    if is_required || wait == 0 {
        return u64::MAX;
    }
    let term = scaled(ride) - price;
    if term >= 0 {
        return 0;
    }
    if term < LOWEST {
        return u64::MAX;
    }
    released + depth_of(term) / (1000 * wait) + 1
}

/// The rate of a call for a car at a price.
fn rate_of(snapshot: &Snapshot, car: u32, call: u32, price: i128, is_required: bool) -> CallRate
    requires car { car < car_count snapshot.now }
    requires call { call < call_count snapshot.now }
    requires price { IsPrice price }
    ensures { IsCallRate snapshot.now car call price is_required result }
{
    let building = snapshot.building();
    let rider = &snapshot.calls()[call as usize];
    let persons = rider.persons as u64;
    let wait = persons * building.wait_weight();
    let over = persons * building.patience_weight();
    let ride = persons * building.travel_weight() * least_ride(snapshot, car, call);
    CallRate {
        origin: rider.origin,
        is_required,
        released: rider.released,
        late: rider.released + building.patience(),
        wait,
        over,
        ride,
        price,
        enough: enough_of(rider.released, wait, ride, price, is_required),
        has_row: has_row(is_required, over, price),
    }
}

/// The price of a call, in thousandths of a cost unit.
fn price_of(prices: &[Price], call: usize) -> i128
    requires { call < length prices.now }
    ensures value { result ≡ price_at prices.now call }
    ensures range { IsPrice result }
{
    prices[call].value()
}

/// Puts the rates of the calls for a car in the places of those that are there.
fn set_rates(
    rates: &mut [CallRate],
    snapshot: &Snapshot,
    car: u32,
    prices: &[Price],
    required: CallSet,
)
    requires size { length rates.old ≡ call_count snapshot.now }
    requires few { length prices.now ≤ MOST_CALLS }
    requires car { car < car_count snapshot.now }
    requires prices { length prices.now ≡ call_count snapshot.now }
    ensures { AreCallRates snapshot.now car (price_at prices.now) (has required) rates.new }
{
    for j in 0..prices.len() {
        let call = j as u32;
        rates[j] = rate_of(
            snapshot,
            car,
            call,
            price_of(prices, j),
            required.contains(call),
        );
    }
}

/// As many rates as there are calls, of no meaning yet.
fn no_rates(alloc: Global, calls: usize) -> Result<Vec<CallRate>, AllocError>
    ensures { IfOk result (λ rates. length rates.items ≡ calls) }
{
    let mut rates = Vec::new(alloc);
    for j in 0..calls {
        rates.push(CallRate {
            origin: 0,
            is_required: false,
            released: 0,
            late: 0,
            wait: 0,
            over: 0,
            ride: 0,
            price: 0,
            enough: 0,
            has_row: false,
        })?;
    }
    Ok(rates)
}

/// The calls of a snapshot by way and origin, and their rates for one car and its prices. All memory is taken
/// when it is made.
#[derive(Drop)]
pub struct RouteRates {
    /// The calls that go up.
    upward: CallSet,
    /// For each floor up to one above the highest the calls that begin below it.
    below: Vec<CallSet>,
    rates: Vec<CallRate>,
    /// For each floor the calls that have a row and begin elsewhere.
    apart: Vec<CallSet>,
    /// For each floor its row: the terms of the calls, in their order.
    terms: Vec<RowTerm>,
}

impl Model for RouteRates {
    ghost use Rattle.route_sums.specs.CallRates.{RouteRated};

    ghost Value = { RouteRated };

    ghost view = { λ r. record {
      upward = r.upward;
      below = r.below.items;
      rates = r.rates.items;
      apart = r.apart.items;
      terms = r.terms.items;
    } };
}

impl RouteRates {
    /// Lays out the origins of the calls of a snapshot, and takes room for their rates. The only error is that
    /// memory runs out.
    pub fn new(alloc: Global, snapshot: &Snapshot) -> Result<Self, AllocError>
        ensures { IfOk result (λ it. HasRoomFor snapshot.now it) }
    {
        let upward = upward_calls(snapshot);
        let below = below_table(alloc, snapshot)?;
        let calls = snapshot.calls().len();
        let floors = snapshot.building().travel().floors() as usize;
        let rates = no_rates(alloc, calls)?;
        let apart = no_sets(alloc, floors)?;
        let terms = no_terms(alloc, floors * calls)?;
        Ok(RouteRates {
            upward,
            below,
            rates,
            apart,
            terms,
        })
    }

    /// Takes a car, a price for each call in their order, and the calls that it has to board. It takes no
    /// memory.
    pub fn lay_out(&mut self, snapshot: &Snapshot, car: u32, prices: &[Price], required: CallSet)
        requires room { HasRoomFor snapshot.now self.old }
        requires car { car < car_count snapshot.now }
        requires prices { length prices.now ≡ call_count snapshot.now }
        ensures { IsLaidOut snapshot.now car (price_at prices.now) (has required) self.new }
    {
        // For the proof: the snapshot is accepted, so it has at most 128 calls.
        let _calls = snapshot.calls();
        set_rates(self.rates.as_mut_slice(), snapshot, car, prices, required);
        set_apart(self.apart.as_mut_slice(), self.rates.as_slice());
        set_terms(
            self.terms.as_mut_slice(),
            snapshot,
            car,
            self.rates.as_slice(),
        );
    }

    /// The rate of a call.
    pub(crate) fn rate(&self, call: u32) -> &CallRate
        requires { call < length self.now.rates }
        ensures { result.now ≡ slice_index_or self.now.rates call result.now }
    {
        &self.rates[call as usize]
    }

    /// The calls that go up.
    pub(crate) fn upward(&self) -> CallSet
        ensures { result ≡ self.now.upward }
    {
        self.upward
    }

    /// The calls that begin below a floor.
    pub(crate) fn below(&self, floor: u32) -> CallSet
        requires { floor < length self.now.below }
        ensures { result ≡ slice_index_or self.now.below floor result }
    {
        self.below[floor as usize]
    }

    /// The calls that have a row and do not begin at a floor.
    pub(crate) fn apart(&self, floor: u32) -> CallSet
        requires { floor < length self.now.apart }
        ensures { result ≡ slice_index self.now.apart floor }
    {
        self.apart[floor as usize]
    }

    /// The row of a floor.
    pub(crate) fn row(&self, floor: u32) -> &[RowTerm]
        requires { floor * length self.now.rates + length self.now.rates ≤ length self.now.terms }
        ensures size { length result.now ≡ length self.now.rates }
        ensures terms { (j : ℕ) → j < length self.now.rates → slice_index_or result.now j no_term
            ≡ slice_index_or self.now.terms (floor * length self.now.rates + j) no_term }
    {
        let calls = self.rates.len();
        let start = floor as usize * calls;
        &self.terms[start..start + calls]
    }
}
