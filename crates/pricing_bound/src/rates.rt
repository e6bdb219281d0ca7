//! What calls cost, laid out once for a snapshot, with one price for each call.

ghost use Rattle.std.specs.Prelude.{◌≡◌, ℕ, ℤ, pos, neg_ℤ, ◌-ℤ◌, ◌+◌, ◌-◌, ◌*◌, ◌^◌, ◌<◌, ◌≤◌, ◌≤ℤ◌, int_lt};
ghost use Rattle.std.specs.Prelude.{false, true, not, IfOk, length, map, nat_lt, slice_index_or};
ghost use Rattle.std.specs.Prelude.{vec_capacity};
ghost use Rattle.call_sets.specs.Counting.{has};
ghost use Rattle.elevator_model.specs.Building.{floor_count};
ghost use Rattle.elevator_model.specs.Snapshot.{IsAccepted, Snapshot as SnapshotValue, call_count, call_of};
ghost use Rattle.price_scale.specs.Scale.{IsPrice};
ghost use Rattle.elevator_model.specs.Costs.{cost_of_rider};
ghost use Rattle.elevator_model.specs.Tours.{destination_of};
ghost use Rattle.elevator_model.specs.Travel.{time_between};
ghost use Rattle.search_model.specs.Bounds.{cost_if_alone};
ghost use Rattle.search_model.specs.Prices.{price_at, scaled as scaled_lem};
ghost use Rattle.pricing_bound.specs.Rates.{AreEnds, AreNearest, AreRates, IsEnd, IsNearest, IsRate};
ghost use Rattle.pricing_bound.specs.Rates.{ArePrices, rise_at, wait_at};

use crate::rides::arrival_from;
use crate::waiting::Growth;
use call_sets::CallSet;
use call_state::{Building, Call, Snapshot, Travel};
use elevator_model::{LATEST_MOMENT, MOMENT_LIMIT, MOST_CALL_COST, MOST_CALLS};
use price_scale::{Price, scaled};
use std::alloc::{AllocError, Global};
use std::marker::Model;

/// What a call costs by the moments at which it boards and gets off: cost units for each ms past its
/// release until it boards, more for each ms past its patience, and others for each ms from there on.
/// Moments are in ms.
#[derive(Clone, Copy)]
pub(crate) struct Rate {
    released: u64,
    /// The moment at which its patience ends.
    late: u64,
    wait: u64,
    over: u64,
    travel: u64,
    /// The floor where its persons get off.
    to: u32,
    /// What the straight ride to its destination costs, in cost units.
    ride: u64,
    /// The price of the call in thousandths of a cost unit, of absolute value at most 10^24.
    price: i128,
    /// A moment before which it costs less than its price if it boards and rides straight to its destination.
    below: u64,
}

/// The greatest depth that is told.
const DEEPEST: i128 = 1_000_000_000_000_000_000;

/// How far a term is below 0, or less where that is more than 10^18.
fn depth_of(term: i128) -> u64
    requires below { int_lt term (pos 0) ≡ true }
    requires low { neg_ℤ (pos (2 * 10 ^ 24)) ≤ℤ term }
    ensures deep { pos result ≤ℤ neg_ℤ term }
    ensures small { result ≤ 10 ^ 18 }
{
    (-term).min(DEEPEST) as u64
}

impl Rate {
    /// What its wait until this moment costs.
    fn wait_cost(&self, moment: u64) -> u64
        requires wait { self.now.wait ≤ 8000 }
        requires over { self.now.over ≤ 8000 }
        requires early { moment ≤ MOMENT_LIMIT }
        ensures value { result ≡ wait_at self.now moment }
        ensures small { result ≤ 1600000000000000 }
    {
        self.wait * moment.saturating_sub(self.released)
            + self.over * moment.saturating_sub(self.late)
    }

    /// A moment before which it costs less than this price if it boards and rides straight to its
    /// destination: the first one at which it costs no less, rounded down, where its patience costs nothing.
    fn below_price(&self, price: i128) -> u64
        requires wait { self.now.wait ≤ 8000 }
        requires over { self.now.over ≤ 8000 }
        requires ride { self.now.ride ≤ 160000000000 }
        requires ordered { self.now.released ≤ self.now.late }
        requires early { self.now.released ≤ 1000000000 }
        requires price { IsPrice price }
        ensures { (k : ℕ) → k < result → int_lt (scaled_lem (wait_at self.now k + self.now.ride)
            -ℤ price) (pos 0) ≡ true }
    {
        let term = scaled(self.ride) - price;
        if term >= 0 {
            return 0;
        }
        self.released + depth_of(term) / (1000 * (self.wait + self.over)).max(1)
    }

    /// The same call at a price.
    fn at_price(&self, price: i128) -> Rate
        requires rate { (s : SnapshotValue) × (j : ℕ) × IsRate s j self.now }
        requires price { IsPrice price }
        ensures rate { (s : SnapshotValue) (j : ℕ) → IsRate s j self.now → IsRate s j result }
        ensures price { result.price ≡ price }
    {
        Rate {
            released: self.released,
            late: self.late,
            wait: self.wait,
            over: self.over,
            travel: self.travel,
            to: self.to,
            ride: self.ride,
            price,
            below: self.below_price(price),
        }
    }

    /// How its wait grows from this moment on.
    fn growth(&self, moment: u64) -> Growth
        requires wait { self.now.wait ≤ 8000 }
        requires over { self.now.over ≤ 8000 }
        requires ordered { self.now.released ≤ self.now.late }
        ensures even { (k : ℕ) → moment ≤ k → k ≤ result.until
            → wait_at self.now k ≡ wait_at self.now moment + result.slope * (k - moment) }
        ensures slope { wait_at self.now (moment + 1) ≡ wait_at self.now moment + result.slope }
        ensures gentle { result.slope ≤ 16000 }
    {
        if moment >= self.late {
            Growth {
                slope: self.wait + self.over,
                until: u64::MAX,
            }
        } else if moment >= self.released {
            Growth {
                slope: self.wait,
                until: self.late,
            }
        } else {
            Growth {
                slope: 0,
                until: self.released,
            }
        }
    }
}

/// The rate of a call, at the price 0.
fn rate_of(building: &Building, call: &Call) -> Rate
    requires persons { call.now.persons ≤ 8 }
    requires origin { call.now.origin < building.now.travel.floors }
    requires destination { call.now.destination < building.now.travel.floors }
    requires released { call.now.released ≤ 1000000000 }
    ensures rate { (s : SnapshotValue) (j : ℕ) → building.now ≡ s.building → call.now ≡ call_of s j
        → j < call_count s → IsRate s j result }
    ensures price { result.price ≡ pos 0 }
{
    let time = building.travel().time(call.origin, call.destination);
    let persons = call.persons as u64;
    let travel = persons * building.travel_weight();
    Rate {
        released: call.released,
        late: call.released + building.patience(),
        wait: persons * building.wait_weight(),
        over: persons * building.patience_weight(),
        travel,
        to: call.destination,
        ride: travel * time,
        price: 0,
        below: 0,
    }
}

/// The rates of the calls of a snapshot, in their order, at the price 0 each.
fn rates_of(alloc: Global, snapshot: &Snapshot) -> Result<Vec<Rate>, AllocError>
    ensures rates { IfOk result (λ rates. AreRates snapshot.now rates.items) }
    ensures prices { IfOk result (λ rates. map (λ rate. rate.price) rates.items
        ≡ map (λ _. pos 0) snapshot.now.calls) }
{
    let building = snapshot.building();
    let calls = snapshot.calls();
    let mut rates = Vec::new(alloc);
    for j in 0..calls.len() {
        rates.push(rate_of(building, &calls[j]))?;
    }
    Ok(rates)
}

/// All calls of a snapshot.
fn calls_of(snapshot: &Snapshot) -> CallSet
    ensures { (j : ℕ) → has result j ≡ nat_lt j (call_count snapshot.now) }
{
    let calls = snapshot.calls().len() as u32;
    let mut all = CallSet::empty();
    for call in 0..calls {
        all = all.with(call);
    }
    all
}

/// Gives each call its price.
fn set_prices(rates: &mut [Rate], prices: &[Price])
    requires size { length prices.now ≡ length rates.old }
    requires are { (s : SnapshotValue) × AreRates s rates.old }
    ensures prices { map (λ rate. rate.price) rates.new ≡ prices.now }
    ensures rates { (s : SnapshotValue) → AreRates s rates.old → AreRates s rates.new }
{
    for j in 0..prices.len() {
        rates[j] = rates[j].at_price(prices[j].value());
    }
}

/// A moment in ms before which each call but the early ones costs less than its price, if it boards and rides
/// straight to its destination. The last end is past all moments.
#[derive(Clone, Copy)]
pub(crate) struct End {
    until: u64,
    early: CallSet,
}

/// The end of these early calls: until a call that is not early may cost no less than its price.
fn next_end(rates: &[Rate], early: CallSet) -> End
    requires few { length rates.now ≤ MOST_CALLS }
    ensures end { IsEnd rates.now result }
    ensures early { result.early ≡ early }
{
    let mut until = u64::MAX;
    for call in 0..rates.len() {
        if !early.contains(call as u32) {
            until = until.min(rates[call].below);
        }
    }
    End { until, early }
}

/// The calls that may cost no less than their prices at this moment.
fn ended_by(rates: &[Rate], moment: u64) -> CallSet
    requires few { length rates.now ≤ MOST_CALLS }
    ensures within { (j : ℕ) → has result j ≡ true → j < length rates.now }
    ensures ended { (j : ℕ) (d : Rate) → j < length rates.now
        → has result j ≡ not (nat_lt moment (slice_index_or rates.now j d).below) }
{
    let mut ended = CallSet::empty();
    for call in 0..rates.len() {
        if moment >= rates[call].below {
            ended = ended.with(call as u32);
        }
    }
    ended
}

/// Puts the ends of calls at these rates in place of those that are there, the first one first: at each of
/// them some more calls are early. It takes no memory.
fn lay_out_ends(rates: &[Rate], ends: &mut Vec<End>)
    requires few { length rates.now ≤ MOST_CALLS }
    requires room { 129 ≤ vec_capacity ends.old }
    ensures ends { AreEnds rates.now ends.new.items }
    ensures room { vec_capacity ends.new ≡ vec_capacity ends.old }
{
    ends.clear();
    let mut early = CallSet::empty();
    while ends.len() <= rates.len() {
        let end = next_end(rates, early);
        let until = end.until;
        ends.push_reserved(end);
        if until == u64::MAX {
            break;
        }
        early = ended_by(rates, until);
    }
}

/// The first place from this one on whose end is past the moment, or one past the last.
fn place_past(ends: &[End], from: usize, moment: u64) -> usize
    ensures { (d : End) → result < length ends.now
        → moment < (slice_index_or ends.now result d).until }
{
    let mut place = from;
    while place < ends.len() && moment >= ends[place].until {
        place += 1;
    }
    place
}

/// The calls that may cost no less than their prices at a moment, with the place of the end that tells them.
#[derive(Clone, Copy)]
pub(crate) struct DueEnds {
    pub(crate) place: usize,
    pub(crate) calls: CallSet,
}

/// The least time in ms from a floor to another one.
fn nearest_of(travel: &Travel, from: u32) -> u64
    requires { from < travel.now.floors }
    ensures nearest { IsNearest travel.now from result }
    ensures small { result ≤ 20000000 }
{
    // There are two floors at least.
    let floors = travel.floors();
    let mut nearest = travel.time(from, u32::from(from == 0));
    for to in 0..floors {
        if to != from {
            nearest = nearest.min(travel.time(from, to));
        }
    }
    nearest
}

/// The least time in ms from each floor to another one, in the order of the floors.
fn nearest_of_all(alloc: Global, travel: &Travel) -> Result<Vec<u64>, AllocError>
    ensures { IfOk result (λ nearest. AreNearest travel.now nearest.items) }
{
    let mut nearest = Vec::new(alloc);
    for floor in 0..travel.floors() {
        nearest.push(nearest_of(travel, floor))?;
    }
    Ok(nearest)
}

/// The rates of the calls of a snapshot, at one price each. All memory is taken when they are made.
#[derive(Drop)]
pub struct Rates<'a> {
    snapshot: &'a Snapshot,
    rates: Vec<Rate>,
    /// The ends of calls at their prices, the first one first.
    ends: Vec<End>,
    calls: CallSet,
    /// The least time in ms from each floor to another one.
    nearest: Vec<u64>,
}

impl<'a> Model for Rates<'a> {
    ghost use Rattle.std.specs.Prelude.{◌≡◌, ◌≤◌, ℕ, map, nat_lt, vec_capacity};
    ghost use Rattle.call_sets.specs.Counting.{has};
    ghost use Rattle.elevator_model.specs.Snapshot.{IsAccepted, call_count};
    ghost use Rattle.pricing_bound.specs.Rates.{AreEnds, AreNearest, AreRates, Rated};

    ghost Value = { Rated };

    ghost view = { λ r. record { snapshot = r.snapshot.now; prices = map (λ rate. rate.price) r.rates.items } };

    ghost invariant = { λ r. IsAccepted r.snapshot.now × AreRates r.snapshot.now r.rates.items
        × ((j : ℕ) → has r.calls j ≡ nat_lt j (call_count r.snapshot.now))
        × AreEnds r.rates.items r.ends.items × (129 ≤ vec_capacity r.ends)
        × AreNearest r.snapshot.now.building.travel r.nearest.items };
}

impl<'a> Rates<'a> {
    /// The rates of the calls of a snapshot, at the price 0 each. The only error is that memory runs out.
    pub fn new(alloc: Global, snapshot: &'a Snapshot) -> Result<Self, AllocError>
        ensures snapshot { IfOk result (λ rates. rates.snapshot ≡ snapshot.now) }
        ensures prices { IfOk result (λ rates. rates.prices ≡ map (λ _. pos 0) snapshot.now.calls) }
    {
        // For the proof: they are of an accepted snapshot.
        let _calls = snapshot.calls();
        Ok(Rates {
            snapshot,
            rates: rates_of(alloc, snapshot)?,
            ends: Vec::with_capacity(alloc, MOST_CALLS + 1)?,
            calls: calls_of(snapshot),
            nearest: nearest_of_all(alloc, snapshot.building().travel())?,
        })
    }

    /// Takes these prices, one for each call in their order. It takes no memory.
    pub fn lay_out(&mut self, prices: &[Price])
        requires { length prices.now ≡ call_count self.old.snapshot }
        ensures { self.new ≡ record { snapshot = self.old.snapshot; prices = prices.now } }
    {
        set_prices(self.rates.as_mut_slice(), prices);
        lay_out_ends(self.rates.as_slice(), &mut self.ends);
    }

    /// The snapshot.
    pub fn snapshot(&self) -> &'a Snapshot
        ensures value { result.now ≡ self.now.snapshot }
        ensures accepted { IsAccepted self.now.snapshot }
        ensures prices { ArePrices self.now }
    {
        self.snapshot
    }

    /// All calls.
    pub(crate) fn calls(&self) -> CallSet
        ensures { (j : ℕ) → has result j ≡ nat_lt j (call_count self.now.snapshot) }
    {
        self.calls
    }

    /// The least time in ms from a floor to another one.
    pub(crate) fn nearest(&self, floor: u32) -> u64
        requires { floor < floor_count self.now.snapshot.building }
        ensures nearest { IsNearest self.now.snapshot.building.travel floor result }
        ensures small { result ≤ 20000000 }
    {
        self.nearest[floor as usize]
    }

    /// The price of a call, in thousandths of a cost unit.
    pub(crate) fn price(&self, call: u32) -> i128
        requires { call < call_count self.now.snapshot }
        ensures value { result ≡ price_at self.now.prices call }
        ensures range { IsPrice result }
    {
        self.rates[call as usize].price
    }

    /// What a call costs that boarded at a moment and rides straight to its destination from a floor where
    /// the doors are open at the moment `opened`, in cost units.
    pub(crate) fn cost_from(&self, call: u32, boarded: u64, floor: u32, opened: u64) -> u64
        requires call { call < call_count self.now.snapshot }
        requires boarded { boarded ≤ MOMENT_LIMIT }
        requires floor { floor < floor_count self.now.snapshot.building }
        requires early { opened < LATEST_MOMENT }
        ensures value { result ≡ cost_of_rider self.now.snapshot call boarded
            (opened + time_between self.now.snapshot.building.travel floor
            (destination_of self.now.snapshot call)) }
        ensures bounded { result ≤ MOST_CALL_COST }
    {
        let rate = &self.rates[call as usize];
        let delivered = arrival_from(self.snapshot, floor, opened, rate.to);
        rate.wait_cost(boarded) + rate.travel * delivered.saturating_sub(boarded)
    }

    /// What a call costs without its price, if it boards at this moment and rides straight to its
    /// destination, in thousandths of a cost unit.
    pub(crate) fn term(&self, call: u32, moment: u64) -> i128
        requires call { call < call_count self.now.snapshot }
        requires early { moment ≤ MOMENT_LIMIT }
        ensures value { result ≡ scaled_lem (cost_if_alone self.now.snapshot call moment)
            -ℤ price_at self.now.prices call }
        ensures low { neg_ℤ (pos (2 * 10 ^ 24)) ≤ℤ result }
        ensures high { result ≤ℤ pos (2 * 10 ^ 24) }
    {
        let rate = &self.rates[call as usize];
        scaled(rate.wait_cost(moment) + rate.ride) - rate.price
    }

    /// The calls that may cost no less than their prices where they board at this moment and ride straight to
    /// their destinations. Their end is looked for from this place on: 0, or that of an earlier moment.
    pub(crate) fn due(&self, place: usize, moment: u64) -> DueEnds
        ensures { (j : ℕ) → j < call_count self.now.snapshot → has result.calls j ≡ false
            → int_lt (scaled_lem (cost_if_alone self.now.snapshot j moment)
            -ℤ price_at self.now.prices j) (pos 0) ≡ true }
    {
        let place = place_past(self.ends.as_slice(), place, moment);
        let calls = match self.ends.get(place) {
            Some(end) => end.early,
            None => self.calls,
        };
        DueEnds { place, calls }
    }

    /// How what a call costs that rides straight to its destination grows from this moment of its board on.
    pub(crate) fn growth(&self, call: u32, moment: u64) -> Growth
        requires { call < call_count self.now.snapshot }
        ensures even { (k : ℕ) → moment ≤ k → k ≤ result.until
            → cost_if_alone self.now.snapshot call k
            ≡ cost_if_alone self.now.snapshot call moment + result.slope * (k - moment) }
        ensures slope { result.slope ≡ rise_at self.now.snapshot moment call }
        ensures gentle { result.slope ≤ 16000 }
    {
        self.rates[call as usize].growth(moment)
    }
}
