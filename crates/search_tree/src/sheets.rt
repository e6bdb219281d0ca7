//! Prices and worths, in the order of the calls and cars.

ghost use Rattle.std.specs.Prelude.{◌≡◌, ◌≤◌, All, IfOk, length, map};
ghost use Rattle.price_scale.specs.Scale.{IsPrice};
ghost use Rattle.assign_branch.specs.Pricings.{IsWorthSize};
ghost use Rattle.search_model.specs.Sums.{rounded_up};
ghost use Rattle.search_tree.specs.Kept.{KeepsSum, of_lists};
ghost use Rattle.search_tree.specs.Sheets.{AreTurnSizes, AreWorthSizes, IsSized, IsSizedLeaf, IsWorthSum};
ghost use Rattle.search_tree.specs.Sheets.{leaf_with, prices_from, raised, sum_of_sheet};
ghost use Rattle.search_tree.specs.Sheets.{sum_of_worths, turn_worth, worths_from};

use elevator_model::{MOST_CALLS, MOST_CARS};
use price_scale::{MOST_PRICE, Price, sum_prices, unscale_up};
use search_model::{Items, Leaf, PriceOf, TurnOf, WorthOf};
use std::alloc::{AllocError, Global};
use std::marker::Model;

/// The sum of the worths, in thousandths of a cost unit.
fn sum_worths(worths: &[i128]) -> i128
    requires cars { length worths.now ≤ MOST_CARS }
    requires sizes { AreWorthSizes worths.now }
    ensures sum { result ≡ sum_of_worths worths.now }
    ensures range { IsWorthSum 16 result }
{
    let mut sum = 0;
    for car in 0..worths.len() {
        sum += worths[car];
    }
    sum
}

/// The sum of the prices and worths, in thousandths of a cost unit.
fn sum_all(prices: &[Price], worths: &[i128]) -> i128
    requires { IsSized (of_lists prices.now worths.now) }
    ensures { KeepsSum prices.now worths.now result }
{
    sum_prices(prices) + sum_worths(worths)
}

/// Keeps for each car the greater of its worth and the worth of its pricing.
fn raise_worths(worths: &mut [i128], cars: &[TurnOf])
    requires { length cars.now ≡ length worths.old }
    ensures { worths.new ≡ raised worths.old cars.now }
{
    for car in 0..worths.len() {
        worths[car] = worths[car].max(cars[car].priced.worth);
    }
}

/// Gives each car the worth of its pricing.
fn take_worths(worths: &mut [i128], cars: &[TurnOf])
    requires { length cars.now ≡ length worths.old }
    ensures { worths.new ≡ map turn_worth cars.now }
{
    for car in 0..worths.len() {
        worths[car] = cars[car].priced.worth;
    }
}

/// A price for each call and a worth for each car, in their order: a leaf of a certificate in the making.
#[derive(Drop)]
pub struct Sheet {
    prices: Vec<Price>,
    worths: Vec<i128>,
    /// All of them added up.
    sum: i128,
}

impl Model for Sheet {
    ghost use Rattle.search_tree.specs.Sheets.{PriceSheet};
    ghost use Rattle.search_tree.specs.Kept.{KeepsSum};

    ghost Value = { PriceSheet };

    ghost view = { λ x. record { prices = x.prices.items; worths = x.worths.items } };

    ghost invariant = { λ x. KeepsSum x.prices.items x.worths.items x.sum };
}

impl Sheet {
    ghost use Rattle.search_tree.specs.Sheets.{better_of, raised_sheet, sheet_of_turn};

    /// These prices and worths.
    pub fn new(prices: Vec<Price>, worths: Vec<i128>) -> Self
        requires calls { length prices.items ≤ MOST_CALLS }
        requires cars { length worths.items ≤ MOST_CARS }
        requires sizes { AreWorthSizes worths.items }
        ensures { result ≡ record { prices = prices.items; worths = worths.items } }
    {
        let sum = sum_all(&prices, &worths);
        Sheet {
            prices,
            worths,
            sum,
        }
    }

    /// The prices of the calls, in thousandths of a cost unit.
    pub fn prices(&self) -> &[Price]
        ensures prices { result.now ≡ self.now.prices }
        ensures sized { IsSized self.now }
    {
        &self.prices
    }

    /// The worths of the cars, in thousandths of a cost unit.
    pub fn worths(&self) -> &[i128]
        ensures worths { result.now ≡ self.now.worths }
        ensures sized { IsSized self.now }
    {
        &self.worths
    }

    /// All prices and worths added up, in thousandths of a cost unit.
    pub fn sum(&self) -> i128
        ensures sum { result ≡ sum_of_sheet self.now }
        ensures sized { IsSized self.now }
    {
        self.sum
    }

    /// What each feasible plan of the leaf's node costs at least, in cost units.
    pub fn bound(&self) -> i128
        ensures { result ≡ rounded_up (sum_of_sheet self.now) }
    {
        unscale_up(self.sum)
    }

    /// A copy of it. It fails only where there is no memory left.
    pub fn copy(&self, alloc: Global) -> Result<Self, AllocError>
        ensures { IfOk result (λ sheet. sheet ≡ self.now) }
    {
        Ok(Sheet {
            prices: self.prices.as_slice().to_vec(alloc)?,
            worths: self.worths.as_slice().to_vec(alloc)?,
            sum: self.sum,
        })
    }

    /// Keeps for each car the greater of its worth here and the worth of its pricing at the same prices.
    pub(crate) fn raise(&mut self, cars: &[TurnOf])
        requires cars { length cars.now ≡ length self.old.worths }
        requires sizes { AreTurnSizes cars.now }
        ensures { self.new ≡ raised_sheet self.old cars.now }
    {
        raise_worths(&mut self.worths, cars);
        self.sum = sum_all(&self.prices, &self.worths);
    }

    /// Becomes what the pricings of all cars at these prices state.
    fn take(&mut self, prices: &[Price], cars: &[TurnOf])
        requires calls { length prices.now ≡ length self.old.prices }
        requires cars { length cars.now ≡ length self.old.worths }
        requires sizes { AreTurnSizes cars.now }
        ensures { self.new ≡ sheet_of_turn prices.now cars.now }
    {
        self.prices.copy_from_slice(prices);
        take_worths(&mut self.worths, cars);
        self.sum = sum_all(&self.prices, &self.worths);
    }

    /// Becomes what the pricings of all cars at these prices state, where that has the greater sum.
    pub(crate) fn improve(&mut self, prices: &[Price], cars: &[TurnOf])
        requires calls { length prices.now ≡ length self.old.prices }
        requires cars { length cars.now ≡ length self.old.worths }
        requires sizes { AreTurnSizes cars.now }
        ensures { self.new ≡ better_of self.old (sheet_of_turn prices.now cars.now) }
    {
        if self.sum < sum_prices(prices) + sum_turn(cars) {
            self.take(prices, cars);
        }
    }

    /// The leaf of a certificate that states these, with this claim for each worth. It fails only where there
    /// is no memory left.
    pub fn to_leaf(&self, alloc: Global, claim: u64) -> Result<Leaf, AllocError>
        ensures leaf { IfOk result (λ leaf. leaf ≡ leaf_with claim self.now) }
        ensures sized { IfOk result IsSizedLeaf }
    {
        let prices = list_prices(alloc, &self.prices)?;
        let worths = list_worths(alloc, &self.worths, claim)?;
        Ok(Leaf { prices, worths })
    }
}

/// The prices, each with its call. It fails only where there is no memory left.
fn list_prices(alloc: Global, prices: &[Price]) -> Result<Items<PriceOf>, AllocError>
    requires { length prices.now ≤ MOST_CALLS }
    ensures list { IfOk result (λ list. list ≡ prices_from 0 prices.now) }
    ensures sized { IfOk result (All (λ p. IsPrice p.price)) }
{
    let mut list = Items::new(alloc);
    for call in 0..prices.len() {
        let price = prices[call];
        prove!(price.value() <= MOST_PRICE);
        list.push(PriceOf {
            call: call as u32,
            price,
        })?;
    }
    Ok(list)
}

/// The worths, each with its car and this claim. It fails only where there is no memory left.
fn list_worths(alloc: Global, worths: &[i128], claim: u64) -> Result<Items<WorthOf>, AllocError>
    requires few { length worths.now ≤ MOST_CARS }
    requires sizes { AreWorthSizes worths.now }
    ensures list { IfOk result (λ list. list ≡ worths_from claim 0 worths.now) }
    ensures sized { IfOk result (All (λ w. IsWorthSize w.worth)) }
{
    let mut list = Items::new(alloc);
    for car in 0..worths.len() {
        list.push(WorthOf {
            car: car as u32,
            worth: worths[car],
            claim,
        })?;
    }
    Ok(list)
}

/// The sum of the worths that the cars' pricings answered, in thousandths of a cost unit.
fn sum_turn(cars: &[TurnOf]) -> i128
    requires cars { length cars.now ≤ MOST_CARS }
    requires sizes { AreTurnSizes cars.now }
    ensures sum { result ≡ sum_of_worths (map turn_worth cars.now) }
    ensures range { IsWorthSum 16 result }
{
    let mut sum = 0;
    for car in 0..cars.len() {
        sum += cars[car].priced.worth;
    }
    sum
}
