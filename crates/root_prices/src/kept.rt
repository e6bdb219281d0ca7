//! Turns at the root, and what is kept of them.

ghost use Rattle.std.specs.Prelude.{◌≡◌, ◌<◌, ◌≤◌, ◌+◌, ℕ, [], IfOk, IsOkUnless, OnOk, length, map};
ghost use Rattle.elevator_model.specs.Snapshot.{IsAccepted};
ghost use Rattle.elevator_model.specs.Plans.{IsFeasiblePlan};
ghost use Rattle.search_model.specs.declared.interruptions.Interruption.TheVariants.{OutOfMemory};
ghost use Rattle.search_model.specs.Nodes.{IsNodeOf, root_of};
ghost use Rattle.search_tree.specs.Answers.{AreAnswersIn};
ghost use Rattle.search_tree.specs.Sheets.{AreTurnSizes, PriceSheet, better_of, sheet_of_turn, turn_worth};
ghost use Rattle.search_tree.specs.Standing.{IsSheetIn};
ghost use Rattle.work_fan.specs.Work.{Serving};

use crate::answers::MOST_ROUNDS;
use assign_branch::{Node, Pricer};
use byte_streams::Gate;
use call_state::Snapshot;
use elevator_model::{MOST_CALLS, MOST_CARS, Plan};
use price_scale::Price;
use pricing_rounds::PricingCrew;
use restricted_master::Pool;
use root_turns::{TurnSeries, pool_of, put_turn};
use search_model::{Interruption, Limits, TurnOf};
use search_tree::Sheet;
use std::alloc::{AllocError, Global};
use work_fan::Runtime;

/// The turns so far, and what is kept of them.
#[derive(Drop)]
pub(crate) struct KeptTurns<'a> {
    /// A feasible plan, whose tours are in the pool from the beginning.
    pub(crate) start: &'a Plan,
    /// The tours of the start plan and of the turns.
    pub(crate) pool: Pool<'a>,
    /// The prices and worths with the greatest sum.
    pub(crate) sheet: Sheet,
    pub(crate) series: TurnSeries,
}

/// The worths of the pricings. It fails only where there is no memory left.
fn worths_of(alloc: Global, cars: &[TurnOf]) -> Result<Vec<i128>, AllocError>
    ensures { IfOk result (λ worths. worths.items ≡ map turn_worth cars.now) }
{
    let mut worths = Vec::with_capacity(alloc, cars.len())?;
    for car in 0..cars.len() {
        worths.push(cars[car].priced.worth)?;
    }
    Ok(worths)
}

/// What the pricings of all cars at these prices state. It fails only where there is no memory left.
fn sheet_of(alloc: Global, prices: &[Price], cars: &[TurnOf]) -> Result<Sheet, AllocError>
    requires calls { length prices.now ≤ MOST_CALLS }
    requires cars { length cars.now ≤ MOST_CARS }
    requires sizes { AreTurnSizes cars.now }
    ensures { IfOk result (λ sheet. sheet ≡ sheet_of_turn prices.now cars.now) }
{
    let worths = worths_of(alloc, cars)?;
    let prices = prices.to_vec(alloc)?;
    Ok(Sheet::new(prices, worths))
}

/// Takes what the pricings of all cars at these prices state, where that has the greater sum. It fails only
/// where there is no memory left.
fn improve(
    sheet: &mut Sheet,
    alloc: Global,
    prices: &[Price],
    cars: &[TurnOf],
) -> Result<(), AllocError>
    requires calls { length prices.now ≤ MOST_CALLS }
    requires cars { length cars.now ≤ MOST_CARS }
    requires sizes { AreTurnSizes cars.now }
    ensures { OnOk result (sheet.new ≡ better_of sheet.old (sheet_of_turn prices.now cars.now)) }
{
    let turned = sheet_of(alloc, prices, cars)?;
    if sheet.sum() < turned.sum() {
        *sheet = turned;
    }
    Ok(())
}

impl<'a> KeptTurns<'a> {
    ghost use Rattle.root_prices.specs.KeptTurns.{AreKept, CanTake, HasKept, HasTaken};

    /// No turn yet, before one at these prices. It fails only where there is no memory left.
    pub(crate) fn new(
        alloc: Global,
        snapshot: &'a Snapshot,
        start: &'a Plan,
        sheet: Sheet,
    ) -> Result<Self, AllocError>
        requires start { IsFeasiblePlan snapshot.now start.now }
        requires sheet { IsSheetIn snapshot.now (root_of snapshot.now) sheet }
        ensures kept { IfOk result (λ x. (most_tours : ℕ) → AreKept snapshot.now most_tours sheet x) }
        ensures turns { IfOk result (λ x. x.series.turns.items ≡ []) }
        ensures start { IfOk result (λ x. x.start.now ≡ start.now) }
    {
        let series = TurnSeries::new(alloc, sheet.prices())?;
        let pool = pool_of(alloc, snapshot, start)?;
        Ok(KeptTurns {
            start,
            pool,
            sheet,
            series,
        })
    }

    /// The pricings of all cars in the root at the prices of the next turn. It fails only where there is no
    /// memory left, or where it was told to stop.
    fn price<P: Pricer, C: PricingCrew<P>, G: Gate>(
        &self,
        runtime: &Runtime<C, G>,
        pricer: &P,
        root: &Node,
        limits: Limits,
        desks: &mut [P::Desk],
    ) -> Result<Vec<TurnOf>, Interruption>
        requires accepted { IsAccepted (P.snapshot pricer.now) }
        requires kept { (first : PriceSheet)
            × AreKept (P.snapshot pricer.now) limits.most_tours first self.now }
        requires root { root.now ≡ root_of (P.snapshot pricer.now) }
        requires is_node { IsNodeOf (P.snapshot pricer.now) (root_of (P.snapshot pricer.now)) }
        requires desks { Serving (P.owns pricer.now) desks.old }
        ensures answers { IfOk result (λ cars. AreAnswersIn (P.snapshot pricer.now) limits.most_tours
            (root_of (P.snapshot pricer.now)) self.now.series.prices.items cars.items) }
        ensures goes_on { G.never_stops runtime.now.gate.now
            → IsOkUnless result OutOfMemory }
        ensures desks { Serving (P.owns pricer.now) desks.new }
    {
        let cars = self.pool.snapshot().building().cars().len() as u32;
        self.series
            .price(runtime, pricer, cars, root, limits, desks)
    }

    /// Keeps the tours of the pricings of all cars at the present prices, and their worths where they have
    /// the greatest sum. It fails only where there is no memory left.
    fn keep(&mut self, alloc: Global, cars: &[TurnOf]) -> Result<(), AllocError>
        requires { CanTake self.old cars.now }
        ensures { OnOk result (HasKept self.old self.new cars.now) }
    {
        put_turn(&mut self.pool, alloc, cars)?;
        improve(&mut self.sheet, alloc, &self.series.prices, cars)?;
        Ok(())
    }

    /// Takes in the pricings of all cars at the present prices, and goes on to the next ones. It fails only
    /// where there is no memory left.
    fn take(&mut self, alloc: Global, cars: Vec<TurnOf>) -> Result<(), AllocError>
        requires { CanTake self.old cars.items }
        ensures { OnOk result (HasTaken self.old self.new cars.items) }
    {
        self.keep(alloc, &cars)?;
        self.series.push(alloc, cars)?;
        Ok(())
    }

    /// One turn: the pricings of all cars at the present prices. It fails only where there is no memory left,
    /// or where it was told to stop.
    fn turn<P: Pricer, C: PricingCrew<P>, G: Gate>(
        &mut self,
        runtime: &Runtime<C, G>,
        pricer: &P,
        root: &Node,
        limits: Limits,
        desks: &mut [P::Desk],
    ) -> Result<(), Interruption>
        requires accepted { IsAccepted (P.snapshot pricer.now) }
        requires kept { (first : PriceSheet)
            × AreKept (P.snapshot pricer.now) limits.most_tours first self.old }
        requires root { root.now ≡ root_of (P.snapshot pricer.now) }
        requires is_node { IsNodeOf (P.snapshot pricer.now) (root_of (P.snapshot pricer.now)) }
        requires few { length self.old.series.turns.items < MOST_ROUNDS }
        requires desks { Serving (P.owns pricer.now) desks.old }
        ensures kept { OnOk result ((first : PriceSheet)
            → AreKept (P.snapshot pricer.now) limits.most_tours first self.old
            → AreKept (P.snapshot pricer.now) limits.most_tours first self.new) }
        ensures turns { OnOk result
            (length self.new.series.turns.items ≡ length self.old.series.turns.items + 1) }
        ensures start { OnOk result (self.new.start.now ≡ self.old.start.now) }
        ensures goes_on { G.never_stops runtime.now.gate.now
            → IsOkUnless result OutOfMemory }
        ensures desks { OnOk result (Serving (P.owns pricer.now) desks.new) }
    {
        let cars = self.price(runtime, pricer, root, limits, desks)?;
        self.take(runtime.alloc, cars)?;
        Ok(())
    }

    /// As many turns as the limits have rounds, one after another. It fails only where there is no memory
    /// left, or where they were told to stop.
    pub(crate) fn run<P: Pricer, C: PricingCrew<P>, G: Gate>(
        &mut self,
        runtime: &Runtime<C, G>,
        pricer: &P,
        root: &Node,
        limits: Limits,
        desks: &mut [P::Desk],
    ) -> Result<(), Interruption>
        requires accepted { IsAccepted (P.snapshot pricer.now) }
        requires kept { (first : PriceSheet)
            × AreKept (P.snapshot pricer.now) limits.most_tours first self.old }
        requires turns { self.old.series.turns.items ≡ [] }
        requires root { root.now ≡ root_of (P.snapshot pricer.now) }
        requires is_node { IsNodeOf (P.snapshot pricer.now) (root_of (P.snapshot pricer.now)) }
        requires rounds { limits.rounds ≤ MOST_ROUNDS }
        requires desks { Serving (P.owns pricer.now) desks.old }
        ensures kept { OnOk result ((first : PriceSheet)
            → AreKept (P.snapshot pricer.now) limits.most_tours first self.old
            → AreKept (P.snapshot pricer.now) limits.most_tours first self.new) }
        ensures turns { OnOk result (length self.new.series.turns.items ≡ limits.rounds) }
        ensures start { OnOk result (self.new.start.now ≡ self.old.start.now) }
        ensures goes_on { G.never_stops runtime.now.gate.now
            → IsOkUnless result OutOfMemory }
    {
        for _turn in 0..limits.rounds() {
            self.turn(runtime, pricer, root, limits, desks)?;
        }
        Ok(())
    }
}
