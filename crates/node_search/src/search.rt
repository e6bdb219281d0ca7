//! Rounds over the tree.

ghost use Rattle.std.specs.Prelude.{◌≡◌, ◌<◌, ◌≤◌, ◌^◌, ℕ, ℤ, pos, ◌≤ℤ◌, ◌<ℤ◌, true, IfOk, OnOk, length};
ghost use Rattle.std.specs.Prelude.{slice_index_or, false, IsSome, IfSome};
ghost use Rattle.elevator_model.specs.Snapshot.{IsAccepted, call_count, car_count};
ghost use Rattle.search_model.specs.Sums.{rounded_up};
ghost use Rattle.search_model.specs.Nodes.{IsNodeOf, is_part, set_of};
ghost use Rattle.search_model.specs.Solving.{no_turn};
ghost use Rattle.search_tree.specs.Sheets.{PriceSheet, sum_of_sheet, sheet_of_turn};
ghost use Rattle.search_tree.specs.Standing.{bound_of_sheet};
ghost use Rattle.search_tree.specs.Branches.{AreSingle, at_place};
ghost use Rattle.search_tree.specs.Answers.{AreAnswersIn};
ghost use Rattle.node_search.specs.Best.{IsBest};
ghost use Rattle.node_search.specs.Searches.{HasSettled, IsPlanOf, IsPricingOf, IsUnderWay};

use crate::best::Best;
use crate::steps::{split, take_in};
use assign_branch::{Node, Pricer};
use branching_rules::Steps;
use elevator_model::{MOST_CALLS, Plan};
use price_scale::{Price, SCALE};
use search_model::{Limits, TurnOf};
use search_tree::{Branch, MOST_PRICINGS, SearchTree, SplitAt, first_choice};
use std::alloc::{AllocError, Global};
use tour_cost::plan_cost;

/// A search below the root.
#[derive(Drop)]
pub(crate) struct Search<'a> {
    pub(crate) tree: SearchTree<Steps>,
    pub(crate) best: Best<'a>,
    /// How many rounds were done.
    pub(crate) done: u64,
}

/// How far the leaf's sum lies below the cost of a plan, in thousandths of a cost unit.
fn gap_of(leaf: &Branch, cost: u64) -> i128 {
    SCALE
        .saturating_mul(i128::from(cost))
        .saturating_sub(leaf.sheet.sum())
}

/// Gives a plan without tours those that the pricings of all cars gave. It fails only where there is no
/// memory left.
fn push_tours(plan: &mut Plan, alloc: Global, cars: &[TurnOf]) -> Result<(), AllocError>
    requires none { length plan.old ≡ 0 }
    requires tours { (c : ℕ) → c < length cars.now → IsSome (slice_index_or cars.now c no_turn).tour }
    ensures { OnOk result (IsPlanOf cars.now plan.new) }
{
    for car in 0..cars.len() {
        let Some(tour) = &cars[car].tour else {
            unreachable!()
        };
        plan.push(tour.copy(alloc)?)?;
    }
    Ok(())
}

/// The plan of the tours that the pricings of all cars gave. It fails only where there is no memory left.
fn plan_of(alloc: Global, cars: &[TurnOf]) -> Result<Plan, AllocError>
    requires { (c : ℕ) → c < length cars.now → IsSome (slice_index_or cars.now c no_turn).tour }
    ensures { IfOk result (IsPlanOf cars.now) }
{
    let mut plan = Plan::new(alloc);
    push_tours(&mut plan, alloc, cars)?;
    Ok(plan)
}

impl<'a> Best<'a> {
    /// Takes the plan of the tours of a pricing in a node in which each call has one car left and no car
    /// reached the limit, where it is cheaper. It fails only where there is no memory left.
    pub(crate) fn offer_tours<P: Pricer>(
        &mut self,
        alloc: Global,
        pricer: &P,
        limits: Limits,
        node: &Node,
        prices: &[Price],
        cars: &[TurnOf],
    ) -> Result<(), AllocError>
        requires best { IsBest (P.snapshot pricer.now) self.old }
        requires node { IsNodeOf (P.snapshot pricer.now) node.now }
        requires single { AreSingle (call_count (P.snapshot pricer.now)) node.now }
        requires answers { AreAnswersIn (P.snapshot pricer.now) limits.most_tours node.now prices.now cars.now }
        requires none { (c : ℕ) → c < length cars.now
            → (slice_index_or cars.now c no_turn).priced.spent ≡ false }
        ensures best { OnOk result (IsBest (P.snapshot pricer.now) self.new) }
        ensures pool { OnOk result (self.new.pool ≡ self.old.pool) }
        ensures cheaper { OnOk result (self.new.cost ≤ self.old.cost) }
        ensures least { OnOk result ((sheet : PriceSheet)
            → sum_of_sheet (sheet_of_turn prices.now cars.now) ≤ℤ sum_of_sheet sheet
            → pos self.new.cost ≤ℤ bound_of_sheet sheet) }
    {
        let plan = plan_of(alloc, cars)?;
        let cost = plan_cost(self.pool.snapshot(), &plan);
        self.offer(plan, cost);
        Ok(())
    }
}

impl<'a> Search<'a> {
    /// Whether the leaf is to be split: after as many pricings as it may have, or where they gain little.
    fn is_due(&self, place: usize) -> bool
        requires { place < length self.now.tree.branches }
        ensures open { result ≡ true
            → bound_of_sheet (at_place self.now.tree.branches place).sheet <ℤ pos self.now.best.cost }
        ensures most { result ≡ false → MOST_PRICINGS ≤ (at_place self.now.tree.branches place).rounds
            → pos self.now.best.cost ≤ℤ bound_of_sheet (at_place self.now.tree.branches place).sheet }
        ensures root { result ≡ true → (at_place self.now.tree.branches place).depth ≡ 0
            → MOST_PRICINGS ≤ (at_place self.now.tree.branches place).rounds }
    {
        let branch = &self.tree.branches()[place];
        if branch.sheet.bound() >= i128::from(self.best.cost) {
            return false;
        }
        if branch.rounds >= MOST_PRICINGS {
            return true;
        }
        if branch.depth == 0 {
            return false;
        }
        let gap = gap_of(branch, self.best.cost);
        self.tree.payload(place).is_due(gap)
    }
}

impl<'a> Search<'a> {
    /// Takes in a pricing of a leaf in whose node each call has one car left. Where no car reached the limit,
    /// the tours make a plan, which costs no more than the leaf's bound. It fails only where there is no
    /// memory left.
    fn settle_single<P: Pricer>(
        &mut self,
        alloc: Global,
        pricer: &P,
        limits: Limits,
        place: usize,
        prices: &[Price],
        cars: &[TurnOf],
    ) -> Result<(), AllocError>
        requires accepted { IsAccepted (P.snapshot pricer.now) }
        requires way { IsUnderWay (P.snapshot pricer.now) limits.most_tours self.old }
        requires pricing { IsPricingOf (P.snapshot pricer.now) limits.most_tours
            self.old place prices.now cars.now }
        requires single { AreSingle (call_count (P.snapshot pricer.now))
            (at_place self.old.tree.branches place).node }
        ensures way { OnOk result (IsUnderWay (P.snapshot pricer.now) limits.most_tours self.new) }
        ensures settled { OnOk result (HasSettled (P.snapshot pricer.now) self.old self.new place) }
    {
        self.tree.note(place, prices, cars);
        let branch = &self.tree.branches()[place];
        if branch.spent.is_none() {
            self.best
                .offer_tours(alloc, pricer, limits, &branch.node, prices, cars)?;
        }
        Ok(())
    }

    /// Takes in a pricing of a leaf in whose node some call has two cars or more, and splits it where that is
    /// due: as `first` says where nothing else is proposed. It fails only where there is no memory left.
    fn settle_open<P: Pricer>(
        &mut self,
        alloc: Global,
        pricer: &P,
        limits: Limits,
        place: usize,
        prices: &[Price],
        cars: &[TurnOf],
        first: SplitAt,
    ) -> Result<(), AllocError>
        requires accepted { IsAccepted (P.snapshot pricer.now) }
        requires way { IsUnderWay (P.snapshot pricer.now) limits.most_tours self.old }
        requires pricing { IsPricingOf (P.snapshot pricer.now) limits.most_tours
            self.old place prices.now cars.now }
        requires call { first.call < call_count (P.snapshot pricer.now) }
        requires part { is_part (set_of (at_place self.old.tree.branches place).node first.call)
            first.part ≡ true }
        ensures way { OnOk result (IsUnderWay (P.snapshot pricer.now) limits.most_tours self.new) }
        ensures settled { OnOk result (HasSettled (P.snapshot pricer.now) self.old self.new place) }
    {
        let Best { cost, seen, .. } = &self.best;
        take_in(&mut self.tree, alloc, place, prices, cars, *cost, seen)?;
        if self.is_due(place) {
            split(&mut self.tree, alloc, place, prices.len(), first)?;
        }
        Ok(())
    }

    /// Takes in the pricings of all cars in the leaf at this place, at these prices: its prices and worths
    /// and the tours, and a plan where they make one; and splits the leaf where that is due. It fails only
    /// where there is no memory left.
    pub(crate) fn settle<P: Pricer>(
        &mut self,
        alloc: Global,
        pricer: &P,
        limits: Limits,
        place: usize,
        prices: &[Price],
        cars: &[TurnOf],
    ) -> Result<(), AllocError>
        requires accepted { IsAccepted (P.snapshot pricer.now) }
        requires way { IsUnderWay (P.snapshot pricer.now) limits.most_tours self.old }
        requires pricing { IsPricingOf (P.snapshot pricer.now) limits.most_tours
            self.old place prices.now cars.now }
        ensures way { OnOk result (IsUnderWay (P.snapshot pricer.now) limits.most_tours self.new) }
        ensures settled { OnOk result (HasSettled (P.snapshot pricer.now) self.old self.new place) }
    {
        prove!(self.best.pool.snapshot().calls().len() <= MOST_CALLS);
        self.best.put_tours(alloc, cars)?;
        match first_choice(&self.tree.branches()[place].node, prices.len()) {
            Some(first) => self.settle_open(alloc, pricer, limits, place, prices, cars, first),
            None => self.settle_single(alloc, pricer, limits, place, prices, cars),
        }
    }
}
