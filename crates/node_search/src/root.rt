//! Turns at the root.

ghost use Rattle.std.specs.Prelude.{◌≡◌, ◌<◌, ◌≤◌, ◌+◌, ℕ, pos, int_lt, IfOk, IsErrOf, IsOkUnless, OnOk, length, slice_set};
ghost use Rattle.std.specs.Prelude.{[], ◌∷◌, ◌++◌};
ghost use Rattle.elevator_model.specs.Snapshot.{call_count};
ghost use Rattle.elevator_model.specs.Plans.{IsFeasiblePlan};
ghost use Rattle.search_model.specs.declared.interruptions.Interruption.TheVariants.{OutOfMemory, Told};
ghost use Rattle.search_model.specs.Nodes.{IsNodeOf, root_of};
ghost use Rattle.search_tree.specs.Branches.{AreSingle, at_place, leaf_at, noted};
ghost use Rattle.search_tree.specs.Standing.{bound_of_sheet};
ghost use Rattle.work_fan.specs.Work.{Serving};
ghost use Rattle.node_search.specs.Found.{HasDueTurns};

use crate::best::Best;
use assign_branch::{Pricer, root as root_node};
use branching_rules::Steps;
use byte_streams::{Gate, Progress};
use call_state::Snapshot;
use elevator_model::Plan;
use pricing_rounds::PricingCrew;
use root_turns::TurnSeries;
use search_model::{Interruption, Limits, TurnOf};
use search_tree::{SearchTree, Sheet, first_choice};
use std::alloc::{AllocError, Global};
use work_fan::Runtime;

/// The root, which is not split yet, and the turns that were made at it.
#[derive(Drop)]
pub(crate) struct Root<'a> {
    /// One leaf.
    pub(crate) tree: SearchTree<Steps>,
    pub(crate) best: Best<'a>,
    pub(crate) series: TurnSeries,
}

/// The most turns that are made at the root.
pub(crate) const MOST_TURNS: usize = 20;

/// The tree of the root alone, with these prices and worths. It fails only where there is no memory left.
fn tree_of(
    alloc: Global,
    snapshot: &Snapshot,
    sheet: Sheet,
) -> Result<SearchTree<Steps>, AllocError>
    ensures node { IfOk result (λ _. IsNodeOf snapshot.now (root_of snapshot.now)) }
    ensures tree { IfOk result
        (λ tree. tree.branches ≡ leaf_at (root_of snapshot.now) sheet 0 ∷ []) }
{
    let node = root_node(alloc, snapshot)?;
    let cars = snapshot.building().cars().len();
    let steps = Steps::new(alloc, sheet.prices().len(), cars)?;
    let tree = SearchTree::new(alloc, node, sheet, steps)?;
    Ok(tree)
}

impl<'a> Root<'a> {
    ghost use Rattle.elevator_model.specs.Snapshot.{IsAccepted};
    ghost use Rattle.search_tree.specs.Answers.{AreAnswersIn};
    ghost use Rattle.node_search.specs.Roots.{HasOneTurn, HasTaken, HasTakenIn, HasTurned, IsEnough, IsNewRoot};
    ghost use Rattle.node_search.specs.Roots.{IsRoot, IsSolvedIfUnspent, IsTurning};

    /// The root with these prices and worths, before its first turn. It fails only where there is no memory
    /// left.
    pub(crate) fn new(
        alloc: Global,
        snapshot: &'a Snapshot,
        start: Plan,
        sheet: Sheet,
    ) -> Result<Self, AllocError>
        requires start { IsFeasiblePlan snapshot.now start }
        requires calls { length sheet.prices ≡ call_count snapshot.now }
        ensures { IfOk result (IsNewRoot snapshot.now sheet) }
    {
        let series = TurnSeries::new(alloc, sheet.prices())?;
        let best = Best::new(alloc, snapshot, start)?;
        let tree = tree_of(alloc, snapshot, sheet)?;
        Ok(Root { tree, best, series })
    }

    /// Whether its bound is below the cost of the cheapest plan that is known.
    pub(crate) fn is_open(&self) -> bool
        requires { 0 < length self.now.tree.branches }
        ensures { result ≡ int_lt (bound_of_sheet (at_place self.now.tree.branches 0).sheet)
            (pos self.now.best.cost) }
    {
        self.tree.branches()[0].sheet.bound() < i128::from(self.best.cost)
    }

    /// The pricings of all cars at the present prices. It fails only where there is no memory left, or
    /// where it was told to stop.
    fn price<P: Pricer, C: PricingCrew<P>, G: Gate>(
        &self,
        runtime: &Runtime<C, G>,
        pricer: &P,
        limits: Limits,
        desks: &mut [P::Desk],
    ) -> Result<Vec<TurnOf>, Interruption>
        requires accepted { IsAccepted (P.snapshot pricer.now) }
        requires root { IsRoot (P.snapshot pricer.now) limits.most_tours self.now }
        requires desks { Serving (P.owns pricer.now) desks.old }
        ensures answers { IfOk result (λ cars. AreAnswersIn (P.snapshot pricer.now) limits.most_tours
            (root_of (P.snapshot pricer.now)) self.now.series.prices.items cars.items) }
        ensures goes_on { G.never_stops runtime.now.gate.now
            → IsOkUnless result OutOfMemory }
        ensures desks { Serving (P.owns pricer.now) desks.new }
    {
        let cars = self.best.pool.snapshot().building().cars().len() as u32;
        let node = &self.tree.branches()[0].node;
        self.series
            .price(runtime, pricer, cars, node, limits, desks)
    }

    /// Takes in the pricings of all cars at the present prices: in the tree, and what plans they make. It
    /// fails only where there is no memory left.
    fn take_in<P: Pricer>(
        &mut self,
        alloc: Global,
        pricer: &P,
        limits: Limits,
        cars: &[TurnOf],
    ) -> Result<(), AllocError>
        requires accepted { IsAccepted (P.snapshot pricer.now) }
        requires root { IsRoot (P.snapshot pricer.now) limits.most_tours self.old }
        requires turns { length self.old.series.turns.items < MOST_TURNS }
        requires answers { AreAnswersIn (P.snapshot pricer.now) limits.most_tours
            (root_of (P.snapshot pricer.now)) self.old.series.prices.items cars.now }
        ensures { OnOk result (HasTakenIn (P.snapshot pricer.now) limits.most_tours
            self.old self.new cars.now) }
    {
        self.tree.note(0, &self.series.prices, cars);
        self.best.put_tours(alloc, cars)?;
        self.best.select(alloc, &self.series.prices, limits)?;
        Ok(())
    }

    /// Takes in the pricings of all cars at the present prices, and goes on to the next ones. It fails only
    /// where there is no memory left.
    fn take<P: Pricer>(
        &mut self,
        alloc: Global,
        pricer: &P,
        limits: Limits,
        cars: Vec<TurnOf>,
    ) -> Result<(), AllocError>
        requires accepted { IsAccepted (P.snapshot pricer.now) }
        requires root { IsRoot (P.snapshot pricer.now) limits.most_tours self.old }
        requires turns { length self.old.series.turns.items < MOST_TURNS }
        requires answers { AreAnswersIn (P.snapshot pricer.now) limits.most_tours
            (root_of (P.snapshot pricer.now)) self.old.series.prices.items cars.items }
        ensures { OnOk result (HasTaken (P.snapshot pricer.now) limits.most_tours
            self.old self.new cars.items) }
    {
        self.take_in(alloc, pricer, limits, &cars)?;
        self.series.push(alloc, cars)?;
        Ok(())
    }

    /// One turn: the pricings of all cars at the present prices. It fails only where there is no memory left,
    /// or where it was told to stop.
    fn turn<P: Pricer, C: PricingCrew<P>, G: Gate>(
        &mut self,
        runtime: &Runtime<C, G>,
        pricer: &P,
        limits: Limits,
        desks: &mut [P::Desk],
    ) -> Result<(), Interruption>
        requires accepted { IsAccepted (P.snapshot pricer.now) }
        requires root { IsRoot (P.snapshot pricer.now) limits.most_tours self.old }
        requires turns { length self.old.series.turns.items < MOST_TURNS }
        requires desks { Serving (P.owns pricer.now) desks.old }
        ensures root { OnOk result (IsRoot (P.snapshot pricer.now) limits.most_tours self.new) }
        ensures turned { OnOk result (HasTurned self.old self.new) }
        ensures turns { OnOk result
            (length self.new.series.turns.items ≡ length self.old.series.turns.items + 1) }
        ensures first { OnOk result (self.old.series.turns.items ≡ []
            → HasOneTurn (P.snapshot pricer.now) limits.most_tours self.new) }
        ensures told { IsErrOf result Told → self.new ≡ self.old }
        ensures goes_on { G.never_stops runtime.now.gate.now
            → IsOkUnless result OutOfMemory }
        ensures desks { OnOk result (Serving (P.owns pricer.now) desks.new) }
    {
        let cars = self.price(runtime, pricer, limits, desks)?;
        self.take(runtime.alloc, pricer, limits, cars)?;
        runtime.gate.tell(Progress::Goes(self.state()));
        Ok(())
    }

    /// Turns until there are this many or the root is not open. It fails only where there is no memory
    /// left, or where it was told to stop.
    pub(crate) fn turn_until<P: Pricer, C: PricingCrew<P>, G: Gate>(
        &mut self,
        runtime: &Runtime<C, G>,
        pricer: &P,
        limits: Limits,
        most: usize,
        desks: &mut [P::Desk],
    ) -> Result<(), Interruption>
        requires accepted { IsAccepted (P.snapshot pricer.now) }
        requires root { IsRoot (P.snapshot pricer.now) limits.most_tours self.old }
        requires most { length self.old.series.turns.items ≤ most }
        requires few { most ≤ MOST_TURNS }
        requires desks { Serving (P.owns pricer.now) desks.old }
        ensures root { OnOk result (IsRoot (P.snapshot pricer.now) limits.most_tours self.new) }
        ensures turned { OnOk result (HasTurned self.old self.new) }
        ensures enough { OnOk result (IsEnough most self.new) }
        ensures told { IsErrOf result Told
            → IsTurning (P.snapshot pricer.now) most limits.most_tours self.old self.new }
        ensures goes_on { G.never_stops runtime.now.gate.now
            → IsOkUnless result OutOfMemory }
        ensures desks { OnOk result (Serving (P.owns pricer.now) desks.new) }
    {
        for _turn in self.series.turns.len()..most {
            if !self.is_open() {
                break;
            }
            self.turn(runtime, pricer, limits, desks)?;
        }
        Ok(())
    }

    /// Takes the plan of the tours of the only turn where it is cheaper and no car reached the limit. It
    /// fails only where there is no memory left.
    fn offer_turn<P: Pricer>(
        &mut self,
        alloc: Global,
        pricer: &P,
        limits: Limits,
    ) -> Result<(), AllocError>
        requires root { IsRoot (P.snapshot pricer.now) limits.most_tours self.old }
        requires single { AreSingle (call_count (P.snapshot pricer.now)) (root_of (P.snapshot pricer.now)) }
        requires one { HasOneTurn (P.snapshot pricer.now) limits.most_tours self.old }
        ensures root { OnOk result (IsRoot (P.snapshot pricer.now) limits.most_tours self.new) }
        ensures turned { OnOk result (HasTurned self.old self.new) }
        ensures turns { OnOk result (self.new.series.turns.items ≡ self.old.series.turns.items) }
        ensures solved { OnOk result (IsSolvedIfUnspent self.new) }
    {
        let branch = &self.tree.branches()[0];
        if branch.spent.is_none() {
            let turn = &self.series.turns[0];
            let (prices, cars) = (turn.prices.as_slice(), turn.cars.as_slice());
            self.best
                .offer_tours(alloc, pricer, limits, &branch.node, prices, cars)?;
        }
        Ok(())
    }

    /// The only turn of a root in which each call has one car: where no car reached the limit, its tours
    /// make a plan that costs no more than the leaf's bound. It fails only where there is no memory left,
    /// or where it was told to stop.
    pub(crate) fn turn_once<P: Pricer, C: PricingCrew<P>, G: Gate>(
        &mut self,
        runtime: &Runtime<C, G>,
        pricer: &P,
        limits: Limits,
        desks: &mut [P::Desk],
    ) -> Result<(), Interruption>
        requires accepted { IsAccepted (P.snapshot pricer.now) }
        requires root { IsRoot (P.snapshot pricer.now) limits.most_tours self.old }
        requires single { AreSingle (call_count (P.snapshot pricer.now)) (root_of (P.snapshot pricer.now)) }
        requires turns { self.old.series.turns.items ≡ [] }
        requires desks { Serving (P.owns pricer.now) desks.old }
        ensures root { OnOk result (IsRoot (P.snapshot pricer.now) limits.most_tours self.new) }
        ensures turned { OnOk result (HasTurned self.old self.new) }
        ensures turns { OnOk result (length self.new.series.turns.items ≡ 1) }
        ensures solved { OnOk result (IsSolvedIfUnspent self.new) }
        ensures told { IsErrOf result Told → self.new ≡ self.old }
        ensures goes_on { G.never_stops runtime.now.gate.now
            → IsOkUnless result OutOfMemory }
        ensures desks { OnOk result (Serving (P.owns pricer.now) desks.new) }
    {
        self.turn(runtime, pricer, limits, desks)?;
        self.offer_turn(runtime.alloc, pricer, limits)?;
        Ok(())
    }

    /// The turns that are due: where some call has two cars, as many as there may be rounds and 20 at most,
    /// or until the root is not open; else one where it is open. It fails only where there is no memory
    /// left, or where it was told to stop.
    pub(crate) fn turn_as_due<P: Pricer, C: PricingCrew<P>, G: Gate>(
        &mut self,
        runtime: &Runtime<C, G>,
        pricer: &P,
        limits: Limits,
        desks: &mut [P::Desk],
    ) -> Result<(), Interruption>
        requires accepted { IsAccepted (P.snapshot pricer.now) }
        requires root { IsRoot (P.snapshot pricer.now) limits.most_tours self.old }
        requires turns { self.old.series.turns.items ≡ [] }
        requires desks { Serving (P.owns pricer.now) desks.old }
        ensures root { OnOk result (IsRoot (P.snapshot pricer.now) limits.most_tours self.new) }
        ensures turned { OnOk result (HasTurned self.old self.new) }
        ensures due { OnOk result (HasDueTurns (P.snapshot pricer.now) limits.rounds self.new) }
        ensures told { IsErrOf result Told
            → IsTurning (P.snapshot pricer.now) limits.rounds limits.most_tours self.old self.new }
        ensures goes_on { G.never_stops runtime.now.gate.now
            → IsOkUnless result OutOfMemory }
        ensures desks { OnOk result (Serving (P.owns pricer.now) desks.new) }
    {
        let calls = self.series.prices.len();
        if first_choice(&self.tree.branches()[0].node, calls).is_some() {
            let most = limits.rounds().min(MOST_TURNS as u64) as usize;
            self.turn_until(runtime, pricer, limits, most, desks)?;
        } else if self.is_open() {
            self.turn_once(runtime, pricer, limits, desks)?;
        }
        Ok(())
    }
}
