//! One round: which leaves it prices, at which prices, and what is made of the answers.

ghost use Rattle.std.specs.Prelude.{◌≡◌, ◌<◌, ◌≤◌, ◌^◌, All, IfOk, IsErrOf, IsOkUnless, OnOk, length, true, false};
ghost use Rattle.elevator_model.specs.Snapshot.{IsAccepted, car_count};
ghost use Rattle.search_model.specs.declared.interruptions.Interruption.TheVariants.{OutOfMemory, Told};
ghost use Rattle.work_fan.specs.Work.{Serving};
ghost use Rattle.node_search.specs.Searches.{ArePriced, AreTaken, AreTasksFor, HasAdvanced, HasDoneRound};
ghost use Rattle.node_search.specs.Searches.{HasGoneOn, HasRun, IsAtRest, IsPricedFrom, IsSearching, IsUnderWay};

use crate::choosing::chosen;
use crate::search::Search;
use crate::steps::next_prices;
use assign_branch::Pricer;
use byte_streams::{Gate, Progress};
use price_scale::Price;
use pricing_rounds::{PricingCrew, Task, price_nodes};
use search_model::{Interruption, Limits, TurnOf};
use std::alloc::{AllocError, Global};
use work_fan::Runtime;

/// A leaf that a round prices, and at which prices.
#[derive(Drop)]
pub(crate) struct Chosen {
    pub(crate) place: usize,
    pub(crate) prices: Vec<Price>,
}

impl<'a> Search<'a> {
    /// The leaf at this place, with the prices of its next pricing. It fails only where there is no memory
    /// left.
    fn chosen_at(&self, alloc: Global, place: usize) -> Result<Chosen, AllocError>
        requires { place < length self.now.tree.branches }
        ensures { IfOk result (IsPricedFrom self.now place) }
    {
        let branch = &self.tree.branches()[place];
        let (cost, pool) = (self.best.cost, &self.best.pool);
        let prices = next_prices(alloc, self.tree.payload(place), branch, cost, pool)?;
        Ok(Chosen { place, prices })
    }

    /// The leaves that a round prices, in the order of the tree: at most four, and none only where no leaf
    /// may be priced any more. It fails only where there is no memory left.
    fn choose(&self, alloc: Global) -> Result<Vec<Chosen>, AllocError>
        ensures { IfOk result (λ chosen. AreTaken self.now.best.pool.snapshot self.now chosen.items) }
    {
        let calls = self.best.pool.snapshot().calls().len();
        let places = chosen(alloc, self.tree.branches(), self.best.cost, calls)?;
        let mut chosen = Vec::new(alloc);
        for index in 0..places.len() {
            chosen.push(self.chosen_at(alloc, places[index])?)?;
        }
        Ok(chosen)
    }

    /// The tasks of a round. It fails only where there is no memory left.
    fn tasks_of<'b>(
        &'b self,
        alloc: Global,
        chosen: &'b [Chosen],
    ) -> Result<Vec<Task<'b>>, AllocError>
        requires { All (λ (c : Chosen). c.place < length self.now.tree.branches) chosen.now }
        ensures { IfOk result (λ tasks. AreTasksFor self.now chosen.now tasks.items) }
    {
        let mut tasks = Vec::new(alloc);
        for index in 0..chosen.len() {
            let Chosen { place, prices } = &chosen[index];
            let node = &self.tree.branches()[*place].node;
            tasks.push(Task { node, prices })?;
        }
        Ok(tasks)
    }

    /// How many partial tours each car's pricing in each of these leaves may try, as its last one there or
    /// above tells. It fails only where there is no memory left.
    fn sizes_of(&self, alloc: Global, chosen: &[Chosen]) -> Result<Vec<u64>, AllocError>
        requires { All (λ (c : Chosen). c.place < length self.now.tree.branches) chosen.now }
    {
        let cars = self.best.pool.snapshot().building().cars().len();
        let mut sizes = Vec::new(alloc);
        for index in 0..chosen.len() {
            let steps = self.tree.payload(chosen[index].place);
            for car in 0..cars {
                sizes.push(steps.tried(car))?;
            }
        }
        Ok(sizes)
    }

    /// Prices every car in each of these leaves, with one worker for each desk. It fails only where there is
    /// no memory left, or where it was told to stop.
    fn price<P: Pricer, C: PricingCrew<P>, G: Gate>(
        &self,
        runtime: &Runtime<C, G>,
        pricer: &P,
        limits: Limits,
        chosen: &[Chosen],
        desks: &mut [P::Desk],
    ) -> Result<Vec<TurnOf>, Interruption>
        requires accepted { IsAccepted (P.snapshot pricer.now) }
        requires way { IsUnderWay (P.snapshot pricer.now) limits.most_tours self.now }
        requires taken { AreTaken (P.snapshot pricer.now) self.now chosen.now }
        requires desks { Serving (P.owns pricer.now) desks.old }
        ensures priced { IfOk result
            (λ answers. ArePriced (P.snapshot pricer.now) limits.most_tours self.now chosen.now answers.items) }
        ensures goes_on { G.never_stops runtime.now.gate.now
            → IsOkUnless result OutOfMemory }
        ensures desks { All (P.owns pricer.now) desks.new }
    {
        let cars = self.best.pool.snapshot().building().cars().len() as u32;
        let tasks = self.tasks_of(runtime.alloc, chosen)?;
        let sizes = self.sizes_of(runtime.alloc, chosen)?;
        price_nodes(runtime, pricer, cars, &tasks, &sizes, limits, desks)
    }

    /// Takes in the pricings of every car in each of these leaves, the last leaf first: a split moves only
    /// what comes after it. It fails only where there is no memory left.
    fn settle_all<P: Pricer>(
        &mut self,
        alloc: Global,
        pricer: &P,
        limits: Limits,
        cars: usize,
        chosen: &[Chosen],
        answers: &[TurnOf],
    ) -> Result<(), AllocError>
        requires accepted { IsAccepted (P.snapshot pricer.now) }
        requires way { IsUnderWay (P.snapshot pricer.now) limits.most_tours self.old }
        requires cars { cars ≡ car_count (P.snapshot pricer.now) }
        requires priced { ArePriced (P.snapshot pricer.now) limits.most_tours self.old chosen.now answers.now }
        ensures way { OnOk result (IsUnderWay (P.snapshot pricer.now) limits.most_tours self.new) }
        ensures advanced { OnOk result
            (HasAdvanced (P.snapshot pricer.now) (length chosen.now) self.old self.new) }
    {
        for index in (0..chosen.len()).rev() {
            let Chosen { place, prices } = &chosen[index];
            let start = index * cars;
            let priced = &answers[start..start + cars];
            self.settle(alloc, pricer, limits, *place, prices, priced)?;
        }
        Ok(())
    }

    /// Prices up to four leaves and takes in what was answered. False, and all is as before, exactly where
    /// no leaf may be priced any more. It fails only where there is no memory left, or where it was told to
    /// stop, and then all is as before.
    fn round<P: Pricer, C: PricingCrew<P>, G: Gate>(
        &mut self,
        runtime: &Runtime<C, G>,
        pricer: &P,
        limits: Limits,
        desks: &mut [P::Desk],
    ) -> Result<bool, Interruption>
        requires accepted { IsAccepted (P.snapshot pricer.now) }
        requires searching { IsSearching (P.snapshot pricer.now) limits.most_tours self.old }
        requires done { self.old.done < 10 ^ 18 }
        requires desks { Serving (P.owns pricer.now) desks.old }
        ensures searching { OnOk result (IsSearching (P.snapshot pricer.now) limits.most_tours self.new) }
        ensures done { IfOk result
            (λ more. more ≡ true → HasDoneRound (P.snapshot pricer.now) self.old self.new) }
        ensures busy { IfOk result
            (λ more. more ≡ true → IsAtRest (P.snapshot pricer.now) self.old → ⊥) }
        ensures rest { IfOk result (λ more. more ≡ false → IsAtRest (P.snapshot pricer.now) self.new) }
        ensures same { IfOk result (λ more. more ≡ false → self.new ≡ self.old) }
        ensures told { IsErrOf result Told → self.new ≡ self.old }
        ensures goes_on { G.never_stops runtime.now.gate.now
            → IsOkUnless result OutOfMemory }
        ensures desks { All (P.owns pricer.now) desks.new }
    {
        let chosen = self.choose(runtime.alloc)?;
        if chosen.is_empty() {
            return Ok(false);
        }
        {
            let answers = self.price(runtime, pricer, limits, &chosen, desks)?;
            let cars = self.best.pool.snapshot().building().cars().len();
            self.settle_all(runtime.alloc, pricer, limits, cars, &chosen, &answers)?;
        }
        self.best.select(runtime.alloc, &chosen[0].prices, limits)?;
        self.done += 1;
        Ok(true)
    }

    /// Rounds until as many were done as the limits have or no leaf may be priced any more. It fails only
    /// where there is no memory left, or where they were told to stop.
    pub(crate) fn run<P: Pricer, C: PricingCrew<P>, G: Gate>(
        &mut self,
        runtime: &Runtime<C, G>,
        pricer: &P,
        limits: Limits,
        desks: &mut [P::Desk],
    ) -> Result<(), Interruption>
        requires accepted { IsAccepted (P.snapshot pricer.now) }
        requires searching { IsSearching (P.snapshot pricer.now) limits.most_tours self.old }
        requires done { self.old.done ≤ limits.rounds }
        requires desks { Serving (P.owns pricer.now) desks.old }
        ensures searching { OnOk result (IsSearching (P.snapshot pricer.now) limits.most_tours self.new) }
        ensures run { OnOk result (HasRun (P.snapshot pricer.now) limits.rounds self.old self.new) }
        ensures told { IsErrOf result Told → IsSearching (P.snapshot pricer.now) limits.most_tours self.new
            × HasGoneOn (P.snapshot pricer.now) limits.rounds self.old self.new }
        ensures goes_on { G.never_stops runtime.now.gate.now
            → IsOkUnless result OutOfMemory }
        ensures desks { All (P.owns pricer.now) desks.new }
    {
        let rounds = limits.rounds();
        while self.done < rounds {
            if !self.round(runtime, pricer, limits, desks)? {
                break;
            }
            runtime.gate.tell(Progress::Goes(self.state()));
        }
        Ok(())
    }
}
