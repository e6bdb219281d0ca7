//! Turns at the root, one after another, and the prices of the next one.

ghost use Rattle.std.specs.Prelude.{◌≡◌, ◌<◌, ◌+◌, ◌/◌, ℕ, pos, [], ◌∷◌, ◌++◌, IfOk, IsOkUnless, OnOk, length};
ghost use Rattle.elevator_model.specs.Snapshot.{Snapshot, IsAccepted, call_count, car_count};
ghost use Rattle.search_model.specs.declared.interruptions.Interruption.TheVariants.{OutOfMemory};
ghost use Rattle.search_model.specs.Nodes.{IsNodeOf, root_of};
ghost use Rattle.search_model.specs.Prices.{price_at};
ghost use Rattle.search_tree.specs.Answers.{AreAnswersIn};
ghost use Rattle.work_fan.specs.Work.{Serving};
ghost use Rattle.root_turns.specs.Turns.{moved_price};

use crate::pricing::price_turn;
use crate::turns::{greatest_of, prices_after, step_after};
use assign_branch::{Node, Pricer};
use byte_streams::Gate;
use price_scale::Price;
use pricing_rounds::{PricingCrew, Task};
use search_model::{Interruption, Items, Limits, Turn, TurnOf};
use std::alloc::{AllocError, Global};
use std::mem::replace;
use work_fan::Runtime;

/// Turns at the root, and the prices of the next one.
#[derive(Drop)]
pub struct TurnSeries {
    pub turns: Vec<Turn>,
    /// The prices of the next turn.
    pub prices: Vec<Price>,
    /// The greatest of 0 and the prices of the first turn, in thousandths of a cost unit.
    pub step: i128,
}

impl TurnSeries {
    ghost use Rattle.root_turns.specs.Dues.{turn_with};
    ghost use Rattle.root_turns.specs.Series.{CanPush, HasPushed, IsTurnSeries};

    /// No turn yet, before one at these prices. It fails only where there is no memory left.
    pub fn new(alloc: Global, prices: &[Price]) -> Result<Self, AllocError>
        ensures series { IfOk result (λ x. (s : Snapshot) (most_tours : ℕ)
            → length prices.now ≡ call_count s → IsTurnSeries s most_tours prices.now x) }
        ensures turns { IfOk result (λ x. x.turns.items ≡ []) }
        ensures prices { IfOk result (λ x. x.prices.items ≡ prices.now) }
    {
        let prices = prices.to_vec(alloc)?;
        let step = greatest_of(&prices);
        Ok(TurnSeries {
            turns: Vec::new(alloc),
            prices,
            step,
        })
    }

    /// The pricings of all cars in the root at the prices of the next turn, by the runtime's crew. It fails
    /// only where there is no memory left, or where it was told to stop.
    pub fn price<P: Pricer, C: PricingCrew<P>, G: Gate>(
        &self,
        runtime: &Runtime<C, G>,
        pricer: &P,
        cars: u32,
        root: &Node,
        limits: Limits,
        desks: &mut [P::Desk],
    ) -> Result<Vec<TurnOf>, Interruption>
        requires accepted { IsAccepted (P.snapshot pricer.now) }
        requires cars { cars ≡ car_count (P.snapshot pricer.now) }
        requires root { root.now ≡ root_of (P.snapshot pricer.now) }
        requires is_node { IsNodeOf (P.snapshot pricer.now) (root_of (P.snapshot pricer.now)) }
        requires calls { length self.now.prices.items ≡ call_count (P.snapshot pricer.now) }
        requires desks { Serving (P.owns pricer.now) desks.old }
        ensures answers { IfOk result (λ priced. AreAnswersIn (P.snapshot pricer.now) limits.most_tours
            (root_of (P.snapshot pricer.now)) self.now.prices.items priced.items) }
        ensures goes_on { G.never_stops runtime.now.gate.now
            → IsOkUnless result OutOfMemory }
        ensures desks { Serving (P.owns pricer.now) desks.new }
    {
        let prices = self.prices.as_slice();
        let task = Task { node: root, prices };
        let last = self.turns.last();
        price_turn(runtime, pricer, cars, task, last, limits, desks)
    }

    /// The prices of the turn after the one of these pricings. It fails only where there is no memory left.
    fn next_prices(&self, alloc: Global, cars: &[TurnOf]) -> Result<Vec<Price>, AllocError>
        requires { CanPush self.now cars.now }
        ensures count { IfOk result (λ next. length next.items ≡ length self.now.prices.items) }
        ensures each { IfOk result (λ next. (most : ℕ) → self.now.step ≡ pos most
            → (j : ℕ) → j < length self.now.prices.items → price_at next.items j
            ≡ moved_price self.now.prices.items (pos (most / (length self.now.turns.items + 1))) cars.now j) }
    {
        let step = step_after(self.step, self.turns.len());
        let next = prices_after(alloc, &self.prices, cars, step)?;
        Ok(next)
    }

    /// Puts a turn at the present prices after the others, and goes on to the next prices. It fails only
    /// where there is no memory left.
    fn push_turn(&mut self, next: Vec<Price>, cars: Vec<TurnOf>) -> Result<(), AllocError>
        ensures step { self.new.step ≡ self.old.step }
        ensures prices { OnOk result (self.new.prices.items ≡ next.items) }
        ensures turns { OnOk result
            (self.new.turns.items ≡ self.old.turns.items ++ turn_with self.old.prices.items cars.items ∷ []) }
    {
        let prices = Items::from_vec(replace(&mut self.prices, next));
        let cars = Items::from_vec(cars);
        self.turns.push(Turn { prices, cars })?;
        Ok(())
    }

    /// Puts the turn of these pricings after the others, and goes on to the next prices. It fails only where
    /// there is no memory left.
    pub fn push(&mut self, alloc: Global, cars: Vec<TurnOf>) -> Result<(), AllocError>
        requires { CanPush self.old cars.items }
        ensures { OnOk result (HasPushed self.old self.new cars.items) }
    {
        let next = self.next_prices(alloc, &cars)?;
        self.push_turn(next, cars)?;
        Ok(())
    }
}
