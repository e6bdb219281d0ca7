//! The cheapest plan that is made of tours of a pool.

ghost use Rattle.std.specs.Prelude.{◌≡◌, ◌≤◌, ◌<◌, ◌^◌, true, false, IfOk, IfSome, length, All};
ghost use Rattle.elevator_model.specs.Snapshot.{call_count, car_count};

use crate::columns::CarColumns;
use crate::pools::Pool;
use crate::prices::prices_of;
use car_search::{Outcome, Selection, cheapest_picks, first_calls, sum_of_least};
use elevator_model::{MOST_CALLS, MOST_CARS, Plan};
use price_scale::Price;
use std::alloc::{AllocError, Global};

/// What a selection found.
#[derive(Drop)]
pub struct Choice {
    /// A feasible plan made of tours of the pool, where one was found.
    pub plan: Option<Plan>,
    /// What the plan costs, in cost units: 0 where there is none.
    pub cost: u64,
    /// Whether as many partial selections were tried as may be, so that a cheaper plan may have been missed.
    pub spent: bool,
}

impl Choice {
    /// No plan.
    fn none(spent: bool) -> Self
        ensures { result ≡ record { plan = None; cost = 0; spent = spent } }
    {
        Choice {
            plan: None,
            cost: 0,
            spent,
        }
    }
}

impl<'a> Pool<'a> {
    ghost use Rattle.restricted_master.specs.Pools.{IsCheapest, IsCheapestBelow, IsMadeOf, cost_of_choice};
    ghost use Rattle.restricted_master.specs.Pools.{selection_count, tours_of_car};
    ghost use Rattle.car_search.specs.Choosing.{IsRising, picks};
    ghost use Rattle.restricted_master.specs.Priced.{IsPriced};
    ghost use Rattle.restricted_master.specs.Choices.{AreCandidates, AreChoices, IsPicked, CanPick};
    ghost use Rattle.restricted_master.specs.Choices.{IsPlanPick, IsCheapestPick, IsLeastBelow, HasPicked};

    /// The cheapest feasible plan that is made of tours of the pool, found depth first over the cars. A
    /// partial selection is one tour for each of the first cars, of none up to all; at most `limit` of them
    /// are tried, which is at least 1. The choice is spent only where there are as many. The only error is
    /// that memory runs out.
    ///
    /// The prices, of which each call has one, and the target, such as what the best known plan costs, in
    /// cost units, only steer the search: they may change how many partial selections it tries, and which of
    /// the cheapest plans it finds.
    pub fn select(
        &self,
        alloc: Global,
        prices: &[Price],
        target: u64,
        limit: u64,
    ) -> Result<Choice, AllocError>
        requires prices { length prices.now ≡ call_count self.now.snapshot }
        requires limit { 1 ≤ limit }
        ensures plan { IfOk result (λ choice. IfSome choice.plan (IsMadeOf self.now)) }
        ensures cost { IfOk result
            (λ choice. choice.cost ≡ cost_of_choice self.now.snapshot choice.plan) }
        ensures cheapest { IfOk result
            (λ choice. choice.spent ≡ false → IsCheapest self.now choice.plan) }
        ensures spent { IfOk result
            (λ choice. choice.spent ≡ true → limit ≤ selection_count self.now.tours) }
        ensures ample { IfOk result
            (λ choice. 34 ^ car_count self.now.snapshot ≤ limit → choice.spent ≡ false) }
    {
        prove!(self.snapshot().calls().len() <= MOST_CALLS);
        let raised = self.raised(alloc, prices, target)?;
        let prices = raised.as_slice();
        let choices = self.choices(alloc, prices)?;
        let found = self.best_picks(&choices, prices, target, limit);
        self.choice_of(alloc, &choices, found)
    }

    /// The cheapest feasible plan that is made of tours of the pool and costs less than `below`, in cost
    /// units, and None exactly where no plan of the pool does, unless the choice is spent. It is found as
    /// `select` finds one, which goes on to dearer plans where there is none; the bounds of this one leave
    /// most partial selections untried. The only error is that memory runs out.
    pub fn select_below(
        &self,
        alloc: Global,
        prices: &[Price],
        below: u64,
        limit: u64,
    ) -> Result<Choice, AllocError>
        requires prices { length prices.now ≡ call_count self.now.snapshot }
        requires limit { 1 ≤ limit }
        ensures plan { IfOk result (λ choice. IfSome choice.plan (IsMadeOf self.now)) }
        ensures cost { IfOk result
            (λ choice. choice.cost ≡ cost_of_choice self.now.snapshot choice.plan) }
        ensures below { IfOk result (λ choice. IfSome choice.plan (λ _. choice.cost < below)) }
        ensures cheapest { IfOk result
            (λ choice. choice.spent ≡ false → IsCheapestBelow self.now below choice.plan) }
        ensures spent { IfOk result
            (λ choice. choice.spent ≡ true → limit ≤ selection_count self.now.tours) }
        ensures ample { IfOk result
            (λ choice. 34 ^ car_count self.now.snapshot ≤ limit → choice.spent ≡ false) }
    {
        prove!(self.snapshot().calls().len() <= MOST_CALLS);
        if below == 0 {
            return Ok(Choice::none(false));
        }
        let raised = self.raised(alloc, prices, below)?;
        let prices = raised.as_slice();
        let choices = self.choices(alloc, prices)?;
        let found = self.picks_below(&choices, prices, below, limit);
        self.choice_of(alloc, &choices, found)
    }

    /// The plan of the picks that were found, if any.
    fn choice_of(
        &self,
        alloc: Global,
        choices: &[CarColumns],
        found: Outcome,
    ) -> Result<Choice, AllocError>
        requires few { length choices.now ≤ MOST_CARS }
        requires picked { IfSome found.picked (IsPlanPick self.now choices.now) }
        ensures plan { IfOk result (λ choice. IfSome choice.plan (IsMadeOf self.now)) }
        ensures cost { IfOk result
            (λ choice. choice.cost ≡ cost_of_choice self.now.snapshot choice.plan) }
        ensures picked { IfOk result
            (λ choice. HasPicked self.now.snapshot found.picked choice.plan) }
        ensures spent { IfOk result (λ choice. choice.spent ≡ found.spent) }
    {
        let Some(picked) = found.picked else {
            return Ok(Choice::none(found.spent));
        };
        Ok(Choice {
            plan: Some(self.plan_of(alloc, choices, &picked)?),
            cost: picked.cost,
            spent: found.spent,
        })
    }

    /// The picks of a cheapest plan. Those that cost no more than the target are looked for first: a cheapest
    /// plan is mostly among them, and few others are tried on the way.
    fn best_picks(
        &self,
        choices: &[CarColumns],
        prices: &[Price],
        target: u64,
        limit: u64,
    ) -> Outcome
        requires choices { AreChoices self.now choices.now }
        requires prices { length prices.now ≡ call_count self.now.snapshot }
        requires priced { All (IsPriced prices.now) choices.now }
        requires rising { All (λ x. IsRising x.candidates.items) choices.now }
        ensures few { length choices.now ≤ MOST_CARS }
        ensures picked { IfSome result.picked (IsPlanPick self.now choices.now) }
        ensures cheapest { result.spent ≡ false → IsCheapestPick self.now result.picked }
        ensures spent { result.spent ≡ true → limit ≤ selection_count self.now.tours }
        ensures ample { 34 ^ car_count self.now.snapshot ≤ limit → result.spent ≡ false }
    {
        let found = self.picks_below(choices, prices, target.saturating_add(1), limit);
        if found.is_decided() {
            return found;
        }
        self.picks_below(choices, prices, u64::MAX, limit)
    }

    /// The picks of a cheapest plan among those that cost less than this.
    fn picks_below(
        &self,
        choices: &[CarColumns],
        prices: &[Price],
        beat: u64,
        limit: u64,
    ) -> Outcome
        requires choices { AreChoices self.now choices.now }
        requires prices { length prices.now ≡ call_count self.now.snapshot }
        requires priced { All (IsPriced prices.now) choices.now }
        requires rising { All (λ x. IsRising x.candidates.items) choices.now }
        requires beat { 0 < beat }
        ensures few { length choices.now ≤ MOST_CARS }
        ensures picked { IfSome result.picked (IsPlanPick self.now choices.now) }
        ensures below { IfSome result.picked (λ x. x.cost < beat) }
        ensures least { result.spent ≡ false → IsLeastBelow self.now beat result.picked }
        ensures whole { beat ≡ 18446744073709551615 → result.spent ≡ false
            → IsCheapestPick self.now result.picked }
        ensures spent { result.spent ≡ true → limit ≤ selection_count self.now.tours }
        ensures ample { 34 ^ car_count self.now.snapshot ≤ limit → result.spent ≡ false }
    {
        let all = first_calls(self.snapshot().calls().len());
        let bound = prices_of(prices, all) + sum_of_least(choices);
        cheapest_picks(choices, all, bound, beat, limit)
    }

    /// The candidates of each car at these prices.
    fn choices(&self, alloc: Global, prices: &[Price]) -> Result<Vec<CarColumns>, AllocError>
        requires { length prices.now ≤ MOST_CALLS }
        ensures choices { IfOk result (λ choices. AreChoices self.now choices.items) }
        ensures priced { IfOk result (λ choices. All (IsPriced prices.now) choices.items) }
        ensures rising { IfOk result
            (λ choices. All (λ x. IsRising x.candidates.items) choices.items) }
    {
        let cars = self.cars();
        let mut choices = Vec::with_capacity(alloc, cars)?;
        for car in 0..cars {
            choices.push(self.choice(alloc, car, prices)?)?;
        }
        Ok(choices)
    }

    /// The plan of the tours that were picked.
    fn plan_of(
        &self,
        alloc: Global,
        choices: &[CarColumns],
        picked: &Selection,
    ) -> Result<Plan, AllocError>
        requires few { length choices.now ≤ MOST_CARS }
        requires picked { CanPick self.now choices.now (picks picked.now) }
        ensures { IfOk result (IsPicked self.now choices.now (picks picked.now)) }
    {
        let mut plan = Plan::new(alloc);
        for car in 0..choices.len() {
            let candidate = &choices[car].candidates[picked.places[car]];
            let Some(tour) = self.tour(car as u32, candidate.item) else {
                unreachable!()
            };
            plan.push(tour.copy(alloc)?)?;
        }
        Ok(plan)
    }
}
