//! A case: a snapshot, pools of its tours, and what is selected at some prices and limits.

ghost use Rattle.std.specs.Prelude.{◌≡◌, ◌<◌, ◌≤◌, length};
ghost use Rattle.elevator_model.specs.Snapshot.{call_count};

use crate::lists::pools::fills::{fill, prices_of};
use crate::lists::pools::listing::{is_pooled, least_cost, note_columns, selections, ways};
use crate::lists::pools::pairs::compare_pairs;
use crate::lists::pools::tally::Counts;
use call_state::Snapshot;
use case_kit::{draws_of_case, plan_price};
use case_maker::make;
use elevator_model::Plan;
use price_scale::Price;
use restricted_master::{Choice, Pool};
use search_model::Draws;
use std::alloc::{AllocError, Global};

/// A limit that no pool of three cars comes to.
const FAR: u64 = 40_000;

/// More plans are not listed.
const MOST_WAYS: u64 = 1500;

/// What is known of a pool from its list of plans.
#[derive(Clone, Copy)]
struct Known {
    /// The least cost of a plan, where there is one.
    least: Option<u64>,
    selections: u64,
}

/// What the chosen plan costs. None where there is none.
pub(crate) fn found_cost(choice: &Choice) -> Option<u64> {
    if choice.plan.is_some() {
        Some(choice.cost)
    } else {
        None
    }
}

/// The least cost of a plan, where it is less than this.
fn least_below(known: Known, below: u64) -> Option<u64> {
    match known.least {
        Some(least) if least < below => Some(least),
        _ => None,
    }
}

/// Whether the plan has this cost, and is made of tours of the pool.
fn is_right(pool: &Pool<'_>, plan: &Plan, cost: u64) -> bool {
    plan_price(pool.snapshot(), plan) == Some(cost) && is_pooled(pool, plan)
}

/// Compares a choice that was made with this limit.
fn note_choice(pool: &Pool<'_>, known: Known, limit: u64, choice: &Choice, tally: &mut Counts) {
    match &choice.plan {
        Some(plan) => tally.plans.note(is_right(pool, plan, choice.cost)),
        None => tally.none.note(choice.cost == 0),
    }
    if choice.spent {
        tally.spent.note(limit <= known.selections);
    } else {
        tally.least.note(found_cost(choice) == known.least);
    }
    if limit == FAR {
        tally.ample.note(!choice.spent);
    }
    if limit == 1 {
        tally.first.note(choice.spent && choice.plan.is_none());
    }
}

/// Compares a choice of a plan that was to cost less than this.
fn note_below(pool: &Pool<'_>, known: Known, below: u64, choice: &Choice, tally: &mut Counts) {
    let is_right = match &choice.plan {
        Some(plan) => choice.cost < below && is_right(pool, plan, choice.cost),
        None => choice.cost == 0,
    };
    let is_least = found_cost(choice) == least_below(known, below);
    tally.below.note(is_right && (choice.spent || is_least));
}

/// Selects any plan. What is promised of it is what is compared.
pub(crate) fn selected(
    alloc: Global,
    pool: &Pool<'_>,
    prices: &[Price],
    target: u64,
    limit: u64,
) -> Result<Choice, AllocError>
    requires prices { length prices.now ≡ call_count pool.now.snapshot }
    requires limit { 1 ≤ limit }
{
    pool.select(alloc, prices, target, limit)
}

/// What is asked of a pool: any cheapest plan, or one that costs less than the target.
#[derive(Clone, Copy)]
enum Asked {
    Any,
    Below,
}

impl Asked {
    fn choice(
        self,
        alloc: Global,
        pool: &Pool<'_>,
        prices: &[Price],
        target: u64,
        limit: u64,
    ) -> Result<Choice, AllocError>
        requires prices { length prices.now ≡ call_count pool.now.snapshot }
        requires limit { 1 ≤ limit }
    {
        match self {
            Asked::Any => selected(alloc, pool, prices, target, limit),
            Asked::Below => pool.select_below(alloc, prices, target, limit),
        }
    }
}

/// What a choice is compared with: what is known of the pool, the target and the limit.
#[derive(Clone, Copy)]
struct Trial {
    known: Known,
    target: u64,
    limit: u64,
}

impl Trial {
    fn note(&self, asked: Asked, pool: &Pool<'_>, choice: &Choice, tally: &mut Counts) {
        match asked {
            Asked::Any => note_choice(pool, self.known, self.limit, choice, tally),
            Asked::Below => note_below(pool, self.known, self.target, choice, tally),
        }
    }

    /// Asks with this limit, where it is one, and compares the choice.
    fn compare(
        &self,
        alloc: Global,
        asked: Asked,
        pool: &Pool<'_>,
        prices: &[Price],
        tally: &mut Counts,
    ) -> Result<(), AllocError>
        requires { length prices.now ≡ call_count pool.now.snapshot }
    {
        if self.limit > 0 {
            let choice = asked.choice(alloc, pool, prices, self.target, self.limit)?;
            self.note(asked, pool, &choice, tally);
        }
        Ok(())
    }
}

/// Selects at these prices with several limits, and compares the choices.
fn compare_limits(
    alloc: Global,
    pool: &Pool<'_>,
    prices: &[Price],
    draws: &mut Draws,
    tally: &mut Counts,
) -> Result<(), AllocError>
    requires { length prices.now ≡ call_count pool.now.snapshot }
{
    let known = Known {
        least: least_cost(alloc, pool)?,
        selections: selections(pool),
    };
    let half = known.least.unwrap_or(70_000) / 2;
    let target = half.wrapping_mul(u64::from(draws.pick(5)));
    for limit in [
        FAR,
        1,
        2,
        u64::from(draws.pick(30)),
        u64::from(draws.pick(400)),
    ] {
        let trial = Trial {
            known,
            target,
            limit,
        };
        trial.compare(alloc, Asked::Any, pool, prices, tally)?;
        trial.compare(alloc, Asked::Below, pool, prices, tally)?;
    }
    Ok(())
}

/// Selects at drawn prices, and compares the choices.
fn compare_pool(
    alloc: Global,
    pool: &Pool<'_>,
    draws: &mut Draws,
    tally: &mut Counts,
) -> Result<(), AllocError> {
    let calls = pool.snapshot().calls().len();
    let prices = prices_of(alloc, calls, draws)?;
    if prices.len() != calls {
        return Ok(());
    }
    compare_limits(alloc, pool, &prices, draws, tally)?;
    compare_pairs(alloc, pool, &prices, &mut tally.pairs)
}

/// Compares a choice from a large pool, and one that was made with a low limit.
fn note_short(whole: &Choice, short: &Choice, tally: &mut Counts) {
    tally
        .large
        .note(!whole.spent && (short.spent || short.cost == whole.cost));
    tally.quick = tally.quick.wrapping_add(u64::from(!short.spent));
}

/// Selects with what was found as the target and a limit of 20, which is to give the same unless it is spent.
fn compare_short(
    alloc: Global,
    pool: &Pool<'_>,
    prices: &[Price],
    whole: &Choice,
    tally: &mut Counts,
) -> Result<(), AllocError>
    requires { length prices.now ≡ call_count pool.now.snapshot }
{
    let short = selected(alloc, pool, prices, whole.cost, 20)?;
    note_short(whole, &short, tally);
    Ok(())
}

/// Selects from a pool with too many plans to list: once with a limit that is not reached, and then with a
/// low one.
fn compare_large(alloc: Global, pool: &Pool<'_>, tally: &mut Counts) -> Result<(), AllocError> {
    let calls = pool.snapshot().calls().len();
    let Some(price) = Price::new(0) else {
        return Ok(());
    };
    let prices = [price; 4];
    let Some(prices) = prices.get(..calls) else {
        return Ok(());
    };
    let whole = selected(alloc, pool, prices, 0, FAR)?;
    compare_short(alloc, pool, prices, &whole, tally)
}

/// Puts drawn tours into the pool and compares what is selected.
fn compare_filled(
    alloc: Global,
    pool: &mut Pool<'_>,
    draws: &mut Draws,
    tally: &mut Counts,
) -> Result<(), AllocError> {
    fill(alloc, pool, draws)?;
    note_columns(pool, &mut tally.columns);
    if ways(pool) > MOST_WAYS {
        return compare_large(alloc, pool, tally);
    }
    tally.pools = tally.pools.wrapping_add(1);
    compare_pool(alloc, pool, draws, tally)
}

/// Draws a pool of the snapshot's tours, and compares what is selected.
fn compare_drawn(
    alloc: Global,
    snapshot: &Snapshot,
    draws: &mut Draws,
    tally: &mut Counts,
) -> Result<(), AllocError> {
    let mut pool = Pool::new(alloc, snapshot)?;
    compare_filled(alloc, &mut pool, draws, tally)
}

/// Draws three pools of the snapshot's tours, and compares what is selected.
fn compare_snapshot(
    alloc: Global,
    snapshot: &Snapshot,
    draws: &mut Draws,
    tally: &mut Counts,
) -> Result<(), AllocError> {
    for _ in 0..3 {
        compare_drawn(alloc, snapshot, draws, tally)?;
    }
    Ok(())
}

/// Draws a snapshot, and compares what is selected from pools of its tours.
pub(crate) fn compare_case(alloc: Global, case: u64, tally: &mut Counts) -> Result<(), AllocError> {
    let mut draws = draws_of_case(case);
    let floors = 3 + draws.pick(4);
    let cars = 1 + draws.pick(3);
    let calls = draws.pick(5);
    let snapshot = make(alloc, case, floors, cars, calls)?;
    compare_snapshot(alloc, &snapshot, &mut draws, tally)
}
