//! The cheapest plan in halves that was found, or the start plan twice.

ghost use Rattle.std.specs.Prelude.{◌≡◌, ◌<◌, ◌≤◌, ◌*◌, IfOk, MatchOption, Some, List, length, true, false};
ghost use Rattle.elevator_model.specs.Snapshot.{call_count};
ghost use Rattle.elevator_model.specs.Plans.{IsFeasiblePlan, plan_cost_of};
ghost use Rattle.half_plans.specs.declared.Share.{Share as ShareRecord};
ghost use Rattle.half_plans.specs.PairPlans.{ArePairShares, IsCheapestPairing, pairing_count};
ghost use Rattle.root_prices.specs.Doubles.{HasPlan, doubled_below};

use elevator_model::{MOST_CARS, Plan};
use half_plans::{PairChoice, Share, pairs};
use price_scale::Price;
use restricted_master::Pool;
use search_model::Items;
use std::alloc::{AllocError, Global};
use tour_cost::plan_cost;

/// A pair plan, and what is known of cheaper ones.
#[derive(Drop)]
pub(crate) struct Halves {
    /// Its shares, in the order of the cars.
    pub(crate) shares: Items<Share>,
    /// What it costs, in cost units.
    pub(crate) cost: u64,
    /// Whether the limit was reached, so that a cheaper one may have been missed.
    pub(crate) is_spent: bool,
}

/// The plan as one in halves: each tour weighs 2. It fails only where there is no memory left.
fn doubled(alloc: Global, plan: &Plan) -> Result<Items<Share>, AllocError>
    requires { length plan.now ≤ MOST_CARS }
    ensures { IfOk result (λ shares. shares ≡ doubled_below plan.now (length plan.now)) }
{
    let tours = plan.tours();
    let mut shares = Items::new(alloc);
    for car in 0..tours.len() {
        let tour = tours[car].copy(alloc)?;
        shares.push(Share {
            car: car as u32,
            weight: 2,
            tour,
        })?;
    }
    Ok(shares)
}

/// The shares that were found, where they cost no more than this.
fn shares_within(choice: PairChoice, most: u64) -> Option<Items<Share>>
    ensures { MatchOption result
        ((shares : List ShareRecord) → choice.shares ≡ Some shares → most < choice.cost)
        (λ shares. (choice.shares ≡ Some shares) × (choice.cost ≤ most)) }
{
    if choice.cost <= most {
        choice.shares
    } else {
        None
    }
}

/// A pair plan of the pool's tours that costs at most twice as much as the start plan, whose tours are in the
/// pool: the cheapest one unless it is spent. At most `limit` partial pairings are tried. The prices only
/// steer the search. It fails only where there is no memory left.
pub(crate) fn find_halves(
    alloc: Global,
    pool: &Pool,
    prices: &[Price],
    start: &Plan,
    limit: u64,
) -> Result<Halves, AllocError>
    requires prices { length prices.now ≡ call_count pool.now.snapshot }
    requires start { IsFeasiblePlan pool.now.snapshot start.now }
    requires pooled { HasPlan pool.now.snapshot start.now pool.now.tours }
    requires limit { 1 ≤ limit }
    ensures shares { IfOk result
        (λ halves. ArePairShares pool.now.snapshot pool.now.tours halves.shares halves.cost) }
    ensures at_most { IfOk result (λ halves. halves.cost ≤ 2 * plan_cost_of pool.now.snapshot start.now) }
    ensures cheapest { IfOk result (λ halves. halves.is_spent ≡ false → IsCheapestPairing
        pool.now.snapshot pool.now.tours (Some halves.shares) halves.cost) }
    ensures spent { IfOk result
        (λ halves. halves.is_spent ≡ true → limit ≤ pairing_count pool.now.tours) }
{
    let most = 2 * plan_cost(pool.snapshot(), start);
    let choice = pairs(alloc, pool, prices, limit)?;
    let (cost, is_spent) = (choice.cost, choice.spent);
    let Some(shares) = shares_within(choice, most) else {
        return Ok(Halves {
            shares: doubled(alloc, start)?,
            cost: most,
            is_spent,
        });
    };
    Ok(Halves {
        shares,
        cost,
        is_spent,
    })
}
