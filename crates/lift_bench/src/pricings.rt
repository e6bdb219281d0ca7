//! Pricings of all cars of a snapshot at its root, at one price for all calls.

ghost use Rattle.std.specs.Prelude.{◌≡◌, ◌≤◌, ◌^◌, length, IfOk};
ghost use Rattle.elevator_model.specs.Snapshot.{call_count};
ghost use Rattle.search_model.specs.Nodes.{IsNodeOf};

use assign_branch::{Node, Pricer, root};
use byte_streams::OpenGate;
use call_state::Snapshot;
use first_plan::{DEFAULT_ROUNDS, first};
use price_scale::{Price, scaled};
use pricing_search::Searcher;
use std::alloc::{AllocError, Global};
use std::io;
use std::time::{Clock, Instant};
use tour_cost::plan_cost;

/// How a snapshot's cars are priced.
#[derive(Clone, Copy)]
pub(crate) struct Pricing {
    /// How many times the mean cost of a call in a first plan each price is: 0, 2 or 4.
    pub(crate) factor: u32,
    /// The most visits of a pricing.
    pub(crate) limit: u32,
    /// How often each car is priced.
    pub(crate) rounds: u32,
}

/// What the pricings answered.
#[derive(Clone, Copy, Default)]
struct Seen {
    visits: u64,
    /// How many pricings reached the limit.
    spent: u32,
    /// The worths added up, modulo 2^128.
    worths: i128,
}

/// The mean cost of a call in a first plan, in cost units.
fn mean_cost(alloc: Global, snapshot: &Snapshot) -> Result<u64, AllocError>
    ensures { IfOk result (λ cost. cost ≤ 10 ^ 18) }
{
    let plan = first(alloc, snapshot, DEFAULT_ROUNDS, &OpenGate)?;
    let calls = snapshot.calls().len() as u64;
    Ok(plan_cost(snapshot, &plan) / calls.max(1))
}

/// The price 0, or twice or four times a cost.
fn price_of(mean: u64, factor: u32) -> Option<Price>
    requires { mean ≤ 10 ^ 18 }
{
    let cost = scaled(mean);
    Price::new(match factor {
        0 => 0,
        2 => 2 * cost,
        _ => 4 * cost,
    })
}

/// Equal prices for all calls.
fn equal_prices(alloc: Global, snapshot: &Snapshot, price: Price) -> Result<Vec<Price>, AllocError>
    ensures { IfOk result (λ prices. length prices.items ≡ call_count snapshot.now) }
{
    vec![in alloc; price; snapshot.calls().len()]
}

/// Prices each car at the root.
fn price_each<P: Pricer>(
    pricer: &P,
    snapshot: &Snapshot,
    node: &Node,
    prices: &[Price],
    limit: u32,
    desk: &mut P::Desk,
    seen: &mut Seen,
)
    requires same { P.snapshot pricer.now ≡ snapshot.now }
    requires node { IsNodeOf snapshot.now node.now }
    requires prices { length prices.now ≡ call_count snapshot.now }
    requires own { P.owns pricer.now desk.old }
    ensures own { P.owns pricer.now desk.new }
{
    let limit = u64::from(limit.max(1));
    for car in 0..snapshot.building().cars().len() {
        let priced = pricer.price(car as u32, node, prices, limit, desk);
        seen.visits = seen.visits.wrapping_add(priced.visits);
        seen.spent = seen.spent.wrapping_add(u32::from(priced.spent));
        seen.worths = seen.worths.wrapping_add(priced.worth);
    }
}

/// Prices all cars at the root, this many times, at one desk.
fn price_often<P: Pricer>(
    pricer: &P,
    snapshot: &Snapshot,
    node: &Node,
    prices: &[Price],
    pricing: Pricing,
    desk: &mut P::Desk,
) -> Seen
    requires same { P.snapshot pricer.now ≡ snapshot.now }
    requires node { IsNodeOf snapshot.now node.now }
    requires prices { length prices.now ≡ call_count snapshot.now }
    requires own { P.owns pricer.now desk.old }
{
    let mut seen = Seen::default();
    for _round in 0..pricing.rounds {
        price_each(
            pricer,
            snapshot,
            node,
            prices,
            pricing.limit,
            desk,
            &mut seen,
        );
    }
    seen
}

/// Prices all cars at this desk, and answers how many microseconds that took.
fn price_timed<P: Pricer>(
    rt: &HostRuntime,
    pricer: &P,
    snapshot: &Snapshot,
    node: &Node,
    prices: &[Price],
    pricing: Pricing,
    desk: &mut P::Desk,
) -> io::Result<(Seen, u128)>
    requires same { P.snapshot pricer.now ≡ snapshot.now }
    requires node { IsNodeOf snapshot.now node.now }
    requires prices { length prices.now ≡ call_count snapshot.now }
    requires own { P.owns pricer.now desk.old }
{
    let start = Instant::now(rt)?;
    let seen = price_often(pricer, snapshot, node, prices, pricing, desk);
    Ok((seen, start.elapsed(rt)?.as_micros()))
}

/// Prices all cars at these prices. Only the pricings are timed: not the making of the desk.
fn price_at(
    rt: &HostRuntime,
    snapshot: &Snapshot,
    node: &Node,
    prices: &[Price],
    pricing: Pricing,
) -> io::Result<(Seen, u128)>
    requires node { IsNodeOf snapshot.now node.now }
    requires prices { length prices.now ≡ call_count snapshot.now }
{
    let searcher = Searcher::new(snapshot);
    let mut desk = searcher.desk(rt.alloc())?;
    price_timed(rt, &searcher, snapshot, node, prices, pricing, &mut desk)
}

/// Prices all cars at this price, and answers how many microseconds that took.
fn price_all(
    rt: &HostRuntime,
    snapshot: &Snapshot,
    price: Price,
    pricing: Pricing,
) -> io::Result<(Seen, u128)> {
    let prices = equal_prices(rt.alloc(), snapshot, price)?;
    let node = root(rt.alloc(), snapshot)?;
    price_at(rt, snapshot, &node, &prices, pricing)
}

/// Prices all cars, and prints how many partial tours were visited, how many pricings reached the limit, and
/// the sum of the worths; and to standard error the microseconds that the pricings took.
pub(crate) fn print_pricing(
    rt: &HostRuntime,
    snapshot: &Snapshot,
    pricing: Pricing,
) -> io::Result<bool> {
    let Some(price) = price_of(mean_cost(rt.alloc(), snapshot)?, pricing.factor) else {
        return Ok(false);
    };
    let (seen, microseconds) = price_all(rt, snapshot, price, pricing)?;
    println!(rt;
        "calls {} cars {} price {} visits {} spent {} worths {}",
        snapshot.calls().len(),
        snapshot.building().cars().len(),
        price.value(),
        seen.visits,
        seen.spent,
        seen.worths
    )?;
    eprintln!(rt; "microseconds {microseconds}")?;
    Ok(true)
}
