//! The sums that are kept along moves: at each partial tour of a car they agree with its bound.

use crate::search::walks::{Asked, Seen, walk_all};
use call_sets::CallSet;
use call_state::Snapshot;
use case_kit::snapshot_in;
use partial_tours::Prefix;
use price_scale::Price;
use pricing_bound::{Rates, StraightRides};
use std::alloc::Global;

/// The car comes to the lowest floor with two persons for the highest one and one for the middle. Four calls
/// wait. A ms of waiting costs 3 and past 6,000 ms 5 more, and one of riding 2.
const FOUR_CALLS: &str = "building 3
speed 2000
accel 1000
weights 3 2
patience 6000 5
floors 0 4000 9000
times 0 4000 7000
times 4000 0 4500
times 7000 4500 0
car 4 6 1000 900 500 400 all
end
snapshot 2
now 2000
car 4 coming 0 2600
aboard 4 3 2 2 700
aboard 4 5 1 1 900
call 7 1 2 1 1100 any
call 8 2 0 3 300 any
call 9 0 1 2 1900 any
call 11 1 0 1 1500 any
end
";

fn prices_of(prices: [i128; 4]) -> Option<[Price; 4]> {
    let [first, second, third, fourth] = prices;
    Some([
        Price::new(first)?,
        Price::new(second)?,
        Price::new(third)?,
        Price::new(fourth)?,
    ])
}

/// The walk over all partial tours of the car at these rates.
fn walked_at(
    alloc: Global,
    rates: &Rates,
    prices: &[Price; 4],
    allowed: CallSet,
    required: CallSet,
) -> Option<Seen> {
    let snapshot = rates.snapshot();
    if snapshot.building().cars().len() != 1 || snapshot.calls().len() != 4 {
        return None;
    }
    let rides = StraightRides::new(rates, 0, allowed, required);
    let asked = Asked {
        snapshot,
        prices,
        allowed,
        required,
    };
    let mut prefix = Prefix::new(alloc, snapshot, 0).ok()?;
    Some(walk_all(&mut prefix, &rides, &asked))
}

/// The walk over all partial tours of the car, where the rates had other prices before.
fn walked(
    alloc: Global,
    snapshot: &Snapshot,
    prices: &[Price; 4],
    allowed: CallSet,
    required: CallSet,
) -> Option<Seen> {
    let mut rates = Rates::new(alloc, snapshot).ok()?;
    if snapshot.calls().len() != 4 {
        return None;
    }
    rates.lay_out(&[prices[3], prices[0], prices[1], prices[2]]);
    rates.lay_out(prices);
    walked_at(alloc, &rates, prices, allowed, required)
}

fn walk(alloc: Global, prices: [i128; 4], allowed: u128, required: u128) -> Option<Seen> {
    let prices = prices_of(prices)?;
    let (allowed, required) = (CallSet::from_bits(allowed), CallSet::from_bits(required));
    match snapshot_in(alloc, FOUR_CALLS.as_bytes()) {
        Some(snapshot) => walked(alloc, &snapshot, &prices, allowed, required),
        None => None,
    }
}

/// Whether the sums agreed with the bound at all partial tours, of which there were this many at least.
fn agreed(seen: Option<Seen>, visits: u64) -> bool {
    match seen {
        Some(seen) => seen.agreed == seen.visits && seen.visits >= visits,
        None => false,
    }
}

// The only tour without calls: the car opens at 3,600 at the lowest floor, at 9,500 at the middle one, where
// the one person has ridden 8,600 ms for 17,200, and at 16,300 at the highest one, where two have ridden
// 15,600 ms for 62,400. From there it may also go to either of the others, which it could not leave again:
// seven partial tours.

#[test]
fn the_groups_alone_have_one_tour(rt: HostRuntime) {
    let seen = Seen {
        visits: 7,
        agreed: 7,
        best: Some(79_600_000),
    };
    assert!(rt; walk(rt.alloc(), [1, 2, 3, 5], 0, 0) == Some(seen));
}

#[test]
fn sums_agree_with_the_bound_after_each_move(rt: HostRuntime) {
    let prices = [11_000_013, 130_000_500, 0, 95_000_007];
    assert!(rt; agreed(walk(rt.alloc(), prices, 0b1111, 0b0000), 300));
    assert!(rt; agreed(walk(rt.alloc(), prices, 0b1111, 0b0100), 300));
    assert!(rt; agreed(walk(rt.alloc(), prices, 0b1011, 0b0010), 50));
}

#[test]
fn sums_agree_at_the_greatest_prices(rt: HostRuntime) {
    let most = 1_000_000_000_000_000_000_000_000;
    assert!(rt;
        agreed(
            walk(rt.alloc(), [most, -most, most - 7, 3], 0b1111, 0b1010),
            300
        )
    );
}
