//! A case that was worked out by hand: three floors, a car for one person at the lowest floor and one for two
//! at the middle one, two calls from the lowest floor to the highest and two the other way.
//!
//! The first car takes a call up for 9500. The second one takes the two calls down for 14000 each, and then
//! the other call up for 23500: 61000 together. Where both cars first take a call up and then one down, that
//! costs the first one 9500 and 18500, and the second one 13500 and 22500: 64000 together.
//!
//! In halves: the first car takes call 0 up for 9500, or call 1 up and then call 2 down for 28000. The second
//! one takes calls 0 and 1 up for 14000 each and then call 3 down for 23500, or calls 2 and 3 down for 14000
//! each. No two of these tours are a plan, and all four are a plan in halves, for 117000. With the second
//! car's tour that takes call 0 up and then call 3 down, for 36000, there is a plan for 64000, which is more
//! twice over.

use crate::lists::pools::fills::{offer, tours_of};
use crate::lists::pools::listing::count_of;
use crate::lists::pools::pairs::is_least;
use crate::lists::pools::runs::{found_cost, selected};
use crate::lists::pools::tally::Counts;
use call_state::Snapshot;
use case_kit::{WORKED_CASE, snapshot_in, tour_in};
use elevator_model::Tour;
use price_scale::Price;
use restricted_master::{MOST_TOURS, Pool};
use std::alloc::{AllocError, Global};

/// Puts the tour in this text in. Says whether it could.
fn offer_text(alloc: Global, pool: &mut Pool<'_>, car: u32, text: &str) -> bool {
    match tour_in(alloc, text) {
        Some(tour) => offer(pool, car, tour),
        None => false,
    }
}

/// What is selected at prices of 0: the plan's cost, if there is one, and whether the limit was reached. None
/// where the snapshot is another one, or memory is wanting.
fn selected_cost(alloc: Global, pool: &Pool<'_>, limit: u64) -> Option<(Option<u64>, bool)> {
    match Price::new(0) {
        Some(price) if pool.snapshot().calls().len() == 4 && limit > 0 => {
            let choice = selected(alloc, pool, &[price; 4], 0, limit).ok()?;
            Some((found_cost(&choice), choice.spent))
        }
        _ => None,
    }
}

/// Whether a plan of this cost is selected, or none, and no limit is reached.
fn is_selected(alloc: Global, pool: &Pool<'_>, due: Option<u64>) -> bool {
    match selected_cost(alloc, pool, 1_000_000) {
        Some((found, spent)) => !spent && found == due,
        None => false,
    }
}

/// Whether no plan is selected with the limit 1, which is reached.
fn is_first_spent(alloc: Global, pool: &Pool<'_>) -> bool {
    match selected_cost(alloc, pool, 1) {
        Some((found, spent)) => spent && found.is_none(),
        None => false,
    }
}

/// Puts tours in until there are plans, and compares what is selected.
fn compare_costs(alloc: Global, pool: &mut Pool<'_>, tally: &mut Counts) {
    let checks = &mut tally.worked;
    checks.note(offer_text(alloc, pool, 0, "0:0 2:2 0"));
    checks.note(offer_text(alloc, pool, 1, "2:23 0:1 2"));
    checks.note(is_selected(alloc, pool, None));
    checks.note(offer_text(alloc, pool, 1, "0:1 2:3 0"));
    checks.note(is_selected(alloc, pool, Some(64_000)));
    checks.note(offer_text(alloc, pool, 0, "0:0 2"));
    checks.note(is_selected(alloc, pool, Some(61_000)));
    checks.note(is_first_spent(alloc, pool));
}

/// Whether the cheapest plan in halves has this cost, at prices of 0.
fn is_paired(alloc: Global, pool: &Pool<'_>, due: u64) -> bool {
    match Price::new(0) {
        Some(price) if pool.snapshot().calls().len() == 4 => {
            is_least(alloc, pool, &[price; 4], due)
        }
        _ => false,
    }
}

/// Puts tours in of which there is a plan in halves that is cheaper than any plan twice over.
fn compare_halves(alloc: Global, pool: &mut Pool<'_>, tally: &mut Counts) {
    let checks = &mut tally.worked;
    checks.note(offer_text(alloc, pool, 0, "0:0 2"));
    checks.note(offer_text(alloc, pool, 0, "0:1 2:2 0"));
    checks.note(offer_text(alloc, pool, 1, "0:01 2:3 0"));
    checks.note(offer_text(alloc, pool, 1, "2:23 0"));
    checks.note(is_selected(alloc, pool, None));
    checks.note(is_paired(alloc, pool, 117_000));
    checks.note(offer_text(alloc, pool, 1, "0:0 2:3 0"));
    checks.note(is_selected(alloc, pool, Some(64_000)));
    checks.note(is_paired(alloc, pool, 117_000));
}

/// Whether the place has this tour of the first car.
fn has_text(alloc: Global, pool: &Pool<'_>, place: usize, text: &str) -> bool {
    match tour_in(alloc, text) {
        Some(due) => pool.tour(0, place) == Some(&due),
        None => false,
    }
}

/// Puts a tour in twice, with another one between, and compares their order.
fn compare_order(alloc: Global, pool: &mut Pool<'_>, tally: &mut Counts) {
    let checks = &mut tally.worked;
    for text in ["0:0 2", "0:1 2", "0:0 2"] {
        checks.note(offer_text(alloc, pool, 0, text));
    }
    checks.note(count_of(pool, 0) == 2);
    checks.note(has_text(alloc, pool, 0, "0:1 2"));
    checks.note(has_text(alloc, pool, 1, "0:0 2"));
}

/// Puts all these tours of the second car in, and counts them.
fn offer_all(pool: &mut Pool<'_>, tours: Vec<Tour>) -> usize {
    let mut put: usize = 0;
    for tour in tours {
        if offer(pool, 1, tour) {
            put = put.wrapping_add(1);
        }
    }
    put
}

/// Whether the pool has the last 32 of these tours of the second car, in their order.
fn keeps_last(pool: &Pool<'_>, tours: &[Tour]) -> bool {
    let dropped = tours.len().saturating_sub(MOST_TOURS);
    for (place, tour) in tours.iter().skip(dropped).enumerate() {
        if pool.tour(1, place) != Some(tour) {
            return false;
        }
    }
    dropped > 0 && count_of(pool, 1) == 32
}

/// Puts more than 32 tours of the second car in, and compares those that are kept with the last 32.
fn compare_kept(alloc: Global, pool: &mut Pool<'_>, tally: &mut Counts) -> Result<(), AllocError> {
    let tours = tours_of(alloc, pool, 1)?;
    let put = offer_all(pool, tours);
    let tours = tours_of(alloc, pool, 1)?;
    tally.worked.note(put == tours.len());
    tally.worked.note(keeps_last(pool, &tours));
    Ok(())
}

/// What is compared of a pool.
#[derive(Clone, Copy)]
enum Part {
    Costs,
    Order,
    Kept,
    Halves,
}

impl Part {
    fn compare(
        self,
        alloc: Global,
        pool: &mut Pool<'_>,
        tally: &mut Counts,
    ) -> Result<(), AllocError> {
        match self {
            Part::Costs => compare_costs(alloc, pool, tally),
            Part::Order => compare_order(alloc, pool, tally),
            Part::Kept => return compare_kept(alloc, pool, tally),
            Part::Halves => compare_halves(alloc, pool, tally),
        }
        Ok(())
    }

    /// Compares it of an empty pool.
    fn compare_new(
        self,
        alloc: Global,
        snapshot: &Snapshot,
        tally: &mut Counts,
    ) -> Result<(), AllocError> {
        let mut pool = Pool::new(alloc, snapshot)?;
        self.compare(alloc, &mut pool, tally)
    }
}

fn compare_snapshot(
    alloc: Global,
    snapshot: &Snapshot,
    tally: &mut Counts,
) -> Result<(), AllocError> {
    for part in [Part::Costs, Part::Order, Part::Kept, Part::Halves] {
        part.compare_new(alloc, snapshot, tally)?;
    }
    Ok(())
}

/// Compares the answers in the case that was worked out by hand.
pub(crate) fn compare_worked(alloc: Global, tally: &mut Counts) -> Result<(), AllocError> {
    match snapshot_in(alloc, WORKED_CASE.as_bytes()) {
        Some(snapshot) => compare_snapshot(alloc, &snapshot, tally),
        None => {
            tally.worked.note(false);
            Ok(())
        }
    }
}
