//! A case that was worked out by hand: three floors, a car for one person at the lowest floor and one for two
//! at the middle one, two calls from the lowest floor to the highest and two the other way.

ghost use Rattle.std.specs.Prelude.{◌≡◌, ◌<◌};
ghost use Rattle.elevator_model.specs.Snapshot.{car_count, call_count};
ghost use Rattle.search_model.specs.Nodes.{IsNodeOf};

use crate::lists::pricings::tally::Counts;
use assign_branch::{Node, Pricer, root};
use call_state::Snapshot;
use case_kit::{WORKED_CASE, boards_of, snapshot_in};
use elevator_model::Tour;
use price_scale::Price;
use pricing_search::Searcher;
use std::alloc::{AllocError, Global};

/// The answer that is due where all calls have this price, in thousandths of a cost unit.
#[derive(Clone, Copy)]
struct Expected {
    car: u32,
    price: i128,
    worth: i128,
    /// The tour serves one of these sets of calls alone, as the bits of a number.
    boards: [u128; 2],
}

/// The first car stands where the first two calls wait: either costs it 9500, and two calls at least 28000.
/// Each call costs the second car 13500, and two that start at one floor cost it 28000.
const ALL_DUE: [Expected; 6] = [
    Expected {
        car: 0,
        price: 0,
        worth: 0,
        boards: [0, 0],
    },
    Expected {
        car: 1,
        price: 0,
        worth: 0,
        boards: [0, 0],
    },
    Expected {
        car: 0,
        price: 6_000_000,
        worth: 0,
        boards: [0, 0],
    },
    Expected {
        car: 1,
        price: 6_000_000,
        worth: 0,
        boards: [0, 0],
    },
    Expected {
        car: 0,
        price: 12_000_000,
        worth: -2_500_000,
        boards: [1, 2],
    },
    Expected {
        car: 1,
        price: 12_000_000,
        worth: 0,
        boards: [0, 0],
    },
];

/// Whether the tour serves just the calls that are due. One that serves none has no stops.
fn is_due(due: Expected, given: &Option<Tour>) -> bool {
    let Some(tour) = given else {
        return false;
    };
    let [first, second] = due.boards;
    let boards = boards_of(tour).bits();
    if boards == 0 && !tour.stops().is_empty() {
        return false;
    }
    boards == first || boards == second
}

/// Compares the tour of the last pricing at the desk.
fn compare_tour<P: Pricer>(
    alloc: Global,
    pricer: &P,
    due: Expected,
    desk: &P::Desk,
    tally: &mut Counts,
) -> Result<(), AllocError>
    requires { P.owns pricer.now desk.now }
{
    let given = pricer.tour(alloc, desk)?;
    tally.worked.note(is_due(due, &given));
    Ok(())
}

/// Prices a car with no limit that matters and with the limit 1, and compares the answers.
fn compare_due<P: Pricer>(
    alloc: Global,
    pricer: &P,
    node: &Node,
    due: Expected,
    desk: &mut P::Desk,
    tally: &mut Counts,
) -> Result<(), AllocError>
    requires car { due.car < car_count (P.snapshot pricer.now) }
    requires node { IsNodeOf (P.snapshot pricer.now) node.now }
    requires calls { call_count (P.snapshot pricer.now) ≡ 4 }
    requires own { P.owns pricer.now desk.old }
    ensures own { P.owns pricer.now desk.new }
{
    let Some(price) = Price::new(due.price) else {
        tally.worked.note(false);
        return Ok(());
    };
    let whole = pricer.price(due.car, node, &[price; 4], 1_000_000_000, desk);
    tally.worked.note(whole.worth == due.worth && !whole.spent);
    compare_tour(alloc, pricer, due, desk, tally)?;
    let limited = pricer.price(due.car, node, &[price; 4], 1, desk);
    tally.worked.note(limited.visits == 1 && limited.spent);
    Ok(())
}

/// Compares all answers that are due.
fn compare_all<P: Pricer>(
    alloc: Global,
    pricer: &P,
    node: &Node,
    desk: &mut P::Desk,
    tally: &mut Counts,
) -> Result<(), AllocError>
    requires cars { car_count (P.snapshot pricer.now) ≡ 2 }
    requires node { IsNodeOf (P.snapshot pricer.now) node.now }
    requires calls { call_count (P.snapshot pricer.now) ≡ 4 }
    requires own { P.owns pricer.now desk.old }
    ensures own { P.owns pricer.now desk.new }
{
    for due in ALL_DUE {
        if due.car < 2 {
            compare_due(alloc, pricer, node, due, desk, tally)?;
        }
    }
    Ok(())
}

fn compare_root(
    alloc: Global,
    snapshot: &Snapshot,
    root: &Node,
    tally: &mut Counts,
) -> Result<(), AllocError>
    requires cars { car_count snapshot.now ≡ 2 }
    requires node { IsNodeOf snapshot.now root.now }
    requires calls { call_count snapshot.now ≡ 4 }
{
    let searcher = Searcher::new(snapshot);
    let mut desk = searcher.desk(alloc)?;
    compare_all(alloc, &searcher, root, &mut desk, tally)
}

fn compare_snapshot(
    alloc: Global,
    snapshot: &Snapshot,
    tally: &mut Counts,
) -> Result<(), AllocError> {
    if snapshot.building().cars().len() != 2 || snapshot.calls().len() != 4 {
        tally.worked.note(false);
        return Ok(());
    }
    let root = root(alloc, snapshot)?;
    compare_root(alloc, snapshot, &root, tally)
}

/// Compares the answers in the case that was worked out by hand.
pub(crate) fn compare_worked(alloc: Global, tally: &mut Counts) -> Result<(), AllocError> {
    match snapshot_in(alloc, WORKED_CASE.as_bytes()) {
        Some(snapshot) => compare_snapshot(alloc, &snapshot, tally),
        None => {
            tally.worked.note(false);
            Ok(())
        }
    }
}
