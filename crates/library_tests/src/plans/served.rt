//! Plans, tours and moves that are found.

use crate::plans::cases::{FOUR_CALLS, ONE_CALL, TWO_CALLS};
use byte_streams::OpenGate;
use call_sets::CallSet;
use call_state::Snapshot;
use case_kit::{is_so_of, plan_in, snapshot_in, tour_in};
use elevator_model::{Move, Plan, Times, Tour};
use first_plan::{DEFAULT_ROUNDS, first, insert};
use partial_tours::{Moves, Prefix, next_moves};
use plain_plan::{calls_in_order, opening_floors, plan_of};
use plain_solver::{cheapest_plan, feasible_tours};
use std::alloc::{AllocError, Global};
use tour_cost::timeline;
use tour_rules::judge;

/// Whether these are the plan's tours.
fn has_tours(alloc: Global, plan: &Plan, text: &str) -> bool {
    match plan_in(alloc, text) {
        Some(due) => *plan == due,
        None => false,
    }
}

/// Whether the cheapest plan of one call fetches it.
fn is_fetched(alloc: Global, snapshot: &Snapshot) -> bool {
    match cheapest_plan(alloc, snapshot) {
        Ok(cheapest) => has_tours(alloc, &cheapest.plan, "0:0 1"),
        Err(_) => false,
    }
}

/// Whether the car may fetch one call or stay.
fn may_stay(alloc: Global, snapshot: &Snapshot) -> bool {
    if snapshot.building().cars().is_empty() {
        return false;
    }
    match feasible_tours(alloc, snapshot, 0) {
        Ok(tours) => has_tours(alloc, &Plan::from_vec(tours), "0:0 1 /"),
        Err(_) => false,
    }
}

/// The first moves of the first car.
fn first_moves(alloc: Global, snapshot: &Snapshot) -> Result<Moves, AllocError> {
    let mut moves = Moves::new(alloc)?;
    if snapshot.building().cars().is_empty() {
        return Ok(moves);
    }
    let prefix = Prefix::new(alloc, snapshot, 0)?;
    next_moves(&prefix, CallSet::from_bits(u128::MAX), &mut moves);
    Ok(moves)
}

/// Whether a tour may begin at each of the four floors, and end.
fn may_begin_anywhere(alloc: Global, snapshot: &Snapshot) -> bool {
    let due = [
        Move::Leave(0),
        Move::Leave(1),
        Move::Leave(2),
        Move::Leave(3),
        Move::End,
    ];
    match first_moves(alloc, snapshot) {
        Ok(moves) => moves.items() == due.as_slice(),
        Err(_) => false,
    }
}

/// Whether one call is served.
fn is_one_served(alloc: Global, snapshot: &Snapshot) -> bool {
    is_fetched(alloc, snapshot) && may_stay(alloc, snapshot) && may_begin_anywhere(alloc, snapshot)
}

/// Whether the first of two cars fetches both calls at once. The order in which they board has no meaning.
fn fetches_both(alloc: Global, plan: &Plan) -> bool {
    has_tours(alloc, plan, "0:01 1 / 0 1") || has_tours(alloc, plan, "0:10 1 / 0 1")
}

/// Whether the start plan of two calls does so.
fn starts_with_both(alloc: Global, snapshot: &Snapshot) -> bool {
    match first(alloc, snapshot, DEFAULT_ROUNDS, &OpenGate) {
        Ok(plan) => fetches_both(alloc, &plan),
        Err(_) => false,
    }
}

/// Whether the plan does so with the second of two calls put into it.
fn comes_to_both(alloc: Global, snapshot: &Snapshot, plan: &Plan) -> bool {
    if snapshot.calls().len() != 2 {
        return false;
    }
    match insert(alloc, snapshot, plan, 1) {
        Ok(longer) => fetches_both(alloc, &longer),
        Err(_) => false,
    }
}

/// Whether this is so of the plan that fetches the first call.
fn takes_the_second(alloc: Global, snapshot: &Snapshot) -> bool {
    match plan_in(alloc, "0:0 1 / 0 1") {
        Some(plan) => comes_to_both(alloc, snapshot, &plan),
        None => false,
    }
}

/// Whether two calls are fetched together.
fn are_two_served(alloc: Global, snapshot: &Snapshot) -> bool {
    starts_with_both(alloc, snapshot) && takes_the_second(alloc, snapshot)
}

/// Whether the plain plan serves the four calls one after another.
fn is_plain(alloc: Global, snapshot: &Snapshot) -> bool {
    match plan_of(alloc, snapshot) {
        Ok(plan) => has_tours(alloc, &plan, "2:2 0:3 1 / 1:0 3 / 1 3 1:1 3"),
        Err(_) => false,
    }
}

/// Whether the calls that were placed earlier come first.
fn is_in_order(alloc: Global, snapshot: &Snapshot) -> bool {
    match calls_in_order(alloc, snapshot) {
        Ok(order) => order.as_slice() == [2, 1, 0, 3].as_slice(),
        Err(_) => false,
    }
}

/// Whether the coming car opens where it comes to and where its group gets off.
fn opens_twice(alloc: Global, snapshot: &Snapshot) -> bool {
    if snapshot.building().cars().len() != 3 {
        return false;
    }
    match opening_floors(alloc, snapshot, 2) {
        Ok(floors) => floors.as_slice() == [1, 3].as_slice(),
        Err(_) => false,
    }
}

/// The moments of a feasible tour of the second of three cars.
fn moments(alloc: Global, snapshot: &Snapshot, tour: &Tour) -> Result<Vec<Times>, AllocError> {
    if snapshot.building().cars().len() != 3 {
        return Ok(Vec::new(alloc));
    }
    match judge(snapshot, 1, tour) {
        Ok(()) => timeline(alloc, snapshot, 1, tour),
        Err(_) => Ok(Vec::new(alloc)),
    }
}

/// Whether these are the moments of arriving, of open doors and of leaving.
fn are_moments(moments: &[Times], due: &[[u64; 3]]) -> bool {
    if moments.len() != due.len() {
        return false;
    }
    for (at, due) in moments.iter().zip(due) {
        if [at.arrival, at.opened, at.leaves] != *due {
            return false;
        }
    }
    true
}

/// Whether the tour arrives, opens and leaves at these moments.
fn is_timed(alloc: Global, snapshot: &Snapshot, tour: &Tour) -> bool {
    let due = [
        [1500, 2500, 4500],
        [8500, 9500, 13000],
        [19000, 20000, 22500],
    ];
    match moments(alloc, snapshot, tour) {
        Ok(moments) => are_moments(moments.as_slice(), &due),
        Err(_) => false,
    }
}

/// Whether this is so of the tour that takes three calls.
fn is_second_timed(alloc: Global, snapshot: &Snapshot) -> bool {
    match tour_in(alloc, "0:3 1:01 3") {
        Some(tour) => is_timed(alloc, snapshot, &tour),
        None => false,
    }
}

/// Whether four calls are served.
fn are_four_served(alloc: Global, snapshot: &Snapshot) -> bool {
    is_plain(alloc, snapshot)
        && is_in_order(alloc, snapshot)
        && opens_twice(alloc, snapshot)
        && is_second_timed(alloc, snapshot)
}

/// Whether one, two or four calls are served as they are to be.
fn are_all_served(alloc: Global, snapshot: &Snapshot, calls: u32) -> bool {
    match calls {
        1 => is_one_served(alloc, snapshot),
        2 => are_two_served(alloc, snapshot),
        _ => are_four_served(alloc, snapshot),
    }
}

/// Whether this is so of the snapshot in this text.
fn are_served(alloc: Global, text: &str, calls: u32) -> bool {
    is_so_of(
        snapshot_in(alloc, text.as_bytes()),
        &|snapshot: &Snapshot| -> bool { are_all_served(alloc, snapshot, calls) },
    )
}

#[test]
fn calls_are_served(rt: HostRuntime) {
    assert!(rt; are_served(rt.alloc(), ONE_CALL, 1));
    assert!(rt; are_served(rt.alloc(), TWO_CALLS, 2));
    assert!(rt; are_served(rt.alloc(), FOUR_CALLS, 4));
}
