//! What tours and plans cost that may break a rule.

use call_sets::CallSet;
use call_state::Snapshot;
use elevator_model::{Plan, Tour};
use tour_cost::{cost, is_feasible, plan_cost};
use tour_rules::judge;

/// What a feasible tour of the car costs. None for another tour, and where there is no such car.
pub fn lawful_cost(snapshot: &Snapshot, car: u32, tour: &Tour) -> Option<u64> {
    if snapshot.building().cars().len() <= car as usize || judge(snapshot, car, tour).is_err() {
        return None;
    }
    Some(cost(snapshot, car, tour))
}

/// The calls that board in a tour.
pub fn boards_of(tour: &Tour) -> CallSet {
    let mut boards = CallSet::empty();
    for stop in tour.stops() {
        boards = boards.union(CallSet::of_list(stop.boards.as_slice()));
    }
    boards
}

/// What a feasible plan costs, and None for another one.
pub fn plan_price(snapshot: &Snapshot, plan: &Plan) -> Option<u64> {
    if is_feasible(snapshot, plan) {
        Some(plan_cost(snapshot, plan))
    } else {
        None
    }
}
