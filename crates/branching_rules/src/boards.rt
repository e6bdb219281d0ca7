//! The calls of tours.

use call_sets::CallSet;
use elevator_model::Tour;

/// The calls that board in a tour: none where there is no tour.
pub(crate) fn calls_in(tour: &Option<Tour>) -> CallSet {
    let mut calls = CallSet::empty();
    if let Some(tour) = tour {
        for stop in tour.stops() {
            calls = calls.union(CallSet::of_list(stop.boards.as_slice()));
        }
    }
    calls
}
