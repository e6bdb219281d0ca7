//! Plans: whether one is feasible, and its cost.

ghost use Rattle.std.specs.Prelude.{◌≡◌, ◌↔◌, ◌≤◌, ◌<◌, ℕ, length, true, IsOk, IsTrue, MatchResult, Some};
ghost use Rattle.std.specs.Prelude.{None};
ghost use Rattle.call_sets.specs.Counting.{has, is_among};
ghost use Rattle.elevator_model.specs.Snapshot.{car_count};
ghost use Rattle.elevator_model.specs.Plans.{IsFeasiblePlan, plan_cost_of, first_bad, is_boarded_in};
ghost use Rattle.tour_cost.specs.Unserved.{first_without as first_without_lem};

use crate::costs::cost;
use call_sets::CallSet;
use call_state::Snapshot;
use elevator_model::{BadPlan, MOST_CALLS, MOST_COST, Plan, Rule, Tour};
use tour_rules::judge_after;

/// The cost of a feasible plan: that of its tours. It is below 10^18.
pub fn plan_cost(snapshot: &Snapshot, plan: &Plan) -> u64
    requires { IsFeasiblePlan snapshot.now plan.now }
    ensures cost { result ≡ plan_cost_of snapshot.now plan.now }
    ensures bounded { result < MOST_COST }
{
    let mut total = 0;
    let cars = snapshot.building().cars().len();
    let tours = plan.tours();
    for car in 0..cars {
        total += cost(snapshot, car as u32, &tours[car]);
    }
    total
}

/// Whether the plan is feasible, and else its first bad place: through the cars in order, and a call that no
/// tour boards last. A call that a tour of an earlier car took boards a second time.
pub fn judge_plan(snapshot: &Snapshot, plan: &Plan) -> Result<(), BadPlan>
    requires { length plan.now ≡ car_count snapshot.now }
    ensures first { MatchResult result (λ _. first_bad snapshot.now plan.now ≡ None)
        (λ bad. first_bad snapshot.now plan.now ≡ Some bad) }
    ensures feasible { IsOk result ↔ IsFeasiblePlan snapshot.now plan.now }
{
    let tours = plan.tours();
    let calls = snapshot.calls().len();
    let mut taken = CallSet::empty();
    for car in 0..tours.len() {
        let tour = &tours[car];
        if let Err(broken) = judge_after(snapshot, car as u32, taken, tour) {
            return Err(BadPlan {
                car: car as u32,
                stop: broken.stop,
                rule: broken.rule,
            });
        }
        taken = taken.union(calls_of(tour));
    }
    match first_without(calls, taken) {
        Some(call) => Err(BadPlan {
            car: tours.len() as u32,
            stop: call,
            rule: Rule::Unserved,
        }),
        None => Ok(()),
    }
}

/// The calls that board at a stop.
pub(crate) fn calls_at(boards: &[u32]) -> CallSet
    requires { (j : ℕ) → is_among j boards.now ≡ true → j < MOST_CALLS }
    ensures { (j : ℕ) → has result j ≡ is_among j boards.now }
{
    CallSet::of_list(boards)
}

/// The calls that a tour takes. Its boards have to be calls.
pub fn calls_of(tour: &Tour) -> CallSet
    requires { (j : ℕ) → is_boarded_in tour.now j ≡ true → j < MOST_CALLS }
    ensures { (j : ℕ) → has result j ≡ is_boarded_in tour.now j }
{
    let mut calls = CallSet::empty();
    for stop in tour.stops() {
        calls = calls.union(calls_at(stop.boards.as_slice()));
    }
    calls
}

/// The lowest of the first calls that is not in the set.
fn first_without(calls: usize, set: CallSet) -> Option<u32>
    requires { calls ≤ MOST_CALLS }
    ensures { result ≡ first_without_lem (has set) calls }
{
    for call in 0..calls {
        if !set.contains(call as u32) {
            return Some(call as u32);
        }
    }
    None
}

/// Whether the plan has one tour per car and is feasible.
pub fn is_feasible(snapshot: &Snapshot, plan: &Plan) -> bool
    ensures { IsTrue result ↔ IsFeasiblePlan snapshot.now plan.now }
{
    if plan.tours().len() != snapshot.building().cars().len() {
        return false;
    }
    judge_plan(snapshot, plan).is_ok()
}
