//! What one more call costs.

use byte_streams::OpenGate;
use call_state::Snapshot;
use case_kit::snapshot_in;
use search_model::Limits;
use std::alloc::Global;
use std::thread::Threads;
use thread_crew::InThreads;
use what_if::{Extra, ExtraCosts, what_if};
use work_fan::{Runtime, Workers};

/// A person at floor 0 wants to go to floor 1. One car stands there, and another at the top.
const ONE_STANDS_THERE: &str = "building 1
speed 2000
accel 1000
weights 1 1
floors 0 4000 8000 12000
car 1 8 1000 1000 500 500 all
car 2 8 1000 1000 500 500 all
end
snapshot 1
now 0
car 1 idle 0 0
car 2 idle 3 0
call 1 0 1 1 0 any
end
";

/// The same, but the car that stands there may leave no sooner than 20000.
const ONE_IS_LATE: &str = "building 1
speed 2000
accel 1000
weights 1 1
floors 0 4000 8000 12000
car 1 8 1000 1000 500 500 all
car 2 8 1000 1000 500 500 all
end
snapshot 1
now 0
car 1 idle 0 20000
car 2 idle 3 0
call 1 0 1 1 0 any
end
";

/// What is due: the extra cost with each of two cars, and how much more it is with the first than with the
/// best one.
#[derive(Clone, Copy)]
struct DueExtras {
    first: i128,
    second: i128,
    regret: i128,
}

fn is_exact(costs: &ExtraCosts, car: usize, due: i128) -> bool {
    match costs.extras.get(car) {
        Some(Extra::Exact(extra)) => *extra == due,
        _ => false,
    }
}

fn are_due(costs: &ExtraCosts, due: DueExtras) -> bool {
    is_exact(costs, 0, due.first)
        && is_exact(costs, 1, due.second)
        && costs.nearest.car == 0
        && costs.nearest.low == due.regret
        && costs.nearest.high == due.regret
}

fn costs_so(rt: &impl Threads, alloc: Global, snapshot: &Snapshot, due: DueExtras) -> bool {
    if snapshot.calls().is_empty() {
        return false;
    }
    let (Some(limits), Some(workers)) = (Limits::new(2000, 75000), Workers::new(2)) else {
        return false;
    };
    let runtime = Runtime {
        crew: &InThreads::new(rt),
        workers,
        alloc,
        gate: &OpenGate,
    };
    match what_if(&runtime, snapshot, limits) {
        Ok(costs) => are_due(&costs, due),
        Err(_) => false,
    }
}

fn text_costs_so(rt: &impl Threads, alloc: Global, text: &str, due: DueExtras) -> bool {
    match snapshot_in(alloc, text.as_bytes()) {
        Some(snapshot) => costs_so(rt, alloc, &snapshot, due),
        None => false,
    }
}

#[test]
fn a_call_costs_what_two_searches_differ_by(rt: HostRuntime) {
    let due = DueExtras {
        first: 7500,
        second: 15500,
        regret: 0,
    };
    assert!(rt; text_costs_so(&rt, rt.alloc(), ONE_STANDS_THERE, due));
}

#[test]
fn the_nearest_car_is_not_always_the_best_one(rt: HostRuntime) {
    let due = DueExtras {
        first: 27500,
        second: 15500,
        regret: 12000,
    };
    assert!(rt; text_costs_so(&rt, rt.alloc(), ONE_IS_LATE, due));
}
