//! A day with a planner of the test's own: it gives the cheapest plan with a bound that is less, and in place of
//! the plan's lines how many stops are left of the plan that held before.

ghost use Rattle.std.specs.Prelude.{◌≡◌, ◌++◌, None, IfOk};
ghost use Rattle.std.specs.Io.{appended_bytes};
ghost use Rattle.lift_text.specs.LineReader.{failure};
ghost use Rattle.day_simulator.specs.Planning.{IsRightPlan};

use crate::texts::makers::{OfLines, is_so_of};
use byte_streams::{MemorySink, MemorySource, OpenGate};
use call_state::Snapshot;
use day_simulator::{Ended, Plan, Planner, run_day_text};
use lift_text::{LineReader, put_line};
use plain_solver::cheapest_plan;
use search_model::{Served, Stated};
use std::alloc::{AllocError, Global};

/// How many stops the first tour of the plan has.
fn first_stops(plan: &Plan) -> u64 {
    match plan.tours().first() {
        Some(tour) => tour.stops().len() as u64,
        None => 0,
    }
}

/// A right plan of the snapshot; how many stops were held is appended to the log.
fn planned(
    alloc: Global,
    snapshot: &Snapshot,
    held: u64,
    log: &mut Vec<u8>,
) -> Result<Stated, AllocError>
    ensures right { IfOk result (λ stated. IsRightPlan snapshot.now stated) }
    ensures kept { log.new.items ≡ log.old.items ++ appended_bytes log.old.items log.new.items }
{
    put_line(log, b"held", &[held])?;
    let cheapest = cheapest_plan(alloc, snapshot)?;
    let bound = cheapest.cost.saturating_sub(1);
    Ok(Stated {
        plan: cheapest.plan,
        cost: cheapest.cost,
        bound,
    })
}

/// Plans each row anew, and tells what it is lent.
#[derive(Drop)]
struct Cheapest {
    alloc: Global,
}

impl Planner for Cheapest {
    ghost use Rattle.day_simulator.specs.Planning.{IsRightPlan};

    ghost right = { λ _ s held stated proof. IsRightPlan s stated };

    fn plan(
        &self,
        snapshot: &Snapshot,
        held: &Plan,
        log: &mut Vec<u8>,
    ) -> Result<Stated, AllocError> {
        planned(self.alloc, snapshot, first_stops(held), log)
    }
}

/// How the day of these lines ends.
fn ended(
    alloc: Global,
    lines: &mut LineReader<MemorySource>,
    sink: &mut MemorySink,
) -> Option<Ended>
    requires { failure lines.old ≡ None }
{
    run_day_text(alloc, &Cheapest { alloc }, lines, sink, &OpenGate).ok()
}

const DAY: &[u8] = b"building 1
speed 2000
accel 1000
weights 1 1
floors 0 4000 8000 12000
car 1 8 1000 1000 500 500 all
end
snapshot 1
now 0
car 1 idle 0 0
end
time,origin,destination,persons
0,0,1,1
4,1,1,1
3000,2,0,1";

const LOG: &[u8] = b"day 1
row 1 accepted
held 0
row 2 refused 41
row 3 accepted
board 1 1 1000
held 1
deliver 1 1 7500
board 3 1 14000
deliver 3 1 22500
total 2 1 2
end
# stopped 2
";

/// Whether this call boarded and was delivered at these moments.
fn is_served(served: &Served, call: u32, boarded: u64, delivered: u64) -> bool {
    served.call == call && served.boarded == boarded && served.delivered == delivered
}

/// Whether the two calls were served so, and both rows have a bound below their cost.
fn is_due(end: &Ended) -> bool {
    match end.served.as_slice() {
        [first, last] => {
            end.unsolved == 2 && is_served(first, 1, 1000, 7500) && is_served(last, 3, 14000, 22500)
        }
        _ => false,
    }
}

/// Whether the day ends so.
fn ends(alloc: Global, lines: &mut LineReader<MemorySource>, sink: &mut MemorySink) -> bool
    requires { failure lines.old ≡ None }
{
    match ended(alloc, lines, sink) {
        Some(end) => is_due(&end),
        None => false,
    }
}

/// The day ends so, and its log is written.
struct IsWritten;

impl OfLines for IsWritten {
    fn is_so(&self, alloc: Global, lines: &mut LineReader<MemorySource>) -> bool {
        match MemorySink::new(alloc, 4096, 5, Vec::new(alloc)) {
            Ok(mut sink) => ends(alloc, lines, &mut sink) && sink.taken() == LOG,
            Err(_) => false,
        }
    }
}

#[test]
fn a_planner_is_lent_the_plan_that_held(rt: HostRuntime) {
    assert!(rt; is_so_of(rt.alloc(), DAY, 11, &IsWritten));
}
