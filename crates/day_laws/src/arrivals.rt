//! What a row brings: the world at its time with its call, or why it is refused.

ghost use Rattle.std.specs.Prelude.{◌≡◌, ◌≤◌, ◌++◌, [], None, Some, IsTrue, IfOk, IfErr, OnOk};
ghost use Rattle.elevator_model.specs.Plans.{IsFeasiblePlan};
ghost use Rattle.search_model.specs.Advancing.{advanced, events_by};
ghost use Rattle.search_model.specs.Days.{call_of_row, fault_of_new_call, is_row};
ghost use Rattle.day_state.specs.Openings.{IsNewCall, taken};
ghost use Rattle.day_text.specs.Records.{row_as_said};
ghost use Rattle.day_laws.specs.Arrivals.{IsBrought};

use day_state::{Call, NotTaken, World};
use day_text::GoodRow;
use search_model::{Event, RowFault};
use std::alloc::{AllocError, Global};

/// Offers the world a new call, which it takes if there is no fault.
fn offer(alloc: Global, world: &mut World, call: Call) -> Result<Option<RowFault>, AllocError>
    requires { IsNewCall world.old.snapshot call }
    ensures fault { IfOk result (λ fault. fault ≡ fault_of_new_call world.old.snapshot call) }
    ensures taken { IfOk result (λ fault. fault ≡ None → world.new.snapshot ≡ taken world.old.snapshot call) }
    ensures held { world.new.plan ≡ world.old.plan }
{
    match world.accept(alloc, call) {
        Ok(()) => Ok(None),
        Err(NotTaken::Full) => Ok(Some(RowFault::Full)),
        Err(NotTaken::NoCar) => Ok(Some(RowFault::NoCar)),
        Err(NotTaken::NoMemory) => Err(AllocError),
    }
}

/// The world, unless there is a fault.
fn unless(fault: Option<RowFault>, world: World) -> Result<World, RowFault>
    ensures world { IfOk result (λ brought. (brought ≡ world) × (fault ≡ None)) }
    ensures fault { IfErr result (λ why. fault ≡ Some why) }
{
    match fault {
        None => Ok(world),
        Some(fault) => Err(fault),
    }
}

/// A copy of the world at this time. What happens until then is appended to the events.
fn moved(
    alloc: Global,
    world: &World,
    time: u64,
    events: &mut Vec<Event>,
) -> Result<World, AllocError>
    requires feasible { IsFeasiblePlan world.now.snapshot world.now.plan }
    requires later { world.now.snapshot.moment ≤ time }
    requires early { time ≤ 1000000000 }
    ensures world { IfOk result (λ later. later ≡ advanced world.now time) }
    ensures events { OnOk result (events.new.items ≡ events.old.items ++ events_by world.now time) }
{
    let mut later = world.copy(alloc)?;
    later.advance(alloc, time, events)?;
    Ok(later)
}

/// The world at the time of the row with this number, with its call, and what happens until then; or why the
/// row is refused. What may be refused is tried on a copy of the world; its plan is what is left of the old one.
pub fn world_of_row(
    alloc: Global,
    world: &World,
    number: u32,
    row: &GoodRow,
    events: &mut Vec<Event>,
) -> Result<Result<World, RowFault>, AllocError>
    requires feasible { IsFeasiblePlan world.now.snapshot world.now.plan }
    requires good { IsTrue (is_row world.now.snapshot.building (row_as_said row.now)) }
    requires fresh { IsNewCall (advanced world.now row.now.time).snapshot
        (call_of_row number (row_as_said row.now)) }
    requires none { events.old.items ≡ [] }
    ensures { IfOk result (IsBrought world.now number (row_as_said row.now) events.new.items) }
{
    if row.time < world.snapshot().now() {
        return Ok(Err(RowFault::BeforeNow));
    }
    let mut later = moved(alloc, world, row.time, events)?;
    let fault = offer(alloc, &mut later, row.call(number))?;
    Ok(unless(fault, later))
}
