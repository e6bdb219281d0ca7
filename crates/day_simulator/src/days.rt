//! A day of calls.

ghost use Rattle.std.specs.Prelude.{◌≡◌, ◌<◌, ◌≤◌, ◌+◌, ◌++◌, ◌∷◌, ◌^◌, [], None, Some, IsTrue, All, length};
ghost use Rattle.std.specs.Prelude.{nat_lt, if◌then◌else◌, IfOk, OnOk, OnErr};
ghost use Rattle.std.specs.Io.{appended_bytes};
ghost use Rattle.elevator_model.specs.Plans.{IsFeasiblePlan};
ghost use Rattle.search_model.specs.Advancing.{advanced, events_by};
ghost use Rattle.search_model.specs.Days.{opening_day, day_after_accepted, is_row, call_of_row, with_call};
ghost use Rattle.search_model.specs.Days.{fault_of_row, calls_after, loses_none};
ghost use Rattle.search_model.specs.Days.{delivered_count as delivered_count_lem, served_of};
ghost use Rattle.day_state.specs.Openings.{IsOpeningSnapshot};
ghost use Rattle.day_text.specs.Records.{row_of_line, row_as_said};
ghost use Rattle.day_simulator.specs.Logged.{day_call, day_calls, day_of};
ghost use Rattle.day_text.specs.LogTexts.{end_text};
ghost use Rattle.day_laws.specs.Arrivals.{IsBrought};
ghost use Rattle.day_laws.specs.Standing.{IdsRise, IsEarly, IsStanding, row_number};
ghost use Rattle.day_simulator.specs.Planning.{PlannerLaw};
ghost use Rattle.day_simulator.specs.Rows.{IsRowDone, IsRefused, IsRowWritten};

use crate::logged::{LoggedCall, add_call, delivered_count, note_all, served_by};
use crate::planners::Planner;
use call_state::Snapshot;
use day_laws::world_of_row;
use day_state::World;
use day_text::{GoodRow, add_accepted, add_plan, put_end, put_refused, read_row};
use search_model::{Event, RowFault, Served, Stated};
use std::alloc::{AllocError, Global};
use std::marker::Model;
use std::mem;

/// A day: the world, how many rows were refused, how many of the accepted ones had a bound below their cost,
/// and the accepted calls.
#[derive(Drop)]
pub struct Day {
    world: World,
    refused: u32,
    unsolved: u32,
    calls: Vec<LoggedCall>,
}

/// How many more rows are unsolved, where one has a plan of this cost with this bound.
fn unsolved_by(cost: u64, bound: u64) -> u32
    ensures { result ≡ (if nat_lt bound cost then 1 else 0) }
{
    if bound < cost { 1 } else { 0 }
}

/// Asks for a plan in this world, which has taken the call of a row and has the plan that held until then, and
/// appends the lines of the row. It fails only where there is no memory left: then a beginning of them may be
/// appended.
fn write_accepted<P: Planner>(
    planner: &P,
    number: u32,
    events: &[Event],
    world: &World,
    out: &mut Vec<u8>,
) -> Result<Stated, AllocError>
    requires sound { PlannerLaw (P.right planner.now) }
    ensures row { IfOk result (λ stated. IsRowWritten (P.right planner.now) world.now number events.now
        stated out.old.items out.new.items) }
    ensures kept { OnErr result
        (out.new.items ≡ out.old.items ++ appended_bytes out.old.items out.new.items) }
{
    add_accepted(number, events, out)?;
    let place = out.len();
    let snapshot = world.snapshot();
    let held = world.plan();
    let stated = planner.plan(snapshot, held, out)?;
    add_plan(snapshot, &stated, place, out)?;
    Ok(stated)
}

/// Swaps this world with the present one, and notes what happened until then and the call that came. It fails
/// only where there is no memory left: then the present world and the calls are as before.
fn go_on_in(
    next: &mut World,
    events: &[Event],
    call: LoggedCall,
    present: &mut World,
    calls: &mut Vec<LoggedCall>,
) -> Result<(), AllocError>
    requires { IdsRise (day_calls calls.old.items) }
    ensures world { OnOk result (present.new ≡ next.old) }
    ensures calls { OnOk result (day_calls calls.new.items
        ≡ calls_after (day_calls calls.old.items) events.now ++ day_call call ∷ []) }
    ensures world_as_before { OnErr result (present.new ≡ present.old) }
    ensures calls_as_before { OnErr result (calls.new.items ≡ calls.old.items) }
{
    add_call(calls, events, call)?;
    mem::swap(present, next);
    Ok(())
}

/// Runs the last plan to its end, notes at the calls what happens, appends what is left of the log, and gives
/// the served calls. It fails only where there is no memory left: then the log is as before.
fn finish_in(
    alloc: Global,
    world: &World,
    calls: &mut Vec<LoggedCall>,
    refused: u32,
    unsolved: u32,
    out: &mut Vec<u8>,
) -> Result<Vec<Served>, AllocError>
    requires { IsStanding (day_of world.now refused unsolved calls.old.items) }
    ensures served { IfOk result (λ served. served.items
        ≡ served_of (day_of world.now refused unsolved calls.old.items)) }
    ensures early { IfOk result (λ served. All IsEarly served.items) }
    ensures log { OnOk result (out.new.items
        ≡ out.old.items ++ end_text (day_of world.now refused unsolved calls.old.items)) }
    ensures log_as_before { OnErr result (out.new.items ≡ out.old.items) }
{
    let mut events = Vec::new(alloc);
    world.run_out(alloc, &mut events)?;
    note_all(calls, events.as_slice());
    let served = served_by(alloc, calls.as_slice())?;
    let mut text = Vec::new(alloc);
    put_end(
        &mut text,
        events.as_slice(),
        calls.len() as u64,
        u64::from(refused),
        delivered_count(calls.as_slice()) as u64,
        unsolved,
    )?;
    out.extend_from_slice(text.as_slice())?;
    Ok(served)
}

impl Model for Day {
    ghost use Rattle.search_model.specs.Days.{Day as Record};
    ghost use Rattle.day_simulator.specs.Logged.{day_calls};
    ghost use Rattle.day_laws.specs.Standing.{IsStanding};

    ghost Value = { Record };

    ghost view = { λ d. record {
      world = d.world;
      refused = d.refused;
      unsolved = d.unsolved;
      calls = day_calls d.calls.items;
    } };

    ghost invariant = { λ d. IsStanding
        (record { world = d.world; refused = d.refused; unsolved = d.unsolved; calls = day_calls d.calls.items }) };
}

impl Day {
    /// The day that opens with a snapshot without calls, where nobody is aboard. It fails only where there is
    /// no memory left.
    pub fn new(alloc: Global, opening: Snapshot) -> Result<Day, AllocError>
        requires { IsOpeningSnapshot opening }
        ensures { IfOk result (λ day. day ≡ opening_day opening) }
    {
        let world = World::opening(alloc, opening)?;
        // For the proof: a reader of the snapshot tells that it keeps the rules, which is part of what holds
        // of a day.
        let _moment = world.snapshot().now();
        Ok(Day {
            world,
            refused: 0,
            unsolved: 0,
            calls: Vec::new(alloc),
        })
    }

    /// How many of the accepted rows had a bound below their cost. No accepted call is ever lost.
    pub fn unsolved(&self) -> u32
        ensures value { result ≡ self.now.unsolved }
        ensures none_lost { IsTrue (loses_none self.now) }
    {
        self.unsolved
    }

    /// How many rows were done, refused ones too.
    pub fn rows(&self) -> u32
        ensures { row_number self.now ≤ 2 ^ 32 → result + 1 ≡ row_number self.now }
    {
        self.refused.saturating_add(self.calls.len() as u32)
    }

    /// The number of the next row, from 1.
    fn number(&self) -> u32
        requires { row_number self.now < 2 ^ 32 }
        ensures { result ≡ row_number self.now }
    {
        self.refused + self.calls.len() as u32 + 1
    }

    /// Refuses the next row for this fault.
    fn refuse(&mut self, fault: RowFault, out: &mut Vec<u8>) -> Result<(), AllocError>
        requires { row_number self.old < 2 ^ 32 }
        ensures refused { OnOk result (IsRefused self.old fault self.new out.old.items out.new.items) }
        ensures as_before { OnErr result (self.new ≡ self.old) }
        ensures log_as_before { OnErr result (out.new.items ≡ out.old.items) }
    {
        let mut text = Vec::new(*out.allocator());
        put_refused(&mut text, self.number(), fault)?;
        out.extend_from_slice(text.as_slice())?;
        self.refused += 1;
        Ok(())
    }

    /// Goes on in this world, in which the call of the next row has come and a plan holds of this cost, with
    /// this bound. The world before is left in its place.
    fn take(
        &mut self,
        world: &mut World,
        row: &GoodRow,
        events: &[Event],
        cost: u64,
        bound: u64,
    ) -> Result<(), AllocError>
        requires number { row_number self.old < 2 ^ 32 }
        requires world { world.old ≡ with_call (advanced self.old.world row.now.time)
            (call_of_row (row_number self.old) (row_as_said row.now)) world.old.plan }
        requires feasible { IsFeasiblePlan world.old.snapshot world.old.plan }
        requires events { events.now ≡ events_by self.old.world row.now.time }
        ensures taken { OnOk result (self.new ≡ day_after_accepted self.old (row_number self.old)
            (row_as_said row.now) (record { plan = world.old.plan; cost = cost; bound = bound })) }
        ensures as_before { OnErr result (self.new ≡ self.old) }
    {
        // For the proof: a reader of the snapshot tells that it keeps the rules, which is part of what holds
        // of a day.
        let _moment = world.snapshot().now();
        let call = LoggedCall::new(self.number(), row.time);
        go_on_in(world, events, call, &mut self.world, &mut self.calls)?;
        self.unsolved += unsolved_by(cost, bound);
        Ok(())
    }

    /// Asks for a plan in this world, which has taken the call of the next row and has the plan that held until
    /// then, and goes on with it.
    fn accept<P: Planner>(
        &mut self,
        planner: &P,
        world: &mut World,
        row: &GoodRow,
        events: &[Event],
        out: &mut Vec<u8>,
    ) -> Result<(), AllocError>
        requires sound { PlannerLaw (P.right planner.now) }
        requires number { row_number self.old < 2 ^ 32 }
        requires taken { fault_of_row self.old.world (row_number self.old) (Some (row_as_said row.now)) ≡ None }
        requires world { world.old.snapshot ≡ (with_call (advanced self.old.world row.now.time)
            (call_of_row (row_number self.old) (row_as_said row.now)) []).snapshot }
        requires held { world.old.plan ≡ (advanced self.old.world row.now.time).plan }
        requires events { events.now ≡ events_by self.old.world row.now.time }
        ensures row { OnOk result (IsRowDone (P.right planner.now) self.old
            (Some (row_as_said row.now)) self.new out.old.items out.new.items) }
        ensures as_before { OnErr result (self.new ≡ self.old) }
        ensures log_as_before { OnErr result (out.new.items ≡ out.old.items) }
    {
        let before = out.len();
        let stated = match write_accepted(planner, self.number(), events, world, out) {
            Ok(stated) => stated,
            Err(error) => {
                out.truncate(before);
                return Err(error);
            }
        };
        let (cost, bound) = (stated.cost, stated.bound);
        world.set_plan(stated.plan);
        match self.take(world, row, events, cost, bound) {
            Ok(()) => Ok(()),
            Err(error) => {
                out.truncate(before);
                Err(error)
            }
        }
    }

    /// The world at the time of the next row with its call, and what happens until then; or why the row is
    /// refused. The day stays.
    fn brought(
        &self,
        alloc: Global,
        row: &GoodRow,
        events: &mut Vec<Event>,
    ) -> Result<Result<World, RowFault>, AllocError>
        requires number { row_number self.now < 2 ^ 32 }
        requires good { IsTrue (is_row self.now.world.snapshot.building (row_as_said row.now)) }
        requires none { events.old.items ≡ [] }
        ensures { IfOk result
            (IsBrought self.now.world (row_number self.now) (row_as_said row.now) events.new.items) }
    {
        world_of_row(alloc, &self.world, self.number(), row, events)
    }

    /// Takes or refuses a row whose numbers lie in their ranges.
    fn good_row<P: Planner>(
        &mut self,
        alloc: Global,
        planner: &P,
        row: &GoodRow,
        out: &mut Vec<u8>,
    ) -> Result<(), AllocError>
        requires sound { PlannerLaw (P.right planner.now) }
        requires number { row_number self.old < 2 ^ 32 }
        requires good { IsTrue (is_row self.old.world.snapshot.building (row_as_said row.now)) }
        ensures row { OnOk result (IsRowDone (P.right planner.now) self.old
            (Some (row_as_said row.now)) self.new out.old.items out.new.items) }
        ensures as_before { OnErr result (self.new ≡ self.old) }
        ensures log_as_before { OnErr result (out.new.items ≡ out.old.items) }
    {
        let mut events = Vec::new(alloc);
        match self.brought(alloc, row, &mut events)? {
            Ok(mut world) => self.accept(planner, &mut world, row, events.as_slice(), out),
            Err(fault) => self.refuse(fault, out),
        }
    }

    /// Takes or refuses the next row.
    fn any_row<P: Planner>(
        &mut self,
        alloc: Global,
        planner: &P,
        bytes: &[u8],
        out: &mut Vec<u8>,
    ) -> Result<(), AllocError>
        requires sound { PlannerLaw (P.right planner.now) }
        requires number { row_number self.old < 2 ^ 32 }
        ensures row { OnOk result (IsRowDone (P.right planner.now) self.old
            (row_of_line bytes.now) self.new out.old.items out.new.items) }
        ensures as_before { OnErr result (self.new ≡ self.old) }
        ensures log_as_before { OnErr result (out.new.items ≡ out.old.items) }
    {
        match read_row(alloc, self.world.snapshot().building(), bytes)? {
            Some(row) => self.good_row(alloc, planner, &row, out),
            None => self.refuse(RowFault::NoRow, out),
        }
    }

    /// Takes or refuses the next row, and appends its lines to the log. The bytes are those of a line without
    /// its end. Fewer than 2^32 - 1 rows came before.
    ///
    /// The line is one record (RFC 4180) of four fields: the time in ms, at most 10^9, two different floors
    /// of the building, and 1 to 8 persons. Each is one or more decimal digits; spaces at both ends of a
    /// field do not count. A line that begins with a byte order mark or has the end of a line inside it is no
    /// record. A row that is accepted brings the world to its time, adds the call and takes a plan of the
    /// planner; one that is refused changes nothing but the count of rows.
    ///
    /// It fails only where there is no memory left: then the day and the log are as before.
    pub fn row<P: Planner>(
        &mut self,
        alloc: Global,
        planner: &P,
        bytes: &[u8],
        out: &mut Vec<u8>,
    ) -> Result<(), AllocError>
        requires sound { PlannerLaw (P.right planner.now) }
        requires number { row_number self.old < 2 ^ 32 }
        ensures row { OnOk result (IsRowDone (P.right planner.now) self.old
            (row_of_line bytes.now) self.new out.old.items out.new.items) }
        ensures none_lost { IsTrue (loses_none self.new) }
        ensures number { OnOk result (row_number self.new ≡ row_number self.old + 1) }
        ensures as_before { OnErr result (self.new ≡ self.old) }
        ensures log_as_before { OnErr result (out.new.items ≡ out.old.items) }
    {
        let done = self.any_row(alloc, planner, bytes, out);
        // For the proof: a reader tells that no call is lost.
        let _unsolved = self.unsolved();
        done
    }

    /// Refuses a row that is too long to be one, with 41. Fewer than 2^32 - 1 rows came before.
    ///
    /// It fails only where there is no memory left: then the day and the log are as before.
    pub fn long_row(&mut self, out: &mut Vec<u8>) -> Result<(), AllocError>
        requires { row_number self.old < 2 ^ 32 }
        ensures refused { OnOk result
            (IsRefused self.old RowFault.NoRow self.new out.old.items out.new.items) }
        ensures none_lost { IsTrue (loses_none self.new) }
        ensures number { OnOk result (row_number self.new ≡ row_number self.old + 1) }
        ensures as_before { OnErr result (self.new ≡ self.old) }
        ensures log_as_before { OnErr result (out.new.items ≡ out.old.items) }
    {
        let done = self.refuse(RowFault::NoRow, out);
        // For the proof: a reader tells that no call is lost.
        let _unsolved = self.unsolved();
        done
    }

    /// Runs the last plan to its end, appends what is left of the log, and gives the served calls in the
    /// order of their ids. Each accepted call is delivered then.
    ///
    /// It fails only where there is no memory left: then the log is as before.
    pub fn finish(self, alloc: Global, out: &mut Vec<u8>) -> Result<Vec<Served>, AllocError>
        ensures served { IfOk result (λ served. served.items ≡ served_of self) }
        ensures early { IfOk result (λ served. All IsEarly served.items) }
        ensures log { OnOk result (out.new.items ≡ out.old.items ++ end_text self) }
        ensures log_as_before { OnErr result (out.new.items ≡ out.old.items) }
        ensures delivered { OnOk result (delivered_count_lem self ≡ length self.calls) }
    {
        let mut calls = self.calls;
        finish_in(
            alloc,
            &self.world,
            &mut calls,
            self.refused,
            self.unsolved,
            out,
        )
    }
}
