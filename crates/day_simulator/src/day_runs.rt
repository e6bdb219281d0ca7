//! Whole days.

ghost use Rattle.std.specs.Prelude.{◌≡◌, ◌≤◌, None, All, length, IfOk, IsErrOf};
ghost use Rattle.byte_streams.specs.Streams.{Rose};
ghost use Rattle.day_simulator.specs.Planning.{PlannerLaw};
ghost use Rattle.lift_text.specs.LineReader.{text, failure, unread};
ghost use Rattle.search_model.specs.Days.{served_of};
ghost use Rattle.day_state.specs.Openings.{IsOpeningSnapshot};
ghost use Rattle.day_laws.specs.Standing.{IsEarly};
ghost use Rattle.day_simulator.specs.DayRuns.{EndedAs, RanDay};

use crate::days::Day;
use crate::planners::Planner;
use crate::row_runs::{RunFault, put, run_rows};
use byte_streams::{Gate, Sink, Source};
use call_state::Snapshot;
use lift_text::{LineReader, TEXT_LIMIT};
use search_model::Served;
use std::alloc::Global;

/// The first line of a log.
pub const FIRST_LINE: &[u8] = b"day 1\n";

/// What is told at the end of a day.
#[derive(Drop)]
pub struct Ended {
    /// The served calls, in the order of their ids.
    pub served: Vec<Served>,
    /// How many accepted rows had a bound below their cost.
    pub unsolved: u32,
}

/// Runs the last plan of the day to its end, and writes the end of the log.
fn end_day<K: Sink>(alloc: Global, day: Day, sink: &mut K) -> Result<Ended, RunFault>
    ensures ended { EndedAs day result (K.taken sink.old) (K.taken sink.new) }
    ensures early { IfOk result (λ ended. All IsEarly ended.served.items) }
    ensures served { IfOk result (λ ended. ended.served.items ≡ served_of day) }
    ensures write { IsErrOf result RunFault.Write → Rose (K.faults sink.old) (K.faults sink.new) }
    ensures counted { K.faults sink.old ≤ K.faults sink.new }
{
    let unsolved = day.unsolved();
    let mut text = Vec::new(alloc);
    let Ok(served) = day.finish(alloc, &mut text) else {
        return Err(RunFault::NoMemory);
    };
    match put(sink, text.as_slice()) {
        Ok(()) => Ok(Ended { served, unsolved }),
        Err(fault) => Err(fault),
    }
}

/// Runs the day that opens with a snapshot, without calls and with nobody aboard, over the rows of the lines
/// that are left, and writes its log.
///
/// A line of 1 to 4,096 bytes without its end is a row, also the last one where it has no end. A line of no
/// bytes is none, and a longer one is a row that is refused. What a row does is written before more of the
/// source is read than what its line takes: where a write fails, no line more was read than the one whose row
/// is written, and no read has failed before.
///
/// After a fault the log is written as far as the rows go that were done before it; where a write failed, a
/// beginning of that. Memory may run out at any row and at the end, and then what was written before stays. The
/// gate is told after each line how many rows were done.
pub fn run_day<P: Planner, S: Source, K: Sink, G: Gate>(
    alloc: Global,
    planner: &P,
    opening: Snapshot,
    lines: &mut LineReader<S>,
    sink: &mut K,
    gate: &G,
) -> Result<Ended, RunFault>
    requires sound { PlannerLaw (P.right planner.now) }
    requires opening { IsOpeningSnapshot opening }
    requires unfailed { failure lines.old ≡ None }
    ensures same_source { lines.new.source.ghost_name ≡ lines.old.source.ghost_name }
    ensures ran { RanDay (P.right planner.now) opening result (text S.left lines.old)
        (unread lines.new) (S.left lines.new.source.now) (K.taken sink.old) (K.taken sink.new) }
    ensures unfailed_by_write { IsErrOf result RunFault.Write → failure lines.new ≡ None }
    ensures early { IfOk result (λ ended. All IsEarly ended.served.items) }
    ensures few { IfOk result (λ ended. length ended.served.items ≤ TEXT_LIMIT) }
    ensures read { IsErrOf result RunFault.Read
        → Rose (S.faults lines.old.source.now) (S.faults lines.new.source.now) }
    ensures write { IsErrOf result RunFault.Write → Rose (K.faults sink.old) (K.faults sink.new) }
    ensures counted { S.faults lines.old.source.now ≤ S.faults lines.new.source.now }
    ensures sink_counted { K.faults sink.old ≤ K.faults sink.new }
{
    match put(sink, FIRST_LINE) {
        Ok(()) => {}
        Err(fault) => return Err(fault),
    }
    // For the proof: a reader of the snapshot tells that it keeps the rules.
    let _moment = opening.now();
    let Ok(mut day) = Day::new(alloc, opening) else {
        return Err(RunFault::NoMemory);
    };
    match run_rows(alloc, planner, lines, &mut day, sink, gate) {
        Ok(()) => {
            // For the proof: a line's number is at most 67,108,864.
            let _last = lines.line();
            end_day(alloc, day, sink)
        }
        Err(fault) => Err(fault),
    }
}
