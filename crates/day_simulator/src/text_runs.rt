//! Days from their text.

ghost use Rattle.std.specs.Prelude.{◌≡◌, ◌<◌, ◌≤◌, ◌^◌, None, IfOk, IsSomeAnd};
ghost use Rattle.byte_streams.specs.Streams.{Rose};
ghost use Rattle.day_simulator.specs.Planning.{PlannerLaw};
ghost use Rattle.lift_text.specs.LineReader.{text, failure, unread};
ghost use Rattle.search_model.specs.Reports.{report_of};
ghost use Rattle.day_simulator.specs.TextRuns.{DayAnswered, EndsUnlessFailed, IsDayText, IsUnread};
ghost use Rattle.day_simulator.specs.TextRuns.{IsUnwritten};

use crate::day_runs::{Ended, run_day};
use crate::planners::Planner;
use crate::row_runs::RunFault;
use byte_streams::{Gate, Sink, Source};
use day_text::read_day_opening;
use lift_text::{LineReader, TextFault};
use std::alloc::Global;

/// Why a day did not come to its end.
#[derive(Clone, Copy)]
pub enum DayFault {
    /// What comes before the rows is rejected, or could not be read whole; nothing was written.
    Opening(TextFault),
    /// The rows were not run to their end.
    Rows(RunFault),
}

/// Reads what comes before the rows of a day, and runs the day over them, with its log. Where a read fails,
/// nothing is written only if what comes before the rows is not whole, up to the LF of the header's line, among
/// the bytes that were taken. The gate is told after each line how many rows were done.
///
/// The sums of the served calls' times have at most 64 bits.
pub fn run_day_text<P: Planner, S: Source, K: Sink, G: Gate>(
    alloc: Global,
    planner: &P,
    lines: &mut LineReader<S>,
    sink: &mut K,
    gate: &G,
) -> Result<Ended, DayFault>
    requires sound { PlannerLaw (P.right planner.now) }
    requires unfailed { failure lines.old ≡ None }
    ensures same_source { lines.new.source.ghost_name ≡ lines.old.source.ghost_name }
    ensures answered { DayAnswered (P.right planner.now) (text S.left lines.old)
        (unread lines.new) (S.left lines.new.source.now)
        (K.taken sink.old) (K.taken sink.new) result }
    ensures unfailed_by_write { IsUnwritten result → failure lines.new ≡ None }
    ensures ends { IsSomeAnd (text S.left lines.old) IsDayText → EndsUnlessFailed result }
    ensures small { IfOk result (λ ended. (report_of ended.served.items).total.sum < 2 ^ 64) }
    ensures read { IsUnread result
        → Rose (S.faults lines.old.source.now) (S.faults lines.new.source.now) }
    ensures write { IsUnwritten result → Rose (K.faults sink.old) (K.faults sink.new) }
    ensures counted { S.faults lines.old.source.now ≤ S.faults lines.new.source.now }
    ensures sink_counted { K.faults sink.old ≤ K.faults sink.new }
{
    match read_day_opening(alloc, lines) {
        Ok(opening) => match run_day(alloc, planner, opening, lines, sink, gate) {
            Ok(ended) => Ok(ended),
            Err(fault) => Err(DayFault::Rows(fault)),
        },
        Err(fault) => Err(DayFault::Opening(fault)),
    }
}
