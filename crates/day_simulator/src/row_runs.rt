//! Rows as they come.

ghost use Rattle.std.specs.Prelude.{◌≡◌, ◌≤◌, ◌<◌, ◌+◌, ◌^◌, [], ◌∷◌, None, IsTrue, IfOk, IfErr, OnErr, OnOk};
ghost use Rattle.std.specs.Prelude.{IsErrOf, length, take, ℕ, true, false};
ghost use Rattle.std.specs.Io.KnownBytes.{append_known};
ghost use Rattle.byte_streams.specs.Streams.{Rose};
ghost use Rattle.day_simulator.specs.Planning.{PlannerLaw};
ghost use Rattle.lift_text.specs.LineReader.{text, line, failure, unread, has_ended};
ghost use Rattle.lift_text.specs.Reading.{HaveLineFeeds};
ghost use Rattle.search_model.specs.Days.{day_after_refused, loses_none};
ghost use Rattle.search_model.specs.declared.RowFault.TheVariants.{NoRow};
ghost use Rattle.day_laws.specs.Standing.{row_number};
ghost use Rattle.day_text.specs.LogTexts.{refused_text};
ghost use Rattle.day_laws.specs.RowLines.{rows_of_line, rows_of_short};
ghost use Rattle.day_simulator.specs.RowRuns.{AreRowsDone, DidNext, Ran, WroteNext, fault_of};
ghost use Rattle.day_simulator.specs.RowRuns.{next_after, next_written};

use crate::days::Day;
use crate::planners::Planner;
use byte_streams::{Gate, Progress, Sink, Source, put_all};
use lift_text::{LINE_COUNT_BOUND, LINE_LIMIT, LineReader, RawLine, TextFault};
use std::alloc::{AllocError, Global};

/// Why rows were not run to their end.
#[derive(Clone, Copy)]
pub enum RunFault {
    /// The text has more than 67,108,864 bytes, and the next line does not end among the first of them.
    TooLong,
    /// The source failed.
    Read,
    /// The sink failed.
    Write,
    /// Out of memory.
    NoMemory,
}

/// What stood next in the text.
#[derive(Clone, Copy)]
pub(crate) enum NextRow {
    /// A line.
    More,
    /// The end.
    End,
}

/// Writes the text, and says whether the sink took it.
pub(crate) fn put<K: Sink>(sink: &mut K, text: &[u8]) -> Result<(), RunFault>
    ensures ok { OnOk result (K.taken sink.new ≡ append_known (K.taken sink.old) text.now) }
    ensures front_taken { (count : ℕ) × (count ≤ length text.now)
        × (K.taken sink.new ≡ append_known (K.taken sink.old) (take count text.now)) }
    ensures write { IfErr result (λ fault. fault ≡ RunFault.Write) }
    ensures fault { OnErr result (Rose (K.faults sink.old) (K.faults sink.new)) }
    ensures counted { K.faults sink.old ≤ K.faults sink.new }
{
    match put_all(sink, text) {
        Ok(()) => Ok(()),
        Err(_) => Err(RunFault::Write),
    }
}

/// Refuses a line that is over long, and puts what the log says of it into the empty text.
fn do_long_line(day: &mut Day, out: &mut Vec<u8>) -> Result<(), AllocError>
    requires number { row_number day.old < 2 ^ 32 }
    requires empty { out.old.items ≡ [] }
    ensures day { OnOk result (day.new ≡ day_after_refused day.old) }
    ensures log { OnOk result (out.new.items ≡ refused_text (row_number day.old) NoRow) }
    ensures as_before { OnErr result (day.new ≡ day.old) }
    ensures none_lost { IsTrue (loses_none day.new) }
{
    day.long_row(out)?;
    Ok(())
}

/// Does what a line of at most 4,096 bytes says, and puts what the log says of it into the empty text. A line
/// of no bytes is no row.
fn do_short_line<P: Planner>(
    alloc: Global,
    planner: &P,
    line: &[u8],
    day: &mut Day,
    out: &mut Vec<u8>,
) -> Result<(), AllocError>
    requires sound { PlannerLaw (P.right planner.now) }
    requires number { row_number day.old < 2 ^ 32 }
    requires none_lost { IsTrue (loses_none day.old) }
    requires empty { out.old.items ≡ [] }
    ensures done { OnOk result (AreRowsDone (P.right planner.now) day.old
        (rows_of_short line.now) day.new out.new.items) }
    ensures number { row_number day.new ≤ row_number day.old + 1 }
    ensures as_before { OnErr result (day.new ≡ day.old) }
    ensures none_lost { IsTrue (loses_none day.new) }
{
    if !line.is_empty() {
        day.row(alloc, planner, line, out)?;
    }
    Ok(())
}

/// Does what a line says, and puts what the log says of it into the empty text. A line of no bytes is no row,
/// and one of more than 4,096 bytes says nothing.
fn do_line<P: Planner>(
    alloc: Global,
    planner: &P,
    line: &[u8],
    day: &mut Day,
    out: &mut Vec<u8>,
) -> Result<(), AllocError>
    requires sound { PlannerLaw (P.right planner.now) }
    requires number { row_number day.old < 2 ^ 32 }
    requires none_lost { IsTrue (loses_none day.old) }
    requires empty { out.old.items ≡ [] }
    ensures done { OnOk result (AreRowsDone (P.right planner.now) day.old
        (rows_of_line line.now) day.new out.new.items) }
    ensures number { row_number day.new ≤ row_number day.old + 1 }
    ensures as_before { OnErr result (day.new ≡ day.old) }
    ensures none_lost { IsTrue (loses_none day.new) }
{
    if line.len() > LINE_LIMIT {
        do_long_line(day, out)
    } else {
        do_short_line(alloc, planner, line, day, out)
    }
}

/// A line was done, or memory ran out for it.
fn next_after(done: Result<(), AllocError>) -> Result<NextRow, RunFault>
    ensures { result ≡ next_after done }
{
    match done {
        Ok(()) => Ok(NextRow::More),
        Err(AllocError) => Err(RunFault::NoMemory),
    }
}

/// A line's rows were written, or not.
fn next_written(written: Result<(), RunFault>) -> Result<NextRow, RunFault>
    ensures { result ≡ next_written written }
{
    match written {
        Ok(()) => Ok(NextRow::More),
        Err(fault) => Err(fault),
    }
}

/// Why the next line could not be read as it stands; none is bad then.
fn fault_of(fault: TextFault) -> RunFault
    ensures { result ≡ fault_of fault }
{
    match fault {
        TextFault::TooLong => RunFault::TooLong,
        TextFault::Read => RunFault::Read,
        TextFault::Bad { .. } | TextFault::NoMemory => RunFault::NoMemory,
    }
}

/// Reads the next line, does what it says, and puts what the log says of it into the empty text.
fn do_next<P: Planner, S: Source>(
    alloc: Global,
    planner: &P,
    lines: &mut LineReader<S>,
    day: &mut Day,
    out: &mut Vec<u8>,
) -> Result<NextRow, RunFault>
    requires sound { PlannerLaw (P.right planner.now) }
    requires unfailed { failure lines.old ≡ None }
    requires number { row_number day.old ≤ line lines.old + 1 }
    requires none_lost { IsTrue (loses_none day.old) }
    requires empty { out.old.items ≡ [] }
    ensures same_source { lines.new.source.ghost_name ≡ lines.old.source.ghost_name }
    ensures next { DidNext (P.right planner.now) day.old day.new result out.new.items
        (text S.left lines.old)
        (text S.left lines.new) (unread lines.new) (S.left lines.new.source.now) }
    ensures none_lost { IsTrue (loses_none day.new) }
    ensures unfailed { OnOk result (failure lines.new ≡ None) }
    ensures line_feed { result ≡ Ok NextRow.More
        → HaveLineFeeds (text S.left lines.old) 1 (has_ended lines.new) }
    ensures stays_ended { has_ended lines.old ≡ true → has_ended lines.new ≡ true }
    ensures not_ended { IsErrOf result RunFault.Read → has_ended lines.new ≡ false }
    ensures line { result ≡ Ok NextRow.More → line lines.new ≡ line lines.old + 1 }
    ensures number { result ≡ Ok NextRow.More → row_number day.new ≤ line lines.new + 1 }
    ensures number_at_end { result ≡ Ok NextRow.End → row_number day.new ≤ line lines.new + 1 }
    ensures read { IsErrOf result RunFault.Read
        → Rose (S.faults lines.old.source.now) (S.faults lines.new.source.now) }
    ensures counted { S.faults lines.old.source.now ≤ S.faults lines.new.source.now }
{
    // For the proof: a line's number is at most 67,108,864.
    let _number = lines.line();
    match lines.raw_line() {
        Ok(RawLine::Line) => next_after(do_line(alloc, planner, lines.raw(), day, out)),
        Ok(RawLine::Long) => next_after(do_long_line(day, out)),
        Ok(RawLine::End) => Ok(NextRow::End),
        Err(fault) => Err(fault_of(fault)),
    }
}

/// Reads the next line, does what it says, and writes what the log says of it.
fn write_next<P: Planner, S: Source, K: Sink>(
    alloc: Global,
    planner: &P,
    lines: &mut LineReader<S>,
    day: &mut Day,
    sink: &mut K,
) -> Result<NextRow, RunFault>
    requires sound { PlannerLaw (P.right planner.now) }
    requires unfailed { failure lines.old ≡ None }
    requires number { row_number day.old ≤ line lines.old + 1 }
    requires none_lost { IsTrue (loses_none day.old) }
    ensures same_source { lines.new.source.ghost_name ≡ lines.old.source.ghost_name }
    ensures next { WroteNext (P.right planner.now) day.old day.new result (text S.left lines.old)
        (text S.left lines.new) (unread lines.new) (S.left lines.new.source.now) (K.taken sink.old)
        (K.taken sink.new) }
    ensures none_lost { IsTrue (loses_none day.new) }
    ensures unfailed { OnOk result (failure lines.new ≡ None) }
    ensures unfailed_by_write { IsErrOf result RunFault.Write → failure lines.new ≡ None }
    ensures line_feed { result ≡ Ok NextRow.More
        → HaveLineFeeds (text S.left lines.old) 1 (has_ended lines.new) }
    ensures stays_ended { has_ended lines.old ≡ true → has_ended lines.new ≡ true }
    ensures not_ended { IsErrOf result RunFault.Read → has_ended lines.new ≡ false }
    ensures line { result ≡ Ok NextRow.More → line lines.new ≡ line lines.old + 1 }
    ensures number { result ≡ Ok NextRow.More → row_number day.new ≤ line lines.new + 1 }
    ensures number_at_end { result ≡ Ok NextRow.End → row_number day.new ≤ line lines.new + 1 }
    ensures read { IsErrOf result RunFault.Read
        → Rose (S.faults lines.old.source.now) (S.faults lines.new.source.now) }
    ensures write { IsErrOf result RunFault.Write → Rose (K.faults sink.old) (K.faults sink.new) }
    ensures counted { S.faults lines.old.source.now ≤ S.faults lines.new.source.now }
    ensures sink_counted { K.faults sink.old ≤ K.faults sink.new }
{
    let mut out = Vec::new(alloc);
    match do_next(alloc, planner, lines, day, &mut out) {
        Ok(NextRow::More) => next_written(put(sink, out.as_slice())),
        Ok(NextRow::End) => Ok(NextRow::End),
        Err(fault) => Err(fault),
    }
}

/// Does what the next lines of the text say, row by row, to their end, and writes what the log says of each
/// before more of the source is read than what its line takes.
///
/// After a fault the rows before it are done and written; where a write failed, the last of them in part. After
/// each line the gate is told how many rows were done.
pub(crate) fn run_rows<P: Planner, S: Source, K: Sink, G: Gate>(
    alloc: Global,
    planner: &P,
    lines: &mut LineReader<S>,
    day: &mut Day,
    sink: &mut K,
    gate: &G,
) -> Result<(), RunFault>
    requires sound { PlannerLaw (P.right planner.now) }
    requires unfailed { failure lines.old ≡ None }
    requires number { row_number day.old ≤ line lines.old + 1 }
    requires none_lost { IsTrue (loses_none day.old) }
    ensures same_source { lines.new.source.ghost_name ≡ lines.old.source.ghost_name }
    ensures ran { Ran (P.right planner.now) day.old day.new result (text S.left lines.old)
        (unread lines.new) (S.left lines.new.source.now) (K.taken sink.old) (K.taken sink.new) }
    ensures none_lost { IsTrue (loses_none day.new) }
    ensures unfailed { OnOk result (failure lines.new ≡ None) }
    ensures unfailed_by_write { IsErrOf result RunFault.Write → failure lines.new ≡ None }
    ensures number { OnOk result (row_number day.new ≤ line lines.new + 1) }
    ensures read { IsErrOf result RunFault.Read
        → Rose (S.faults lines.old.source.now) (S.faults lines.new.source.now) }
    ensures write { IsErrOf result RunFault.Write → Rose (K.faults sink.old) (K.faults sink.new) }
    ensures counted { S.faults lines.old.source.now ≤ S.faults lines.new.source.now }
    ensures sink_counted { K.faults sink.old ≤ K.faults sink.new }
{
    'lines: for _ in 0..LINE_COUNT_BOUND {
        match write_next(alloc, planner, lines, day, sink) {
            Ok(NextRow::More) => gate.tell(Progress::Rows(day.rows())),
            Ok(NextRow::End) => return Ok(()),
            Err(fault) => return Err(fault),
        }
    }
    // For the proof: a line's number is at most 67,108,864, so this is never reached.
    let _last = lines.line();
    Err(RunFault::TooLong)
}
