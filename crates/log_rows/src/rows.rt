//! The rows of a day in front of its log.

ghost use Rattle.std.specs.Prelude.{◌≡◌, ◌↔◌, ◌≤◌, ◌+◌, ◌∷◌, ◌++◌, [], None, All, IfErr, IfOk, OnOk};
ghost use Rattle.std.specs.Prelude.{IsErrOf, IsTrue, length, codes};
ghost use Rattle.byte_streams.specs.Streams.{Rose};
ghost use Rattle.lift_text.specs.LineReader.{text, line, failure};
ghost use Rattle.lift_text.specs.Shows.{FaultShows};
ghost use Rattle.day_laws.specs.RowLines.{rows_of_short};
ghost use Rattle.log_rows.specs.Rows.{AreAdded, AreRowsGiven, Grows, IsGood, IsLineJudged, IsNextTaken};
ghost use Rattle.log_rows.specs.Rows.{TellsNoLog, after_added as after_added_lem};

use call_state::Building;
use day_text::{GoodRow, read_row};
use lift_text::{LINE_COUNT_BOUND, LineReader, RawLine, Source, TEXT_LIMIT, TextCode, TextFault};
use std::alloc::{AllocError, Global};

/// The first line of a log, without its end.
const FIRST_LINE: &[u8] = b"day 1";

/// What stands next in front of a log.
#[derive(Clone, Copy)]
pub(crate) enum Before {
    /// The line of a row, or one of no bytes.
    Row,
    /// The first line of the log.
    Log,
}

/// Whether the line begins a log.
fn begins_log(line: &[u8]) -> bool
    ensures { IsTrue result ↔ (line.now ≡ codes "day 1") }
{
    line == FIRST_LINE
}

/// Appends the row of a line of at most 4,096 bytes. A line of no bytes is no row.
fn add_row(
    alloc: Global,
    building: &Building,
    line: &[u8],
    rows: &mut Vec<Option<GoodRow>>,
) -> Result<(), AllocError>
    ensures added { OnOk result
        (AreAdded building.now (rows_of_short line.now) rows.old.items rows.new.items) }
    ensures grows { OnOk result (Grows building.now rows.old.items rows.new.items) }
{
    if line.is_empty() {
        return Ok(());
    }
    let row = read_row(alloc, building, line)?;
    rows.push(row)?;
    Ok(())
}

/// Appends the row of an over-long line, which says nothing.
fn add_long_row(rows: &mut Vec<Option<GoodRow>>) -> Result<(), AllocError>
    ensures { OnOk result (rows.new.items ≡ rows.old.items ++ None ∷ []) }
{
    rows.push(None)?;
    Ok(())
}

/// The line of a row was read, or there is no memory for the row.
fn after_added(added: Result<(), AllocError>) -> Result<Before, TextFault>
    ensures { result ≡ after_added_lem added }
{
    match added {
        Ok(()) => Ok(Before::Row),
        Err(_) => Err(TextFault::NoMemory),
    }
}

/// Appends the row of a line of at most 4,096 bytes, unless it begins the log.
fn judge_line(
    alloc: Global,
    building: &Building,
    line: &[u8],
    rows: &mut Vec<Option<GoodRow>>,
) -> Result<Before, TextFault>
    ensures judged { IsLineJudged building.now line.now rows.old.items rows.new.items result }
    ensures grows { OnOk result (Grows building.now rows.old.items rows.new.items) }
{
    if begins_log(line) {
        return Ok(Before::Log);
    }
    after_added(add_row(alloc, building, line, rows))
}

/// Reads the next line, and appends its row, unless it begins the log.
fn take_next<S: Source>(
    alloc: Global,
    lines: &mut LineReader<S>,
    building: &Building,
    rows: &mut Vec<Option<GoodRow>>,
) -> Result<Before, TextFault>
    requires whole { failure lines.old ≡ None }
    ensures same_source { lines.new.source.ghost_name ≡ lines.old.source.ghost_name }
    ensures taken { IsNextTaken building.now rows.old.items rows.new.items (text S.left lines.old) result
        (text S.left lines.new) }
    ensures grows { OnOk result (Grows building.now rows.old.items rows.new.items) }
    ensures shows { IfErr result (λ fault.
        FaultShows (text S.left lines.old) fault (S.left lines.new.source.now)) }
    ensures ok { OnOk result (failure lines.new ≡ None) }
    ensures line { OnOk result (line lines.new ≡ line lines.old + 1) }
    ensures read { IsErrOf result TextFault.Read
        → Rose (S.faults lines.old.source.now) (S.faults lines.new.source.now) }
    ensures counted { S.faults lines.old.source.now ≤ S.faults lines.new.source.now }
{
    match lines.raw_line() {
        Ok(RawLine::Line) => judge_line(alloc, building, lines.raw(), rows),
        Ok(RawLine::Long) => after_added(add_long_row(rows)),
        Ok(RawLine::End) => Err(TextFault::Bad {
            line: lines.line() + 1,
            code: TextCode::CutShort,
        }),
        Err(fault) => Err(fault),
    }
}

/// Appends the rows up to the first line of the log, which is read, too.
fn read_rows_into<S: Source>(
    alloc: Global,
    lines: &mut LineReader<S>,
    building: &Building,
    rows: &mut Vec<Option<GoodRow>>,
) -> Result<(), TextFault>
    requires whole { failure lines.old ≡ None }
    requires none { rows.old.items ≡ [] }
    ensures same_source { lines.new.source.ghost_name ≡ lines.old.source.ghost_name }
    ensures rows { OnOk result (AreRowsGiven building.now rows.new.items (text S.left lines.old)
        (text S.left lines.new)) }
    ensures good { OnOk result (All (IsGood building.now) rows.new.items) }
    ensures few { OnOk result (length rows.new.items ≤ TEXT_LIMIT + 1) }
    ensures told { IfErr result (TellsNoLog (text S.left lines.old)) }
    ensures shows { IfErr result (λ fault.
        FaultShows (text S.left lines.old) fault (S.left lines.new.source.now)) }
    ensures ok { OnOk result (failure lines.new ≡ None) }
    ensures read { IsErrOf result TextFault.Read
        → Rose (S.faults lines.old.source.now) (S.faults lines.new.source.now) }
    ensures counted { S.faults lines.old.source.now ≤ S.faults lines.new.source.now }
{
    // For the proof: a line's number is at most 67,108,864.
    let _start = lines.line();
    'lines: for _ in 0..LINE_COUNT_BOUND {
        match take_next(alloc, lines, building, rows) {
            Ok(Before::Row) => {}
            Ok(Before::Log) => return Ok(()),
            Err(fault) => return Err(fault),
        }
    }
    // For the proof: a line's number is at most 67,108,864, so this is never reached.
    let _last = lines.line();
    Err(TextFault::TooLong)
}

/// Reads the rows up to the first line of the log, which is read, too: the first that is exactly `day 1`.
///
/// `CutShort` comes where no line is that one, at the line after the last, where the source is at its end.
pub fn read_rows<S: Source>(
    alloc: Global,
    lines: &mut LineReader<S>,
    building: &Building,
) -> Result<Vec<Option<GoodRow>>, TextFault>
    requires whole { failure lines.old ≡ None }
    ensures same_source { lines.new.source.ghost_name ≡ lines.old.source.ghost_name }
    ensures rows { IfOk result (λ rows. AreRowsGiven building.now rows.items (text S.left lines.old)
        (text S.left lines.new)) }
    ensures good { IfOk result (λ rows. All (IsGood building.now) rows.items) }
    ensures few { IfOk result (λ rows. length rows.items ≤ TEXT_LIMIT + 1) }
    ensures told { IfErr result (TellsNoLog (text S.left lines.old)) }
    ensures shows { IfErr result (λ fault.
        FaultShows (text S.left lines.old) fault (S.left lines.new.source.now)) }
    ensures ok { OnOk result (failure lines.new ≡ None) }
    ensures read { IsErrOf result TextFault.Read
        → Rose (S.faults lines.old.source.now) (S.faults lines.new.source.now) }
    ensures counted { S.faults lines.old.source.now ≤ S.faults lines.new.source.now }
{
    let mut rows = Vec::new(alloc);
    match read_rows_into(alloc, lines, building, &mut rows) {
        Ok(()) => Ok(rows),
        Err(fault) => Err(fault),
    }
}
