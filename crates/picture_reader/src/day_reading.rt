//! Reads what is drawn of a day.
ghost use Rattle.std.specs.Prelude.{◌≡◌, ◌≤◌, None, IfErr, IfOk, IsErrOf, OnOk, length};
ghost use Rattle.std.specs.Io.KnownBytes.{IsAtEnd};
ghost use Rattle.byte_streams.specs.Streams.{Rose};
ghost use Rattle.lift_text.specs.LineReader.{text, failure};
ghost use Rattle.lift_text.specs.Shows.{FaultShows};
ghost use Rattle.picture_reader.specs.DayScenes.{day_telling, log_telling, rows_telling};
ghost use Rattle.picture_reader.specs.Tellings.{IsAnsweredBy};

use crate::log_drafts::LogDraft;
use call_state::Snapshot;
use case_text::read_end;
use day_text::{GoodRow, read_day_opening};
use lift_picture::Scene;
use lift_text::{LineReader, Source, TextFault};
use log_rows::read_rows;
use std::alloc::Global;
use text_sections::read_section;

/// Reads a log behind its first line, and the text to its end.
fn read_log<S: Source>(
    alloc: Global,
    lines: &mut LineReader<S>,
    opening: &Snapshot,
    rows: &[Option<GoodRow>],
) -> Result<Scene, TextFault>
    requires { failure lines.old ≡ None }
    ensures same_source { lines.new.source.ghost_name ≡ lines.old.source.ghost_name }
    ensures log { IsAnsweredBy (log_telling opening.now rows.now) (text S.left lines.old) result }
    ensures few { IfOk result (λ scene. length scene.cars.items ≤ 16) }
    ensures ended { OnOk result (IsAtEnd (S.left lines.new.source.now)) }
    ensures shows { IfErr result (λ fault.
        FaultShows (text S.left lines.old) fault (S.left lines.new.source.now)) }
    ensures read { IsErrOf result TextFault.Read
        → Rose (S.faults lines.old.source.now) (S.faults lines.new.source.now) }
    ensures counted { S.faults lines.old.source.now ≤ S.faults lines.new.source.now }
{
    let mut draft = LogDraft::new(alloc, opening, rows);
    match read_section(lines, &mut draft) {
        Ok(()) => {}
        Err(fault) => return Err(fault),
    }
    match read_end(lines) {
        Ok(()) => match draft.into_scene(alloc) {
            Ok(scene) => Ok(scene),
            Err(_) => Err(TextFault::NoMemory),
        },
        Err(fault) => Err(fault),
    }
}

/// Reads the rows of a day that opens so, and the log.
fn read_day<S: Source>(
    alloc: Global,
    lines: &mut LineReader<S>,
    opening: &Snapshot,
) -> Result<Scene, TextFault>
    requires { failure lines.old ≡ None }
    ensures same_source { lines.new.source.ghost_name ≡ lines.old.source.ghost_name }
    ensures day { IsAnsweredBy (rows_telling opening.now) (text S.left lines.old) result }
    ensures few { IfOk result (λ scene. length scene.cars.items ≤ 16) }
    ensures ended { OnOk result (IsAtEnd (S.left lines.new.source.now)) }
    ensures shows { IfErr result (λ fault.
        FaultShows (text S.left lines.old) fault (S.left lines.new.source.now)) }
    ensures read { IsErrOf result TextFault.Read
        → Rose (S.faults lines.old.source.now) (S.faults lines.new.source.now) }
    ensures counted { S.faults lines.old.source.now ≤ S.faults lines.new.source.now }
{
    match read_rows(alloc, lines, opening.building()) {
        Ok(rows) => read_log(alloc, lines, opening, rows.as_slice()),
        Err(fault) => Err(fault),
    }
}

/// Reads a building, an opening snapshot, the header and the rows of a day, and behind the line `day 1` its
/// log up to the end of the text; and gives what is drawn of that day. The allocator comes first.
///
/// The first bad line decides, with its number and one code: those of `read_day_opening`; `CutShort` where
/// no line is `day 1`; and of a line of the log the first of these. `NoLineWord`; `OutOfOrder`, also for a
/// row that is not the next, totals before each row has its line, a delivery of a call that has not
/// boarded, and a line after `end`; `Missing` and `TooMany`; `NoNumber` and `OutOfRange`, also for the
/// number of a row that is not there; `UnknownId` for a car that the building has not, and for the call of
/// a row that says none. `CutShort` comes where the input ends before `end`. The end of the bad line shows in
/// the bytes that were taken. `Read` comes only where a read of the source failed.
pub fn read_day_scene<S: Source>(
    alloc: Global,
    lines: &mut LineReader<S>,
) -> Result<Scene, TextFault>
    requires { failure lines.old ≡ None }
    ensures same_source { lines.new.source.ghost_name ≡ lines.old.source.ghost_name }
    ensures scene { IsAnsweredBy day_telling (text S.left lines.old) result }
    ensures few { IfOk result (λ scene. length scene.cars.items ≤ 16) }
    ensures ended { OnOk result (IsAtEnd (S.left lines.new.source.now)) }
    ensures shows { IfErr result (λ fault.
        FaultShows (text S.left lines.old) fault (S.left lines.new.source.now)) }
    ensures read { IsErrOf result TextFault.Read
        → Rose (S.faults lines.old.source.now) (S.faults lines.new.source.now) }
    ensures counted { S.faults lines.old.source.now ≤ S.faults lines.new.source.now }
{
    match read_day_opening(alloc, lines) {
        Ok(opening) => read_day(alloc, lines, &opening),
        Err(fault) => Err(fault),
    }
}
