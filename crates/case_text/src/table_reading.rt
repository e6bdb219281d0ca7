//! Reading tables.
ghost use Rattle.std.specs.Prelude.{◌≡◌, ◌≤◌, None, IfErr, IfOk, OnOk, IsErrOf};
ghost use Rattle.std.specs.Io.KnownBytes.{IsAtEnd};
ghost use Rattle.byte_streams.specs.Streams.{Rose};
ghost use Rattle.lift_text.specs.LineReader.{text, line, failure};
ghost use Rattle.lift_text.specs.Shows.{AnswerShows, FaultShows, WentOn};
ghost use Rattle.motion_table.specs.Triples.{IsTable};
ghost use Rattle.case_text.specs.TableTexts.{IsReadTable, IsRefusedTable, TakesTables, IsReadAlone};
ghost use Rattle.case_text.specs.TableTexts.{IsRefusedAlone, TakesLoneTables};

use crate::case_reading::read_end;
use crate::table_drafts::TableDraft;
use crate::tables::Table;
use lift_text::{LineReader, Source, TextFault};
use std::alloc::Global;
use text_sections::read_section;

/// Reads the lines of a table up to its `end`: what follows it stays unread.
fn read_table<S: Source>(alloc: Global, lines: &mut LineReader<S>) -> Result<Table, TextFault>
    requires { failure lines.old ≡ None }
    ensures same_source { lines.new.source.ghost_name ≡ lines.old.source.ghost_name }
    ensures table { IfOk result (λ table.
        IsReadTable (text S.left lines.old) table (text S.left lines.new)) }
    ensures refused { IfErr result (IsRefusedTable (text S.left lines.old)) }
    ensures takes { TakesTables (text S.left lines.old) result (text S.left lines.new) }
    ensures went { OnOk result (WentOn (text S.left lines.old) (text S.left lines.new)) }
    ensures shows { AnswerShows (text S.left lines.old) result (line lines.new)
        (S.left lines.new.source.now) }
    ensures ok { OnOk result (failure lines.new ≡ None) }
    ensures read { IsErrOf result TextFault.Read
        → Rose (S.faults lines.old.source.now) (S.faults lines.new.source.now) }
    ensures counted { S.faults lines.old.source.now ≤ S.faults lines.new.source.now }
{
    let mut draft = TableDraft::new(alloc);
    match read_section(lines, &mut draft) {
        Ok(()) => Ok(draft.finish()),
        Err(fault) => Err(fault),
    }
}

/// Reads a table and the text to its end: `table 1`, a line `times T0 T1 ..` for each floor with the ms from
/// it to each floor, `end`, and no other line with a word. The first line of times decides how many floors
/// there are, 2 to 64. The allocator comes first.
///
/// The first bad line decides, with its number and one code, of which the first of these comes: `NoLineWord`,
/// before the first line for every word but `table`; `OutOfOrder` for a line word that is not due, and for a
/// line after `end`; `Missing` and `TooMany`;
/// `NoNumber` and `OutOfRange` where a word is no number from 0 to 20,000,000, or the version is not 1; and
/// then `NoTime` where a time is not 0 from a floor to itself or is 0 between two floors. `CutShort` comes
/// where the input ends before `end`. Whether a way over a third floor is shorter is not judged here. The end
/// of the bad line shows in the bytes that were taken. `Read` comes only where a read of the source failed.
pub fn read_lone_table<S: Source>(
    alloc: Global,
    lines: &mut LineReader<S>,
) -> Result<Table, TextFault>
    requires { failure lines.old ≡ None }
    ensures same_source { lines.new.source.ghost_name ≡ lines.old.source.ghost_name }
    ensures table { IfOk result (IsReadAlone (text S.left lines.old)) }
    ensures refused { IfErr result (IsRefusedAlone (text S.left lines.old)) }
    ensures takes { TakesLoneTables (text S.left lines.old) result }
    ensures accepted { IfOk result IsTable }
    ensures ended { OnOk result (IsAtEnd (S.left lines.new.source.now)) }
    ensures shows { IfErr result (λ fault.
        FaultShows (text S.left lines.old) fault (S.left lines.new.source.now)) }
    ensures read { IsErrOf result TextFault.Read
        → Rose (S.faults lines.old.source.now) (S.faults lines.new.source.now) }
    ensures counted { S.faults lines.old.source.now ≤ S.faults lines.new.source.now }
{
    let table = match read_table(alloc, lines) {
        Ok(table) => table,
        Err(fault) => return Err(fault),
    };
    match read_end(lines) {
        Ok(()) => Ok(table),
        Err(fault) => Err(fault),
    }
}
