//! Reading cases.
ghost use Rattle.std.specs.Prelude.{◌≡◌, ◌≤◌, None, IfErr, IfOk, IfSome, OnOk, IsErrOf};
ghost use Rattle.std.specs.Io.KnownBytes.{IsAtEnd};
ghost use Rattle.byte_streams.specs.Streams.{Rose};
ghost use Rattle.lift_text.specs.LineReader.{text, line, failure};
ghost use Rattle.lift_text.specs.Shows.{AnswerShows, FaultShows, WentOn};
ghost use Rattle.elevator_model.specs.Snapshot.{IsAccepted};
ghost use Rattle.case_text.specs.CaseTexts.{IsReadCase, IsRefusedCase, TakesCases, IsReadAlone};
ghost use Rattle.case_text.specs.CaseTexts.{IsRefusedAlone, TakesLoneCases, IsEnd, IsNoEnd};

use building_text::read_building;
use call_state::Snapshot;
use lift_text::{LineReader, Source, TextCode, TextFault};
use snapshot_text::read_snapshot;
use std::alloc::Global;

/// Reads a building and a snapshot of it, up to the snapshot's `end`: what follows it stays unread.
///
/// It accepts exactly the lines that stand for an accepted snapshot and its building. The first bad line
/// decides, with its number and one code. The end of the last line, or of the bad one, shows in the bytes that
/// were taken. `Read` comes only where a read of the source failed.
pub fn read_case<S: Source>(alloc: Global, lines: &mut LineReader<S>) -> Result<Snapshot, TextFault>
    requires { failure lines.old ≡ None }
    ensures same_source { lines.new.source.ghost_name ≡ lines.old.source.ghost_name }
    ensures case { IfOk result (λ snapshot.
        IsReadCase (text S.left lines.old) snapshot (text S.left lines.new)) }
    ensures refused { IfErr result (IsRefusedCase (text S.left lines.old)) }
    ensures takes { TakesCases (text S.left lines.old) result (text S.left lines.new) }
    ensures accepted { IfOk result IsAccepted }
    ensures went { OnOk result (WentOn (text S.left lines.old) (text S.left lines.new)) }
    ensures shows { AnswerShows (text S.left lines.old) result (line lines.new)
        (S.left lines.new.source.now) }
    ensures ok { OnOk result (failure lines.new ≡ None) }
    ensures read { IsErrOf result TextFault.Read
        → Rose (S.faults lines.old.source.now) (S.faults lines.new.source.now) }
    ensures counted { S.faults lines.old.source.now ≤ S.faults lines.new.source.now }
{
    match read_building(alloc, lines) {
        Ok(building) => read_snapshot(alloc, lines, building),
        Err(fault) => Err(fault),
    }
}

/// Reads on to the end of the text, where no other line has a word. A line that has one is out of order,
/// which is `OutOfOrder`.
pub fn read_end<S: Source>(lines: &mut LineReader<S>) -> Result<(), TextFault>
    requires { failure lines.old ≡ None }
    ensures same_source { lines.new.source.ghost_name ≡ lines.old.source.ghost_name }
    ensures end { OnOk result (IsEnd (text S.left lines.old)) }
    ensures refused { IfErr result (IsNoEnd (text S.left lines.old)) }
    ensures ended { OnOk result (IsAtEnd (S.left lines.new.source.now)) }
    ensures shows { IfErr result (λ fault.
        FaultShows (text S.left lines.old) fault (S.left lines.new.source.now)) }
    ensures read { IsErrOf result TextFault.Read
        → Rose (S.faults lines.old.source.now) (S.faults lines.new.source.now) }
    ensures counted { S.faults lines.old.source.now ≤ S.faults lines.new.source.now }
{
    match lines.next_line() {
        Ok(false) => Ok(()),
        Ok(true) => Err(TextFault::Bad {
            line: lines.line(),
            code: TextCode::OutOfOrder,
        }),
        Err(fault) => Err(fault),
    }
}

/// Reads a building and a snapshot of it, and the text to its end: no other line may have a word.
pub fn read_lone_case<S: Source>(
    alloc: Global,
    lines: &mut LineReader<S>,
) -> Result<Snapshot, TextFault>
    requires { failure lines.old ≡ None }
    ensures same_source { lines.new.source.ghost_name ≡ lines.old.source.ghost_name }
    ensures case { IfOk result (IsReadAlone (text S.left lines.old)) }
    ensures refused { IfErr result (IsRefusedAlone (text S.left lines.old)) }
    ensures takes { TakesLoneCases (text S.left lines.old) result }
    ensures accepted { IfOk result IsAccepted }
    ensures ended { OnOk result (IsAtEnd (S.left lines.new.source.now)) }
    ensures shows { IfErr result (λ fault.
        FaultShows (text S.left lines.old) fault (S.left lines.new.source.now)) }
    ensures read { IsErrOf result TextFault.Read
        → Rose (S.faults lines.old.source.now) (S.faults lines.new.source.now) }
    ensures counted { S.faults lines.old.source.now ≤ S.faults lines.new.source.now }
{
    let snapshot = match read_case(alloc, lines) {
        Ok(snapshot) => snapshot,
        Err(fault) => return Err(fault),
    };
    match read_end(lines) {
        Ok(()) => Ok(snapshot),
        Err(fault) => Err(fault),
    }
}
