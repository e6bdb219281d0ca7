//! Reading cases of which a call is asked about.
ghost use Rattle.std.specs.Prelude.{◌≡◌, ◌≤◌, ◌↔◌, None, IfErr, IfOk, OnOk, IsErrOf, IsTrue};
ghost use Rattle.std.specs.Io.KnownBytes.{IsAtEnd};
ghost use Rattle.byte_streams.specs.Streams.{Rose};
ghost use Rattle.lift_text.specs.LineReader.{text, line, failure};
ghost use Rattle.lift_text.specs.Shows.{AnswerShows, WentOn};
ghost use Rattle.elevator_model.specs.Snapshot.{IsAccepted};
ghost use Rattle.case_text.specs.CaseTexts.{IsRefusedCase, TakesCases};
ghost use Rattle.case_text.specs.AskedCases.{HasAskedCall, IsReadUpToEnd, IsReadAsked, IsRefusedAsked};
ghost use Rattle.case_text.specs.AskedCases.{AskFaultShows, TakesAskedCases};

use crate::ask_faults::AskFault;
use crate::case_reading::read_end;
use building_text::read_building;
use call_state::Snapshot;
use lift_text::{LineReader, Source, TextFault};
use snapshot_text::read_snapshot;
use std::alloc::Global;

/// Whether the last call is asked about: there is one, and no car is stated for it.
fn has_asked_call(snapshot: &Snapshot) -> bool
    ensures { IsTrue result ↔ HasAskedCall snapshot.now }
{
    match snapshot.calls().last() {
        Some(call) => call.pin.is_none(),
        None => false,
    }
}

/// Reads a building and a snapshot of it, up to the snapshot's `end`: that is the last line that was read.
fn read_up_to_end<S: Source>(
    alloc: Global,
    lines: &mut LineReader<S>,
) -> Result<Snapshot, TextFault>
    requires { failure lines.old ≡ None }
    ensures same_source { lines.new.source.ghost_name ≡ lines.old.source.ghost_name }
    ensures case { IfOk result (λ snapshot.
        IsReadUpToEnd (text S.left lines.old) snapshot (line lines.new) (text S.left lines.new)) }
    ensures refused { IfErr result (IsRefusedCase (text S.left lines.old)) }
    ensures takes { TakesCases (text S.left lines.old) result (text S.left lines.new) }
    ensures accepted { IfOk result IsAccepted }
    ensures went { OnOk result (WentOn (text S.left lines.old) (text S.left lines.new)) }
    ensures shows { AnswerShows (text S.left lines.old) result (line lines.new)
        (S.left lines.new.source.now) }
    ensures ok { OnOk result (failure lines.new ≡ None) }
    ensures read { IsErrOf result TextFault.Read
        → Rose (S.faults lines.old.source.now) (S.faults lines.new.source.now) }
    ensures counted { S.faults lines.old.source.now ≤ S.faults lines.new.source.now }
{
    match read_building(alloc, lines) {
        Ok(building) => read_snapshot(alloc, lines, building),
        Err(fault) => Err(fault),
    }
}

/// Reads a building, a snapshot of it and the text to its end, where the snapshot's last call is asked about:
/// its line states `any` and no car. The allocator comes first.
///
/// The first fault decides: a bad line of the building or of the snapshot, with its number and one code; then
/// that the snapshot has no such call, which is `NothingAsked` with the line of its `end`, whatever follows;
/// and then a line after `end`, which is `OutOfOrder`. The end of the line that is named shows in the bytes that
/// were taken. `Read` comes only where a read of the source failed.
pub fn read_asked_case<S: Source>(
    alloc: Global,
    lines: &mut LineReader<S>,
) -> Result<Snapshot, AskFault>
    requires { failure lines.old ≡ None }
    ensures same_source { lines.new.source.ghost_name ≡ lines.old.source.ghost_name }
    ensures case { IfOk result (IsReadAsked (text S.left lines.old)) }
    ensures refused { IfErr result (IsRefusedAsked (text S.left lines.old)) }
    ensures takes { TakesAskedCases (text S.left lines.old) result }
    ensures accepted { IfOk result IsAccepted }
    ensures asked { IfOk result HasAskedCall }
    ensures ended { OnOk result (IsAtEnd (S.left lines.new.source.now)) }
    ensures shows { IfErr result (λ fault.
        AskFaultShows (text S.left lines.old) fault (S.left lines.new.source.now)) }
    ensures read { IsErrOf result (AskFault.Text TextFault.Read)
        → Rose (S.faults lines.old.source.now) (S.faults lines.new.source.now) }
    ensures counted { S.faults lines.old.source.now ≤ S.faults lines.new.source.now }
{
    let snapshot = match read_up_to_end(alloc, lines) {
        Ok(snapshot) => snapshot,
        Err(fault) => return Err(AskFault::Text(fault)),
    };
    if !has_asked_call(&snapshot) {
        return Err(AskFault::NothingAsked { line: lines.line() });
    }
    match read_end(lines) {
        Ok(()) => Ok(snapshot),
        Err(fault) => Err(AskFault::Text(fault)),
    }
}
