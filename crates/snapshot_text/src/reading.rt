//! Reading snapshots.
ghost use Rattle.std.specs.Prelude.{◌≡◌, ◌≤◌, false, true, None, Some, Ok, Err, IfErr, IfOk, IfSome, OnOk};
ghost use Rattle.std.specs.Prelude.{IsErrOf};
ghost use Rattle.byte_streams.specs.Streams.{Rose};
ghost use Rattle.lift_text.specs.LineReader.{text, line, failure};
ghost use Rattle.lift_text.specs.Shows.{AnswerShows};
ghost use Rattle.elevator_model.specs.Snapshot.{IsAccepted};
ghost use Rattle.text_sections.specs.Between.{StandsBehind};
ghost use Rattle.snapshot_text.specs.Drafts.{snapshot_read};
ghost use Rattle.snapshot_text.specs.Texts.{ReadsText};
ghost use Rattle.snapshot_text.specs.Snapshots.{IsReadSnapshot, IsRefusedSnapshot, IsSaid, ReadsLines};
ghost use Rattle.snapshot_text.specs.Snapshots.{FailsAs, SnapshotEndsBehind};

use crate::drafts::Draft;
use call_state::{Building, Snapshot};
use lift_text::{LineReader, Source, TextFault};
use std::alloc::{AllocError, Global};
use text_sections::read_section;

/// The snapshot that was read. Each item was judged with its line, so it keeps the rules, and nothing is
/// judged once more. It fails only where there is no memory left.
fn into_snapshot(alloc: Global, draft: Draft) -> Result<Snapshot, AllocError>
    requires { IsAccepted (snapshot_read draft) }
    ensures value { IfOk result (λ snapshot. snapshot ≡ snapshot_read draft) }
    ensures accepted { OnOk result (IsAccepted (snapshot_read draft)) }
{
    Snapshot::of_accepted(alloc, draft.into_parts())
}

/// Reads a section, as that of an opening snapshot or of another one.
fn read<S: Source>(
    alloc: Global,
    lines: &mut LineReader<S>,
    building: Building,
    is_opening: bool,
) -> Result<Snapshot, TextFault>
    ensures same_source { lines.new.source.ghost_name ≡ lines.old.source.ghost_name }
    ensures snapshot { failure lines.old ≡ None → IfOk result (λ snapshot.
        IsReadSnapshot (text S.left lines.old) building is_opening snapshot (text S.left lines.new)) }
    ensures refused { failure lines.old ≡ None → IfErr result (λ fault.
        IsRefusedSnapshot (text S.left lines.old) building is_opening fault (text S.left lines.new)) }
    ensures said { failure lines.old ≡ None → IfOk result (λ snapshot.
        IsSaid (text S.left lines.old) building is_opening snapshot (text S.left lines.new)) }
    ensures lines { failure lines.old ≡ None
        → ReadsLines (text S.left lines.old) building is_opening result (text S.left lines.new) }
    ensures accepted { IfOk result IsAccepted }
    ensures again { IfSome (failure lines.old) (FailsAs result) }
    ensures behind { failure lines.old ≡ None
        → OnOk result (StandsBehind (text S.left lines.old) (text S.left lines.new)) }
    ensures shows { failure lines.old ≡ None → AnswerShows (text S.left lines.old) result
        (line lines.new) (S.left lines.new.source.now) }
    ensures ok { OnOk result (failure lines.new ≡ None) }
    ensures fault { IfSome (failure lines.new) (FailsAs result) }
    ensures unfinished { failure lines.old ≡ None → IsErrOf result TextFault.Read
        → SnapshotEndsBehind (text S.left lines.old) building is_opening (S.left lines.new.source.now) }
    ensures read { failure lines.old ≡ None → IsErrOf result TextFault.Read
        → Rose (S.faults lines.old.source.now) (S.faults lines.new.source.now) }
    ensures counted { S.faults lines.old.source.now ≤ S.faults lines.new.source.now }
{
    let mut draft = match Draft::new(alloc, building, is_opening) {
        Ok(draft) => draft,
        Err(_) => return Err(TextFault::NoMemory),
    };
    match read_section(lines, &mut draft) {
        Ok(()) => match into_snapshot(alloc, draft) {
            Ok(snapshot) => Ok(snapshot),
            Err(_) => Err(TextFault::NoMemory),
        },
        Err(fault) => Err(fault),
    }
}

/// Reads a snapshot section up to its line `end`: the text goes on right after it. The allocator comes
/// first. A call that fails drops the building.
///
/// Where the text begins with one that `write_snapshot` wrote for a snapshot of this building, that snapshot
/// is read, whatever follows. The lines that are accepted are those that stand for an accepted snapshot of
/// the building: `snapshot V`, `now T`, a line `car ID idle FLOOR FREE`, `car ID coming FLOOR ARRIVES` or, in
/// version 2, `car ID moving FROM up|down LEFT` for each car in any order, then the lines `aboard CAR ID
/// DESTINATION PERSONS BOARDED`, then the lines `call ID ORIGIN DESTINATION PERSONS RELEASED CAR` with a
/// car's id or `any` at their end, and `end`.
///
/// The first bad line decides, with one code, of which the first of these comes: `NoLineWord` for an unknown
/// first, third or fifth word, `OutOfOrder`, `Missing`, `TooMany`, `NoNumber` and `OutOfRange`, `UnknownId`,
/// `NoState` where a car has no line, and then `Item` for what is wrong with the car, the group or the call.
/// `CutShort` comes where the input ends first. The end of the last line, or of the bad one, shows in the bytes
/// that were taken. `Read` comes only where a read of the source failed, and then the snapshot's last line is not
/// whole, with its LF, among the bytes that were taken.
pub fn read_snapshot<S: Source>(
    alloc: Global,
    lines: &mut LineReader<S>,
    building: Building,
) -> Result<Snapshot, TextFault>
    ensures same_source { lines.new.source.ghost_name ≡ lines.old.source.ghost_name }
    ensures snapshot { failure lines.old ≡ None → IfOk result (λ snapshot.
        IsReadSnapshot (text S.left lines.old) building false snapshot (text S.left lines.new)) }
    ensures refused { failure lines.old ≡ None → IfErr result (λ fault.
        IsRefusedSnapshot (text S.left lines.old) building false fault (text S.left lines.new)) }
    ensures said { failure lines.old ≡ None → IfOk result (λ snapshot.
        IsSaid (text S.left lines.old) building false snapshot (text S.left lines.new)) }
    ensures lines { failure lines.old ≡ None
        → ReadsLines (text S.left lines.old) building false result (text S.left lines.new) }
    ensures written { failure lines.old ≡ None
        → ReadsText (text S.left lines.old) building result (text S.left lines.new) }
    ensures accepted { IfOk result IsAccepted }
    ensures again { IfSome (failure lines.old) (FailsAs result) }
    ensures behind { failure lines.old ≡ None
        → OnOk result (StandsBehind (text S.left lines.old) (text S.left lines.new)) }
    ensures shows { failure lines.old ≡ None → AnswerShows (text S.left lines.old) result
        (line lines.new) (S.left lines.new.source.now) }
    ensures ok { OnOk result (failure lines.new ≡ None) }
    ensures fault { IfSome (failure lines.new) (FailsAs result) }
    ensures unfinished { failure lines.old ≡ None → IsErrOf result TextFault.Read
        → SnapshotEndsBehind (text S.left lines.old) building false (S.left lines.new.source.now) }
    ensures read { failure lines.old ≡ None → IsErrOf result TextFault.Read
        → Rose (S.faults lines.old.source.now) (S.faults lines.new.source.now) }
    ensures counted { S.faults lines.old.source.now ≤ S.faults lines.new.source.now }
{
    read(alloc, lines, building, false)
}

/// Reads the opening snapshot of a day: as `read_snapshot` does, but a line `aboard` or `call` that is in
/// order is `NotInOpening`.
pub fn read_opening<S: Source>(
    alloc: Global,
    lines: &mut LineReader<S>,
    building: Building,
) -> Result<Snapshot, TextFault>
    ensures same_source { lines.new.source.ghost_name ≡ lines.old.source.ghost_name }
    ensures snapshot { failure lines.old ≡ None → IfOk result (λ snapshot.
        IsReadSnapshot (text S.left lines.old) building true snapshot (text S.left lines.new)) }
    ensures refused { failure lines.old ≡ None → IfErr result (λ fault.
        IsRefusedSnapshot (text S.left lines.old) building true fault (text S.left lines.new)) }
    ensures said { failure lines.old ≡ None → IfOk result (λ snapshot.
        IsSaid (text S.left lines.old) building true snapshot (text S.left lines.new)) }
    ensures lines { failure lines.old ≡ None
        → ReadsLines (text S.left lines.old) building true result (text S.left lines.new) }
    ensures accepted { IfOk result IsAccepted }
    ensures again { IfSome (failure lines.old) (FailsAs result) }
    ensures behind { failure lines.old ≡ None
        → OnOk result (StandsBehind (text S.left lines.old) (text S.left lines.new)) }
    ensures shows { failure lines.old ≡ None → AnswerShows (text S.left lines.old) result
        (line lines.new) (S.left lines.new.source.now) }
    ensures ok { OnOk result (failure lines.new ≡ None) }
    ensures fault { IfSome (failure lines.new) (FailsAs result) }
    ensures unfinished { failure lines.old ≡ None → IsErrOf result TextFault.Read
        → SnapshotEndsBehind (text S.left lines.old) building true (S.left lines.new.source.now) }
    ensures read { failure lines.old ≡ None → IsErrOf result TextFault.Read
        → Rose (S.faults lines.old.source.now) (S.faults lines.new.source.now) }
    ensures counted { S.faults lines.old.source.now ≤ S.faults lines.new.source.now }
{
    read(alloc, lines, building, true)
}
