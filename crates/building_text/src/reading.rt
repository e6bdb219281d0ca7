//! Reads a building from its lines.
ghost use Rattle.std.specs.Prelude.{◌≡◌, ◌≤◌, None, Err, IfErr, IfOk, IfSome, OnOk, IsErrOf};
ghost use Rattle.byte_streams.specs.Streams.{Rose};
ghost use Rattle.lift_text.specs.LineReader.{text, line, failure};
ghost use Rattle.lift_text.specs.Shows.{AnswerShows};
ghost use Rattle.text_sections.specs.Between.{StandsBehind};
ghost use Rattle.building_text.specs.BuildingText.{IsReadBuilding, IsRefusedBuilding, StandsInFront};
ghost use Rattle.building_text.specs.BuildingText.{BuildingEndsBehind, TakesBuildings};
ghost use Rattle.building_text.specs.Written.{ReadsWritten};

use crate::drafts::BuildingDraft;
use call_state::Building;
use lift_text::{LineReader, Source, TextFault};
use std::alloc::Global;
use text_sections::read_section;

/// Reads a building from its lines: the text goes on right after its `end`. The allocator comes first.
///
/// It accepts exactly the lines that stand for a building, and gives that building; a building that was
/// written is read as that building again, whatever follows. The first bad line
/// decides, with its number and one code. `CutShort` comes where the input ends before the section does, at
/// the line after the last. The end of the last line, or of the bad one, shows in the bytes that were taken.
/// `Read` comes only where a read of the source failed, and then the building's last line is not whole, with
/// its LF, among the bytes that were taken. After an `Err` of a line the reader is after that line.
pub fn read_building<S: Source>(
    alloc: Global,
    lines: &mut LineReader<S>,
) -> Result<Building, TextFault>
    ensures same_source { lines.new.source.ghost_name ≡ lines.old.source.ghost_name }
    ensures building { failure lines.old ≡ None → IfOk result (λ building.
        IsReadBuilding (text S.left lines.old) building (text S.left lines.new)) }
    ensures refused { failure lines.old ≡ None → IfErr result (λ fault.
        IsRefusedBuilding (text S.left lines.old) fault (text S.left lines.new)) }
    ensures only { failure lines.old ≡ None → IfOk result (λ building.
        StandsInFront (text S.left lines.old) building (text S.left lines.new)) }
    ensures each { failure lines.old ≡ None
        → TakesBuildings (text S.left lines.old) result (text S.left lines.new) }
    ensures written { failure lines.old ≡ None
        → ReadsWritten (text S.left lines.old) result (text S.left lines.new) }
    ensures again { IfSome (failure lines.old) (λ fault. result ≡ Err fault) }
    ensures behind { failure lines.old ≡ None
        → OnOk result (StandsBehind (text S.left lines.old) (text S.left lines.new)) }
    ensures shows { failure lines.old ≡ None → AnswerShows (text S.left lines.old) result
        (line lines.new) (S.left lines.new.source.now) }
    ensures ok { OnOk result (failure lines.new ≡ None) }
    ensures fault { IfSome (failure lines.new) (λ fault. result ≡ Err fault) }
    ensures unfinished { failure lines.old ≡ None → IsErrOf result TextFault.Read
        → BuildingEndsBehind (text S.left lines.old) (S.left lines.new.source.now) }
    ensures read { failure lines.old ≡ None → IsErrOf result TextFault.Read
        → Rose (S.faults lines.old.source.now) (S.faults lines.new.source.now) }
    ensures counted { S.faults lines.old.source.now ≤ S.faults lines.new.source.now }
{
    read_lines(alloc, lines)
}

/// Reads the lines, and makes the building.
fn read_lines<S: Source>(alloc: Global, lines: &mut LineReader<S>) -> Result<Building, TextFault>
    ensures same_source { lines.new.source.ghost_name ≡ lines.old.source.ghost_name }
    ensures building { failure lines.old ≡ None → IfOk result (λ building.
        IsReadBuilding (text S.left lines.old) building (text S.left lines.new)) }
    ensures refused { failure lines.old ≡ None → IfErr result (λ fault.
        IsRefusedBuilding (text S.left lines.old) fault (text S.left lines.new)) }
    ensures again { IfSome (failure lines.old) (λ fault. result ≡ Err fault) }
    ensures behind { failure lines.old ≡ None
        → OnOk result (StandsBehind (text S.left lines.old) (text S.left lines.new)) }
    ensures shows { failure lines.old ≡ None → AnswerShows (text S.left lines.old) result
        (line lines.new) (S.left lines.new.source.now) }
    ensures ok { OnOk result (failure lines.new ≡ None) }
    ensures fault { IfSome (failure lines.new) (λ fault. result ≡ Err fault) }
    ensures unfinished { failure lines.old ≡ None → IsErrOf result TextFault.Read
        → BuildingEndsBehind (text S.left lines.old) (S.left lines.new.source.now) }
    ensures read { failure lines.old ≡ None → IsErrOf result TextFault.Read
        → Rose (S.faults lines.old.source.now) (S.faults lines.new.source.now) }
    ensures counted { S.faults lines.old.source.now ≤ S.faults lines.new.source.now }
{
    let mut draft = BuildingDraft::new(alloc);
    match read_section(lines, &mut draft) {
        Ok(()) => draft.finish(),
        Err(fault) => Err(fault),
    }
}
