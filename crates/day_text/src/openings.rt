//! Reading what comes before the rows of a day.
ghost use Rattle.std.specs.Prelude.{◌≡◌, ◌≤◌, None, IfErr, IfOk, OnOk, IsErrOf};
ghost use Rattle.byte_streams.specs.Streams.{Rose};
ghost use Rattle.lift_text.specs.LineReader.{text, failure};
ghost use Rattle.lift_text.specs.Shows.{FaultShows};
ghost use Rattle.elevator_model.specs.Snapshot.{IsAccepted};
ghost use Rattle.day_text.specs.DayOpenings.{IsDayOpeningRead, IsDayOpeningRefused, TakesDayOpenings};
ghost use Rattle.day_text.specs.DayOpenings.{HoldsNoOpening, IsEmptySnapshot};

use crate::header_reading::read_header;
use crate::headers::Header;
use building_text::read_building;
use call_state::Snapshot;
use lift_text::{LineReader, Source, TextFault};
use snapshot_text::read_opening;
use std::alloc::Global;

/// Reads what comes before the rows of a day: a building, an opening snapshot of it, with nobody aboard and
/// no open call, and the header of the rows. The rows after the header stay unread, and are the next lines.
///
/// The first bad line decides, with its number and one code: those of `read_building` and of `read_opening`,
/// and then those of `read_header`. That line's end shows in the bytes that were taken. `Read` comes only where
/// a read of the source failed, and then no opening is whole among the bytes that were taken: not even the
/// header's line with its LF.
pub fn read_day_opening<S: Source>(
    alloc: Global,
    lines: &mut LineReader<S>,
) -> Result<Snapshot, TextFault>
    requires { failure lines.old ≡ None }
    ensures same_source { lines.new.source.ghost_name ≡ lines.old.source.ghost_name }
    ensures opening { IfOk result (λ snapshot.
        IsDayOpeningRead (text S.left lines.old) snapshot (text S.left lines.new)) }
    ensures refused { IfErr result (IsDayOpeningRefused (text S.left lines.old)) }
    ensures takes { TakesDayOpenings (text S.left lines.old) result (text S.left lines.new) }
    ensures accepted { IfOk result IsAccepted }
    ensures empty { IfOk result IsEmptySnapshot }
    ensures shows { IfErr result (λ fault.
        FaultShows (text S.left lines.old) fault (S.left lines.new.source.now)) }
    ensures ok { OnOk result (failure lines.new ≡ None) }
    ensures unopened { IsErrOf result TextFault.Read
        → HoldsNoOpening (text S.left lines.old) (S.left lines.new.source.now) }
    ensures read { IsErrOf result TextFault.Read
        → Rose (S.faults lines.old.source.now) (S.faults lines.new.source.now) }
    ensures counted { S.faults lines.old.source.now ≤ S.faults lines.new.source.now }
{
    let building = match read_building(alloc, lines) {
        Ok(building) => building,
        Err(fault) => return Err(fault),
    };
    let snapshot = match read_opening(alloc, lines, building) {
        Ok(snapshot) => snapshot,
        Err(fault) => return Err(fault),
    };
    match read_header(alloc, lines, Header::Rows) {
        Ok(()) => Ok(snapshot),
        Err(fault) => Err(fault),
    }
}
