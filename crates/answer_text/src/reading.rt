//! Reading answers.
ghost use Rattle.std.specs.Prelude.{◌≡◌, ◌≤◌, None, Some, Ok, Err, IfErr, IfOk, IfSome, OnOk, IsErrOf};
ghost use Rattle.byte_streams.specs.Streams.{Rose};
ghost use Rattle.lift_text.specs.LineReader.{text, line, failure};
ghost use Rattle.lift_text.specs.Shows.{AnswerShows, WentOn};
ghost use Rattle.answer_text.specs.Answers.{IsReadAnswer, IsRefusedAnswer, IsSaid, IsWithin, ReadsLines};
ghost use Rattle.answer_text.specs.Written.{ReadsText};

use crate::drafts::Draft;
use call_state::Snapshot;
use lift_text::{LineReader, Source, TextFault};
use search_model::Stated;
use std::alloc::Global;
use text_sections::read_section;

/// Reads a section, up to its line `end`.
fn read<S: Source>(
    alloc: Global,
    lines: &mut LineReader<S>,
    snapshot: &Snapshot,
) -> Result<Stated, TextFault>
    ensures same_source { lines.new.source.ghost_name ≡ lines.old.source.ghost_name }
    ensures answer { failure lines.old ≡ None → IfOk result (λ stated.
        IsReadAnswer (text S.left lines.old) snapshot.now stated (text S.left lines.new)) }
    ensures refused { failure lines.old ≡ None → IfErr result (λ fault.
        IsRefusedAnswer (text S.left lines.old) snapshot.now fault (text S.left lines.new)) }
    ensures said { failure lines.old ≡ None → IfOk result (λ stated.
        IsSaid (text S.left lines.old) snapshot.now stated (text S.left lines.new)) }
    ensures lines { failure lines.old ≡ None
        → ReadsLines (text S.left lines.old) snapshot.now result (text S.left lines.new) }
    ensures within { IfOk result (IsWithin snapshot.now) }
    ensures again { IfSome (failure lines.old) (λ fault. result ≡ Err fault) }
    ensures went { failure lines.old ≡ None
        → OnOk result (WentOn (text S.left lines.old) (text S.left lines.new)) }
    ensures shows { failure lines.old ≡ None → AnswerShows (text S.left lines.old) result
        (line lines.new) (S.left lines.new.source.now) }
    ensures ok { OnOk result (failure lines.new ≡ None) }
    ensures fault { IfSome (failure lines.new) (λ fault. result ≡ Err fault) }
    ensures read { failure lines.old ≡ None → IsErrOf result TextFault.Read
        → Rose (S.faults lines.old.source.now) (S.faults lines.new.source.now) }
    ensures counted { S.faults lines.old.source.now ≤ S.faults lines.new.source.now }
{
    let mut draft = Draft::new(alloc, snapshot);
    match read_section(lines, &mut draft) {
        Ok(()) => Ok(draft.into_stated()),
        Err(fault) => Err(fault),
    }
}

/// Reads an answer section up to its line `end`: what follows it stays unread. The allocator comes first.
///
/// Where the text begins with one that `write_answer` wrote for this snapshot, that answer is read, whatever
/// follows, with the boards of each stop by rising index. The lines that are accepted are those that stand
/// for an answer: `answer 1`, `cost U`, `bound L` with numbers up to 10^18, for each car in the building's
/// order `tour CAR` and any number of lines `stop FLOOR CALL ..`, and `end`. The plan that is read has one
/// tour per car, and each board is the index of a call of the snapshot. It need not be feasible.
///
/// The first bad line decides, with one code, of which the first of these comes: `NoLineWord`, `OutOfOrder`,
/// also for `end` where a tour is missing, `Missing`, `TooMany`, `NoNumber` and `OutOfRange`, `UnknownId`,
/// and then `OutOfOrder` for a car that is not the next one due. `CutShort` comes where the input ends first.
/// The end of the last line, or of the bad one, shows in the bytes that were taken. `Read` comes only where a
/// read of the source failed.
pub fn read_answer<S: Source>(
    alloc: Global,
    lines: &mut LineReader<S>,
    snapshot: &Snapshot,
) -> Result<Stated, TextFault>
    ensures same_source { lines.new.source.ghost_name ≡ lines.old.source.ghost_name }
    ensures answer { failure lines.old ≡ None → IfOk result (λ stated.
        IsReadAnswer (text S.left lines.old) snapshot.now stated (text S.left lines.new)) }
    ensures refused { failure lines.old ≡ None → IfErr result (λ fault.
        IsRefusedAnswer (text S.left lines.old) snapshot.now fault (text S.left lines.new)) }
    ensures said { failure lines.old ≡ None → IfOk result (λ stated.
        IsSaid (text S.left lines.old) snapshot.now stated (text S.left lines.new)) }
    ensures lines { failure lines.old ≡ None
        → ReadsLines (text S.left lines.old) snapshot.now result (text S.left lines.new) }
    ensures written { failure lines.old ≡ None
        → ReadsText (text S.left lines.old) snapshot.now result (text S.left lines.new) }
    ensures within { IfOk result (IsWithin snapshot.now) }
    ensures again { IfSome (failure lines.old) (λ fault. result ≡ Err fault) }
    ensures went { failure lines.old ≡ None
        → OnOk result (WentOn (text S.left lines.old) (text S.left lines.new)) }
    ensures shows { failure lines.old ≡ None → AnswerShows (text S.left lines.old) result
        (line lines.new) (S.left lines.new.source.now) }
    ensures ok { OnOk result (failure lines.new ≡ None) }
    ensures fault { IfSome (failure lines.new) (λ fault. result ≡ Err fault) }
    ensures read { failure lines.old ≡ None → IsErrOf result TextFault.Read
        → Rose (S.faults lines.old.source.now) (S.faults lines.new.source.now) }
    ensures counted { S.faults lines.old.source.now ≤ S.faults lines.new.source.now }
{
    // For the proof: no two calls have the same id.
    let _calls = snapshot.calls();
    read(alloc, lines, snapshot)
}
