//! Accepted rows of a log, with their answers and certificates.

ghost use Rattle.std.specs.Prelude.{◌≡◌, ◌≤◌, None, IfOk, OnOk, IsTrue};
ghost use Rattle.byte_streams.specs.Streams.{Rose};
ghost use Rattle.lift_text.specs.LineReader.{text, failure};
ghost use Rattle.check_text.specs.VerdictTexts.{IsToldOf, TellsOwnTour};
ghost use Rattle.day_audit.specs.Taking.{IsJudgedBy, IsNotProved, IsProvedPlan, IsUnread};
ghost use Rattle.day_audit.specs.Taking.{TakesAccepted, TakesProof, is_unread};

use crate::findings::Finding;
use crate::lines::take_accepted_lines;
use byte_streams::Gate;
use call_state::Snapshot;
use cert_checker::JudgingCrew;
use check_text::{Certified, put_reason, read_certified};
use lift_text::{LineReader, Source, TextFault};
use search_model::{Event, Reason, Stated, Verdict};
use std::alloc::Global;
use work_fan::Runtime;

/// The row with this number is not proved, for this reason.
fn not_proved(alloc: Global, number: u32, snapshot: &Snapshot, reason: &Reason) -> Finding
    requires { TellsOwnTour snapshot.now reason.now }
    ensures told { IsNotProved snapshot.now number reason.now result }
    ensures unread { IsTrue (is_unread result) → ⊥ }
{
    let mut lines = Vec::new(alloc);
    match put_reason(&mut lines, snapshot, reason) {
        Ok(()) => Finding::Row {
            row: number,
            reason: lines,
        },
        Err(_) => Finding::Text {
            fault: TextFault::NoMemory,
        },
    }
}

/// What the answer of the row with this number states, where its certificate proves it.
fn proved(
    alloc: Global,
    number: u32,
    snapshot: &Snapshot,
    certified: Certified,
) -> Result<Stated, Finding>
    requires { IsToldOf snapshot.now certified.verdict }
    ensures judged { IsJudgedBy snapshot.now number certified.stated certified.verdict result }
    ensures unread { IsUnread result → ⊥ }
{
    let Certified { stated, verdict } = certified;
    match &verdict {
        Verdict::Yes => Ok(stated),
        Verdict::No(reason) => Err(not_proved(alloc, number, snapshot, reason)),
    }
}

/// Takes the answer and the certificate of the accepted row with this number, whose call is the last one of
/// the snapshot.
fn take_proof<S: Source, C: JudgingCrew, G: Gate>(
    runtime: &Runtime<C, G>,
    lines: &mut LineReader<S>,
    number: u32,
    snapshot: &Snapshot,
) -> Result<Stated, Finding>
    requires whole { failure lines.old ≡ None }
    ensures takes { TakesProof snapshot.now number (text S.left lines.old) result (text S.left lines.new) }
    ensures proved { IfOk result (IsProvedPlan snapshot.now) }
    ensures ok { OnOk result (failure lines.new ≡ None) }
    ensures read { IsUnread result
        → Rose (S.faults lines.old.source.now) (S.faults lines.new.source.now) }
    ensures counted { S.faults lines.old.source.now ≤ S.faults lines.new.source.now }
{
    // For the proof: a reader tells that the snapshot keeps the rules.
    let _moment = snapshot.now();
    match read_certified(runtime, lines, snapshot) {
        Ok(certified) => proved(runtime.alloc, number, snapshot, certified),
        Err(fault) => Err(Finding::Text { fault }),
    }
}

/// Takes the lines of the accepted row with this number: what happened until its time, and an answer and a
/// certificate for the snapshot with its call. It gives the printed plan, with its cost and its bound; or it
/// finds what is wrong first.
pub(crate) fn take_accepted<S: Source, C: JudgingCrew, G: Gate>(
    runtime: &Runtime<C, G>,
    lines: &mut LineReader<S>,
    number: u32,
    events: &[Event],
    snapshot: &Snapshot,
) -> Result<Stated, Finding>
    requires whole { failure lines.old ≡ None }
    ensures takes { TakesAccepted number events.now snapshot.now (text S.left lines.old) result
        (text S.left lines.new) }
    ensures proved { IfOk result (IsProvedPlan snapshot.now) }
    ensures ok { OnOk result (failure lines.new ≡ None) }
    ensures read { IsUnread result
        → Rose (S.faults lines.old.source.now) (S.faults lines.new.source.now) }
    ensures counted { S.faults lines.old.source.now ≤ S.faults lines.new.source.now }
{
    match take_accepted_lines(lines, number, events) {
        Ok(()) => take_proof(runtime, lines, number, snapshot),
        Err(finding) => Err(finding),
    }
}
