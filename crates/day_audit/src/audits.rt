//! The audit of an input: an opening, rows, and the log of their day.

ghost use Rattle.std.specs.Prelude.{◌≡◌, ◌≤◌, None, IfSome, take};
ghost use Rattle.byte_streams.specs.Streams.{Rose};
ghost use Rattle.day_state.specs.Openings.{IsOpeningSnapshot};
ghost use Rattle.lift_text.specs.LineReader.{text, failure};
ghost use Rattle.day_audit.specs.Inputs.{EndsIfJudged, FindingShows, IsAudit, IsDayAudited};
ghost use Rattle.day_audit.specs.Inputs.{IsTextAudited};
ghost use Rattle.day_audit.specs.Inputs.{if_long as if_long_lem};
ghost use Rattle.day_audit.specs.Inputs.{unread as unread_lem};
ghost use Rattle.day_audit.specs.Taking.{IsUnread};

use crate::findings::{Finding, bad_text, finding_of};
use crate::logs::{Audited, audit_log};
use byte_streams::{Gate, InputFault, Source, SureSource, read_whole};
use call_state::Snapshot;
use cert_checker::JudgingCrew;
use day_text::read_day_opening;
use lift_text::{LineReader, TEXT_LIMIT, TextFault};
use log_rows::read_rows;
use work_fan::Runtime;

/// Audits the rows and the log of the day that opens with this snapshot.
fn audit_day<S: Source, C: JudgingCrew, G: Gate>(
    runtime: &Runtime<C, G>,
    lines: &mut LineReader<S>,
    opening: Snapshot,
) -> Result<Audited, Finding>
    requires whole { failure lines.old ≡ None }
    requires opening { IsOpeningSnapshot opening }
    ensures audited { IsDayAudited opening (text S.left lines.old) result }
    ensures read { IsUnread result
        → Rose (S.faults lines.old.source.now) (S.faults lines.new.source.now) }
    ensures counted { S.faults lines.old.source.now ≤ S.faults lines.new.source.now }
{
    match read_rows(runtime.alloc, lines, opening.building()) {
        Ok(rows) => audit_log(runtime, lines, opening, rows.as_slice()),
        Err(fault) => Err(finding_of(fault)),
    }
}

/// Audits a text, which holds an opening, rows and a log.
fn audit_text<S: Source, C: JudgingCrew, G: Gate>(
    runtime: &Runtime<C, G>,
    lines: &mut LineReader<S>,
) -> Result<Audited, Finding>
    requires whole { failure lines.old ≡ None }
    ensures audited { IsTextAudited (text S.left lines.old) result }
    ensures read { IsUnread result
        → Rose (S.faults lines.old.source.now) (S.faults lines.new.source.now) }
    ensures counted { S.faults lines.old.source.now ≤ S.faults lines.new.source.now }
{
    match read_day_opening(runtime.alloc, lines) {
        Ok(opening) => audit_day(runtime, lines, opening),
        Err(fault) => Err(bad_text(fault)),
    }
}

/// What is answered of an input that is too long: a bad line of a section alone comes before that.
fn if_long(answer: Result<Audited, Finding>) -> Result<Audited, Finding>
    ensures { result ≡ if_long_lem answer }
{
    match answer {
        Err(Finding::Text { fault }) => Err(Finding::Text { fault }),
        Ok(_) | Err(_) => Err(Finding::Text {
            fault: TextFault::TooLong,
        }),
    }
}

/// Audits these bytes, which are all of an input, or more than it may have.
fn audit_bytes<C: JudgingCrew, G: Gate>(
    runtime: &Runtime<C, G>,
    input: Vec<u8>,
) -> Result<Audited, Finding>
    ensures audit { IsAudit input.items result }
    ensures read { IsUnread result → ⊥ }
{
    let is_long = input.len() > TEXT_LIMIT;
    let mut held = SureSource::new(input);
    let Ok(mut lines) = LineReader::new(runtime.alloc, &mut held) else {
        return Err(Finding::Text {
            fault: TextFault::NoMemory,
        });
    };
    let answer = audit_text(runtime, &mut lines);
    if is_long { if_long(answer) } else { answer }
}

/// Why an input was not read.
fn unread(fault: InputFault) -> TextFault
    ensures { result ≡ unread_lem fault }
{
    match fault {
        InputFault::Read => TextFault::Read,
        InputFault::NoMemory => TextFault::NoMemory,
    }
}

/// Audits an input: a building, an opening snapshot, the header and the rows, and behind the line `day 1` the
/// log of their day. Its lines are judged in order, and the first finding decides.
///
/// The input is read whole before, up to 67,108,865 bytes, and with 1 to 16 workers the answer is the same.
/// `Read` comes only where a read of the source failed. After a finding of the log, as after none, the source
/// is at its end: such an answer to an input of more than 67,108,864 bytes is `TooLong`. The end of a line that is
/// told to be bad shows in the bytes that were taken.
pub fn audit<S: Source, C: JudgingCrew, G: Gate>(
    runtime: &Runtime<C, G>,
    source: &mut S,
) -> Result<Audited, Finding>
    ensures audit { IfSome (S.left source.old) (λ input. IsAudit (take 67108865 input) result) }
    ensures ended { EndsIfJudged result (S.left source.new) }
    ensures shows { FindingShows (S.left source.old) result (S.left source.new) }
    ensures read { IsUnread result → Rose (S.faults source.old) (S.faults source.new) }
    ensures counted { S.faults source.old ≤ S.faults source.new }
{
    let input = match read_whole(runtime.alloc, source, TEXT_LIMIT + 1) {
        Ok(input) => input,
        Err(fault) => return Err(bad_text(unread(fault))),
    };
    audit_bytes(runtime, input)
}
