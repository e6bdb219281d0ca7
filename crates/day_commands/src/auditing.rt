//! The command `audit`.

ghost use Rattle.day_commands.specs.AuditOutcome.{RunsAudit};
ghost use Rattle.command_ends.specs.Ends.{streams};

use crate::audit_writing::answer_of;
use byte_streams::{Gate, Sink, Source};
use cert_checker::JudgingCrew;
use command_ends::{Status, put, put_fault};
use work_fan::Runtime;

/// Reads an opening, rows and the log of their day with certificates, and writes whether all of the log is as
/// it has to be, or what is found first.
pub fn audit<S: Source, K: Sink, C: JudgingCrew, G: Gate>(
    runtime: &Runtime<C, G>,
    source: &mut S,
    sink: &mut K,
) -> Status
    ensures { RunsAudit
        (streams (S.left source.old) (K.taken sink.old) (S.faults source.old) (K.faults sink.old))
        (streams (S.left source.new) (K.taken sink.new) (S.faults source.new)
        (K.faults sink.new)) result }
{
    let found = day_audit::audit(runtime, source);
    match answer_of(runtime.alloc, found) {
        Ok(answer) => put(sink, answer.text.as_slice(), answer.status),
        Err(fault) => put_fault(runtime.alloc, fault, sink),
    }
}
