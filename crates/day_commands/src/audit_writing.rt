//! Writing what an audit finds.

ghost use Rattle.std.specs.Prelude.{◌≡◌, ◌⊎◌, IfErr, IfOk, Err};
ghost use Rattle.day_commands.specs.AuditOutcome.{IsFindingTold};
ghost use Rattle.day_commands.specs.AuditTexts.{differs_text as differs_text_lem};
ghost use Rattle.day_commands.specs.AuditTexts.{row_text as row_text_lem, yes_text as yes_text_lem};
ghost use Rattle.day_audit.specs.declared.findings.Finding.TheVariants.{Text};
ghost use Rattle.lift_text.specs.declared.faults.TextFault.TheVariants.{NoMemory};

use command_ends::{Answer, Status};
use day_audit::{Audited, Finding};
use lift_text::{TextFault, put_line};
use std::alloc::{AllocError, Global};

/// The number that is printed where a line is not the one that is due.
const DIFFERS: u64 = 61;

/// The number that is printed where the certificate of a row does not prove its answer.
const NOT_PROVED: u64 = 62;

/// What is written where nothing is found.
fn yes_text(alloc: Global, audited: Audited) -> Result<Vec<u8>, AllocError>
    ensures { IfOk result (λ text. text.items ≡ yes_text_lem audited) }
{
    let mut text = Vec::new(alloc);
    put_line(
        &mut text,
        b"yes",
        &[u64::from(audited.accepted), u64::from(audited.unsolved)],
    )?;
    Ok(text)
}

/// What is written where this line is not the one that is due.
fn differs_text(alloc: Global, line: u64) -> Result<Vec<u8>, AllocError>
    ensures { IfOk result (λ text. text.items ≡ differs_text_lem line) }
{
    let mut text = Vec::new(alloc);
    put_line(&mut text, b"no", &[DIFFERS, line])?;
    Ok(text)
}

/// What is written where the certificate of this row does not prove its answer, for this reason.
fn row_text(alloc: Global, row: u32, reason: &[u8]) -> Result<Vec<u8>, AllocError>
    ensures { IfOk result (λ text. text.items ≡ row_text_lem row reason.now) }
{
    let mut text = Vec::new(alloc);
    put_line(&mut text, b"no", &[NOT_PROVED, u64::from(row)])?;
    text.extend_from_slice(reason)?;
    Ok(text)
}

/// The text of what an audit found, with its status; or why nothing is told of the log.
pub(crate) fn answer_of(alloc: Global, audit: Result<Audited, Finding>) -> Result<Answer, TextFault>
    ensures told { IfOk result (λ answer. IsFindingTold audit answer.status answer.text.items) }
    ensures fault { IfErr result (λ fault. (audit ≡ Err (Text fault)) ⊎ (fault ≡ NoMemory)) }
{
    match audit {
        Ok(audited) => Ok(Answer {
            status: Status::Done,
            text: yes_text(alloc, audited)?,
        }),
        Err(Finding::Differs { line }) => Ok(Answer {
            status: Status::Refused,
            text: differs_text(alloc, line)?,
        }),
        Err(Finding::Row { row, reason }) => Ok(Answer {
            status: Status::Refused,
            text: row_text(alloc, row, reason.as_slice())?,
        }),
        Err(Finding::Text { fault }) => Err(fault),
    }
}
