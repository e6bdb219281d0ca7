//! What an audit finds.

ghost use Rattle.std.specs.Prelude.{◌≡◌, IsTrue};
ghost use Rattle.day_audit.specs.Audits.{found_for};
ghost use Rattle.day_audit.specs.declared.findings.Finding.TheVariants.{Text};
ghost use Rattle.day_audit.specs.Taking.{found_by, is_unread};
ghost use Rattle.lift_text.specs.declared.faults.TextFault.TheVariants.{Read};

use lift_text::TextFault;

/// What is wrong first with a log, or why it could not be read on.
#[derive(Drop)]
pub enum Finding {
    /// This line of the input is not the one that is due there.
    Differs { line: u64 },
    /// The certificate of this row does not prove its answer: the lines of the reason.
    Row { row: u32, reason: Vec<u8> },
    /// A line of an answer or a certificate is bad, or the input could not be read on.
    Text { fault: TextFault },
}

/// What is found where a line that is due could not be read.
pub(crate) fn finding_of(fault: TextFault) -> Finding
    ensures found { found_by result ≡ found_for fault }
    ensures unread { IsTrue (is_unread result) → fault ≡ Read }
{
    match fault {
        TextFault::Bad { line, .. } => Finding::Differs { line },
        TextFault::TooLong => Finding::Text {
            fault: TextFault::TooLong,
        },
        TextFault::Read => Finding::Text {
            fault: TextFault::Read,
        },
        TextFault::NoMemory => Finding::Text {
            fault: TextFault::NoMemory,
        },
    }
}

/// What is found where a section is bad, or the input could not be read on.
pub(crate) fn bad_text(fault: TextFault) -> Finding
    ensures { result ≡ Text fault }
{
    Finding::Text { fault }
}
