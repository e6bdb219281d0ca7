//! What is wrong with an input of which a call is asked about.

use lift_text::TextFault;

/// What is wrong with an input of which a call is asked about.
#[derive(Clone, Copy)]
pub enum AskFault {
    /// A line is bad, the text is too long, a read failed, or memory ran out.
    Text(TextFault),
    /// The snapshot ends with this line and has no call, or its last call may go to one stated car alone.
    NothingAsked { line: u64 },
}
