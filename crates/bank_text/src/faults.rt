//! What is wrong with an input with several banks.

use lift_text::TextFault;

/// What is wrong with an input with several banks.
#[derive(Clone, Copy)]
pub enum BankFault {
    /// A line is bad, the text is too long, a read failed, or memory ran out.
    Text(TextFault),
    /// The line begins a bank with an id that an earlier bank has.
    UsedId { line: u64 },
    /// The line begins a seventeenth bank.
    TooMany { line: u64 },
}
