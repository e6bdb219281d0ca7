//! What is wrong with an input.

use lift_text::TextFault;

/// What is wrong with an input.
#[derive(Clone, Copy)]
pub enum InputFault {
    /// A line is bad, the text is too long, a read failed, or memory ran out.
    Text(TextFault),
    /// The line with this number shows what one command alone refuses.
    Own { line: u64, code: OwnCode },
}

/// What one command alone refuses.
#[derive(Clone, Copy)]
pub enum OwnCode {
    /// The case that ends with the line has no call that can be asked about.
    NothingAsked,
    /// The bank of the line has the id of an earlier one.
    UsedId,
    /// The bank of the line is one more than an input may have.
    TooManyBanks,
}
