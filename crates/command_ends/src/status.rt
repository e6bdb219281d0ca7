//! How a command ends.

/// How a command ended. The numbers are the program's exit statuses.
#[derive(Clone, Copy, PartialEq, Eq)]
pub enum Status {
    /// The whole answer was written.
    Done = 0,
    /// The words are refused; the usage line was written.
    Words = 2,
    /// A limit was reached; the whole answer was written.
    Stopped = 3,
    /// The verdict of a check is no, or a table has a shorter way; the reason was written.
    Refused = 4,
    /// The input is no accepted case; the refusal line was written.
    Input = 5,
    /// The source failed.
    Read = 6,
    /// The sink failed.
    Write = 7,
    /// Out of memory.
    Memory = 8,
}
