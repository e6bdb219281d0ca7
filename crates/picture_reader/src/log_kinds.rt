//! What tells the lines of a log apart, and what they say.

use lift_picture::{Leg, Refusal};

/// Where the next line of a log stands.
#[derive(Clone, Copy)]
pub(crate) enum Part {
    /// Among the lines of rows.
    Log,
    /// In an answer or a certificate.
    Proof,
    /// After the totals.
    Totals,
}

/// The first word of a line among those of rows.
#[derive(Clone, Copy)]
pub(crate) enum LogWord {
    Row,
    Board,
    Deliver,
    /// A word of a line that tells of a plan: a cost, a bound, a tour or a stop.
    Plan,
    /// The word with which an answer or a certificate begins.
    Proof,
    Total,
    End,
}

/// What a line says.
#[derive(Clone, Copy)]
pub(crate) enum Said {
    /// Nothing that is kept.
    Passed,
    /// The next line stands in this part.
    Turned(Part),
    /// The row with this number was accepted.
    Accepted(u64),
    /// The row with this number was refused.
    Refused(u64, Refusal),
    /// An event ended this leg.
    Happened(Leg),
    /// This was the last line.
    Ended,
}
