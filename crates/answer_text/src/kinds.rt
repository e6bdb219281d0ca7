//! What tells the lines of an answer section apart.

/// Which line is due.
#[derive(Clone, Copy)]
pub(crate) enum Due {
    /// The first line, with the version.
    Head,
    Cost,
    Bound,
    /// Lines of tours and stops, and the last line.
    Tours,
}

/// The first word of a line.
#[derive(Clone, Copy)]
pub(crate) enum LineWord {
    Answer,
    Cost,
    Bound,
    Tour,
    Stop,
    End,
}
