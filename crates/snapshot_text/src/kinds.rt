//! What tells the lines of a snapshot section apart.

/// Which line is due.
#[derive(Clone, Copy)]
pub(crate) enum Due {
    /// The first line, with the version.
    Version,
    /// The line with the moment.
    Moment,
    /// Lines of cars, groups and calls, and the last line.
    Items,
}

/// The first word of a line.
#[derive(Clone, Copy)]
pub(crate) enum LineWord {
    Snapshot,
    Now,
    Car,
    Aboard,
    Call,
    End,
}

/// How a `car` line says where its car is.
#[derive(Clone, Copy)]
pub(crate) enum Form {
    /// The word that says so is missing.
    Unsaid,
    SaidIdle,
    SaidComing,
    SaidMoving,
}
