//! What may be basic in a row.

use crate::columns::Column;

/// A column of the linear program.
#[derive(Clone, Copy)]
pub(crate) enum Entry {
    /// A call that no tour takes.
    Untaken(usize),
    /// A call that is taken once more than it should be.
    Doubled(usize),
    /// A car without a tour.
    Idle(usize),
    /// A tour.
    Tour(Column),
}
