//! How long a kept list is.

ghost use Rattle.std.specs.Prelude.{◌≡◌};
ghost use Rattle.kept_tours.specs.Counting.{LeavesFew, count_of};

use crate::visits::Visits;

/// How long a kept list is, up to a limit, or which tour in it speaks against the worth.
#[derive(Clone, Copy)]
pub enum Count {
    /// It has this many partial tours, at most the limit, and none ends a tour of a value below the worth.
    Whole(u64),
    /// It is longer than the limit, and none up to there ends a tour of a value below the worth.
    Longer,
    /// One up to the limit ends a tour of a value below the worth, the first of them one of this value, in
    /// thousandths of a cost unit.
    Under(i128),
}

impl Count {
    /// What these visits have counted, which began with as many left as the limit.
    pub(crate) fn of_visits(visits: Visits, limit: u64) -> Self
        requires { LeavesFew limit visits }
        ensures { result ≡ count_of limit visits }
    {
        match visits {
            Visits::Going(left) => Self::Whole(limit - left),
            Visits::Passed => Self::Longer,
            Visits::Under(value) => Self::Under(value),
        }
    }
}
