//! Why the answer of `solve` ends as it does.

ghost use Rattle.std.specs.Prelude.{◌≡◌};
ghost use Rattle.command_ends.specs.Runs.{IsOfAnswer};
ghost use Rattle.case_commands.specs.SolveOutcome.{ending_of, status_of_ending};

use command_ends::Status;
use search_model::StopReason;

/// Why an answer ends as it does.
#[derive(Clone, Copy)]
pub(crate) enum Ending {
    /// Its cost is its bound.
    IsSolved,
    /// The search did this many rounds, which is the limit.
    OfRounds { done: u64 },
    /// The car has at least this many partial tours, which is the limit, where nothing is left to split.
    OfMoves { car: u32, count: u64 },
    /// The search was told to stop.
    OfTime,
    /// The search's own bound needs more claims than this, which is the limit.
    OfClaims { limit: u64 },
}

impl Ending {
    /// Of a search and of what is printed of it, with this limit of claims.
    pub(crate) fn of(why: StopReason, limit: u64, is_solved: bool) -> Self
        ensures { result ≡ ending_of why limit is_solved }
    {
        if is_solved {
            return Self::IsSolved;
        }
        match why {
            StopReason::Solved => Self::OfClaims { limit },
            StopReason::Rounds { done } => Self::OfRounds { done },
            StopReason::Moves { car, count } => Self::OfMoves { car, count },
            StopReason::Told => Self::OfTime,
        }
    }

    /// The status with which the answer is written.
    pub(crate) fn status(self) -> Status
        ensures is { result ≡ status_of_ending self }
        ensures answers { IsOfAnswer result }
    {
        match self {
            Self::IsSolved => Status::Done,
            Self::OfRounds { .. } | Self::OfMoves { .. } | Self::OfTime | Self::OfClaims { .. } => {
                Status::Stopped
            }
        }
    }
}
