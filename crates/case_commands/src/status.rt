//! The statuses of answers.

ghost use Rattle.std.specs.Prelude.{◌≡◌};
ghost use Rattle.command_ends.specs.Runs.{IsOfAnswer};
ghost use Rattle.case_commands.specs.CheckOutcome.{status_of_verdict as status_of_verdict_lem};
ghost use Rattle.case_commands.specs.MakeOutcome.{status_of as status_of_lem};

use command_ends::Status;
use search_model::{StopReason, Verdict};

/// The status with which the answer of a search is written.
pub(crate) fn status_of(why: StopReason) -> Status
    ensures { result ≡ status_of_lem why }
{
    match why {
        StopReason::Solved => Status::Done,
        StopReason::Rounds { .. } | StopReason::Moves { .. } | StopReason::Told => Status::Stopped,
    }
}

/// The status with which a verdict is written.
pub(crate) fn status_of_verdict(verdict: &Verdict) -> Status
    ensures is { result ≡ status_of_verdict_lem verdict.now }
    ensures answers { IsOfAnswer result }
{
    match verdict {
        Verdict::Yes => Status::Done,
        Verdict::No(_) => Status::Refused,
    }
}
