//! By what the days of banks are planned.

use byte_streams::OpenGate;
use work_fan::Alone;

/// Plans by searches within limits, each by the thread that asks alone: a bank is a job of its own.
pub type Searches<'a> = day_planner::Searches<'a, Alone, OpenGate>;
