//! Work that is drawn from one line of jobs, by workers in threads of their own.
//!
//! The calling thread starts the workers and waits for them (`work_at`); a lone worker is the calling thread
//! itself, and `fan_alone` has no other. While jobs are drawn and done no worker waits for another: there is no
//! lock, no channel and no loop that waits.
//!
//! # What is promised
//!
//! - `JobLine`, `fan`, `fan_alone`: the numbers 0, 1, .. are drawn from one shared word, each once and none past the
//!   count; each answer is a right one and takes its job's place. A gate is asked before each job whether the work
//!   may go on: where it never stops the work, each job is done and not told to stop.
//! - `in_order`: answers of jobs, each done at least once, in the order of the jobs.
#![tactic(auto)]

mod crews;
mod line;
mod runtime;
mod workers;

pub use crews::Alone;
pub use line::{JobLine, JobSeat, MOST_WORKERS};
pub use runtime::{Runtime, Workers};
pub use workers::{Done, Jobs, fan, fan_alone, in_order};
