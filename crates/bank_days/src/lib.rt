//! Days of several banks of cars, each a job of its own, for any planner.
//!
//! A bank has an opening snapshot and rows of its own. Its log is that of a day over these rows alone: no
//! bank sees another's rows, and rows are numbered in their bank.
//!
//! # What is promised
//!
//! - `run_banks`, for any planner and any crew: in place `k` stands a log of the day of bank `k` over
//!   its own rows (`AreBankLogs`). Each row does its step of the definition, with a plan that is right in the
//!   planner's sense where it is accepted. No accepted call is lost: each boards once and is delivered once,
//!   not before its release and not before it boards. Whether some bound is below its cost is told exactly.
//!   It fails only where there is no memory left.
//!
//! What a row does and what a log says are the definitions of a day over the lines of a text
//! (`day_simulator`).
#![tactic(auto)]

mod crews;
mod logs;
mod running;

pub use bank_text::{Bank, BankRow};
pub use crews::BanksCrew;
pub use logs::BankLog;
pub use running::{BankJobs, run_banks};
