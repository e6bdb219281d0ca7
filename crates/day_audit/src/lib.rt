//! The audit of a day's log: whether each of its lines says what must be there.
//!
//! Moments are in ms, costs and bounds in cost units. The log names calls and cars by their ids. An audit
//! knows nothing of who planned: it stands on the laws of a day and on the check of certificates, and on
//! nothing of a search.
//!
//! # What is promised
//!
//! - `audit` audits an input, which is read whole before: an opening, rows, and behind the line `day 1` the
//!   log of their day. What it finds first is that of the definition (`IsAudit`; `LogHolds` and `LogFinds` of
//!   `specs/Audits.antt`), with 1 to 16 workers. The lines are judged in order, and after an accepted row the
//!   day goes on by the printed plan. Where nothing is found, the lines of the log are those of the day that is
//!   run by the plans, costs and bounds in it (`IsLogOf`). Each of these plans is feasible and has its cost, and
//!   no feasible plan costs less than its bound; so it is optimal where no bound is below its cost. No accepted
//!   call is lost, and each is delivered (`IsDayProved`).
//! - `audit_log` does so for all lines of a log behind its first, over rows that are known (`IsLogAudited`).
//! - `answer_laws`: an input has one answer, but for a failed read and running out of memory (`OneAnswerLaw`). To one of
//!   more than 67,108,864 bytes it is the bad line that is found first, if there is one, and else that it is
//!   too long. A log is that of one run of its rows (`OneRunLaw`).
//!
//! A finding is a line that is not the one due (`Differs`), an answer that its certificate does not prove
//! (`Row`), or a bad line of these or that the input could not be read on (`Text`). The end of a line that is
//! told to be bad shows in the bytes that were taken (`FindingShows`).
#![tactic(auto)]

mod audits;
mod findings;
mod laws;
mod lines;
mod logs;
mod rows;
mod words;

pub use audits::audit;
pub use findings::Finding;
pub use laws::answer_laws;
pub use logs::{Audited, audit_log};
