//! The commands of a day: `day`, `report`, `banks` and `audit`, each from a source to a sink and a status.
//!
//! What is said of the input holds where the source tells what it has left. `specs/DayOutcome.antt` and
//! `specs/DayRows.antt` have the definitions of `day` and `report`.
//!
//! - `day` (`RunsDay`): what was read, done and written with each status (`DayEnds`). With 0 and 3 the log of the
//!   whole day, where a planner's plan is what a search within the limits answers (`IsSolvedRow`), and 3
//!   exactly where an accepted row has a bound below its cost; there the limits are not enough for the
//!   snapshot (`IsDayStopped`). With 5 the refusal line alone, or after the log of the rows that end within
//!   the limit. With 6, 7 and 8 which rows were done and how much of their log was written, and with 6 nothing
//!   only where no opening is whole, each line with its LF, among the bytes that were taken (`IsNotBegun`).
//!   After each row that was done every accepted call is open, aboard or delivered (`RanWithin`). Where a write
//!   fails or memory runs out, at most 69,634 bytes were taken beyond the line of the row that was being
//!   written or planned; since any write may fail, so it is at each of them. And the day of an opening and
//!   rows comes to its end unless the source or the sink fails or memory runs out (`Completes`).
//! - `report` (`ReportsDay`): the same day without a log, and with 0 and 3 the text of its report (`ReportDue`).
//! - `banks` (`specs/BanksOutcome.antt`): of banks, each with a building and an opening snapshot, and of the rows
//!   of all of them (`banks_form`) there is told, for each bank in the order of the input, its id and the log of
//!   the day of its own rows alone, then how many rows named no bank (`AreTold`). Each row that is accepted has
//!   a feasible plan, its cost and a bound that no feasible plan's cost is below, as a search within the limits
//!   answers them; no accepted call of a bank is lost, and each boards once and is delivered once, for 1 to 16
//!   workers. Status 0: no accepted row of any bank has a bound below its cost; 3: some has, and there the limits
//!   are not enough for the state (`IsBankStopped`). Any other input is refused (5). Nothing is written before
//!   all banks have ended.
//! - `audit` (`specs/AuditOutcome.antt`): of a building, an opening snapshot of it, rows and the log of their day
//!   with certificates. Status 0: nothing is found in it, and the line written tells how many rows are accepted
//!   and how many of these have a bound below their cost; the log is that of the day of these rows by the
//!   plans, costs and bounds in it, and each of these is proved. Status 4: the line written tells what is found
//!   first, a line that is not the one due (61), or a row whose certificate does not prove its answer (62), with
//!   the lines of the reason. Status 5: a line of the opening, of an answer or of a certificate is bad, and the
//!   line written tells it with its one code, where its end shows in the bytes that were taken; or it tells that
//!   the input is too long. Where nothing fails, the status is one of these, or 8. All of this is the same for 1
//!   to 16 workers.
//! - `text_laws`: one status and one text are due for an audited input, so two audits of it that come to write a
//!   whole text end alike (`specs/OneText.antt`).
//!
//! `day` and `report` run one day (`run_input`) whose planner is a search within the limits (`Searches`), the one
//! over the sink, the other over a sink that keeps nothing. `banks` is a command of the frame of `command_ends`
//! (`Runs`). What an audit finds is defined in `day_audit` (`IsAudit`), and what holds of the day of a log in
//! which nothing is found (`IsDayProved`). The texts of `banks` and `audit` are worked in
//! `specs/WorkedBanks.antt` and `specs/WorkedAudits.antt`.
#![tactic(auto)]

mod audit_laws;
mod audit_writing;
mod auditing;
mod bank_writing;
mod banking;
mod crews;
mod days;
mod planning;
mod worked_audits;
mod worked_banks;

pub use audit_laws::text_laws;
pub use auditing::audit;
pub use banking::banks;
pub use crews::GroupCrew;
pub use days::{day, report};
pub use planning::Searches;
