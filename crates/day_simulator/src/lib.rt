//! A day of calls, row by row or over the lines of a text: each row that is taken brings a call, and a planner
//! says how the cars go on.
//!
//! Moments are in ms, costs and bounds in cost units. Floors are numbered from 0. The log names calls and
//! cars by their ids; the id of a call is the number of its row, from 1. Contracts see a `Day` as the
//! definition's day. The simulator knows neither prices nor searches.
//!
//! # What is promised
//!
//! - `Day::new`, `row`, `long_row`, for any planner (a `Planner` whose answers are plans that keep
//!   `PlannerLaw`: feasible, of the stated cost, with a bound that no feasible plan costs less than): the day
//!   of the definition. A row does exactly its step (`day_step`), with a plan that is right in the planner's
//!   sense for the snapshot with the call and the plan that held until then (`Planner::right`, `held_plan`,
//!   `IsRowDone`), and its lines are appended to the log. No accepted call is lost. The number of rows grows
//!   by one. When out of memory day and log are as before. By induction over its calls a caller has `day_run`.
//! - `Day::finish`, `unsolved`: the rest of the log, exactly, and the served calls in the order of their ids;
//!   each accepted call is delivered then, boarded and delivered by 10^10 ms, so a report's sums stay small;
//!   how many rows had a bound below their cost.
//! - `run_day_text` and `run_day`, over the lines of a text and for any planner: which rows were read, done
//!   and written, whatever fails, with each row's lines written before more of the source is read than what
//!   its line takes: where a write fails, the reader stands right behind the line of the row that is written
//!   (`HoldsDayAhead`), and no read has failed before. Where nothing fails and the text is an opening and
//!   rows, the whole log and the served calls, whose times' sums stay below 2^64.
//!
//! # What holds between rows
//!
//! `IsStanding` is the type's invariant: the plan is feasible, ids rise and are below the number of the next
//! row, and no accepted call is lost. That this stays so, and that by all events of a day each accepted call
//! boards once and is delivered once, in time, is proved in `day_laws` for any plans. What may be refused is
//! tried on a copy of the world (`day_laws::world_of_row`), and a row for which memory runs out takes its text
//! out of the log again; the lines are those of `day_text`. An event finds its call by binary search, since
//! the calls are in the order of their ids.
//!
//! A planner is lent the snapshot with the new call and what is left of the plan that held before it came,
//! which it may keep or leave. What it answers is a feasible plan of the snapshot with its cost, and a bound
//! that no feasible plan costs less than, and it fails only where there is no memory left. Whoever calls shows
//! this of what the planner calls right (`PlannerLaw`). What is printed in place of the plan, as its
//! certificate, the planner appends to the log itself, so that it is never copied.
//!
//! # A day over lines
//!
//! `run_day_text` reads what comes before the rows (`day_text`); `run_day` writes the first line of the
//! log, reads line by line, lets the day do what each says, writes its lines of the log before it reads on,
//! and at the end runs the last plan out. One record says of every outcome which lines were read, that their
//! rows did what the definition says (`AreRowsDone`), that no accepted call was lost, that by the events in
//! the rows' lines and those of the end each accepted call boards once and is delivered once, not before its
//! release and not before it boards (`AreServedOnce`), and what the sink has taken (`RanDay`). After a failed
//! read nothing is written only where no opening is whole, with the LF of its header, among the bytes taken
//! (`HoldsNoOpening`); else the lines are exactly those that are whole, with their LF, among them
//! (`IsCutOff`); after a failed write a beginning of the log was written, and of its end only where no line
//! was left (`IsCutIn`); an input that is too long stops before the line that does not end within the limit.
//! After a failed write, and where memory ran out, no line was read behind that of the row that was being
//! written or planned (`HoldsDayAhead`). A contract tells what was before and after a call, and not in which
//! order it came; but since a sink may fail at any write, and a source at any read, these ends speak of all of
//! them: at each write no later line was read, and at each read all rows before it were written, as none is
//! written after a failed read.
//! Where the text is an opening and rows, only a failed read or write and running out of memory keep the day
//! from its end (`EndsUnlessFailed`).
#![tactic(auto)]

mod day_runs;
mod days;
mod logged;
mod planners;
mod row_runs;
mod text_runs;

pub use call_state::Snapshot;
pub use day_runs::{Ended, FIRST_LINE, run_day};
pub use days::Day;
pub use elevator_model::Plan;
pub use planners::Planner;
pub use row_runs::RunFault;
pub use search_model::Served;
pub use text_runs::{DayFault, run_day_text};
