//! By what a day is planned: a search within limits at each call that is accepted.
//!
//! # What is promised
//!
//! - `Searches` is the planner of `day` and of `banks`. It answers a plan of the snapshot with its cost and a
//!   bound, as a search of it within its limits answers them, for 1 to 16 workers and whatever plan held before
//!   (`IsSolvedRow`, in `specs/SolvedRows.antt`): the plan is feasible, no feasible plan's cost is below the
//!   bound, and where the limits are enough for the snapshot the cost is the bound. Where certificates are
//!   wanted it appends the plan as an answer with the certificate that proves the bound, whose claims are within
//!   a limit; the bound is the search's own where its claims are (`IsCertifiedRow`). Or it is out of memory.
//! - Where such rows leave one whose bound is below its cost, the limits are not enough for the snapshot of some
//!   row (`IsStoppedIn`, in `specs/StoppedRows.antt`; the lemma is `stopped-rows`).
//!
//! Moments are in ms, costs in cost units.
#![tactic(auto)]

mod planning;
mod searches;

pub use searches::Searches;
