//! Plans to begin with: a feasible plan of every accepted snapshot.
//!
//! Floors, cars and calls are named by their index, from 0.
//!
//! # What is promised
//!
//! - `first` and `insert` give a feasible plan, for every accepted snapshot, or are out of memory; `first`
//!   also says that there is one, and `insert` puts one call into a given plan. Nothing is promised of how
//!   good it is, nor of what `insert` keeps of the plan that it is given.
//!
//! Both take a proposal only where it is judged feasible, and fall back on the plain plan. A proposal puts
//! the calls one after another at their cheapest places (`places`): where a call boards, the place where it
//! gets off follows, since a car with someone aboard may not turn, and from there on all stops are late by
//! the same time, so a place is judged by the stops between the two alone. `first` then moves calls
//! (`reinsertion`): for 100 rounds a call, at most as many as the caller says (8,000 by default) and as
//! long as a gate lets it go on, up to eight calls that are alike are taken out and put back in a drawn
//! order, and that is kept if it costs no more than before or little more than the best, by an allowance
//! that falls from 2 % to nothing. Only that all this is safe and ends is proved. In buildings with a
//! patience a place is judged as if no one's patience ended meanwhile.
#![tactic(auto)]

mod drafts;
mod neighbours;
mod places;
mod plans;
mod proposing;
mod queues;
mod reinsertion;
mod ride;
mod stops;
mod taken;

pub use elevator_model::Plan;
pub use plans::{DEFAULT_ROUNDS, first, insert};
