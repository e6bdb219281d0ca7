//! What depends on a snapshot and one of its cars alone, laid out once as sets, so that a walk over the car's
//! tours passes over no list of calls, groups or floors.
//!
//! # What is promised
//!
//! - `Layout`, for every accepted snapshot: the calls that start and that end at a floor; the earlier ones of
//!   a call's queue; by number of persons, the calls of no more; the calls that the car may take; the floors
//!   that it serves and those of its first stop; where those aboard go, how many they are and the sum of the
//!   moments at which they boarded. `restart` lays out another car in the same memory.
#![tactic(auto)]

mod floors;
mod groups;
mod layout;
mod scans;

pub use call_sets::{CallSet, FloorSet};
pub use layout::Layout;
