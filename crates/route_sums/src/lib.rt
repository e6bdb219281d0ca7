//! The bound of a partial tour along its forced route, as a search keeps it.
//!
//! # What is promised
//!
//! - `RouteSums` is a `TourBound`: for a car of an accepted snapshot, one price per call, allowed and
//!   required calls, a value for each partial tour that is at most its bound along the forced route
//!   (`route_bound::route_law`), so that no tour which begins with it has a smaller value. Memory is
//!   taken for its `RouteRates` alone, when they are made.
//!
//! # How it is found
//!
//! Where a move leads is found without making it (`Stand`): the stop where a call boards, or the next one.
//! From there the car goes over its forced stops alone, and at each of them those get off who go there; so
//! what is settled at the end is what is settled now and what those carried cost. On each leg the calls are
//! added that can board there (`specs/Gathering.antt`), and at the end the others.
//!
//! Which way the calls go and below which floors they begin is laid out as sets, once for a snapshot
//! (`RouteRates`), so that the calls of a leg are found without a look at each of them; so is what each call
//! costs by the moment at which it boards, for a car and its prices, with a moment from which on it adds
//! nothing.
//!
//! What most calls add from each floor is laid out as a row (`rows`, `specs/Rows.antt`): a constant, and as much
//! more for each ms until the car leaves, so that a call takes one product, one sum and one test. A call has no
//! row where it has to board, where its price is beyond 10^16 or where its wait counts more past its patience,
//! and none is used for a call that begins where the car stands: what those add is found one by one.
//! Where a call would board before its release, its row tells less than it adds.
//!
//! A call that adds nothing is not looked at again after later moves (`specs/Idle.antt`): where some tour goes
//! on, no move makes it board sooner (`route_bound::growing_law`), and only then its value has to be a bound.
//!
//! Moments and costs are cut at limits that no tour reaches: a value that is too low is still a bound.
#![tactic(auto)]

mod halting;
mod leaving;
mod origins;
mod parts;
mod rates;
mod route;
mod rows;
mod stands;
mod sums;

pub use parts::RouteSums;
pub use rates::RouteRates;
pub use sums::Sums;
