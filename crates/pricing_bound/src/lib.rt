//! What each feasible tour that begins with a partial tour is worth at least.
//!
//! Values and bounds are in thousandths of a cost unit. Cars and calls are named by their index.
//!
//! # What is promised
//!
//! All of it for every accepted snapshot.
//!
//! - `bound` is the completion bound of a partial tour, exact and without memory: what is settled, and what
//!   each call and each group adds (`specs/Parts.antt`). Its four laws are clauses (`specs/Laws.antt`): it is
//!   at most the value of each feasible tour that begins with the partial tour, boards the required calls and
//!   allowed ones only; at most the bound of each longer partial tour that boards allowed calls only, and of
//!   each with fewer allowed and more required calls; at least what is settled, less the prices.
//! - `TourBound`, what a walk asks of any bound, for an `Aim` (`specs/Aims.antt`: car, prices, allowed and
//!   required calls): the sums of the empty partial tour, and those after a move from those before it,
//!   without the move; of those a value (`bounds`), of absolute value at most 10^27, that is at most the value
//!   of each tour for the aim which begins with the partial tour (`UndercutsNone`), and after the end the
//!   tour's value; and what is kept of a car that departs, from which come the sums at each next stop and a
//!   value that the bound at none of them is below. This is all that a search asks: a bound need not grow
//!   along the moves, nor be a function of where they lead.
//! - `CompletionBound`, what a checker asks beside it: the value is a function of where the partial tour
//!   leads (`bound`, `exact`), and has the other three laws.
//! - `StraightRides`: `bound`, kept as running sums, meets all this. A move takes no memory and goes over no
//!   list of calls, groups or floors.
//! - `Rates::lay_out` has the rates of the calls at new prices, in the same memory.
//!
//! # Why a move lowers nothing
//!
//! Whoever is carried gets off, or rides on, no sooner than on the straight way, since no way over a third
//! floor is shorter; whoever waits waits longer; and a call that boards adds as carried what it added as
//! waiting, or costs more than it added (`board_adds`, all in `specs/GrowthLemmas.antt`).
//! `specs/LowerLemmas.antt` goes from there along the moves of a tour to its end, where the bound is at most
//! the tour's value. These lemmas are in `specs/`, since the ghost members of an instance cite them.
//!
//! # The running sums
//!
//! A walk does not ask `bound` at each partial tour: the trait keeps sums along the moves. What the sums are
//! is a relation to where a partial tour leads (`stands`), so a walk keeps them in any form, and an undo
//! takes the sums from before. The sums after a move are found before it is made, so what a bound leaves out
//! is never pushed and popped. `StraightRides` (`specs/Running.antt`) keeps the bound, the prices of the
//! calls that boarded, and the set of calls that are counted, which are those that must board or lower the
//! bound. A call that is not counted never will be, since it costs more the later it boards. So a board
//! changes the bound by one term or not at all, the end changes nothing, and a leave goes over the calls
//! carried and the floors to which groups aboard still go. Who gets off at the stop costs as much as one who
//! rides on from there for no time, so what is settled and what those carried cost are found together, before
//! the leave (`standing_at`, `settles_over`). What the counted calls add grows evenly with the moment, so it
//! is carried on by one product (`Waiting`, `IsEven`), and all are looked at anew only where one begins to
//! wait or its patience ends.
//!
//! `Rates` has what each call costs as a function of the moment, as 64-bit factors, and a moment before which
//! it costs less than its price (`below`), laid out once and given new prices in place. From these moments it
//! has, in their order, which calls may have ceased to count (`End`, `AreEnds`): a leave looks at those alone
//! that are due (`due`), and leaves out those whose term is no longer below 0 (`sifted`). That the sums of a
//! layout's floors are those of the groups (`proofs/CarriedLemmas.antt`) holds after a stop, when all aboard
//! have boarded; at the start the groups are gone through once.
//!
//! A car that departs has sums of its own, which all its next stops share (`depart`, `AreDeparting`): those
//! carried ride on from the moment at which the doors would be open if the way took no time, and calls that
//! have ceased to count by the time at which it could be at the nearest other floor (`Rates::nearest`) are
//! left out once. The doors of no next stop are open before that moment, and none has a smaller bound
//! (`departs_below`, of which the growth over a leave is a case). So one comparison (`least_value`) can
//! refuse all leaves, and the sums at each next stop (`arrive`) start from fewer calls. A car that stays
//! departs as well, so the sums after a leave are found in the same way.
#![tactic(auto)]

mod bounds;
mod carried;
mod completion;
mod parts;
mod rates;
mod rides;
mod straight;
mod tour_bound;
mod waiting;

pub use bounds::bound;
pub use completion::CompletionBound;
pub use rates::Rates;
pub use straight::{StraightRides, Sums};
pub use tour_bound::TourBound;
