//! The kept partial tours of a car, and how many they are: those that some tour of a node begins with and
//! whose bound is below a worth. A checker of claims and whoever states them walk over them and count them in
//! one way; with a search this shares what holds at each partial tour, and the steps of a walk.
//!
//! Prices, values and worths are in thousandths of a cost unit. Cars and calls are named by their index.
//!
//! # What is promised
//!
//! - `step_below` is one move of a walk for a worth, for any `TourBound`: the move is made and the bound's sums
//!   are given, or neither; neither only where no tour of the node begins with the longer partial tour, or
//!   the worth is at most its bound (`IsLeftOut`). So for a checker it is not kept, and for a search no tour
//!   that begins with it is worth less. It tests first a leave by the departure, then the bound, since
//!   neither needs a move.
//! - `followers_left` has the moves that may follow a partial tour, but for all leaves where these are left
//!   out, and else but for the useless ones (`AreFollowersLeft`).
//! - `followers_below` has the moves that may follow, but for some after which nothing is left for the worth
//!   in this sense, among them all useless leaves; it has no leave where the departure refuses all
//!   (`AreFollowersBut`).
//! - `kept_law`: the kept list has exactly the kept partial tours, in the order of moves, each once.
//! - `Desk::lay_out` takes the prices, worths and claims of a whole leaf: `Holds` (`specs/Counting.antt`)
//!   says that they are those that the definitions read in the leaf. `Desk::stake` has what the leaf states
//!   of a car.
//! - `Desk::count` is what the definition says of the kept list of a car in a node, for any worth and any
//!   limit, at the prices laid out (`IsCounted`): its length, or that it is longer than the limit, where no
//!   partial tour up to the limit ends a tour of a value below the worth; else the value of the first one
//!   that does, and `Desk::tour` is its tour. It takes no memory, and what is laid out stays, so cars and
//!   worths may be counted one after another.
//! - `is_whole`, `sum_of_leaf`: whether a leaf has one price for each call and one worth for each car, and
//!   what they sum up to.
//!
//! What holds at each partial tour of a walk is `IsWalking` and `IsOpen` (`specs/Walking.antt`), and neither
//! a walk nor a loop over it knows which bound it is: `B: TourBound` is resolved when the program is
//! compiled. `proofs/Followers.antt` has the moves that may follow, place by place, `proofs/ListLemmas.antt`
//! what a partial tour's lists are made of (itself, and those of its followers), and `proofs/EndLemmas.antt`
//! that an ended partial tour is one tour, but for the order of boards at a stop.
//!
//! # How it counts
//!
//! The walk that counts (`scan`, `visit`) goes depth first in the order of moves, by these steps, and passes
//! by what is not kept. It counts down from the limit, and stops where one more is due or at a tour below the
//! worth. Its contract is the definition `see` (`specs/Visiting.antt`) over the list of the kept ones that
//! begin with a partial tour, cut where the followers are; it is generic over the bound.
//! `proofs/CountLemmas.antt` leads from `see` to the length and the first tour of the list.
#![tactic(auto)]

mod counts;
mod desks;
mod entries;
mod guides;
mod leaves;
mod onward;
mod scan;
mod steps;
mod visits;
mod walk;

ghost use Rattle.search_model.specs.Kept.{KeptLaw};
ghost use Rattle.kept_tours.specs.Kept.{KeptByLaw};

pub use counts::Count;
pub use desks::{Desk, desks_for};
pub use entries::Stake;
pub use guides::Guide;
pub use leaves::{is_whole, sum_of_leaf};
pub use onward::followers_left;
pub use steps::{followers_below, step_below};

/// A law: for any bound that grows along the moves, the kept list has exactly the kept partial tours, in the
/// order of moves, each once.
pub fn kept_by_law()
    ensures { KeptByLaw }
{}

/// A law: the kept list has exactly the kept partial tours, in the order of moves, each once.
pub fn kept_law()
    ensures { KeptLaw }
{}
