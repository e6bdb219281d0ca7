//! The search for the tour of a car in a node that has the least value at given prices.
//!
//! # What is promised
//!
//! - `Searcher` is a `Pricer`: the worth is the least value of the car's tours in the node where the limit
//!   was not reached, and else one that none of them undercuts. It is spent only where the visits are the
//!   limit and the car has that many partial tours. `price` takes no memory, and says beside that the worth
//!   is never less than the completion bound of the empty partial tour (`bound_of_empty`), with which a
//!   checker walks.
//!
//! First a dive goes from each partial tour to the follower that promises most, to a first tour (`dive`;
//! there always is a follower, by `step_forth`). Then `visit` walks depth first, to near stops first, and
//! passes by what has a bound not below the best value, by the steps that it shares with a checker
//! (`kept_tours`). Any bound serves that is never above the value of a tour (`TourBound`); it need not grow
//! along the moves. Its contract is one record, `Visited`
//! (`specs/Walks.antt`), over every worth that may still be answered: no tour that begins with this partial
//! tour has a value below it, and no more were visited than there are lawful ones. So a later fall of the
//! best value needs no lemma, and what is left out only has to have no tour below it (`IsVain`). Once the
//! limit was reached the least bound of what is left out is noted, and the answer is the least of that and
//! the best value, or the bound of the empty partial tour where that is greater (`least_worth`). The sums of
//! the bound go down by value, so a way back undoes nothing. All memory is a desk's.
#![tactic(auto)]

mod dive;
mod found;
mod least;
mod order;
mod progress;
mod search;
mod searcher;
mod steps;
mod walk;

pub use searcher::{Desk, Searcher};
