//! Partial tours: the beginning of a tour as a list of moves, the moves that may follow, and what the partial
//! tour has cost so far.
//!
//! A `Prefix` takes its memory when it is made and keeps a step (about 170 bytes) after each move. It looks
//! up what it needs in its layout, so a push, a pop or a next move takes no memory, goes through no stops
//! again and passes over no list of calls, groups or floors. A pop drops the last step, and so forgets
//! nothing.
//!
//! # What is promised
//!
//! All of it for every accepted snapshot.
//!
//! - `Prefix`: partial tours, of at most three moves for each call, one for each group and two. `next_moves`:
//!   exactly the moves after which one is lawful.
//! - `Prefix::followers`, `Followers::first`, `after`, `without_leaves`: these moves as sets, the first of
//!   them, and the first that comes after a given one, so that a walk needs no list and asks the partial tour
//!   once; the same without leaves to some floors. `Prefix::first_move` and `move_after` ask it each time;
//!   each move that they give is lawful.
//! - `Prefix::departs_at`: when the car departs from the last stop. `Prefix::opened_after`: when the doors
//!   would be open at a next stop (before 10^10), before the leave to it is made; what would be settled there
//!   is below 10^18.
//! - `settled`, `moment`, `opened`, `floor`, `boarded`, `carried`, `carries_group`, `boarded_at`: where a
//!   partial tour is, by the definitions' fold. The cost of those who got off is below 10^18, moments are
//!   below 10^10; all are kept along the moves.
//! - `Prefix::restart`: the empty partial tour of another car, without memory. `tour_of`: the stops that a
//!   list of moves makes.
//! - `with_board`, `with_stop`: where a car is after one board more, and after a stop where nobody boards.
//!
//! `proofs/Ordered.antt` says that the lawful moves come in order, so that the next one is the following one;
//! `proofs/Listed.antt` and `proofs/Search.antt` what a depth-first walk from move to move lists;
//! `proofs/Early.antt` that no moment is 10^10 or later.
#![tactic(auto)]

mod advancing;
mod following;
mod leaving;
mod points;
mod prefix;
mod steps;
mod tally;

pub use advancing::{with_board, with_stop};
pub use call_sets::CallSet;
pub use elevator_model::{Boards, Move, Stop, Tour};
pub use following::{Followers, after_last, calls_with_room};
pub use leaving::{
    Leaving, MOST_CALLERS_COST, MOST_CALLERS_LEAVING, MOST_LEAVING, MOST_LEAVING_COST,
};
pub use points::Point;
pub use prefix::{Moves, Prefix, next_moves, tour_of};
