//! Which partial tours some tour of a node begins with: the law, and the test as code.
//!
//! # What is promised
//!
//! All of it for every accepted snapshot.
//!
//! - `can_be_extended` tells whether some feasible tour begins with a partial tour and meets a `Demand`: it
//!   boards each required call, and allowed calls alone. It works on the sets of the point that the partial
//!   tour has reached and of its layout, takes no memory, and looks at calls one by one only where they have
//!   to board at the stop or can give it its use.
//! - `useful` gives the moves that may follow without, after the first stop, exactly the leaves to floors
//!   where nobody can get off and no allowed call can board: no such tour goes on with one of these, so a
//!   walk need not go there to see it.
//! - `extending_law`: the four conditions of the definition say exactly this. `node_law`: what a node asks of
//!   a car is such a demand. `Demand::is_for`: whether each required call is allowed, and each allowed one is
//!   a call that the car may take.
//!
//! The law is proved from two steps, and no tour is built: an allowed move to a partial tour that can be
//! extended starts from one that can (`step_back`), and one that can be extended and has not ended has an
//! allowed move to one that can (`step_forth`). What holds wherever lawful moves lead is `Midway`; before the
//! first stop the opening floors of the plain plan serve.
#![tactic(auto)]

mod demands;
mod extending;
mod leaves;
mod sides;

ghost use Rattle.search_model.specs.Extending.{ExtendingLaw};
ghost use Rattle.tour_extension.specs.Demands.{NodeLaw};

pub use demands::Demand;
pub use extending::can_be_extended;
pub use leaves::useful;

/// A law: the test says exactly which partial tours can be extended.
pub fn extending_law()
    ensures { ExtendingLaw }
{}

/// A law: what a node asks of a car, that allowed calls alone board and each required one does, is a demand.
pub fn node_law()
    ensures { NodeLaw }
{}
