//! Tests of snapshots, their plans and the worlds of days: which plans, tours and moments are found, what one
//! more call costs, how many partial tours there are, what the builds of parts refuse, and what has happened
//! by a moment.

mod cases;
mod counts;
mod days;
mod extras;
mod faults;
mod refusals;
mod served;
mod told;
mod walks;
