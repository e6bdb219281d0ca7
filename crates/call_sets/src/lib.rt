//! Small sets of calls, floors and cars, as the bits of one number.
//!
//! Contracts speak of them through `has`, of `specs/Counting.antt`, which also has the tests and sums over
//! the numbers below a bound that the other crates' definitions are made of; `proofs/` has their laws.
//!
//! # What is promised
//!
//! - `CallSet`, `FloorSet`, `CarSet`: each operation says which members the set has afterwards. Their
//!   iterators give each member once, rising.
//!
//! A set of calls is one number of 128 bits in its model, but it is read and changed by the half in which the
//! call is, since a shift of 64 bits is much cheaper than one of 128.
#![tactic(auto)]

mod call_set;
mod car_set;
mod floor_set;

pub use call_set::{CallSet, Calls};
pub use car_set::{CarSet, Cars};
pub use floor_set::{FloorSet, Floors};
