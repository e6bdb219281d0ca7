//! Branch and bound over which car serves which call: nodes and their splits, the plain values of leaves and
//! trees, and what a pricing of a car in a node has to answer.
//!
//! Prices, values and worths are in thousandths of a cost unit. Cars and calls are named by their index.
//! `Leaf`, `Twig`, `Priced` and the others are those of `search_model`.
//!
//! # What is promised
//!
//! - `root` gives for each call its possible cars; `Node::copy` an equal node. `set`, `allowed`, `required`
//!   are the cars of a call, the calls that a car may board and those that it has to, each without a search:
//!   they are kept as sets in the node's invariant, so a pricing reads each in one step.
//! - `split` divides one call's set between two nodes that the caller holds, so it takes no memory. It is
//!   refused exactly where the part is empty, is the whole set, or has a car outside it, and then both nodes
//!   are as before. Else the part's cars are in one node, the rest in the other, and all other sets stay. A
//!   feasible plan is in the split node exactly where it is in one of the two, and never in both. Both are
//!   nodes of each snapshot of which the split one is a node.
//! - `Places` has the nodes of a tree's places that are still to be filled, as its twigs come in preorder.
//! - `Pricer`, what every pricing of a car in a node keeps, and all that a search may rest on: the worth is
//!   one, of absolute value at most 10^27. Where the limit was not reached it is the least value, and the
//!   tour that is given has it; where it was, the car has that many partial tours.
//!
//! A pricer's desk is what one worker works at. What a desk holds is a relation, so a desk need not remember
//! the node and the prices.
#![tactic(auto)]

mod demands;
mod nodes;
mod places;
mod pricers;
mod splits;
mod trees;

pub use call_sets::{CallSet, CarSet};
pub use nodes::{Node, root};
pub use places::Places;
pub use pricers::Pricer;
pub use search_model::{Items, Leaf, PriceOf, Priced, Twig, WorthOf};
pub use splits::{BadSplit, is_part, split};
pub use trees::Tree;
