//! The tree of a search: which car serves which call is split step by step, and each leaf has the best prices
//! and worths that are known in its node.
//!
//! Prices, values and worths are in thousandths of a cost unit. Cars and calls are named by their index.
//!
//! The nodes are in preorder. A `Branch` has its node, a `Sheet` (a price for each call and a worth for each
//! car, in their order, and their sum), the split where it was split, in how many rounds it was priced and
//! which car reached the limit of partial tours last.
//!
//! # What is promised
//!
//! - `Sheet`, `SearchTree::note`: exactly the prices and worths after a pricing of all cars. A leaf's first
//!   pricing is at its own prices, and each car keeps the greater of its worths; a later one replaces the
//!   sheet where its sum is greater.
//! - `SearchTree::split` is refused exactly where the part does not divide the call's set, and the tree is as
//!   before, also when out of memory; else the node's two parts follow it, each with the payload that was given
//!   for it. `SearchTree<T>` has a payload of its owner's for each node, which only `payload_mut` changes.
//! - `SearchTree::bound` is the least of a cost and the bounds of the leaves; `to_tree` gives the twigs of a
//!   certificate, with claims of 0: a search states no claims, what states them comes after it.
//! - `tree-noted`, `tree-split`, `found`, lemmas: what pricings and splits keep of a tree, and that such a
//!   tree is the answer of a search in full. It proves plan, cost and bound, no turn at the root has a
//!   greater bound, and the reason for the end is a true one.
//! - `twigs-few`, `out_of_rounds`, `out_of_moves`, lemmas: a tree of n calls and C cars has fewer than 2 C^n
//!   twigs; a limit that was reached was reached as it is stated.
//!
//! What holds of a tree is said place by place, along the preorder (`AllInTree`, `IsBranchAt` in
//! `specs/Standing.antt`): each worth is one of the node, a leaf's worths are those of the node of the split
//! above it (`IsPricedAt`), and no leaf is open that no round may price any more (`IsResting`).
//! `proofs/TreeLaws.antt` shows that pricings and splits keep this, `EndLaws` that the tree then proves plan,
//! cost and bound, `FoundLaws` the whole answer of a search from what a search knows at its end, that the
//! reasons for its end are true ones, and that with limits that are enough it ends solved. They know no
//! search: they are what one has to bring.
#![tactic(auto)]

mod branches;
mod choices;
mod sheets;
mod tree;

pub use branches::{Branch, MOST_PRICINGS, SplitAt};
pub use choices::first_choice;
pub use sheets::Sheet;
pub use tree::SearchTree;
