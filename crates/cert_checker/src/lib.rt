//! Whether a certificate's tree proves a plan, its cost and a bound: a judge that knows nothing of the search
//! which made the tree.
//!
//! Costs and bounds are in cost units; prices, values and worths are in thousandths of a cost unit. Cars and
//! calls are named by their index, the nodes of a tree by their number in preorder, from 1.
//!
//! # What is promised
//!
//! - `Checker::new`, `feed`, `verdict`, `check`: the verdict of all twigs that were fed, exactly, with the
//!   first reason in preorder to say no, for each way to cut them into pieces, each number of workers, and
//!   trees that are not whole too. When out of memory the checker is as before; `verdict` takes no memory.
//!   Nothing is promised of what `gate` is told.
//! - `verdict_laws`: the verdict is yes exactly where the tree proves the plan, its cost and the bound, and
//!   no kept list is longer than its claim (`VerdictLaw`); with sufficient claims, exactly where it proves
//!   them. A yes says that the plan is feasible, has this cost, and that no feasible plan costs less than the
//!   bound.
//!
//! # How it judges
//!
//! `Checker` judges the plan and its cost when it is made, and then takes the twigs in preorder, in pieces of
//! any size. It keeps the first reason to say no, or else the nodes of the places that are still to be
//! filled: `HasSeen` (`specs/Judging.antt`) says which twigs it has seen. A piece is first laid out
//! (`Piece`): its twigs are put at the places that they fill, up to the first bad split. Then its leaves are
//! shared by workers (`judge_tasks`, over `work_fan::fan`), and the first reason among their answers comes
//! before a bad split, which is after all of them. At a leaf the entries are tested first (`is_whole`), so no
//! sum can overflow; then the cars go in order, each by a count of its kept list up to its claim
//! (`kept_tours::Desk::count`), which takes no memory, and the answer is the reason (`judge_car`).
#![tactic(auto)]

mod checker;
mod crews;
mod judging;
mod laws;
mod leaves;
mod plans;
mod tasks;

pub use checker::{Checker, check};
pub use crews::JudgingCrew;
pub use judging::Judging;
pub use laws::verdict_laws;
pub use search_model::{Leaf, Reason, Stated, Twig, Verdict};
