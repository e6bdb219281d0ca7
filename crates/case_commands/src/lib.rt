//! The commands that read a case or a table, or write a case: `solve`, `check`, `whatif`, `root`, `table` and
//! `make`, each from a source to a sink and a status.
//!
//! What is said of the input holds where the source tells what it has left; how any command ends is said by
//! `command_ends` (`Ends`), and all of one that reads a whole text by its `Runs`: what is told of an input that
//! says something, with its status, and that any other is refused (5) with its first bad line and one code, or
//! because it is too long, unless the source or the sink fails or memory runs out.
//!
//! - `solve` (`specs/SolveOutcome.antt`): of a case a solution is told (`IsSolution`): status 0 with an
//!   **optimal** plan of the snapshot, its cost and an equal bound, for 1 to 16 workers, and without `--brief`
//!   the certificate that proves them; status 3 with the same of a feasible plan, a bound that no feasible
//!   plan's cost is below, and the limit that was reached, and never where the limits are enough for the
//!   snapshot. The tree of the search is printed with the claims that are due or, exactly where these go
//!   beyond their limit, another one with the bound that it proves (`IsCertified`). Where the input ends with
//!   LF and has at most 1,000,000 bytes, and the limits are at most the defaults, `check` says yes to the input
//!   followed by what was written (`IsSaidYes`).
//! - `check` (`specs/CheckOutcome.antt`): of a case with an answer and a certificate the verdict is told, the
//!   same for 1 to 16 workers, with status 0 exactly where it is yes, which it is exactly where the tree proves
//!   the plan, its cost and the bound within the claims (`IsVerdictOn`), and 4 where it is no, with the first
//!   reason.
//! - `whatif` (`specs/WhatIfOutcome.antt`): of a case whose last call is asked about (`asked_form`) it is told
//!   for each car what that call costs with it, exactly, or that the car cannot take it, and how much more it
//!   costs with the nearest car than with the best one (`IsTold`), with status 0; with 3 some of these are told
//!   by two ends between which they lie, never where the limits are enough. A case with no call that can be
//!   asked about is refused, too.
//! - `root` (`specs/RootOutcome.antt`): of a case the best prices of turns at the root are told, as many as was
//!   asked for, with their worths and bound, and the cheapest plan in halves that the tours of these turns and
//!   of a start plan allow, as far as the limit tells it (`IsRootTold`). Status 0 exactly where the two meet:
//!   then no prices and worths at the root have a greater bound, as the mixture shows that was written. Status
//!   3: they do not, and the last line says what is left open.
//! - `table` (`specs/TableOutcome.antt`): of a table (`table_form`) it is told that no way over a third floor is
//!   shorter, with status 0, or else the first three floors for which one is, with 4 (`IsToldOf`).
//! - `write_made_case` and `write_solved_case` (`specs/MakeOutcome.antt`): the text of a generated case,
//!   and the numbers of one with the cost and the bound that a search of it with one worker answers
//!   (`RunsMake`, `RunsSolvedCase`); nothing is read.
//!
//! `proofs/SaidYes.antt` shows that what `solve` writes is checked with a yes: the tree of a search within
//! the default limits has a text of less than 60,000,000 bytes, and the verdict on it is yes. The texts of
//! `whatif` and `root` are worked in `specs/WorkedExtras.antt` and `specs/WorkedRoots.antt`.
#![tactic(auto)]

mod asking;
mod checking;
mod endings;
mod extra_writing;
mod making;
mod root_writing;
mod rooting;
mod solving;
mod status;
mod tables;
mod worked_extras;
mod worked_roots;

pub use asking::whatif;
pub use checking::check;
pub use making::{write_made_case, write_solved_case};
pub use rooting::root;
pub use solving::solve;
pub use tables::table;
