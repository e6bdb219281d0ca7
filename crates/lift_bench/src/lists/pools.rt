//! What is chosen from pools of drawn tours, beside lists of everything: the plans that are selected beside a
//! list of all plans that are made of these tours, and the plans in halves beside a list of all pairs of them.

mod fills;
mod listing;
mod pairs;
mod runs;
mod tally;
mod worked;

use runs::compare_case;
use std::io;
use tally::Counts;
use worked::compare_worked;

/// How many snapshots are drawn.
const CASES: u64 = 3000;

/// Makes all comparisons and prints what they came to. Says whether no check failed.
pub(crate) fn compare_pools(rt: &HostRuntime) -> io::Result<bool> {
    let mut tally = Counts::default();
    for case in 0..CASES {
        compare_case(rt.alloc(), case, &mut tally)?;
    }
    compare_worked(rt.alloc(), &mut tally)?;
    tally.print(rt)
}
