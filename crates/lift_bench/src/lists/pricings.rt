//! Prices the cars of small snapshots and compares each answer with a list of all tours of the car.

mod aims;
mod answers;
mod begun;
mod buildings;
mod prices;
mod runs;
mod snapshots;
mod tally;
mod tours;
mod worked;

use runs::compare_case;
use std::io;
use tally::Counts;
use worked::compare_worked;

/// How many snapshots are drawn.
const CASES: u64 = 15_000;

/// Makes all comparisons and prints what they came to. Says whether no check failed.
pub(crate) fn compare_pricings(rt: &HostRuntime) -> io::Result<bool> {
    let mut tally = Counts::default();
    for case in 0..CASES {
        compare_case(rt.alloc(), case, &mut tally)?;
    }
    compare_worked(rt.alloc(), &mut tally)?;
    tally.print(rt)
}
