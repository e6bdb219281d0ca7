//! Relaxations of drawn pools of columns, as a text that `tests/relaxations` judges: of each pool what it is
//! made of and what the relaxation says; then pools at the limit of what is taken; and a line of each large
//! pool.

mod blocks;
mod columns;
mod large;
mod limits;
mod pools;
mod shapes;

use blocks::print_block;
use large::print_large;
use limits::print_limits;
use pools::drawn_pool;
use std::io;

/// Which pools are drawn: a number for each.
#[derive(Clone, Copy)]
pub(crate) struct Numbers {
    pub(crate) first: u32,
    pub(crate) count: u32,
}

/// How many pools are drawn where nothing is said.
const POOLS: u32 = 2000;

impl Numbers {
    /// Those that a count and the first number ask for. `words` counts all words, with the names of the program
    /// and of the measurement; any other count of words is rejected.
    pub(crate) fn asked(words: usize, count: u32, first: u32) -> Option<Self> {
        match words {
            2 => Some(Numbers {
                first: 0,
                count: POOLS,
            }),
            3 | 4 => Some(Numbers { first, count }),
            _ => None,
        }
    }
}

/// Relaxes the pools of these numbers, those at the limits, and the large ones, and prints what that gives.
pub(crate) fn print_relaxations(rt: &HostRuntime, numbers: Numbers) -> io::Result<bool> {
    for step in 0..numbers.count {
        let number = u64::from(numbers.first).saturating_add(u64::from(step));
        println!(rt; "pool {number}")?;
        print_block(rt, &drawn_pool(rt.alloc(), number)?)?;
    }
    print_limits(rt)?;
    print_large(rt)?;
    Ok(true)
}
