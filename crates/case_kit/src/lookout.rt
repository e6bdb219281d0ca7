//! A gate that tells whether jobs are done side by side.

use byte_streams::Gate;
use std::sync::atomic::{AtomicU32, Ordering};

/// The bit that says that a job which looked out saw some other too late.
const MISSED: u32 = 8;

/// The bit of each of three jobs.
fn bit_of(job: u32) -> u32 {
    match job {
        0 => 1,
        1 => 2,
        2 => 4,
        _ => 0,
    }
}

/// Each of two or three jobs says that it begins. Then the one that looks out, or each where none is named,
/// waits for a while until all others have said so. Jobs after these change nothing.
#[derive(Drop)]
pub struct Lookout {
    seen: AtomicU32,
    all: u32,
    looker: Option<u32>,
}

impl Lookout {
    /// A lookout for two jobs, or for three where this is so.
    pub fn new(are_three: bool, looker: Option<u32>) -> Lookout {
        Lookout {
            seen: AtomicU32::new(0),
            all: if are_three { 7 } else { 3 },
            looker,
        }
    }

    /// Whether all jobs have begun, seen for a while.
    fn sees_all(&self) -> bool {
        for _ in 0..100_000_000u32 {
            if self.seen.load(Ordering::SeqCst) & self.all == self.all {
                return true;
            }
        }
        false
    }

    fn looks_out(&self, job: u32) -> bool {
        match self.looker {
            Some(looker) => looker == job,
            None => true,
        }
    }

    /// Whether all jobs began, and each that looked out saw all others while it was at work.
    pub fn saw_all(&self) -> bool {
        self.seen.load(Ordering::SeqCst) & (self.all | MISSED) == self.all
    }
}

impl Gate for Lookout {
    ghost never_stops = { λ _. Unit {0} };

    fn enter(&self, job: u32) {
        self.seen.fetch_or(bit_of(job), Ordering::SeqCst);
        if self.looks_out(job) && !self.sees_all() {
            self.seen.fetch_or(MISSED, Ordering::SeqCst);
        }
    }

    fn may_go_on(&self) -> bool {
        true
    }
}
