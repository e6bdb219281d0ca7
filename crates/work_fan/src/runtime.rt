//! What shared work is done with.

ghost use Rattle.std.specs.Prelude.{◌≡◌, ◌≤◌, IfSome, None};

use crate::line::MOST_WORKERS;
use std::alloc::Global;

/// How many workers share work: 1 to 16.
#[derive(Clone, Copy)]
pub struct Workers {
    count: u32,
    ghost range: { (1 ≤ count) × (count ≤ 16) },
}

impl Workers {
    /// A lone worker.
    pub fn one() -> Workers
        ensures { result.count ≡ 1 }
    {
        Workers { count: 1 }
    }

    /// This many workers, where they are 1 to 16.
    pub fn new(count: u32) -> Option<Workers>
        ensures same { IfSome result (λ workers. workers.count ≡ count) }
        ensures none { result ≡ None → (1 ≤ count) × (count ≤ MOST_WORKERS) → ⊥ }
    {
        if (1..=MOST_WORKERS).contains(&count) {
            Some(Workers { count })
        } else {
            None
        }
    }

    /// How many they are.
    pub fn count(self) -> u32
        ensures value { result ≡ self.count }
        ensures range { (1 ≤ result) × (result ≤ MOST_WORKERS) }
    {
        self.count
    }
}

/// What work is done with, from the first call down to each of its rounds.
#[derive(Drop)]
pub struct Runtime<'a, C, G> {
    /// Who does the jobs of a round.
    pub crew: &'a C,
    /// For how many workers of the crew there are desks.
    pub workers: Workers,
    pub alloc: Global,
    /// Who is told how far the work has come, by the calling thread alone, and is asked whether it may go on.
    pub gate: &'a G,
}
