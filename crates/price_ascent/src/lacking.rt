//! How many tours take each call.

ghost use Rattle.std.specs.Prelude.{◌≤◌, length};

use call_sets::CallSet;
use elevator_model::MOST_CALLS;

/// For each call 1 less the number of tours that take it: above 0 where its price is to rise. Only calls have
/// an entry, so that only they make the length of a direction, by which a step is divided.
#[derive(Clone, Copy)]
pub struct Lacks {
    calls: usize,
    /// It is 0 where there is no call.
    per_call: [i64; MOST_CALLS],
}

impl Lacks {
    /// Of this many calls, before any tour is noted.
    pub fn new(calls: usize) -> Self {
        let mut per_call = [0; MOST_CALLS];
        for call in 0..calls.min(MOST_CALLS) {
            if let Some(lack) = per_call.get_mut(call) {
                *lack = 1;
            }
        }
        Lacks { calls, per_call }
    }

    /// Notes a tour that takes these calls.
    pub fn note(&mut self, calls: CallSet) {
        for call in calls.iter() {
            if let Some(lack) = self.per_call.get_mut(call as usize) {
                *lack = lack.saturating_sub(1);
            }
        }
    }

    /// Call by call.
    pub fn as_slice(&self) -> &[i64] {
        match self.per_call.get(..self.calls) {
            Some(lacks) => lacks,
            None => &self.per_call,
        }
    }
}
