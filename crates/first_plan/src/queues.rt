//! The queues at the landings: the calls of one origin and one direction.

use call_sets::CallSet;
use call_state::{Call, Snapshot};
use std::alloc::{AllocError, Global};

/// For each call the later and the earlier ones of its queue.
#[derive(Drop)]
pub(crate) struct Queues {
    later: Vec<CallSet>,
    earlier: Vec<CallSet>,
}

/// The calls that are later in the queue of this one.
fn later_than(calls: &[Call], call: &Call) -> CallSet {
    let mut set = CallSet::empty();
    for (j, other) in calls.iter().enumerate() {
        if other.is_later_in_queue(call) {
            set = set.with((j % 128) as u32);
        }
    }
    set
}

/// The calls that are earlier in the queue of this one.
fn earlier_than(calls: &[Call], call: &Call) -> CallSet {
    let mut set = CallSet::empty();
    for (j, other) in calls.iter().enumerate() {
        if call.is_later_in_queue(other) {
            set = set.with((j % 128) as u32);
        }
    }
    set
}

impl Queues {
    /// The queues of the snapshot's calls.
    pub(crate) fn of_snapshot(alloc: Global, snapshot: &Snapshot) -> Result<Self, AllocError> {
        let calls = snapshot.calls();
        let mut later = Vec::new(alloc);
        let mut earlier = Vec::new(alloc);
        for call in calls {
            later.push(later_than(calls, call))?;
            earlier.push(earlier_than(calls, call))?;
        }
        Ok(Self { later, earlier })
    }

    /// The later ones of a call's queue.
    pub(crate) fn later(&self, call: u32) -> CallSet {
        let later = self.later.as_slice();
        later
            .get(call as usize)
            .copied()
            .unwrap_or(CallSet::empty())
    }

    /// The earlier ones of a call's queue.
    pub(crate) fn earlier(&self, call: u32) -> CallSet {
        let earlier = self.earlier.as_slice();
        earlier
            .get(call as usize)
            .copied()
            .unwrap_or(CallSet::empty())
    }
}
