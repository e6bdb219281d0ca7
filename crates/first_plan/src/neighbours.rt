//! How alike calls are.

use call_state::Call;
use std::alloc::{AllocError, Global};

/// How many floors two calls of unlike directions count as more apart.
const TURN: u32 = 4;

/// For each call all others, those that are most like it first.
#[derive(Drop)]
pub(crate) struct Neighbours {
    lists: Vec<Vec<u32>>,
}

/// How far apart two calls are, in floors.
fn distance(a: &Call, b: &Call) -> u32 {
    let turn = if a.is_upward() == b.is_upward() {
        0
    } else {
        TURN
    };
    a.origin
        .abs_diff(b.origin)
        .saturating_add(a.destination.abs_diff(b.destination))
        .saturating_add(turn)
}

/// The other calls than this one, the nearest first, and of two like that the first.
fn nearest(
    alloc: Global,
    calls: &[Call],
    call: usize,
    from: &Call,
) -> Result<Vec<u32>, AllocError> {
    let mut keys = Vec::new(alloc);
    for (other, to) in calls.iter().enumerate() {
        if other != call {
            keys.push(distance(from, to) as u64 * 256 + other as u64 % 256)?;
        }
    }
    keys.as_mut_slice().sort_unstable();
    let mut nearest = Vec::new(alloc);
    for key in &keys {
        nearest.push((*key % 256) as u32)?;
    }
    Ok(nearest)
}

impl Neighbours {
    /// The neighbours of each call.
    pub(crate) fn of_calls(alloc: Global, calls: &[Call]) -> Result<Self, AllocError> {
        let mut lists = Vec::new(alloc);
        for (call, from) in calls.iter().enumerate() {
            lists.push(nearest(alloc, calls, call, from)?)?;
        }
        Ok(Self { lists })
    }

    /// The neighbours of a call.
    pub(crate) fn of(&self, call: u32) -> &[u32] {
        match self.lists.get(call as usize) {
            Some(list) => list.as_slice(),
            None => &[],
        }
    }
}
