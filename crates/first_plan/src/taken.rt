//! The calls that one round takes out.

use crate::neighbours::Neighbours;
use call_sets::CallSet;
use search_model::Draws;
use std::alloc::{AllocError, Global};

/// How many calls are taken out at most.
const MOST: usize = 8;

/// A place in a list of this many, by the product of two draws: the earlier the likelier.
fn early_place(draws: &mut Draws, count: usize) -> usize {
    let product = u64::from(draws.draw()).wrapping_mul(u64::from(draws.draw())) >> 32;
    (product.wrapping_mul(count as u64) >> 32) as usize
}

/// The calls that are taken out together, in the order in which they are put back.
#[derive(Drop)]
pub(crate) struct Taken {
    calls: Vec<u32>,
    set: CallSet,
}

impl Taken {
    /// No calls.
    pub(crate) fn new(alloc: Global) -> Self {
        Self {
            calls: Vec::new(alloc),
            set: CallSet::empty(),
        }
    }

    /// The calls in the order in which they are put back.
    pub(crate) fn calls(&self) -> &[u32] {
        self.calls.as_slice()
    }

    /// The calls.
    pub(crate) fn set(&self) -> CallSet {
        self.set
    }

    /// Adds a call at a drawn place of the order, if it is not there.
    fn add(&mut self, call: u32, draws: &mut Draws) -> Result<(), AllocError> {
        if call >= 128 || self.set.contains(call) {
            return Ok(());
        }
        let place = draws.pick_place(self.calls.len() + 1);
        self.calls.insert(place, call)?;
        self.set = self.set.with(call);
        Ok(())
    }

    /// Adds some of the calls that are most like this one, drawn with a liking for the nearest.
    fn add_near(&mut self, near: &[u32], draws: &mut Draws) -> Result<(), AllocError> {
        for _ in 0..draws.pick_place(MOST) {
            if let Some(call) = near.get(early_place(draws, near.len())) {
                self.add(*call, draws)?;
            }
        }
        Ok(())
    }

    /// Chooses the calls of a round: first each alone, in this order; then a drawn one and some that are like
    /// it.
    pub(crate) fn choose(
        &mut self,
        round: usize,
        order: &[u32],
        neighbours: &Neighbours,
        draws: &mut Draws,
    ) -> Result<(), AllocError> {
        self.calls.clear();
        self.set = CallSet::empty();
        if let Some(call) = order.get(round) {
            return self.add(*call, draws);
        }
        if order.is_empty() {
            return Ok(());
        }
        if let Some(call) = order.get(draws.pick_place(order.len())) {
            self.add(*call, draws)?;
            self.add_near(neighbours.of(*call), draws)?;
        }
        Ok(())
    }
}
