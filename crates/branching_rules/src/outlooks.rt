//! What the relaxation over the tours seen says of a node.

ghost use Rattle.std.specs.Prelude.{◌≡◌, ◌≤◌, length};

use crate::columns::is_in;
use crate::shares::Shares;
use assign_branch::Node;
use partition_relaxation::{Column, Relaxation, SeenTours, relax};
use price_scale::Price;
use search_tree::Sheet;
use std::alloc::{AllocError, Global};

/// How often the reach is widened at most.
const MOST_WIDER: u32 = 8;

/// The least reach, in thousandths of a cost unit.
const LEAST_REACH: u64 = 1_000;

/// The greatest reach, in thousandths of a cost unit.
const MOST_REACH: u64 = 1_000_000_000_000_000;

/// What the relaxation over the tours seen says of a node: prices to be tried next, how much they promise, and
/// which shares of tours take the calls. The prices lie within a reach of the leaf's, which grows where they
/// kept their promise and shrinks where they gained nothing.
#[derive(Drop)]
pub struct Outlook {
    /// The prices to be tried next; none where the relaxation says nothing.
    pub(crate) prices: Vec<Price>,
    /// The share of each car in each call.
    pub(crate) shares: Shares,
    /// The tours of the last basis, with which the next relaxation begins.
    basis: Vec<Column>,
    /// By how much the leaf's sum would rise at the prices if there were no other tours, in thousandths of a cost
    /// unit.
    promise: i128,
    /// In thousandths of a cost unit.
    reach: u64,
    /// Whether a relaxation was solved for the node or one above it.
    is_used: bool,
}

/// The columns that lie in the node. It fails only where there is no memory left.
fn columns_in(alloc: Global, node: &Node, columns: &[Column]) -> Result<Vec<Column>, AllocError> {
    let mut chosen = Vec::new(alloc);
    for column in columns {
        if is_in(node, column.car, column.calls) {
            chosen.push(*column)?;
        }
    }
    Ok(chosen)
}

/// The reach with which a node begins: a sixteenth of the mean price.
fn first_reach(prices: &[Price]) -> u64 {
    let mut sum: i128 = 0;
    for price in prices {
        sum = sum.saturating_add(price.value());
    }
    let mean = sum.checked_div(prices.len() as i128).unwrap_or(0);
    reach_near(mean / 16)
}

/// The reach that is nearest to this many thousandths of a cost unit.
fn reach_near(way: i128) -> u64 {
    match u64::try_from(way) {
        Ok(way) => way.min(MOST_REACH).max(LEAST_REACH),
        Err(_) => LEAST_REACH,
    }
}

impl Outlook {
    /// Before any relaxation. It fails only where there is no memory left.
    pub(crate) fn new(alloc: Global, calls: usize, cars: usize) -> Result<Self, AllocError> {
        Ok(Outlook {
            prices: Vec::new(alloc),
            shares: Shares::new(alloc, calls, cars)?,
            basis: Vec::new(alloc),
            promise: 0,
            reach: 0,
            is_used: false,
        })
    }

    /// That of a part of the node, before its first relaxation. It fails only where there is no memory left.
    pub(crate) fn part(&self, alloc: Global) -> Result<Self, AllocError> {
        Ok(Outlook {
            prices: Vec::new(alloc),
            shares: self.shares.copy(alloc)?,
            basis: self.basis.as_slice().to_vec(alloc)?,
            promise: 0,
            reach: self.reach,
            is_used: self.is_used,
        })
    }

    /// Whether the relaxation says anything.
    pub(crate) fn is_told(&self) -> bool {
        !self.prices.is_empty()
    }

    /// Whether a relaxation was solved for the node or one above it.
    pub(crate) fn is_used(&self) -> bool {
        self.is_used
    }

    /// Takes in by how much the pricing at its prices raised the leaf's sum, in thousandths of a cost unit.
    pub(crate) fn note_gain(&mut self, gain: i128) {
        if !self.is_told() {
            return;
        }
        if self.promise < gain.saturating_mul(2) {
            self.reach = self.reach.saturating_mul(2).min(MOST_REACH);
        } else if gain <= 0 {
            self.reach = (self.reach / 2).max(LEAST_REACH);
        }
    }

    /// Whether it promises less than a tenth of the gap, in thousandths of a cost unit.
    pub(crate) fn is_slow(&self, gap: i128) -> bool {
        self.promise.saturating_mul(10) < gap
    }

    /// What this relaxation says, whose prices lie within this reach of the leaf's. It fails only where there is
    /// no memory left.
    fn of(
        alloc: Global,
        leaf: &Sheet,
        reach: u64,
        relaxation: Relaxation,
    ) -> Result<Self, AllocError> {
        let mut basis = Vec::new(alloc);
        let mut shares = Shares::new(alloc, leaf.prices().len(), leaf.worths().len())?;
        for share in &relaxation.shares {
            basis.push(share.column)?;
            shares.add(share.column.car as usize, share.column.calls, share.share);
        }
        Ok(Outlook {
            promise: relaxation.value.saturating_sub(leaf.sum()),
            prices: relaxation.prices,
            shares,
            basis,
            reach,
            is_used: true,
        })
    }

    /// What the relaxation over the tours seen says of the node after a pricing, where its leaf is this one and
    /// lies below the cost of the best known plan by this gap, in thousandths of a cost unit: as far from the
    /// leaf's prices as the promise is worth a pricing, if that may be. It fails only where there is no memory
    /// left.
    pub(crate) fn next(
        &self,
        alloc: Global,
        leaf: &Sheet,
        gap: i128,
        node: &Node,
        seen: &SeenTours,
    ) -> Result<Self, AllocError> {
        let columns = columns_in(alloc, node, seen.as_slice())?;
        let first = columns_in(alloc, node, &self.basis)?;
        let mut next = self.part(alloc)?;
        if next.reach == 0 {
            next.reach = first_reach(leaf.prices());
        }
        for _ in 0..MOST_WIDER {
            let is_last = next.look(alloc, leaf, gap, &first, &columns)?;
            if is_last {
                break;
            }
            next.reach = next.reach.saturating_mul(4).min(MOST_REACH);
        }
        Ok(next)
    }

    /// Looks once, and says whether the reach is wide enough. It fails only where there is no memory left.
    fn look(
        &mut self,
        alloc: Global,
        leaf: &Sheet,
        gap: i128,
        first: &[Column],
        columns: &[Column],
    ) -> Result<bool, AllocError> {
        let (cars, reach) = (leaf.worths().len(), self.reach);
        let Some(relaxation) = relax(alloc, cars, leaf.prices(), reach, first, columns)? else {
            return Ok(true);
        };
        // At a limit of its steps it tells too little.
        if !relaxation.is_least {
            return Ok(true);
        }
        let is_held = relaxation.is_held;
        *self = Outlook::of(alloc, leaf, reach, relaxation)?;
        Ok(!is_held || !self.is_slow(gap))
    }
}
