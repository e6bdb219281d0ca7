//! What a round prices.

use assign_branch::Node;
use price_scale::Price;

/// A node that a round prices, and at which prices: one for each call, in their order.
#[derive(Clone, Copy)]
pub struct Task<'a> {
    pub node: &'a Node,
    pub prices: &'a [Price],
}
