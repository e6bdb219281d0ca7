//! The lists of a certificate's leaf.

use price_scale::Price;
use search_model::{Items, Leaf, PriceOf};
use std::alloc::Global;
use std::test::Fail;

/// A leaf with this price of a call, and no worth.
fn leaf_of(alloc: Global, price: PriceOf) -> Option<Leaf> {
    let mut prices = Items::new(alloc);
    prices.push(price).ok()?;
    let worths = Items::from_vec(Vec::new(alloc));
    Some(Leaf { prices, worths })
}

/// Whether there is one price, of this call.
fn is_of_call(prices: &[PriceOf], call: u32, price: i128) -> bool {
    prices.len() == 1 && prices[0].call == call && prices[0].price.value() == price
}

/// Whether the leaf has one price and no worth, and its list of prices is that one.
fn keeps_its_price(leaf: Leaf, call: u32, price: i128) -> bool {
    let is_one = leaf.prices.as_slice().len() == 1 && leaf.worths.as_slice().len() == 0;
    is_one && is_of_call(leaf.prices.into_vec().as_slice(), call, price)
}

/// Whether a leaf that is made of one price keeps it.
fn is_kept(alloc: Global, call: u32, value: i128) -> bool {
    let Some(price) = Price::new(value) else {
        return false;
    };
    match leaf_of(alloc, PriceOf { call, price }) {
        Some(leaf) => keeps_its_price(leaf, call, value),
        None => false,
    }
}

#[test]
fn lists_keep_their_items(rt: HostRuntime) -> Result<(), Fail> {
    assert!(rt; is_kept(rt.alloc(), 3, -5));
    Ok(())
}
