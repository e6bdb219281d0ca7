//! Lists of prices.

use price_scale::Price;
use search_model::Draws;
use std::alloc::{AllocError, Global};

/// The greatest absolute value of a price, in thousandths of a cost unit.
const MOST: i128 = 1_000_000_000_000_000_000_000_000;

/// How the prices of a list are found.
#[derive(Clone, Copy, PartialEq, Eq)]
pub(crate) enum Pricing {
    /// All are 0.
    Zero,
    /// About twice what a call costs.
    Twice,
    /// About four times that.
    FourTimes,
    /// Up to four times that, above or below 0.
    AnySign,
    /// One is as great or as small as a price may be, the others are about what a call costs.
    Extreme,
}

impl Pricing {
    pub(crate) const ALL: [Pricing; 5] = [
        Pricing::Zero,
        Pricing::Twice,
        Pricing::FourTimes,
        Pricing::AnySign,
        Pricing::Extreme,
    ];

    /// The next price in thousandths, where a call costs about `mean`. `is_chosen` is true of one call of a
    /// list.
    fn next(self, draws: &mut Draws, mean: u64, is_chosen: bool) -> i128 {
        // About as many thousandths as the mean has, and no two alike.
        let about = i128::from(mean).wrapping_mul(i128::from(850 + draws.pick(301)));
        let is_negative = draws.pick(2) == 0;
        match self {
            Pricing::Zero => 0,
            Pricing::Twice => about.wrapping_mul(2),
            Pricing::FourTimes => about.wrapping_mul(4),
            Pricing::AnySign if is_negative => about
                .wrapping_mul(i128::from(draws.pick(4)))
                .wrapping_neg(),
            Pricing::AnySign => about.wrapping_mul(i128::from(draws.pick(5))),
            Pricing::Extreme if !is_chosen => about,
            Pricing::Extreme if is_negative => -MOST,
            Pricing::Extreme => MOST,
        }
    }

    /// A price for each of this many calls. The list is shorter where a number that was drawn is no price.
    pub(crate) fn list(
        self,
        alloc: Global,
        draws: &mut Draws,
        mean: u64,
        calls: usize,
    ) -> Result<Vec<Price>, AllocError> {
        let mut prices = Vec::new(alloc);
        let chosen = draws.pick(4) as usize;
        for call in 0..calls {
            let is_chosen = call == chosen.min(calls - 1);
            if let Some(price) = Price::new(self.next(draws, mean, is_chosen)) {
                prices.push(price)?;
            }
        }
        Ok(prices)
    }
}
