//! Prices at which the known tours of a node come close to what a plan costs.
//!
//! At any prices, these and the least values of the cars' tours in the node together bound what a plan costs
//! there. The tours of a pool are only some of them, so what they say is no bound, but a model of it that
//! costs no pricing.

use crate::fixed::ONE;
use price_ascent::{Pace, Rounding};
use price_scale::MOST_PRICE;

/// In 2^20ths.
pub(crate) const PACE: Pace = Pace {
    moves: 30,
    one: ONE,
    newest_share: 5,
    rounding: Rounding::Change,
    up_percent: 107,
    down_percent: 78,
    tolerance: 0,
    most_gap: MOST_PRICE,
};
