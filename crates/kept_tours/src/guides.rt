//! By what a walk over partial tours goes.

use pricing_bound::TourBound;
use tour_extension::Demand;

/// The bound of what partial tours lead to, and the demand that their tours meet.
#[derive(Drop)]
pub struct Guide<'a, B: TourBound> {
    pub bound: &'a B,
    pub demand: &'a Demand,
}
