//! Completion bounds.

ghost use Rattle.std.specs.Prelude.{◌≡◌, ◌↔◌, ◌≤ℤ◌, ℤ};
ghost use Rattle.elevator_model.specs.Partial.{Course};
ghost use Rattle.pricing_bound.specs.Aims.{IsAtLeastSettled, IsGrowing, IsNarrower};

use crate::tour_bound::TourBound;

/// A completion bound of the partial tours of one car: one value where each of them leads, which grows along
/// the moves. So a checker visits exactly the partial tours whose bound is below a worth.
pub trait CompletionBound: TourBound {
    /// The bound where a partial tour leads.
    ghost bound: { Self → Course → ℤ };

    /// It has no other value there.
    ghost exact: { (it : Self) (value : ℤ) (x : Course) → Self.bounds it value x ↔ (value ≡ bound it x) };

    /// One move more makes the bound no smaller.
    ghost grows: { (it : Self) → IsGrowing (Self.aim it) (bound it) };

    /// The bound is at least what is settled without what the prices can take from it.
    ghost least: { (it : Self) → IsAtLeastSettled (Self.aim it) (bound it) };

    /// Fewer allowed and more required calls make the bound no smaller.
    ghost narrow: { (it narrower : Self) → IsNarrower (Self.aim it) (Self.aim narrower) → (x : Course)
        → bound it x ≤ℤ bound narrower x };
}
