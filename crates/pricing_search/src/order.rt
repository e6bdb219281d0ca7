//! Which stop a walk tries first.

ghost use Rattle.std.specs.Prelude.{◌≡◌, ℕ, ◌<◌, MatchOption, true, false};
ghost use Rattle.call_sets.specs.Counting.{has};

use call_sets::FloorSet;

/// The floor of a set that is nearest to a floor: of two as near the upper one.
///
/// Good tours seldom pass by what lies near, so a walk that tries near stops first finds them sooner, and
/// passes by more of the rest.
pub(crate) fn nearest(floors: FloorSet, floor: u32) -> Option<u32>
    ensures { MatchOption result ((g : ℕ) → has floors g ≡ false)
        (λ f. (has floors f ≡ true) × (f < 64)) }
{
    let above = floors.above(floor);
    match (floors.minus(above).greatest(), above.least()) {
        (Some(low), Some(high)) => {
            let is_lower = floor.saturating_sub(low) < high.saturating_sub(floor);
            Some(if is_lower { low } else { high })
        }
        (low, None) => low,
        (None, high) => high,
    }
}
