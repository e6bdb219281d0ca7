//! What no worth of a pricing is below.

ghost use Rattle.std.specs.Prelude.{◌≡◌, ◌<◌, []};
ghost use Rattle.elevator_model.specs.Partial.{course_start};
ghost use Rattle.elevator_model.specs.Snapshot.{IsAccepted, car_count};
ghost use Rattle.pricing_bound.specs.Aims.{AimsAt, IsBoundSize};
ghost use Rattle.pricing_bound.specs.Undercutting.{HasNoneBelow};

use partial_tours::Prefix;
use pricing_bound::CompletionBound;

/// The completion bound of the empty partial tour.
pub(crate) fn least_worth<B: CompletionBound>(bound: &B, prefix: &Prefix) -> i128
    requires accepted { IsAccepted prefix.now.snapshot }
    requires car { prefix.now.car < car_count prefix.now.snapshot }
    requires for_it { AimsAt (B.aim bound.now) prefix.now }
    requires empty { prefix.now.moves ≡ [] }
    ensures bound { result ≡ B.bound bound.now (course_start prefix.now.snapshot prefix.now.car) }
    ensures lower { HasNoneBelow (B.aim bound.now) result [] }
    ensures size { IsBoundSize result }
{
    bound.value(&bound.start(prefix))
}
