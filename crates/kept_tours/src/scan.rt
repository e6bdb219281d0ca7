//! The visits to a car's kept list.

ghost use Rattle.std.specs.Prelude.{◌≡◌, ◌<◌, []};
ghost use Rattle.call_sets.specs.Counting.{has};
ghost use Rattle.elevator_model.specs.Snapshot.{IsAccepted, car_count};
ghost use Rattle.search_model.specs.Extending.{IsDemand};
ghost use Rattle.kept_tours.specs.Walking.{aim_at};
ghost use Rattle.kept_tours.specs.Scanning.{Scanned};

use crate::guides::Guide;
use crate::visits::Visits;
use crate::walk::visit;
use partial_tours::Prefix;
use pricing_bound::CompletionBound;
use tour_extension::Demand;

/// Visits the kept list of the car for a worth, from its empty partial tour on: at most as many as the limit,
/// until one ends a tour of a value below the worth.
///
/// Where one does, the partial tour is that one. It takes no memory.
pub(crate) fn scan<B: CompletionBound>(
    bound: &B,
    demand: &Demand,
    worth: i128,
    limit: u64,
    prefix: &mut Prefix,
) -> Visits
    requires accepted { IsAccepted prefix.old.snapshot }
    requires car { prefix.old.car < car_count prefix.old.snapshot }
    requires empty { prefix.old.moves ≡ [] }
    requires aim { B.aim bound.now ≡ aim_at prefix.old demand.now (B.aim bound.now).price }
    requires demands { IsDemand prefix.old.snapshot prefix.old.car (has demand.now.allowed)
        (has demand.now.required) }
    ensures snapshot { prefix.new.snapshot ≡ prefix.old.snapshot }
    ensures scanned { Scanned (aim_at prefix.old demand.now (B.aim bound.now).price)
        (B.bound bound.now) worth limit prefix.new.moves result }
{
    let sums = bound.start(prefix);
    let guide = Guide { bound, demand };
    visit(&guide, worth, limit, prefix, &sums)
}
