//! One search: a dive to a first tour, and a walk over what it leaves open.

ghost use Rattle.std.specs.Prelude.{◌≡◌, ◌<◌, ◌≤◌, []};
ghost use Rattle.call_sets.specs.Counting.{has};
ghost use Rattle.elevator_model.specs.Snapshot.{IsAccepted, car_count};
ghost use Rattle.search_model.specs.Extending.{IsDemand};
ghost use Rattle.pricing_bound.specs.Aims.{IsBoundSize};
ghost use Rattle.pricing_bound.specs.Undercutting.{HasNoneBelow};
ghost use Rattle.kept_tours.specs.Walking.{aim_at};
ghost use Rattle.pricing_search.specs.Searches.{IsSearched};

use crate::dive::dive;
use crate::progress::Progress;
use crate::walk::visit;
use assign_branch::Priced;
use kept_tours::Guide;
use partial_tours::Prefix;
use pricing_bound::TourBound;
use tour_extension::Demand;

/// Searches for the tour of the car that has the least value, from its empty partial tour on, and visits at
/// most this many partial tours. The worth is at least `least`, which no tour has a value below.
///
/// The dive looks at each move that may follow, so it has a bound of its own, which costs little for each;
/// the walk's may cost more where it leaves out more.
pub(crate) fn search<D: TourBound, W: TourBound>(
    dive_bound: &D,
    walk_bound: &W,
    demand: &Demand,
    most_tours: u64,
    least: i128,
    prefix: &mut Prefix,
    progress: &mut Progress,
) -> Priced
    requires accepted { IsAccepted prefix.old.snapshot }
    requires car { prefix.old.car < car_count prefix.old.snapshot }
    requires empty { prefix.old.moves ≡ [] }
    requires aim { W.aim walk_bound.now ≡ aim_at prefix.old demand.now (W.aim walk_bound.now).price }
    requires same { D.aim dive_bound.now ≡ W.aim walk_bound.now }
    requires demands { IsDemand prefix.old.snapshot prefix.old.car (has demand.now.allowed)
        (has demand.now.required) }
    requires most_tours { 1 ≤ most_tours }
    requires least { HasNoneBelow (W.aim walk_bound.now) least [] }
    requires size { IsBoundSize least }
    ensures prefix { prefix.new ≡ prefix.old }
    ensures searched { IsSearched (aim_at prefix.old demand.now (W.aim walk_bound.now).price)
        least most_tours progress.new.found result }
{
    let begun = dive_bound.start(prefix);
    let sums = walk_bound.start(prefix);
    dive(dive_bound, demand, prefix, &begun, progress);
    let guide = Guide {
        bound: walk_bound,
        demand,
    };
    visit(&guide, most_tours, prefix, &sums, progress);
    let visits = progress.visits();
    Priced {
        worth: progress.worth().max(least),
        visits,
        spent: visits == most_tours,
    }
}
