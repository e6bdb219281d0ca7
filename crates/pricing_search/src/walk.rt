//! A walk over the partial tours of a car, depth first.

ghost use Rattle.std.specs.Prelude.{◌≡◌, ◌≤◌};
ghost use Rattle.partial_tours.specs.PartialTour.{with_move};
ghost use Rattle.kept_tours.specs.Walking.{IsWalking, IsOpen, MayFollow, aim_at};
ghost use Rattle.pricing_search.specs.Walks.{HasFound, Visited};

use crate::order::nearest;
use crate::progress::Progress;
use elevator_model::Move;
use kept_tours::{Guide, followers_below, step_below};
use partial_tours::Prefix;
use pricing_bound::TourBound;

/// Visits a partial tour that some tour of the node begins with, and those that begin with it.
///
/// It goes depth first, boards and the end before leaves, and those to near floors first, and passes by what
/// has a bound not below the best value. Once as many were visited as the limit says, the least bound of those
/// that are left out is noted.
#[cycle(walk)]
pub(crate) fn visit<B: TourBound>(
    guide: &Guide<B>,
    most_tours: u64,
    prefix: &mut Prefix,
    sums: &B::Sums,
    progress: &mut Progress,
)
    requires walking { IsWalking (B.aim guide.now.bound.now) guide.now.demand.now prefix.old }
    requires stands { IsOpen (B.stands guide.now.bound.now sums.now) guide.now.demand.now prefix.old }
    requires most_tours { progress.old.visits ≤ most_tours }
    requires found { HasFound (aim_at prefix.old guide.now.demand.now
        (B.aim guide.now.bound.now).price) progress.old }
    ensures prefix { prefix.new ≡ prefix.old }
    ensures visited { Visited prefix.old guide.now.demand.now (B.aim guide.now.bound.now).price most_tours
        progress.old progress.new }
{
    let bound = guide.bound;
    let least = bound.value(sums);
    if progress.is_reached(least) {
        return;
    }
    if progress.visits >= most_tours {
        progress.leave_out(least);
        return;
    }
    progress.count();
    if prefix.point().ended {
        progress.note(prefix, bound.tour_value(prefix, sums));
        return;
    }
    let departure = bound.depart(prefix, sums);
    let followers = followers_below(bound, guide.demand, prefix, &departure, progress.best);
    let mut stops = followers.leaves();
    let others = followers.without_leaves(stops);
    let mut next = others.first();
    while let Some(choice) = next {
        visit_after(
            guide, most_tours, prefix, sums, &departure, choice, progress,
        );
        next = others.after(choice);
    }
    let here = prefix.floor();
    while let Some(floor) = nearest(stops, here) {
        stops = stops.without(floor);
        let leave = Move::Leave(floor);
        visit_after(guide, most_tours, prefix, sums, &departure, leave, progress);
    }
}

/// The same of the partial tour with one move more, where some tour of the node begins with it and its bound
/// is below the best value.
#[cycle(walk)]
fn visit_after<B: TourBound>(
    guide: &Guide<B>,
    most_tours: u64,
    prefix: &mut Prefix,
    sums: &B::Sums,
    departure: &B::Departure,
    next: Move,
    progress: &mut Progress,
)
    requires walking { IsWalking (B.aim guide.now.bound.now) guide.now.demand.now prefix.old }
    requires stands { IsOpen (B.stands guide.now.bound.now sums.now) guide.now.demand.now prefix.old }
    requires departs { IsOpen (B.departs guide.now.bound.now departure.now) guide.now.demand.now prefix.old }
    requires next { MayFollow guide.now.demand.now prefix.old next }
    requires most_tours { progress.old.visits ≤ most_tours }
    requires found { HasFound (aim_at prefix.old guide.now.demand.now
        (B.aim guide.now.bound.now).price) progress.old }
    ensures prefix { prefix.new ≡ prefix.old }
    ensures visited { Visited (with_move prefix.old next) guide.now.demand.now
        (B.aim guide.now.bound.now).price most_tours progress.old progress.new }
{
    let worth = progress.best;
    let bound = guide.bound;
    let demand = guide.demand;
    let Some(sums) = step_below(bound, demand, prefix, sums, departure, next, worth) else {
        return;
    };
    visit(guide, most_tours, prefix, &sums, progress);
    prefix.pop();
}
