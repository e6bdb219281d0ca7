//! A walk over the kept partial tours of a car, depth first.

ghost use Rattle.std.specs.Prelude.{◌≡◌};
ghost use Rattle.partial_tours.specs.PartialTour.{with_move};
ghost use Rattle.kept_tours.specs.Walking.{IsWalking, IsOpen, MayFollow};
ghost use Rattle.kept_tours.specs.Visiting.{GoesBack, Visited};

use crate::guides::Guide;
use crate::steps::{followers_below, step_below};
use crate::visits::Visits;
use elevator_model::Move;
use partial_tours::Prefix;
use pricing_bound::CompletionBound;

/// Visits a partial tour that some tour of the node begins with, where it is kept for the worth, and the kept
/// ones that begin with it, depth first in the order of moves.
///
/// At most `left` are visited. The walk stops where one more is due, or at one that ends a tour of a value
/// below the worth, and stays there; else it comes back. It takes no memory.
#[cycle(walk)]
pub(crate) fn visit<B: CompletionBound>(
    guide: &Guide<B>,
    worth: i128,
    left: u64,
    prefix: &mut Prefix,
    sums: &B::Sums,
) -> Visits
    requires walking { IsWalking (B.aim guide.now.bound.now) guide.now.demand.now prefix.old }
    requires stands { IsOpen (B.stands guide.now.bound.now sums.now) guide.now.demand.now prefix.old }
    ensures visited { Visited prefix.old guide.now.demand.now (B.aim guide.now.bound.now).price
        (B.bound guide.now.bound.now) worth left prefix.new result }
    ensures back { GoesBack prefix.old prefix.new result }
{
    let bound = guide.bound;
    let least = bound.value(sums);
    if least >= worth {
        return Visits::Going(left);
    }
    if left == 0 {
        return Visits::Passed;
    }
    if prefix.point().ended {
        let value = bound.tour_value(prefix, sums);
        return Visits::of_tour(value, worth, left - 1);
    }
    let mut left = left - 1;
    let departure = bound.depart(prefix, sums);
    let followers = followers_below(bound, guide.demand, prefix, &departure, worth);
    let mut next = followers.first();
    while let Some(choice) = next {
        let visits = visit_after(guide, worth, left, prefix, sums, &departure, choice);
        let Visits::Going(rest) = visits else {
            return visits;
        };
        left = rest;
        next = followers.after(choice);
    }
    Visits::Going(left)
}

/// The same of the partial tour with one move more, where it is kept for the worth.
#[cycle(walk)]
fn visit_after<B: CompletionBound>(
    guide: &Guide<B>,
    worth: i128,
    left: u64,
    prefix: &mut Prefix,
    sums: &B::Sums,
    departure: &B::Departure,
    next: Move,
) -> Visits
    requires walking { IsWalking (B.aim guide.now.bound.now) guide.now.demand.now prefix.old }
    requires stands { IsOpen (B.stands guide.now.bound.now sums.now) guide.now.demand.now prefix.old }
    requires departs { IsOpen (B.departs guide.now.bound.now departure.now) guide.now.demand.now prefix.old }
    requires next { MayFollow guide.now.demand.now prefix.old next }
    ensures visited { Visited (with_move prefix.old next) guide.now.demand.now
        (B.aim guide.now.bound.now).price (B.bound guide.now.bound.now) worth left prefix.new result }
    ensures back { GoesBack prefix.old prefix.new result }
{
    let Some(sums) = step_below(
        guide.bound,
        guide.demand,
        prefix,
        sums,
        departure,
        next,
        worth,
    ) else {
        return Visits::Going(left);
    };
    let visits = visit(guide, worth, left, prefix, &sums);
    if let Visits::Going(_) = visits {
        prefix.pop();
    }
    visits
}
