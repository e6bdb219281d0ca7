//! One step of a walk over the partial tours that some tour of a node begins with.

ghost use Rattle.std.specs.Prelude.{◌≡◌, ℕ, IfSome, None, Some, true};
ghost use Rattle.elevator_model.specs.Partial.{Course, move_on};
ghost use Rattle.elevator_model.specs.declared.Move.{Move as MoveValue};
ghost use Rattle.partial_tours.specs.PartialTour.{course, with_move};
ghost use Rattle.pricing_bound.specs.Aims.{AimsAt, IsNextMove, IsUpTo};
ghost use Rattle.kept_tours.specs.Walking.{AreFollowersBut, IsLeftOut, IsWalking, IsOpen, MayFollow};

use crate::onward::followers_left;
use elevator_model::Move;
use partial_tours::{Followers, Prefix};
use pricing_bound::TourBound;
use tour_extension::{Demand, can_be_extended};

/// Whether the worth is at most the bound at each next stop.
fn leaves_in_vain<B: TourBound>(bound: &B, departure: &B::Departure, worth: i128) -> bool
    ensures { result ≡ true → (x y : Course) (floor : ℕ) → B.departs bound.now departure.now x
        → move_on (B.aim bound.now).snapshot (B.aim bound.now).car x (MoveValue.Leave floor) ≡ Some y
        → IsUpTo (B.bounds bound.now) worth y }
{
    bound.least_value(departure) >= worth
}

/// The moves that may follow, but for leaves after which nothing is left for the worth: the useless ones, and
/// all where none leads to a bound below the worth.
pub fn followers_below<B: TourBound>(
    bound: &B,
    demand: &Demand,
    prefix: &Prefix,
    departure: &B::Departure,
    worth: i128,
) -> Followers
    requires walking { IsWalking (B.aim bound.now) demand.now prefix.now }
    requires departs { IsOpen (B.departs bound.now departure.now) demand.now prefix.now }
    ensures { (x : Course) → course prefix.now ≡ Some x
        → AreFollowersBut (λ m. IsLeftOut demand.now (B.bounds bound.now) worth (with_move prefix.now m))
        demand.now prefix.now x result }
{
    let no_leaves = leaves_in_vain(bound, departure, worth);
    followers_left(prefix, demand, no_leaves)
}

/// Whether the move is a leave, and the worth is at most the bound at each next stop.
fn departs_in_vain<B: TourBound>(
    bound: &B,
    departure: &B::Departure,
    next: Move,
    worth: i128,
) -> bool
    ensures { result ≡ true → (x y : Course) → B.departs bound.now departure.now x
        → move_on (B.aim bound.now).snapshot (B.aim bound.now).car x next ≡ Some y
        → IsUpTo (B.bounds bound.now) worth y }
{
    match next {
        Move::Leave(_) => leaves_in_vain(bound, departure, worth),
        Move::Board(_) | Move::End => false,
    }
}

/// The sums after a move: after a leave from the departure, which has left out what no leave needs.
fn sums_after<B: TourBound>(
    bound: &B,
    prefix: &Prefix,
    sums: &B::Sums,
    departure: &B::Departure,
    next: Move,
) -> B::Sums
    requires for_it { AimsAt (B.aim bound.now) prefix.now }
    requires leads { IsNextMove (B.aim bound.now) (B.stands bound.now sums.now) prefix.now next }
    requires departs { IsNextMove (B.aim bound.now) (B.departs bound.now departure.now) prefix.now
        next }
    ensures { (y : Course) → course (with_move prefix.now next) ≡ Some y
        → B.stands bound.now result y }
{
    match next {
        Move::Leave(floor) => bound.arrive(prefix, departure, floor),
        Move::Board(_) | Move::End => bound.after(prefix, sums, next),
    }
}

/// Makes one move more, and gives the sums there. Where nothing is left for the worth after it, it gives None
/// and makes no move. The bound is tested first, since that needs no move; a leave is tested by the departure
/// before.
pub fn step_below<B: TourBound>(
    bound: &B,
    demand: &Demand,
    prefix: &mut Prefix,
    sums: &B::Sums,
    departure: &B::Departure,
    next: Move,
    worth: i128,
) -> Option<B::Sums>
    requires walking { IsWalking (B.aim bound.now) demand.now prefix.old }
    requires stands { IsOpen (B.stands bound.now sums.now) demand.now prefix.old }
    requires departs { IsOpen (B.departs bound.now departure.now) demand.now prefix.old }
    requires next { MayFollow demand.now prefix.old next }
    ensures made { IfSome result (λ sums. (prefix.new ≡ with_move prefix.old next)
        × IsWalking (B.aim bound.now) demand.now prefix.new
        × IsOpen (B.stands bound.now sums) demand.now prefix.new) }
    ensures none { result ≡ None → (prefix.new ≡ prefix.old)
        × IsLeftOut demand.now (B.bounds bound.now) worth (with_move prefix.old next) }
{
    if departs_in_vain(bound, departure, next, worth) {
        return None;
    }
    let sums = sums_after(bound, prefix, sums, departure, next);
    if bound.value(&sums) >= worth {
        return None;
    }
    prefix.push(next);
    if can_be_extended(prefix, demand) {
        return Some(sums);
    }
    prefix.pop();
    None
}
