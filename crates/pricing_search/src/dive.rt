//! A first tour: from each partial tour on to the follower that promises most.

ghost use Rattle.std.specs.Prelude.{◌≡◌, IfSome, None};
ghost use Rattle.partial_tours.specs.PartialTour.{with_move};
ghost use Rattle.kept_tours.specs.Walking.{IsWalking, IsOpen, IsShut, MayFollow, aim_at};
ghost use Rattle.pricing_search.specs.Walks.{Begins};
ghost use Rattle.pricing_search.specs.Dives.{IsOldOr, IsOpenAt, LeadsOnwards, LeadsNowhere};

use crate::progress::Progress;
use crate::steps::step;
use elevator_model::Move;
use partial_tours::Prefix;
use pricing_bound::TourBound;
use tour_extension::Demand;

/// What a partial tour promises: the value of its tour where it has ended, and else that of its bound.
fn promise<B: TourBound>(bound: &B, demand: &Demand, prefix: &Prefix, sums: &B::Sums) -> i128
    requires walking { IsWalking (B.aim bound.now) demand.now prefix.now }
    requires stands { IsOpen (B.stands bound.now sums.now) demand.now prefix.now }
{
    if prefix.point().ended {
        bound.tour_value(prefix, sums)
    } else {
        bound.value(sums)
    }
}

/// What the partial tour with one move more promises. None where no tour of the node begins with it.
fn promise_after<B: TourBound>(
    bound: &B,
    demand: &Demand,
    prefix: &mut Prefix,
    sums: &B::Sums,
    next: Move,
) -> Option<i128>
    requires walking { IsWalking (B.aim bound.now) demand.now prefix.old }
    requires stands { IsOpen (B.stands bound.now sums.now) demand.now prefix.old }
    requires next { MayFollow demand.now prefix.old next }
    ensures prefix { prefix.new ≡ prefix.old }
    ensures open { IfSome result (λ _. IsOpenAt demand.now (with_move prefix.old next)) }
    ensures shut { result ≡ None → IsShut demand.now (with_move prefix.old next) }
{
    let promised = match step(bound, demand, prefix, sums, next) {
        Some(sums) => Some(promise(bound, demand, prefix, &sums)),
        None => None,
    };
    prefix.pop();
    promised
}

/// The move that promises most so far, if there is one.
#[derive(Clone, Copy)]
struct Favourite {
    next: Option<Move>,
    promise: i128,
}

impl Favourite {
    /// Takes the move if it promises more. What does not promise anything is not taken.
    fn consider(&mut self, choice: Move, promised: Option<i128>)
        ensures same { IsOldOr choice promised self.old.next self.new.next }
        ensures none { self.new.next ≡ None → (self.old.next ≡ None) × (promised ≡ None) }
    {
        let Some(promised) = promised else {
            return;
        };
        if self.next.is_none() || promised < self.promise {
            self.next = Some(choice);
            self.promise = promised;
        }
    }
}

/// The move after which the partial tour promises most, of those with which some tour of the node goes on.
/// None where there is none.
fn most_promising<B: TourBound>(
    bound: &B,
    demand: &Demand,
    prefix: &mut Prefix,
    sums: &B::Sums,
) -> Option<Move>
    requires walking { IsWalking (B.aim bound.now) demand.now prefix.old }
    requires stands { IsOpen (B.stands bound.now sums.now) demand.now prefix.old }
    ensures prefix { prefix.new ≡ prefix.old }
    ensures some { IfSome result (LeadsOnwards demand.now prefix.old) }
    ensures none { result ≡ None → LeadsNowhere demand.now prefix.old }
{
    let mut favourite = Favourite {
        next: None,
        promise: 0,
    };
    let mut next = prefix.first_move(demand.allowed);
    while let Some(choice) = next {
        let promised = promise_after(bound, demand, prefix, sums, choice);
        favourite.consider(choice, promised);
        next = prefix.move_after(demand.allowed, choice);
    }
    favourite.next
}

/// Begins with the tour to which the most promising moves lead.
pub(crate) fn dive<B: TourBound>(
    bound: &B,
    demand: &Demand,
    prefix: &mut Prefix,
    sums: &B::Sums,
    progress: &mut Progress,
)
    requires walking { IsWalking (B.aim bound.now) demand.now prefix.old }
    requires stands { IsOpen (B.stands bound.now sums.now) demand.now prefix.old }
    ensures prefix { prefix.new ≡ prefix.old }
    ensures begins { Begins (aim_at prefix.old demand.now (B.aim bound.now).price) progress.new }
{
    if prefix.point().ended {
        progress.begin(prefix, bound.tour_value(prefix, sums));
        return;
    }
    let Some(next) = most_promising(bound, demand, prefix, sums) else {
        unreachable!()
    };
    if let Some(sums) = step(bound, demand, prefix, sums, next) {
        dive(bound, demand, prefix, &sums, progress);
    }
    prefix.pop();
}
