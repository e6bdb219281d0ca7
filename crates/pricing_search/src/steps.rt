//! One step of a dive, which looks at each move.

ghost use Rattle.std.specs.Prelude.{◌≡◌, IfSome, None};
ghost use Rattle.partial_tours.specs.PartialTour.{with_move};
ghost use Rattle.kept_tours.specs.Walking.{IsWalking, IsOpen, IsShut, MayFollow};

use elevator_model::Move;
use partial_tours::Prefix;
use pricing_bound::TourBound;
use tour_extension::{Demand, can_be_extended};

/// Makes one move more, and gives the sums of the bound where it leads. None where no tour of the node begins
/// with the longer partial tour. Either way the move is made, and `pop` takes it back.
pub(crate) fn step<B: TourBound>(
    bound: &B,
    demand: &Demand,
    prefix: &mut Prefix,
    sums: &B::Sums,
    next: Move,
) -> Option<B::Sums>
    requires walking { IsWalking (B.aim bound.now) demand.now prefix.old }
    requires stands { IsOpen (B.stands bound.now sums.now) demand.now prefix.old }
    requires next { MayFollow demand.now prefix.old next }
    ensures prefix { prefix.new ≡ with_move prefix.old next }
    ensures walking { IsWalking (B.aim bound.now) demand.now prefix.new }
    ensures stands { IfSome result (λ sums. IsOpen (B.stands bound.now sums) demand.now prefix.new) }
    ensures shut { result ≡ None → IsShut demand.now prefix.new }
{
    let sums = bound.after(prefix, sums, next);
    prefix.push(next);
    if can_be_extended(prefix, demand) {
        Some(sums)
    } else {
        None
    }
}
