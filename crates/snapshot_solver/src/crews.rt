//! Who makes the pricings of a search.

ghost use Rattle.std.specs.Prelude.{◌≡◌, ℕ, ◌*◌, All, IfOk, IfSome, IsSome, Option, Some, length, slice_get, slice_index};
ghost use Rattle.work_fan.specs.Work.{Serving};
ghost use Rattle.pricing_rounds.specs.Rounds.{IsAnswerAt};
ghost use Rattle.snapshot_solver.specs.Crews.{Owns};

use assign_branch::Pricer;
use byte_streams::Gate;
use pricing_rounds::{PricingCrew, Round};
use pricing_search::{Desk, Searcher};
use search_model::TurnOf;
use std::alloc::{AllocError, Global};
use work_fan::{Alone, fan_alone};

/// Who makes the pricings of a search.
pub trait SearchCrew {
    /// Makes all pricings of a round, at 1 to 16 desks of its searcher: in place `k` stands an answer of the
    /// pricing that the round draws as its `k`-th, or None where the gate, which may be asked before each
    /// pricing, does not let it go on. The desks are the searcher's own afterwards too, also where
    /// memory ran out. It fails only where there is no memory left.
    fn price_all<'a, G: Gate>(
        &self,
        alloc: Global,
        round: &Round<'_, Searcher<'a>>,
        desks: &mut [Desk<'a>],
        gate: &G,
    ) -> Result<Vec<Option<TurnOf>>, AllocError>
        requires { Serving (Owns round.now.pricer.now) desks.old }
        ensures count { IfOk result (λ answers.
            length answers.items ≡ length round.now.tasks.now * round.now.cars) }
        ensures right { IfOk result (λ answers.
            (k : ℕ) (answer : Option TurnOf) → slice_get answers.items k ≡ Some answer
            → IfSome answer (IsAnswerAt round.now.pricer.now.snapshot.now
            round.now.limits.most_tours round.now.tasks.now round.now.cars (slice_index round.now.order.now k))) }
        ensures done { G.never_stops gate.now → IfOk result (λ answers. All IsSome answers.items) }
        ensures desks { All (Owns round.now.pricer.now) desks.new };
}

impl SearchCrew for Alone {
    fn price_all<'a, G: Gate>(
        &self,
        alloc: Global,
        round: &Round<'_, Searcher<'a>>,
        desks: &mut [Desk<'a>],
        gate: &G,
    ) -> Result<Vec<Option<TurnOf>>, AllocError> {
        price_alone(alloc, round, desks, gate)
    }
}

/// Makes all pricings of a round, one after another. A function of its own, since the method knows the jobs
/// by a pricer whose lifetime they do not show.
fn price_alone<P: Pricer, G: Gate>(
    alloc: Global,
    round: &Round<P>,
    desks: &mut [P::Desk],
    gate: &G,
) -> Result<Vec<Option<TurnOf>>, AllocError>
    requires { Serving (P.owns round.now.pricer.now) desks.old }
    ensures count { IfOk result (λ answers.
        length answers.items ≡ length round.now.tasks.now * round.now.cars) }
    ensures right { IfOk result (λ answers.
        (k : ℕ) (answer : Option TurnOf) → slice_get answers.items k ≡ Some answer
        → IfSome answer (IsAnswerAt (P.snapshot round.now.pricer.now)
        round.now.limits.most_tours round.now.tasks.now round.now.cars (slice_index round.now.order.now k))) }
    ensures done { G.never_stops gate.now → IfOk result (λ answers. All IsSome answers.items) }
    ensures desks { All (P.owns round.now.pricer.now) desks.new }
{
    fan_alone(alloc, round, desks, gate)
}

/// A crew of a search, as the rounds know one.
#[derive(Drop)]
pub(crate) struct ByCrew<'c, C: SearchCrew> {
    pub(crate) crew: &'c C,
}

impl<'a, C: SearchCrew> PricingCrew<Searcher<'a>> for ByCrew<'_, C> {
    fn price_all<G: Gate>(
        &self,
        alloc: Global,
        round: &Round<Searcher<'a>>,
        desks: &mut [Desk<'a>],
        gate: &G,
    ) -> Result<Vec<Option<TurnOf>>, AllocError> {
        self.crew.price_all(alloc, round, desks, gate)
    }
}
