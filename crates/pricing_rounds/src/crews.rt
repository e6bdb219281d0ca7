//! Who makes the pricings of a round.

ghost use Rattle.std.specs.Prelude.{◌≡◌, ℕ, ◌*◌, All, IfOk, IfSome, IsSome, Option, Some, length, slice_get, slice_index};
ghost use Rattle.work_fan.specs.Work.{Serving};
ghost use Rattle.pricing_rounds.specs.Rounds.{IsAnswerAt};

use crate::rounds::Round;
use assign_branch::Pricer;
use byte_streams::Gate;
use search_model::TurnOf;
use std::alloc::{AllocError, Global};

/// Who makes the pricings of a round.
///
/// It is implemented where the pricer is a concrete type: in an `impl` that knows the pricer by its bounds
/// only, no thread takes it.
pub trait PricingCrew<P: Pricer> {
    /// Makes all pricings of a round, at 1 to 16 desks of its pricer: in place `k` stands an answer of the
    /// pricing that the round draws as its `k`-th, or None where the gate, which may be asked before each
    /// pricing, does not let it go on. The desks are the pricer's own afterwards too, also where
    /// memory ran out. It fails only where there is no memory left.
    fn price_all<G: Gate>(
        &self,
        alloc: Global,
        round: &Round<P>,
        desks: &mut [P::Desk],
        gate: &G,
    ) -> Result<Vec<Option<TurnOf>>, AllocError>
        requires { Serving (P.owns round.now.pricer.now) desks.old }
        ensures count { IfOk result (λ answers.
            length answers.items ≡ length round.now.tasks.now * round.now.cars) }
        ensures right { IfOk result (λ answers.
            (k : ℕ) (answer : Option TurnOf) → slice_get answers.items k ≡ Some answer
            → IfSome answer (IsAnswerAt (P.snapshot round.now.pricer.now)
            round.now.limits.most_tours round.now.tasks.now round.now.cars (slice_index round.now.order.now k))) }
        ensures done { G.never_stops gate.now → IfOk result (λ answers. All IsSome answers.items) }
        ensures desks { All (P.owns round.now.pricer.now) desks.new };
}
