//! What a pricing is asked and what it has to answer.

ghost use Rattle.std.specs.Prelude.{◌≡◌, ◌↔◌, ◌<◌, ◌≤◌, ◌^◌, true, false, length, IfOk, IfSome};
ghost use Rattle.elevator_model.specs.Snapshot.{Snapshot, car_count, call_count};
ghost use Rattle.search_model.specs.Nodes.{IsNodeOf, IsTourIn};
ghost use Rattle.search_model.specs.Prices.{IsWorth, price_at};
ghost use Rattle.search_model.specs.Solving.{HasPartialTours, ReachesLeast};
ghost use Rattle.assign_branch.specs.Pricings.{GivesWorth, IsWorthSize, Pricing};

use crate::nodes::Node;
use elevator_model::Tour;
use price_scale::Price;
use search_model::Priced;
use std::alloc::{AllocError, Global};
use std::marker::{Send, Sync};

/// Prices the cars of one snapshot: finds the tour of a car in a node that has the least value at given
/// prices.
///
/// Threads may share a pricer. Each works at a desk of its own, which holds the last pricing that was made at
/// it.
pub trait Pricer: Sync {
    type Desk: Send + Drop;

    /// The snapshot whose cars it prices.
    ghost snapshot: { Self → Snapshot };

    /// This desk is one of its own.
    ghost owns: { Self → Self.Desk → Type 0 };

    /// The last pricing at this desk was this one.
    ghost holds: { Self → Self.Desk → Pricing → Type 0 };

    /// A desk of its own at which nothing was priced. It fails only where there is no memory left.
    fn desk(&self, alloc: Global) -> Result<Self::Desk, AllocError>
        ensures own { IfOk result (λ desk. owns self.now desk) }
        ensures empty { IfOk result (λ desk. (p : Pricing) → holds self.now desk p → ⊥) };

    /// Prices a car in a node, at one price for each call in their order, and tries at most `most_tours`
    /// partial tours. It takes no memory.
    ///
    /// The worth is one that no tour of the car in the node has a value below, in thousandths of a cost unit,
    /// and where the limit was not reached some tour has it.
    fn price(
        &self,
        car: u32,
        node: &Node,
        prices: &[Price],
        most_tours: u64,
        desk: &mut Self::Desk,
    ) -> Priced
        requires own { owns self.now desk.old }
        requires car { car < car_count (snapshot self.now) }
        requires node { IsNodeOf (snapshot self.now) node.now }
        requires prices { length prices.now ≡ call_count (snapshot self.now) }
        requires most_tours { (1 ≤ most_tours) × (most_tours ≤ 10 ^ 18) }
        ensures own { owns self.now desk.new }
        ensures held { holds self.now desk.new
            (record { car = car; node = node.now; prices = prices.now; answer = result }) }
        ensures worth { IsWorth (snapshot self.now) node.now car (price_at prices.now) result.worth }
        ensures size { IsWorthSize result.worth }
        ensures visits { (1 ≤ result.visits) × (result.visits ≤ most_tours) }
        ensures least { result.spent ≡ false
            → ReachesLeast (snapshot self.now) node.now car (price_at prices.now) result.worth }
        ensures spent { result.spent ≡ true → HasPartialTours (snapshot self.now) node.now car most_tours }
        ensures reached { (result.spent ≡ true) ↔ (result.visits ≡ most_tours) };

    /// A tour of the last pricing at the desk: one that has the worth where the limit was not reached, and
    /// else any tour of the car in the node, or none. None is given before the first pricing.
    ///
    /// It fails only where there is no memory left.
    fn tour(&self, alloc: Global, desk: &Self::Desk) -> Result<Option<Tour>, AllocError>
        requires own { owns self.now desk.now }
        ensures within { IfOk result (λ given. (p : Pricing) → holds self.now desk.now p
            → IfSome given (λ tour. IsTourIn (snapshot self.now) p.node p.car tour)) }
        ensures least { IfOk result (λ given. (p : Pricing) → holds self.now desk.now p
            → p.answer.spent ≡ false → GivesWorth (snapshot self.now) p given) }
        ensures held { IfOk result (λ given. IfSome given (λ _. (p : Pricing) × holds self.now desk.now p)) };
}
