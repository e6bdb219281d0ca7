//! Laws of mixtures and pair plans.

ghost use Rattle.half_plans.specs.Mixtures.{MixtureLaw};
ghost use Rattle.half_plans.specs.PairPlans.{HalvesLaw};

/// Laws of every snapshot.
///
/// Whatever the prices and worths at the root are, their sum is at most the cost of a mixture divided by its
/// whole, in thousandths of a cost unit. And a pair plan of feasible tours is a mixture of the whole 2: a
/// tour that is taken once weighs 1, and one that is taken twice weighs 2.
pub fn mixture_laws()
    ensures mixtures { MixtureLaw }
    ensures halves { HalvesLaw }
{}
