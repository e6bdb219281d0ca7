//! What two searches tell of the extra cost of a call.

ghost use Rattle.std.specs.Prelude.{◌≡◌, ◌≤◌, ◌↔◌, ℕ, IsTrue, pos, ◌-ℤ◌};
ghost use Rattle.what_if.specs.WhatIf.{AreClosed, extra_at as extra_at_lem, has_extra as has_extra_lem};
ghost use Rattle.what_if.specs.WhatIf.{high_of, is_settled as is_settled_lem, low_of};
ghost use Rattle.what_if.specs.Ends.{IsInSpan, IsRanged, Tells};

/// What the call costs where a car serves it, in cost units: the least cost with it less the least cost
/// without it.
#[derive(Clone, Copy)]
pub enum Extra {
    /// The car cannot take the call.
    None,
    /// Both searches were solved.
    Exact(i128),
    /// A limit was reached: the extra cost lies between these, both included.
    Between { low: i128, high: i128 },
}

impl Extra {
    /// Whether the car can take the call.
    pub fn has_extra(self) -> bool
        ensures { result ≡ has_extra_lem self }
    {
        !matches!(self, Extra::None)
    }

    /// Whether it is known, if there is one.
    pub fn is_settled(self) -> bool
        ensures { result ≡ is_settled_lem self }
    {
        !matches!(self, Extra::Between { .. })
    }

    /// What it is at least, and 0 where there is none.
    pub fn low(self) -> i128
        ensures { result ≡ low_of self }
    {
        match self {
            Extra::None => 0,
            Extra::Exact(extra) => extra,
            Extra::Between { low, .. } => low,
        }
    }

    /// What it is at most, and 0 where there is none.
    pub fn high(self) -> i128
        ensures { result ≡ high_of self }
    {
        match self {
            Extra::None => 0,
            Extra::Exact(extra) => extra,
            Extra::Between { high, .. } => high,
        }
    }
}

/// The cost and the bound that a search answers, in cost units.
#[derive(Clone, Copy)]
pub(crate) struct Searched {
    pub(crate) cost: u64,
    pub(crate) bound: u64,
}

/// Whether neither search was stopped by a limit.
fn are_closed(before: Searched, after: Searched) -> bool
    ensures { IsTrue result ↔ AreClosed before after }
{
    before.cost == before.bound && after.cost == after.bound
}

/// One cost less another: below 0 where the first is the lesser.
fn above(cost: u64, other: u64) -> i128
    ensures value { result ≡ pos cost -ℤ pos other }
    ensures span { IsInSpan result }
{
    cost as i128 - other as i128
}

/// The extra cost from what the searches without the call and with it answer.
pub(crate) fn extra_between(before: Searched, after: Searched) -> Extra
    requires before { before.bound ≤ before.cost }
    requires after { after.bound ≤ after.cost }
    ensures told { Tells before after result }
    ensures ranged { IsRanged result }
{
    if are_closed(before, after) {
        Extra::Exact(above(after.cost, before.cost))
    } else {
        Extra::Between {
            low: above(after.bound, before.cost),
            high: above(after.cost, before.bound),
        }
    }
}

/// The extra of a car, and none where the list lacks it.
pub fn extra_at(extras: &[Extra], car: usize) -> Extra
    ensures { result ≡ extra_at_lem extras.now car }
{
    extras.get(car).copied().unwrap_or(Extra::None)
}
