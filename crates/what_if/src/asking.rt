//! What one more call costs, car by car, and what it costs to send the nearest car.

ghost use Rattle.std.specs.Prelude.{◌≡◌, ◌<◌, ◌≤◌, ◌^◌, IfOk};
ghost use Rattle.elevator_model.specs.Snapshot.{call_count, car_count};
ghost use Rattle.what_if.specs.WhatIf.{AreEnough, AreExtras, AreSettled, CanTakeAsked, IsExtraOf};
ghost use Rattle.what_if.specs.WhatIf.{IsRegret, IsSearched};
ghost use Rattle.what_if.specs.WhatIf.{with_pin as with_pin_lem, without_last as without_last_lem};
ghost use Rattle.what_if.specs.Ends.{AreExtrasBelow, IsRanged};

use crate::extras::{Extra, Searched, extra_between};
use crate::nearest::{nearest_car, takes_last};
use crate::regrets::{Regret, regret_of};
use crate::variants::{with_pin, without_last};
use byte_streams::Gate;
use call_state::Snapshot;
use search_model::Limits;
use snapshot_solver::{SearchCrew, solve};
use std::alloc::AllocError;
use work_fan::Runtime;

/// What one more call costs.
#[derive(Drop)]
pub struct ExtraCosts {
    /// For each car, in their order.
    pub extras: Vec<Extra>,
    /// How much more it costs with the nearest car than with the best one.
    pub nearest: Regret,
}

/// The cost and the bound that the search of a snapshot answers.
fn search<C: SearchCrew, G: Gate>(
    runtime: &Runtime<C, G>,
    snapshot: &Snapshot,
    limits: Limits,
) -> Result<Searched, AllocError>
    ensures { IfOk result (IsSearched snapshot.now limits.rounds limits.most_tours) }
{
    // For the proof: a reader tells that the snapshot keeps the rules.
    let _moment = snapshot.now();
    let found = solve(runtime, snapshot, limits)?;
    Ok(Searched {
        cost: found.stated.cost,
        bound: found.stated.bound,
    })
}

/// What the search without the last call answers.
fn search_without<C: SearchCrew, G: Gate>(
    runtime: &Runtime<C, G>,
    snapshot: &Snapshot,
    limits: Limits,
) -> Result<Searched, AllocError>
    requires last { 1 ≤ call_count snapshot.now }
    ensures { IfOk result
        (IsSearched (without_last_lem snapshot.now) limits.rounds limits.most_tours) }
{
    let other = without_last(runtime.alloc, snapshot)?;
    search(runtime, &other, limits)
}

/// What the search with the last call pinned to a car that can take it answers.
fn search_with<C: SearchCrew, G: Gate>(
    runtime: &Runtime<C, G>,
    snapshot: &Snapshot,
    car: u32,
    limits: Limits,
) -> Result<Searched, AllocError>
    requires last { 1 ≤ call_count snapshot.now }
    requires takes { CanTakeAsked snapshot.now car }
    ensures { IfOk result
        (IsSearched (with_pin_lem snapshot.now car) limits.rounds limits.most_tours) }
{
    let other = with_pin(runtime.alloc, snapshot, car)?;
    search(runtime, &other, limits)
}

/// The extra cost with this car, after the search without the last call.
fn extra_of<C: SearchCrew, G: Gate>(
    runtime: &Runtime<C, G>,
    snapshot: &Snapshot,
    car: u32,
    before: Searched,
    limits: Limits,
) -> Result<Extra, AllocError>
    requires last { 1 ≤ call_count snapshot.now }
    requires car { car < car_count snapshot.now }
    requires before { IsSearched (without_last_lem snapshot.now) limits.rounds limits.most_tours before }
    ensures told { IfOk result
        (IsExtraOf snapshot.now limits.rounds limits.most_tours before car) }
    ensures ranged { IfOk result IsRanged }
{
    if !takes_last(snapshot, car) {
        return Ok(Extra::None);
    }
    let after = search_with(runtime, snapshot, car, limits)?;
    Ok(extra_between(before, after))
}

/// The extra cost with each car, after the search without the last call.
fn extras_of<C: SearchCrew, G: Gate>(
    runtime: &Runtime<C, G>,
    snapshot: &Snapshot,
    before: Searched,
    limits: Limits,
) -> Result<Vec<Extra>, AllocError>
    requires last { 1 ≤ call_count snapshot.now }
    requires before { IsSearched (without_last_lem snapshot.now) limits.rounds limits.most_tours before }
    ensures { IfOk result (λ extras. AreExtrasBelow snapshot.now limits.rounds limits.most_tours before
        (car_count snapshot.now) extras.items) }
{
    let mut extras = Vec::new(runtime.alloc);
    for car in 0..snapshot.building().cars().len() as u32 {
        let extra = extra_of(runtime, snapshot, car, before, limits)?;
        extras.push(extra)?;
    }
    Ok(extras)
}

/// What the last call costs with each car: the least cost with the call pinned to the car less the least
/// cost without the call, as far as searches within the limits tell it.
///
/// The snapshot without the call is searched once, and that with the call pinned to a car once for each car
/// that can take it, one after another. It fails only where there is no memory left.
pub fn what_if<C: SearchCrew, G: Gate>(
    runtime: &Runtime<C, G>,
    snapshot: &Snapshot,
    limits: Limits,
) -> Result<ExtraCosts, AllocError>
    requires last { 1 ≤ call_count snapshot.now }
    ensures extras { IfOk result
        (λ costs. AreExtras snapshot.now limits.rounds limits.most_tours costs.extras.items) }
    ensures nearest { IfOk result (λ costs. IsRegret snapshot.now costs.extras.items costs.nearest) }
    ensures enough { AreEnough snapshot.now limits.rounds limits.most_tours
        → IfOk result (λ costs. AreSettled costs.extras.items) }
{
    let before = search_without(runtime, snapshot, limits)?;
    let extras = extras_of(runtime, snapshot, before, limits)?;
    let nearest = regret_of(&extras, nearest_car(snapshot));
    Ok(ExtraCosts { extras, nearest })
}
