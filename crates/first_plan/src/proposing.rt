//! Proposals: plans that are made by putting each call at its cheapest place, and then moving calls.

ghost use Rattle.std.specs.Prelude.{◌<◌};
ghost use Rattle.elevator_model.specs.Snapshot.{call_count, car_count};

use crate::drafts::TourDraft;
use crate::queues::Queues;
use crate::reinsertion::{Moving, put_call};
use crate::stops::{stops_of, tour_of};
use byte_streams::Gate;
use call_state::Snapshot;
use elevator_model::Plan;
use plain_plan::calls_in_order;
use std::alloc::{AllocError, Global};

/// The drafts with no calls.
fn opening_drafts(
    alloc: Global,
    snapshot: &Snapshot,
    queues: &Queues,
) -> Result<Vec<TourDraft>, AllocError> {
    let mut drafts = Vec::new(alloc);
    for car in 0..snapshot.building().cars().len() as u32 {
        drafts.push(TourDraft::opening(alloc, snapshot, queues, car)?)?;
    }
    Ok(drafts)
}

/// The drafts that make the tours of a plan. Where the plan has more tours than there are cars, the others
/// are left out.
fn drafts_of(
    alloc: Global,
    snapshot: &Snapshot,
    queues: &Queues,
    plan: &Plan,
) -> Result<Vec<TourDraft>, AllocError> {
    let cars = snapshot.building().cars().len();
    let mut drafts = Vec::new(alloc);
    for (car, tour) in plan.tours().iter().enumerate() {
        if car < cars {
            let stops = stops_of(alloc, tour)?;
            drafts.push(TourDraft::new(alloc, snapshot, queues, car as u32, stops)?)?;
        }
    }
    Ok(drafts)
}

/// The plan that the drafts make.
fn plan_of(alloc: Global, drafts: &[TourDraft]) -> Result<Plan, AllocError> {
    let mut tours = Vec::new(alloc);
    for draft in drafts {
        tours.push(tour_of(alloc, draft.stops.as_slice())?)?;
    }
    Ok(Plan::from_vec(tours))
}

/// Puts each of the calls at its cheapest place. Whether there is one for each.
fn put_all(
    snapshot: &Snapshot,
    queues: &Queues,
    order: &[u32],
    drafts: &mut [TourDraft],
) -> Result<bool, AllocError> {
    let mut work = 0;
    for call in order {
        if put_call(snapshot, queues, drafts, *call, &mut work)?.is_none() {
            return Ok(false);
        }
    }
    Ok(true)
}

/// A cheap plan of the calls in this order, after at most this many rounds of moving calls. None where no
/// place is found for a call.
fn plan_in_order<G: Gate>(
    alloc: Global,
    snapshot: &Snapshot,
    queues: &Queues,
    order: &[u32],
    rounds: u32,
    gate: &G,
) -> Result<Option<Plan>, AllocError> {
    let mut drafts = opening_drafts(alloc, snapshot, queues)?;
    if !put_all(snapshot, queues, order, drafts.as_mut_slice())? {
        return Ok(None);
    }
    let moving = Moving::new(alloc, snapshot, queues, drafts)?;
    let best = moving.improved(alloc, order, rounds, gate)?;
    Ok(Some(plan_of(alloc, best.as_slice())?))
}

/// A cheap plan, after at most this many rounds of moving calls. None where no place is found for a call.
pub(crate) fn proposal<G: Gate>(
    alloc: Global,
    snapshot: &Snapshot,
    rounds: u32,
    gate: &G,
) -> Result<Option<Plan>, AllocError> {
    let order = calls_in_order(alloc, snapshot)?;
    let queues = Queues::of_snapshot(alloc, snapshot)?;
    plan_in_order(alloc, snapshot, &queues, order.as_slice(), rounds, gate)
}

/// The plan with one call more, at its cheapest place. None where no place is found for it.
pub(crate) fn with_call_put(
    alloc: Global,
    snapshot: &Snapshot,
    plan: &Plan,
    call: u32,
) -> Result<Option<Plan>, AllocError>
    requires { call < call_count snapshot.now }
{
    let queues = Queues::of_snapshot(alloc, snapshot)?;
    let mut drafts = drafts_of(alloc, snapshot, &queues, plan)?;
    let mut work = 0;
    let put = put_call(snapshot, &queues, drafts.as_mut_slice(), call, &mut work)?;
    if put.is_none() {
        return Ok(None);
    }
    Ok(Some(plan_of(alloc, drafts.as_slice())?))
}
