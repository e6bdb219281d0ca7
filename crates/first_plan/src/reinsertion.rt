//! Taking calls out of draft tours and putting them back, round by round.
//!
//! Large neighbourhood search: P. Shaw, *Using constraint programming and local search methods to solve
//! vehicle routing problems*, CP 1998. Nothing here has to be right: what comes of it is judged.

use crate::drafts::TourDraft;
use crate::neighbours::Neighbours;
use crate::places::best_place;
use crate::queues::Queues;
use crate::taken::Taken;
use byte_streams::Gate;
use call_sets::CarSet;
use call_state::Snapshot;
use search_model::Draws;
use std::alloc::{AllocError, Global};

/// How many rounds there are for each call.
const ROUNDS_PER_CALL: usize = 100;

/// How many stops may be looked at in all before no further round begins.
const MOST_TRIED: u64 = 8_000_000;

/// By how many hundredths of the best cost a taken change may exceed it in the first round.
const FIRST_EXCESS: u64 = 2;

/// What the draws begin with.
const SEED: u64 = 1;

/// The drafts of a plan while calls are moved.
#[derive(Drop)]
pub(crate) struct Moving<'a> {
    snapshot: &'a Snapshot,
    queues: &'a Queues,
    /// The best drafts, the last that were kept, and those that are tried.
    best: Vec<TourDraft>,
    kept: Vec<TourDraft>,
    tried: Vec<TourDraft>,
    /// What the first two cost, in cost units.
    best_cost: u64,
    kept_cost: u64,
    /// The cars whose drafts may differ in the last two.
    changed: CarSet,
    /// How many stops were looked at.
    work: u64,
}

/// What the drafts cost together.
fn cost_of(drafts: &[TourDraft]) -> u64 {
    let mut cost = 0u64;
    for draft in drafts {
        cost = cost.saturating_add(draft.cost);
    }
    cost
}

/// A copy of the drafts.
fn copies_of(alloc: Global, drafts: &[TourDraft]) -> Result<Vec<TourDraft>, AllocError> {
    let mut copies = Vec::new(alloc);
    for draft in drafts {
        copies.push(draft.copy(alloc)?)?;
    }
    Ok(copies)
}

/// The drafts of these cars become like the others of the same cars.
fn copy_drafts(to: &mut [TourDraft], from: &[TourDraft], cars: CarSet) -> Result<(), AllocError> {
    for car in cars.iter() {
        let place = car as usize;
        if let Some(target) = to.get_mut(place) {
            if let Some(source) = from.get(place) {
                target.copy_from(source)?;
            }
        }
    }
    Ok(())
}

/// All drafts become like the others.
fn copy_all(to: &mut [TourDraft], from: &[TourDraft]) -> Result<(), AllocError> {
    for (place, source) in from.iter().enumerate() {
        if let Some(target) = to.get_mut(place) {
            target.copy_from(source)?;
        }
    }
    Ok(())
}

/// Puts a call at its cheapest place. The car of that draft, and None where there is no place.
pub(crate) fn put_call(
    snapshot: &Snapshot,
    queues: &Queues,
    drafts: &mut [TourDraft],
    call: u32,
    work: &mut u64,
) -> Result<Option<u32>, AllocError> {
    let Some(wanted) = snapshot.calls().get(call as usize).copied() else {
        return Ok(None);
    };
    let Some(place) = best_place(snapshot, queues, drafts, call, &wanted, work) else {
        return Ok(None);
    };
    if let Some(draft) = drafts.get_mut(place.car as usize) {
        draft.put(snapshot, queues, &place, call, &wanted)?;
    }
    Ok(Some(place.car))
}

/// By how much a taken change may exceed the best cost: less from round to round.
fn excess_of(best: u64, rounds_left: u64, rounds: u64) -> u64 {
    let share = FIRST_EXCESS.saturating_mul(rounds_left);
    let whole = rounds.saturating_mul(100);
    best.saturating_mul(share).checked_div(whole).unwrap_or(0)
}

/// How many rounds there are for this many calls: 100 a call, and at most `most`.
fn rounds_for(calls: usize, most: u32) -> usize {
    ROUNDS_PER_CALL.saturating_mul(calls).min(most as usize)
}

impl<'a> Moving<'a> {
    /// The drafts before any call is moved.
    pub(crate) fn new(
        alloc: Global,
        snapshot: &'a Snapshot,
        queues: &'a Queues,
        drafts: Vec<TourDraft>,
    ) -> Result<Self, AllocError> {
        let cost = cost_of(drafts.as_slice());
        Ok(Self {
            snapshot,
            queues,
            kept: copies_of(alloc, drafts.as_slice())?,
            tried: copies_of(alloc, drafts.as_slice())?,
            best: drafts,
            best_cost: cost,
            kept_cost: cost,
            changed: CarSet::empty(),
            work: 0,
        })
    }

    /// The best drafts.
    fn into_best(self) -> Vec<TourDraft> {
        let Self {
            snapshot: _,
            queues: _,
            best,
            kept: _,
            tried: _,
            best_cost: _,
            kept_cost: _,
            changed: _,
            work: _,
        } = self;
        best
    }

    /// Takes the calls out of the drafts that are tried.
    fn take_out(&mut self, taken: &Taken) -> Result<(), AllocError> {
        for (car, draft) in self.tried.iter_mut().enumerate() {
            if draft.take_out(self.snapshot, self.queues, taken.set())? {
                self.changed = self.changed.with((car % 16) as u32);
            }
        }
        Ok(())
    }

    /// Puts the calls back, each at its cheapest place. Whether there is one for each.
    fn put_back(&mut self, taken: &Taken) -> Result<bool, AllocError> {
        for call in taken.calls() {
            let drafts = self.tried.as_mut_slice();
            let put = put_call(self.snapshot, self.queues, drafts, *call, &mut self.work)?;
            let Some(car) = put else {
                return Ok(false);
            };
            self.changed = self.changed.with(car % 16);
        }
        Ok(true)
    }

    /// Keeps the drafts that were tried, with their cost.
    fn keep(&mut self, cost: u64) -> Result<(), AllocError> {
        let tried = self.tried.as_slice();
        copy_drafts(self.kept.as_mut_slice(), tried, self.changed)?;
        self.kept_cost = cost;
        if cost < self.best_cost {
            copy_all(self.best.as_mut_slice(), self.tried.as_slice())?;
            self.best_cost = cost;
        }
        Ok(())
    }

    /// One round: takes the calls out, puts them back, and keeps that if it costs no more than before or
    /// exceeds the best cost by little.
    fn turn(&mut self, taken: &Taken, rounds_left: u64, rounds: u64) -> Result<(), AllocError> {
        self.take_out(taken)?;
        let all_put = self.put_back(taken)?;
        let cost = cost_of(self.tried.as_slice());
        let excess = excess_of(self.best_cost, rounds_left, rounds);
        let limit = self.best_cost.saturating_add(excess).max(self.kept_cost);
        if all_put && cost <= limit {
            self.keep(cost)?;
        } else {
            let kept = self.kept.as_slice();
            copy_drafts(self.tried.as_mut_slice(), kept, self.changed)?;
        }
        self.changed = CarSet::empty();
        Ok(())
    }

    /// Rounds as long as there are some, work is left and the gate lets the work go on.
    fn run<G: Gate>(
        &mut self,
        alloc: Global,
        order: &[u32],
        most: u32,
        gate: &G,
    ) -> Result<(), AllocError> {
        let neighbours = Neighbours::of_calls(alloc, self.snapshot.calls())?;
        let mut draws = Draws::from_number(SEED);
        let mut taken = Taken::new(alloc);
        let rounds = rounds_for(order.len(), most);
        for round in 0..rounds {
            if self.work >= MOST_TRIED || !gate.may_go_on() {
                break;
            }
            taken.choose(round, order, &neighbours, &mut draws)?;
            self.turn(&taken, (rounds - round) as u64, rounds as u64)?;
        }
        Ok(())
    }

    /// The best drafts that come of moving calls, some at a time, as long as there are rounds and work left
    /// and the gate lets the work go on.
    pub(crate) fn improved<G: Gate>(
        mut self,
        alloc: Global,
        order: &[u32],
        most: u32,
        gate: &G,
    ) -> Result<Vec<TourDraft>, AllocError> {
        self.run(alloc, order, most, gate)?;
        Ok(self.into_best())
    }
}
