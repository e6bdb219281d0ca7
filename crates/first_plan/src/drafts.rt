//! TourDraft tours: they are timed anew after each change.

ghost use Rattle.std.specs.Prelude.{◌<◌};
ghost use Rattle.elevator_model.specs.Snapshot.{car_count};

use crate::places::{Insertion, Spot};
use crate::queues::Queues;
use crate::ride::DraftRide;
use crate::stops::DraftStop;
use call_sets::CallSet;
use call_state::{Call, Snapshot};
use elevator_model::Tour;
use plain_plan::opening_floors;
use std::alloc::{AllocError, Global};
use std::mem;

/// The draft of a car's tour.
#[derive(Drop)]
pub(crate) struct TourDraft {
    pub(crate) start: DraftRide,
    pub(crate) stops: Vec<DraftStop>,
    /// Room for the stops that are timed anew.
    spare: Vec<DraftStop>,
    /// The calls that board.
    pub(crate) calls: CallSet,
    /// What a ms more of waiting would cost them, in cost units.
    pub(crate) rate: u64,
    /// In cost units, and the greatest number where a rule is broken.
    pub(crate) cost: u64,
}

/// Adds those of the stops that are of use, with their moments, and stops of one floor in a row as one. The
/// car at its end.
fn add_timed(
    snapshot: &Snapshot,
    queues: &Queues,
    start: &DraftRide,
    stops: &[DraftStop],
    timed: &mut Vec<DraftStop>,
) -> Result<DraftRide, AllocError> {
    let mut ride = *start;
    for stop in stops {
        if ride.visit(snapshot, queues, stop) {
            timed.push(ride.last_stop())?;
        } else if let Some(last) = timed.last_mut() {
            *last = ride.last_stop();
        }
    }
    Ok(ride)
}

/// Puts a stop before the one at a place, or at the end.
fn put_stop(stops: &mut Vec<DraftStop>, place: usize, stop: DraftStop) -> Result<(), AllocError> {
    let place = place.min(stops.len());
    stops.insert(place, stop)?;
    Ok(())
}

impl TourDraft {
    /// The draft with these stops.
    pub(crate) fn new(
        alloc: Global,
        snapshot: &Snapshot,
        queues: &Queues,
        car: u32,
        stops: Vec<DraftStop>,
    ) -> Result<Self, AllocError>
        requires { car < car_count snapshot.now }
    {
        let mut draft = Self {
            start: DraftRide::start(snapshot, car),
            stops,
            spare: Vec::new(alloc),
            calls: CallSet::empty(),
            rate: 0,
            cost: 0,
        };
        draft.settle(snapshot, queues)?;
        Ok(draft)
    }

    /// The draft with no calls.
    pub(crate) fn opening(
        alloc: Global,
        snapshot: &Snapshot,
        queues: &Queues,
        car: u32,
    ) -> Result<Self, AllocError>
        requires { car < car_count snapshot.now }
    {
        let floors = opening_floors(alloc, snapshot, car)?;
        let mut stops = Vec::new(alloc);
        for floor in &floors {
            stops.push(DraftStop::new(*floor, CallSet::empty()))?;
        }
        Self::new(alloc, snapshot, queues, car, stops)
    }

    /// Drops the stops that are of no use, and times the others.
    fn settle(&mut self, snapshot: &Snapshot, queues: &Queues) -> Result<(), AllocError> {
        self.spare.clear();
        let stops = self.stops.as_slice();
        let ride = add_timed(snapshot, queues, &self.start, stops, &mut self.spare)?;
        mem::swap(&mut self.stops, &mut self.spare);
        self.calls = ride.boarded();
        self.rate = ride.rate();
        self.cost = ride.cost_at_end().unwrap_or(u64::MAX);
        Ok(())
    }

    /// Puts a call at a place.
    pub(crate) fn put(
        &mut self,
        snapshot: &Snapshot,
        queues: &Queues,
        place: &Insertion,
        call: u32,
        wanted: &Call,
    ) -> Result<(), AllocError> {
        let boards = CallSet::empty().with(call % 128);
        if let Spot::Before(at) = place.leaves {
            let stop = DraftStop::new(wanted.destination, CallSet::empty());
            put_stop(&mut self.stops, at, stop)?;
        }
        match place.boards {
            Spot::Before(at) => {
                put_stop(&mut self.stops, at, DraftStop::new(wanted.origin, boards))?;
            }
            Spot::At(at) => {
                if let Some(stop) = self.stops.get_mut(at) {
                    stop.boards = stop.boards.union(boards);
                }
            }
        }
        self.settle(snapshot, queues)
    }

    /// Takes calls out. Whether there was one of them.
    pub(crate) fn take_out(
        &mut self,
        snapshot: &Snapshot,
        queues: &Queues,
        calls: CallSet,
    ) -> Result<bool, AllocError> {
        if self.calls.intersection(calls).is_empty() {
            return Ok(false);
        }
        for stop in self.stops.iter_mut() {
            stop.boards = stop.boards.minus(calls);
        }
        self.settle(snapshot, queues)?;
        Ok(true)
    }

    /// Becomes like another draft of the same car, in the same memory where there is room.
    pub(crate) fn copy_from(&mut self, other: &Self) -> Result<(), AllocError> {
        self.stops.clear();
        self.stops.extend_from_slice(other.stops.as_slice())?;
        self.calls = other.calls;
        self.rate = other.rate;
        self.cost = other.cost;
        Ok(())
    }

    /// A copy of the draft.
    pub(crate) fn copy(&self, alloc: Global) -> Result<Self, AllocError> {
        Ok(Self {
            start: self.start,
            stops: self.stops.as_slice().to_vec(alloc)?,
            spare: Vec::new(alloc),
            calls: self.calls,
            rate: self.rate,
            cost: self.cost,
        })
    }

    /// What a ms of delay from a stop on would cost those who ride there or board there or later, in cost
    /// units.
    pub(crate) fn delay_rate(&self, stop: &DraftStop, travel_weight: u64) -> u64 {
        travel_weight
            .saturating_mul(stop.arriving)
            .saturating_add(self.rate.saturating_sub(stop.rate_before))
    }
}
