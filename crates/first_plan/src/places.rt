//! Where a call is put into a draft at the least cost.
//!
//! Where a call boards, the place where it gets off follows: its car goes on while its stops lie on the way,
//! and may not turn before the call's destination. So a draft of k stops has some k + 2 places, and each is
//! judged by the stops on the way alone: from there on all is late by the same time.

use crate::drafts::TourDraft;
use crate::queues::Queues;
use crate::ride::{travel_time, waiting_cost};
use crate::stops::DraftStop;
use call_sets::CallSet;
use call_state::{Call, CarSpec, Snapshot};

/// A stop of a draft, or a new one before a stop of it or at its end.
#[derive(Clone, Copy)]
pub(crate) enum Spot {
    At(usize),
    Before(usize),
}

/// Where a call boards and gets off in the draft of a car.
#[derive(Clone, Copy)]
pub(crate) struct Insertion {
    pub(crate) car: u32,
    pub(crate) boards: Spot,
    pub(crate) leaves: Spot,
    /// By how much the cost of the draft rises, in cost units. Patience that ends meanwhile is left out.
    pub(crate) rise: u64,
}

/// A search for the places of a call in the draft of a car.
#[derive(Drop)]
struct InsertionSearch<'a> {
    snapshot: &'a Snapshot,
    draft: &'a TourDraft,
    car: u32,
    spec: CarSpec,
    wanted: Call,
    persons: u64,
    /// The later and the earlier ones of its queue.
    later: CallSet,
    earlier: CallSet,
    /// What a ms of riding costs the call, and what riding with no stop on the way does, in cost units.
    riding_rate: u64,
    least_ride: u64,
}

/// A car before it makes a stop: the floor and the moment in ms of its last one, and the persons carried.
#[derive(Clone, Copy)]
struct Approach {
    floor: u32,
    leaves: u64,
    load: u64,
}

/// A car that carries the call.
#[derive(Clone, Copy)]
struct Carrying {
    /// The floor of its last stop, the moment in ms at which it leaves there, and the other persons carried.
    last: Approach,
    /// The moment in ms at which the call boarded.
    boarded: u64,
    /// By how many ms the last stop of the draft is late.
    delay: u64,
    /// By how much the cost rises, if no stop is late by more, in cost units.
    rise: u64,
}

/// Whether a car on its way to the destination may stop at this floor after its last one.
fn is_on_way(last: u32, floor: u32, destination: u32) -> bool {
    last <= floor && floor < destination || destination < floor && floor <= last
}

impl Approach {
    /// The car as it starts.
    fn at_start(draft: &TourDraft) -> Self {
        Self {
            floor: draft.start.floor(),
            leaves: draft.start.leaves(),
            load: draft.start.load(),
        }
    }

    /// The car as it leaves a stop of a draft.
    fn after(stop: &DraftStop) -> Self {
        Self {
            floor: stop.floor,
            leaves: stop.leaves,
            load: stop.load,
        }
    }

    /// Whether it may make a stop at the floor before the next one: it may not turn with persons aboard.
    fn may_stop_at(&self, floor: u32, next: Option<&DraftStop>) -> bool {
        if self.load == 0 {
            return true;
        }
        match next {
            Some(next) => is_on_way(self.floor, floor, next.floor),
            None => false,
        }
    }
}

impl InsertionSearch<'_> {
    /// The moment in ms at which the doors are open at a floor where the car goes next.
    fn opened_at(&self, last: &Approach, floor: u32) -> u64 {
        last.leaves
            .saturating_add(travel_time(self.snapshot, last.floor, floor))
            .saturating_add(self.spec.opening)
    }

    /// Whether the call fits in beside this many persons.
    fn fits(&self, load: u64) -> bool {
        load.saturating_add(self.persons) <= self.spec.capacity as u64
    }

    /// The car that carries the call after it boarded at this moment, where the car would leave at another
    /// one without it.
    fn boarding(&self, floor: u32, boarded: u64, leaves: u64, load: u64) -> Carrying {
        let time = self.spec.boarding.saturating_mul(self.persons);
        Carrying {
            last: Approach {
                floor,
                leaves: leaves.saturating_add(time),
                load,
            },
            boarded,
            delay: 0,
            rise: waiting_cost(self.snapshot, &self.wanted, boarded),
        }
    }

    /// By how much the cost rises where a stop is late by this many ms and the one before it by others.
    fn rise_by(&self, stop: &DraftStop, before: u64, delay: u64) -> u64 {
        let weight = self.snapshot.building().travel_weight();
        let rate = self.draft.delay_rate(stop, weight);
        rate.saturating_mul(delay.saturating_sub(before))
    }

    /// The car goes on and makes this stop.
    fn pass(&self, carrying: &mut Carrying, stop: &DraftStop) {
        let opened = self.opened_at(&carrying.last, stop.floor);
        let delay = opened.saturating_sub(stop.opened);
        let rise = self.rise_by(stop, carrying.delay, delay);
        carrying.rise = carrying.rise.saturating_add(rise);
        carrying.delay = delay;
        carrying.last = Approach::after(stop);
        carrying.last.leaves = stop.leaves.saturating_add(delay);
    }

    /// By how much the cost rises where the call gets off at this stop of the draft, with the others after
    /// it.
    fn rise_at(&self, carrying: Carrying, stop: &DraftStop, next: Option<&DraftStop>) -> u64 {
        let mut carrying = carrying;
        self.pass(&mut carrying, stop);
        let opened = stop.opened.saturating_add(carrying.delay);
        let ride = opened.saturating_sub(carrying.boarded);
        let mut rise = carrying.rise;
        rise = rise.saturating_add(self.riding_rate.saturating_mul(ride));
        if let Some(next) = next {
            let time = self.spec.alighting.saturating_mul(self.persons);
            rise = rise.saturating_add(self.rise_by(next, 0, time));
        }
        rise
    }

    /// By how much the cost rises where the call gets off at a new stop before this one.
    fn rise_before(&self, carrying: Carrying, next: Option<&DraftStop>) -> u64 {
        let destination = self.wanted.destination;
        let opened = self.opened_at(&carrying.last, destination);
        let ride = opened.saturating_sub(carrying.boarded);
        let mut rise = carrying.rise;
        rise = rise.saturating_add(self.riding_rate.saturating_mul(ride));
        if let Some(next) = next {
            let time = self.spec.alighting.saturating_mul(self.persons);
            let leaving = Approach {
                floor: destination,
                leaves: opened
                    .saturating_add(self.spec.closing)
                    .saturating_add(time),
                load: carrying.last.load,
            };
            let delay = self
                .opened_at(&leaving, next.floor)
                .saturating_sub(next.opened);
            rise = rise.saturating_add(self.rise_by(next, carrying.delay, delay));
        }
        rise
    }

    /// Where the call gets off among the stops to come, of which the first has this place, and by how much
    /// the cost rises. None where a rule is broken or the cost rises by the limit or more.
    fn delivery(
        &self,
        carrying: Carrying,
        from: usize,
        stops: &[DraftStop],
        limit: u64,
        tried: &mut u64,
    ) -> Option<(Spot, u64)> {
        let mut carrying = carrying;
        for (offset, stop) in stops.iter().enumerate() {
            *tried = tried.saturating_add(1);
            if carrying.rise >= limit {
                return None;
            }
            let place = from.saturating_add(offset);
            if stop.floor == self.wanted.destination {
                let next = stops.get(offset + 1);
                return Some((Spot::At(place), self.rise_at(carrying, stop, next)));
            }
            if !is_on_way(carrying.last.floor, stop.floor, self.wanted.destination) {
                if !carrying
                    .last
                    .may_stop_at(self.wanted.destination, Some(stop))
                {
                    return None;
                }
                return Some((Spot::Before(place), self.rise_before(carrying, Some(stop))));
            }
            if !self.fits(stop.load) {
                return None;
            }
            self.pass(&mut carrying, stop);
        }
        let place = from.saturating_add(stops.len());
        Some((Spot::Before(place), self.rise_before(carrying, None)))
    }

    /// The place where the call boards at this stop of the draft, with these after it.
    fn at_stop(
        &self,
        at: usize,
        stop: &DraftStop,
        behind: &[DraftStop],
        limit: u64,
        tried: &mut u64,
    ) -> Option<Insertion> {
        let boarded = stop.before.union(stop.boards);
        if !self.earlier.minus(boarded).is_empty() || !self.fits(stop.load) {
            return None;
        }
        let carrying = self.boarding(stop.floor, stop.opened, stop.leaves, stop.load);
        let (leaves, rise) = self.delivery(carrying, at.saturating_add(1), behind, limit, tried)?;
        Some(self.place(Spot::At(at), leaves, rise))
    }

    /// The place where the call boards at a new stop at this place, before these stops, of which the first
    /// has the place `from`.
    fn before_stops(
        &self,
        at: usize,
        approach: &Approach,
        from: usize,
        stops: &[DraftStop],
        limit: u64,
        tried: &mut u64,
    ) -> Option<Insertion> {
        let origin = self.wanted.origin;
        let next = stops.first();
        if !self.earlier.minus(self.boarded_before(next)).is_empty() || !self.fits(approach.load) {
            return None;
        }
        if !approach.may_stop_at(origin, next) {
            return None;
        }
        let opened = self.opened_at(approach, origin);
        let leaves = opened.saturating_add(self.spec.closing);
        let carrying = self.boarding(origin, opened, leaves, approach.load);
        let (leaves, rise) = self.delivery(carrying, from, stops, limit, tried)?;
        Some(self.place(Spot::Before(at), leaves, rise))
    }

    /// A place in this draft.
    fn place(&self, boards: Spot, leaves: Spot, rise: u64) -> Insertion {
        Insertion {
            car: self.car,
            boards,
            leaves,
            rise,
        }
    }

    /// The calls that board before this stop, and all where there is none.
    fn boarded_before(&self, next: Option<&DraftStop>) -> CallSet {
        match next {
            Some(stop) => stop.before,
            None => self.draft.calls,
        }
    }

    /// Whether no place from here on is cheaper than the limit, or keeps the order of the queue.
    fn is_over(&self, approach: &Approach, next: Option<&DraftStop>, limit: u64) -> bool {
        let waiting = waiting_cost(self.snapshot, &self.wanted, approach.leaves);
        waiting.saturating_add(self.least_ride) >= limit
            || !self
                .boarded_before(next)
                .intersection(self.later)
                .is_empty()
    }

    /// The place at a new first stop. A first stop of the draft where nobody boards or gets off is not made
    /// then.
    fn at_first(&self, stops: &[DraftStop], limit: u64, tried: &mut u64) -> Option<Insertion> {
        if !self.draft.start.may_begin_at(self.wanted.origin) {
            return None;
        }
        let approach = Approach::at_start(self.draft);
        match stops {
            [first, behind @ ..] if first.is_bare() => {
                self.before_stops(0, &approach, 1, behind, limit, tried)
            }
            _ => self.before_stops(0, &approach, 0, stops, limit, tried),
        }
    }

    /// The place where the call boards at the first of these stops, or before it where the car comes from
    /// elsewhere.
    fn from_here(
        &self,
        at: usize,
        approach: &Approach,
        stops: &[DraftStop],
        limit: u64,
        tried: &mut u64,
    ) -> Option<Insertion> {
        if let [stop, behind @ ..] = stops {
            if stop.floor == self.wanted.origin {
                return self.at_stop(at, stop, behind, limit, tried);
            }
        }
        if at == 0 {
            return self.at_first(stops, limit, tried);
        }
        if approach.floor == self.wanted.origin {
            return None;
        }
        self.before_stops(at, approach, at, stops, limit, tried)
    }

    /// The cheapest place of the call in the draft, if it is cheaper than the best so far.
    fn best(&self, best: Option<Insertion>, tried: &mut u64) -> Option<Insertion> {
        let stops = self.draft.stops.as_slice();
        let mut approach = Approach::at_start(self.draft);
        let mut best = best;
        for at in 0..stops.len() + 1 {
            *tried = tried.saturating_add(1);
            let rest = &stops[at..];
            let limit = limit_of(best);
            if self.is_over(&approach, rest.first(), limit) {
                break;
            }
            let place = self.from_here(at, &approach, rest, limit, tried);
            best = cheaper(best, place);
            if let Some(stop) = rest.first() {
                approach = Approach::after(stop);
            }
        }
        best
    }
}

/// The rise in cost that a better place stays below.
fn limit_of(best: Option<Insertion>) -> u64 {
    match best {
        Some(place) => place.rise,
        None => u64::MAX,
    }
}

/// The place where the cost rises less, and of two like that the first.
fn cheaper(best: Option<Insertion>, place: Option<Insertion>) -> Option<Insertion> {
    match place {
        Some(next) if next.rise < limit_of(best) => Some(next),
        Some(_) | None => best,
    }
}

/// The search for the places of a call in the draft of a car.
fn search_in<'a>(
    snapshot: &'a Snapshot,
    queues: &Queues,
    draft: &'a TourDraft,
    car: u32,
    call: u32,
    wanted: Call,
) -> InsertionSearch<'a> {
    let spec = draft.start.spec();
    let persons = wanted.persons as u64;
    let riding_rate = snapshot.building().travel_weight().saturating_mul(persons);
    let ride = spec
        .closing
        .saturating_add(spec.boarding.saturating_mul(persons))
        .saturating_add(travel_time(snapshot, wanted.origin, wanted.destination))
        .saturating_add(spec.opening);
    InsertionSearch {
        snapshot,
        draft,
        car,
        spec,
        wanted,
        persons,
        later: queues.later(call),
        earlier: queues.earlier(call).intersection(draft.calls),
        riding_rate,
        least_ride: riding_rate.saturating_mul(ride),
    }
}

/// The cheapest place of a call in all drafts. The stops that are looked at are counted.
pub(crate) fn best_place(
    snapshot: &Snapshot,
    queues: &Queues,
    drafts: &[TourDraft],
    call: u32,
    wanted: &Call,
    tried: &mut u64,
) -> Option<Insertion> {
    let cars = snapshot.building().cars().len();
    let mut best = None;
    for (car, draft) in drafts.iter().enumerate() {
        if car < cars && snapshot.may_take(car as u32, call) {
            let search = search_in(snapshot, queues, draft, car as u32, call, *wanted);
            best = search.best(best, tried);
        }
    }
    best
}
