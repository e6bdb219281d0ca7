//! The world of a day: a snapshot and the plan that holds in it.

ghost use Rattle.std.specs.Prelude.{◌≡◌, ◌<◌, ◌≤◌, ◌↔◌, ◌++◌, true, false, nat_le, IfOk, OnOk, OnErr, IfErr};
ghost use Rattle.std.specs.Prelude.{Some, None, option_map};
ghost use Rattle.elevator_model.specs.Snapshot.{Snapshot as SnapshotRecord, IsAccepted, car_count};
ghost use Rattle.elevator_model.specs.Snapshot.{call_count};
ghost use Rattle.elevator_model.specs.Plans.{IsFeasiblePlan};
ghost use Rattle.search_model.specs.Advancing.{advanced, events_by, last_events};
ghost use Rattle.search_model.specs.Days.{opening_world, fault_of_new_call};
ghost use Rattle.day_state.specs.Openings.{IsOpeningSnapshot, IsNewCall, taken, Refuses};
ghost use Rattle.day_state.specs.Reaching.{AreReached};

use crate::openings::opening_plan;
use crate::remaining::world_at;
use crate::rides::{Reached, ride_along, ride_until};
use crate::taking::{NotTaken, refusal, snapshot_with};
use call_state::{Call, Snapshot};
use elevator_model::Plan;
use search_model::Event;
use std::alloc::{AllocError, Global};
use std::marker::Model;

/// The world of a day: a snapshot, and the plan by which its cars go on.
#[derive(Drop)]
pub struct World {
    snapshot: Snapshot,
    plan: Plan,
}

impl Model for World {
    ghost use Rattle.elevator_model.specs.Snapshot.{IsAccepted};
    ghost use Rattle.search_model.specs.Advancing.{World as Record};

    ghost Value = { Record };

    ghost view = { λ w. record { snapshot = w.snapshot; plan = w.plan } };

    ghost invariant = { λ w. IsAccepted w.snapshot };
}

impl World {
    /// The world of a snapshot that has no calls and nobody aboard: a coming car goes on to its stop, a
    /// moving one to the nearest floor where it can still stop. It fails only where there is no memory left.
    pub fn opening(alloc: Global, snapshot: Snapshot) -> Result<World, AllocError>
        requires { IsOpeningSnapshot snapshot }
        ensures world { IfOk result (λ world. world ≡ opening_world snapshot) }
        ensures feasible { IfOk result (λ world. IsFeasiblePlan world.snapshot world.plan) }
    {
        let plan = opening_plan(alloc, &snapshot)?;
        Ok(World::of_parts(snapshot, plan))
    }

    /// The world with this snapshot and this plan.
    pub fn of_parts(snapshot: Snapshot, plan: Plan) -> World
        ensures { result ≡ record { snapshot = snapshot; plan = plan } }
    {
        // For the proof: a reader of the snapshot tells that it keeps the rules, which is part of what holds
        // of a world.
        let _moment = snapshot.now();
        World { snapshot, plan }
    }

    /// The snapshot.
    pub fn snapshot(&self) -> &Snapshot
        ensures value { result.now ≡ self.now.snapshot }
        ensures accepted { IsAccepted self.now.snapshot }
    {
        &self.snapshot
    }

    /// The plan: one tour per car.
    pub fn plan(&self) -> &Plan
        ensures { result.now ≡ self.now.plan }
    {
        &self.plan
    }

    /// A copy of the world. It fails only where there is no memory left.
    pub fn copy(&self, alloc: Global) -> Result<World, AllocError>
        ensures { IfOk result (λ world. world ≡ self.now) }
    {
        let plan = self.plan.copy(alloc)?;
        Ok(World::of_parts(self.snapshot.copy(alloc)?, plan))
    }

    /// How far each car is at the moment `t`. What happens until then is appended to the events.
    fn reached(
        &self,
        alloc: Global,
        t: u64,
        events: &mut Vec<Event>,
    ) -> Result<Vec<Reached>, AllocError>
        requires { IsFeasiblePlan self.now.snapshot self.now.plan }
        ensures reached { IfOk result (λ reached. AreReached self.now t reached.items) }
        ensures events { OnOk result
            (events.new.items ≡ events.old.items ++ events_by self.now t) }
    {
        let snapshot = self.snapshot();
        let tours = self.plan().tours();
        let mut reached = Vec::new(alloc);
        for car in 0..tours.len() {
            let one = ride_until(alloc, snapshot, car as u32, &tours[car], t, events)?;
            reached.push(one)?;
        }
        Ok(reached)
    }

    /// Goes on to the moment `t` in ms, and adds what happens until then to the events: the cars in order,
    /// and of each its stops in order, at each of them first who gets off, in the order of boarding, and then
    /// who boards, by rising id.
    ///
    /// It fails only where there is no memory left: then world and events are as before.
    pub fn advance(
        &mut self,
        alloc: Global,
        t: u64,
        events: &mut Vec<Event>,
    ) -> Result<(), AllocError>
        requires feasible { IsFeasiblePlan self.old.snapshot self.old.plan }
        requires later { self.old.snapshot.moment ≤ t }
        requires early { t ≤ 1000000000 }
        ensures world { OnOk result (self.new ≡ advanced self.old t) }
        ensures events { OnOk result
            (events.new.items ≡ events.old.items ++ events_by self.old t) }
        ensures feasible { OnOk result (IsFeasiblePlan self.new.snapshot self.new.plan) }
        ensures world_as_before { OnErr result (self.new ≡ self.old) }
        ensures events_as_before { OnErr result (events.new.items ≡ events.old.items) }
    {
        let mut happened = Vec::new(alloc);
        let later = self.later(alloc, t, &mut happened)?;
        self.give_way_to(later, happened.as_slice(), events)
    }

    /// The world at the moment `t`. What happens until then is appended to the events.
    fn later(&self, alloc: Global, t: u64, events: &mut Vec<Event>) -> Result<World, AllocError>
        requires feasible { IsFeasiblePlan self.now.snapshot self.now.plan }
        requires later { self.now.snapshot.moment ≤ t }
        requires early { t ≤ 1000000000 }
        ensures world { IfOk result (λ later. later ≡ advanced self.now t) }
        ensures feasible { IfOk result (λ later. IsFeasiblePlan later.snapshot later.plan) }
        ensures events { OnOk result
            (events.new.items ≡ events.old.items ++ events_by self.now t) }
    {
        let reached = self.reached(alloc, t, events)?;
        world_at(alloc, self, t, reached.as_slice())
    }

    /// Becomes the later world, and adds what happened until then. It fails only where there is no memory
    /// left: then world and events are as before.
    fn give_way_to(
        &mut self,
        later: World,
        happened: &[Event],
        events: &mut Vec<Event>,
    ) -> Result<(), AllocError>
        ensures world { OnOk result (self.new ≡ later) }
        ensures events { OnOk result (events.new.items ≡ events.old.items ++ happened.now) }
        ensures world_as_before { OnErr result (self.new ≡ self.old) }
        ensures events_as_before { OnErr result (events.new.items ≡ events.old.items) }
    {
        events.extend_from_slice(happened)?;
        self.become_later(later);
        Ok(())
    }

    /// Becomes the later world.
    fn become_later(&mut self, later: World)
        ensures { self.new ≡ later }
    {
        *self = later;
    }

    /// Adds what happens until the end of the plan to the events, in the order of `advance`.
    ///
    /// It fails only where there is no memory left: then the events are as before.
    pub fn run_out(&self, alloc: Global, events: &mut Vec<Event>) -> Result<(), AllocError>
        requires { IsFeasiblePlan self.now.snapshot self.now.plan }
        ensures events { OnOk result
            (events.new.items ≡ events.old.items ++ last_events self.now) }
        ensures events_as_before { OnErr result (events.new.items ≡ events.old.items) }
    {
        let mut happened = Vec::new(alloc);
        self.run_out_into(alloc, &mut happened)?;
        events.extend_from_slice(happened.as_slice())
    }

    /// Adds what happens until the end of the plan, or a part of it where there is no memory left.
    fn run_out_into(&self, alloc: Global, events: &mut Vec<Event>) -> Result<(), AllocError>
        requires { IsFeasiblePlan self.now.snapshot self.now.plan }
        ensures { OnOk result
            (events.new.items ≡ events.old.items ++ last_events self.now) }
    {
        let snapshot = self.snapshot();
        let tours = self.plan().tours();
        for car in 0..tours.len() {
            let tour = &tours[car];
            let stops = tour.stops().len();
            ride_along(alloc, snapshot, car as u32, tour, stops, events)?;
        }
        Ok(())
    }

    /// Takes a new call, which comes last. Until the next `set_plan` no tour serves it.
    ///
    /// It fails with `Full` exactly where as many calls are open as may be, else with `NoCar` exactly where
    /// no car can take the call, and else only where there is no memory left. Then the world is as before.
    pub fn accept(&mut self, alloc: Global, call: Call) -> Result<(), NotTaken>
        requires { IsNewCall self.old.snapshot call }
        ensures snapshot { OnOk result (self.new.snapshot ≡ taken self.old.snapshot call) }
        ensures plan { self.new.plan ≡ self.old.plan }
        ensures fault { IfErr result (Refuses (fault_of_new_call self.old.snapshot call)) }
        ensures faultless { OnOk result (fault_of_new_call self.old.snapshot call ≡ None) }
        ensures as_before { OnErr result (self.new ≡ self.old) }
    {
        let snapshot = self.snapshot();
        if let Some(why) = refusal(snapshot, &call) {
            return Err(why);
        }
        let Ok(later) = snapshot_with(alloc, snapshot, call) else {
            return Err(NotTaken::NoMemory);
        };
        self.snapshot = later;
        Ok(())
    }

    /// Gives the world another plan.
    pub fn set_plan(&mut self, plan: Plan)
        requires { IsFeasiblePlan self.old.snapshot plan }
        ensures { self.new ≡ record { snapshot = self.old.snapshot; plan = plan } }
    {
        self.plan = plan;
    }
}
