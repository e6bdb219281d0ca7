//! The accepted calls of a day, in the order of their ids, and what has happened to each.

ghost use Rattle.std.specs.Prelude.{◌≡◌, ◌<◌, ◌++◌, ◌∷◌, [], map, length, count_by, IfOk, OnErr, OnOk};
ghost use Rattle.std.specs.Prelude.{IfSome, IfNone, None, ℕ};
ghost use Rattle.search_model.specs.Days.{noted_in, calls_after, served_from as served_from_lem};
ghost use Rattle.search_model.specs.Days.{is_delivered_call};
ghost use Rattle.day_simulator.specs.Logged.{day_call, day_calls, id_of_event as id_of_event_lem};
ghost use Rattle.day_laws.specs.Standing.{IdsRise, id_at};

use search_model::{Event, Served};
use std::alloc::{AllocError, Global};

/// An accepted call, by its id. Moments are in ms.
#[derive(Clone, Copy)]
pub(crate) struct LoggedCall {
    pub id: u32,
    /// When it came.
    pub released: u64,
    /// When it boarded, if it has.
    pub boarded: Option<u64>,
    /// When it was delivered, if it was.
    pub delivered: Option<u64>,
}

impl LoggedCall {
    /// A call that just came.
    pub(crate) fn new(id: u32, released: u64) -> Self
        ensures { result ≡ record { id = id; released = released; boarded = None; delivered = None } }
    {
        LoggedCall {
            id,
            released,
            boarded: None,
            delivered: None,
        }
    }

    /// The call with this event, which is one of its own.
    fn with(self, event: &Event) -> Self
        requires { self.id ≡ id_of_event_lem event.now }
        ensures { day_call result ≡ noted_in event.now (day_call self) }
    {
        match *event {
            Event::Board { moment, .. } => LoggedCall {
                boarded: Some(moment),
                ..self
            },
            Event::Deliver { moment, .. } => LoggedCall {
                delivered: Some(moment),
                ..self
            },
        }
    }

    /// What is told of it at the end; a moment that has not come is 0.
    fn served(&self) -> Served
        ensures { result ≡ served_from_lem (day_call self.now) }
    {
        Served {
            call: self.id,
            released: self.released,
            boarded: self.boarded.unwrap_or(0),
            delivered: self.delivered.unwrap_or(0),
        }
    }
}

/// The id of the call of an event.
fn id_of_event(event: &Event) -> u32
    ensures { result ≡ id_of_event_lem event.now }
{
    match *event {
        Event::Board { call, .. } | Event::Deliver { call, .. } => call,
    }
}

/// Where the call with this id is, if there is one.
fn place_of(calls: &[LoggedCall], id: u32) -> Option<usize>
    requires { IdsRise (day_calls calls.now) }
    ensures found { IfSome result (λ k. (k < length calls.now) × (id_at (day_calls calls.now) k ≡ id)) }
    ensures none { IfNone result ((k : ℕ) → k < length calls.now → id_at (day_calls calls.now) k ≡ id → ⊥) }
{
    calls.binary_search_by_key(&id, |call| call.id).ok()
}

/// Notes an event at its call, in time that grows with the logarithm of the calls.
fn note(calls: &mut [LoggedCall], event: &Event)
    requires { IdsRise (day_calls calls.old) }
    ensures { day_calls calls.new ≡ map (noted_in event.now) (day_calls calls.old) }
{
    if let Some(place) = place_of(calls, id_of_event(event)) {
        calls[place] = calls[place].with(event);
    }
}

/// Notes all events at their calls.
fn note_each(calls: &mut [LoggedCall], events: &[Event])
    requires { IdsRise (day_calls calls.old) }
    ensures { day_calls calls.new ≡ calls_after (day_calls calls.old) events.now }
{
    for event in events {
        note(calls, event);
    }
}

/// Notes all events at their calls.
pub(crate) fn note_all(calls: &mut Vec<LoggedCall>, events: &[Event])
    requires { IdsRise (day_calls calls.old.items) }
    ensures { day_calls calls.new.items ≡ calls_after (day_calls calls.old.items) events.now }
{
    note_each(calls.as_mut_slice(), events);
}

/// Notes all events at their calls, and puts a new call after them. It fails only where there is no memory
/// left: then the calls are as before.
pub(crate) fn add_call(
    calls: &mut Vec<LoggedCall>,
    events: &[Event],
    call: LoggedCall,
) -> Result<(), AllocError>
    requires { IdsRise (day_calls calls.old.items) }
    ensures added { OnOk result (day_calls calls.new.items
        ≡ calls_after (day_calls calls.old.items) events.now ++ day_call call ∷ []) }
    ensures as_before { OnErr result (calls.new.items ≡ calls.old.items) }
{
    calls.reserve(1)?;
    note_each(calls.as_mut_slice(), events);
    calls.push_reserved(call);
    Ok(())
}

/// What is told of the calls at the end.
pub(crate) fn served_by(alloc: Global, calls: &[LoggedCall]) -> Result<Vec<Served>, AllocError>
    ensures { IfOk result (λ served. served.items ≡ map (λ x. served_from_lem (day_call x)) calls.now) }
{
    calls.iter().map(|call| call.served()).collect(alloc)
}

/// How many of the calls were delivered.
pub(crate) fn delivered_count(calls: &[LoggedCall]) -> usize
    ensures { result ≡ count_by is_delivered_call (day_calls calls.now) }
{
    calls.iter().filter(|call| call.delivered.is_some()).count()
}
