//! Walks over all partial tours of a car, depth first.

ghost use Rattle.std.specs.Prelude.{◌≡◌, Some};
ghost use Rattle.elevator_model.specs.Partial.{Course};
ghost use Rattle.partial_tours.specs.PartialTour.{course};
ghost use Rattle.partial_tours.specs.Listed.{ends_tour};

use call_sets::CallSet;
use call_state::Snapshot;
use case_kit::lawful_cost;
use elevator_model::{Move, Tour};
use partial_tours::{Moves, Prefix, next_moves};
use plain_solver::feasible_tours;
use std::alloc::Global;

/// A walk that comes to this many partial tours stops, and has seen nothing.
const TOO_MANY: u32 = 20_000;

/// What a walk saw.
#[derive(Clone, Copy, PartialEq)]
pub(crate) struct Seen {
    /// How many partial tours it came to, the empty one too.
    pub(crate) tours: u32,
    /// How many of them end.
    pub(crate) ended: u32,
    /// What the ended ones cost together, in cost units, modulo 2^64.
    pub(crate) cost: u64,
}

/// The set of all calls.
fn all_calls() -> CallSet {
    CallSet::from_bits(u128::MAX)
}

/// Whether the list of the moves that may follow has just those to which a walk comes one after another.
fn lists_next_moves(prefix: &Prefix, moves: &mut Moves) -> bool {
    next_moves(prefix, all_calls(), moves);
    let mut next = prefix.first_move(all_calls());
    for listed in moves.items() {
        match next {
            Some(step) if step == *listed => next = prefix.move_after(all_calls(), step),
            _ => return false,
        }
    }
    next.is_none()
}

/// Whether the move ends a tour.
fn is_end(next: Move) -> bool
    ensures { result ≡ ends_tour next }
{
    matches!(next, Move::End)
}

/// Whether the partial tour has ended.
fn has_ended(prefix: &Prefix) -> bool
    ensures { (x : Course) × (course prefix.now ≡ Some x) × (result ≡ x.ended) }
{
    match prefix.moves().last() {
        Some(last) => is_end(*last),
        None => false,
    }
}

/// What the tour of an ended partial tour costs. None where it has not ended, where its tour breaks a rule,
/// or where it has settled something else.
fn settled_cost(alloc: Global, snapshot: &Snapshot, car: u32, prefix: &Prefix) -> Option<u64> {
    if !has_ended(prefix) {
        return None;
    }
    match prefix.tour(alloc) {
        Ok(tour) => lawful_cost(snapshot, car, &tour).filter(|cost| *cost == prefix.settled()),
        Err(_) => None,
    }
}

/// Walks all partial tours that begin with none. None where one of them is not as it has to be.
fn walk_from(alloc: Global, snapshot: &Snapshot, car: u32, prefix: &mut Prefix) -> Option<Seen> {
    let mut moves = Moves::new(alloc).ok()?;
    let mut seen = Seen {
        tours: 1,
        ended: 0,
        cost: 0,
    };
    let mut next = prefix.first_move(all_calls());
    while seen.tours < TOO_MANY {
        if !lists_next_moves(prefix, &mut moves) {
            return None;
        }
        match next {
            Some(step) => {
                prefix.push(step);
                seen.tours += 1;
                if is_end(step) {
                    seen.ended += 1;
                    let cost = settled_cost(alloc, snapshot, car, prefix)?;
                    seen.cost = seen.cost.wrapping_add(cost);
                }
                next = prefix.first_move(all_calls());
            }
            None => match prefix.pop() {
                Some(last) => next = prefix.move_after(all_calls(), last),
                None => return Some(seen),
            },
        }
    }
    None
}

/// Walks all partial tours of a car.
pub(crate) fn walk(alloc: Global, snapshot: &Snapshot, car: u32) -> Option<Seen> {
    if car as usize >= snapshot.building().cars().len() {
        return None;
    }
    match Prefix::new(alloc, snapshot, car) {
        Ok(mut prefix) => walk_from(alloc, snapshot, car, &mut prefix),
        Err(_) => None,
    }
}

/// How many tours these are, and what they cost together, modulo 2^64. None where one of them breaks a rule.
fn sum_of(snapshot: &Snapshot, car: u32, tours: &[Tour]) -> Option<(usize, u64)> {
    let mut sum: u64 = 0;
    for tour in tours {
        sum = sum.wrapping_add(lawful_cost(snapshot, car, tour)?);
    }
    Some((tours.len(), sum))
}

/// How many feasible tours of a car the plain solver lists, and what they cost together.
pub(crate) fn listed(alloc: Global, snapshot: &Snapshot, car: u32) -> Option<(usize, u64)> {
    if car as usize >= snapshot.building().cars().len() {
        return None;
    }
    match feasible_tours(alloc, snapshot, car) {
        Ok(tours) => sum_of(snapshot, car, &tours),
        Err(_) => None,
    }
}
