//! All tours of a car, with what the comparisons ask of them.

ghost use Rattle.std.specs.Prelude.{◌<◌};
ghost use Rattle.elevator_model.specs.Snapshot.{car_count};

use call_sets::CallSet;
use call_state::Snapshot;
use case_kit::{Checks, boards_of, lawful_cost};
use elevator_model::{Move, Stop, Tour};
use plain_solver::feasible_tours;
use std::alloc::{AllocError, Global};

/// A feasible tour of a car.
#[derive(Drop)]
pub(crate) struct Listed {
    /// Its moves: for each stop a leave, and then the boards by rising index; at last the end.
    pub(crate) moves: Vec<Move>,
    /// The calls that it serves.
    pub(crate) boards: CallSet,
    /// In cost units.
    pub(crate) cost: u64,
}

fn add_moves(moves: &mut Vec<Move>, stop: &Stop) -> Result<(), AllocError> {
    moves.push(Move::Leave(stop.floor))?;
    for call in CallSet::of_list(stop.boards.as_slice()).iter() {
        moves.push(Move::Board(call))?;
    }
    Ok(())
}

fn put_moves(moves: &mut Vec<Move>, tour: &Tour) -> Result<(), AllocError> {
    for stop in tour.stops() {
        add_moves(moves, stop)?;
    }
    moves.push(Move::End)?;
    Ok(())
}

fn moves_of(alloc: Global, tour: &Tour) -> Result<Vec<Move>, AllocError> {
    let mut moves = Vec::new(alloc);
    put_moves(&mut moves, tour)?;
    Ok(moves)
}

/// Appends a tour of the car, and notes whether it is feasible.
fn put_tour(
    alloc: Global,
    snapshot: &Snapshot,
    car: u32,
    tour: &Tour,
    lawful: &mut Checks,
    listed: &mut Vec<Listed>,
) -> Result<(), AllocError> {
    let cost = lawful_cost(snapshot, car, tour);
    lawful.note(cost.is_some());
    listed.push(Listed {
        moves: moves_of(alloc, tour)?,
        boards: boards_of(tour),
        cost: cost.unwrap_or(0),
    })?;
    Ok(())
}

fn list_tours(
    alloc: Global,
    snapshot: &Snapshot,
    car: u32,
    tours: &[Tour],
    lawful: &mut Checks,
) -> Result<Vec<Listed>, AllocError> {
    let mut listed = Vec::new(alloc);
    for tour in tours {
        put_tour(alloc, snapshot, car, tour, lawful, &mut listed)?;
    }
    Ok(listed)
}

/// All feasible tours of a car.
pub(crate) fn tours_of(
    alloc: Global,
    snapshot: &Snapshot,
    car: u32,
    lawful: &mut Checks,
) -> Result<Vec<Listed>, AllocError>
    requires { car < car_count snapshot.now }
{
    let tours = feasible_tours(alloc, snapshot, car)?;
    list_tours(alloc, snapshot, car, &tours, lawful)
}

/// What one of these tours costs for each call that it serves, on average. 0 where none serves a call.
pub(crate) fn mean_cost(tours: &[Listed]) -> u64 {
    let (mut costs, mut served): (u64, u64) = (0, 0);
    for tour in tours {
        costs = costs.wrapping_add(tour.cost);
        served = served.wrapping_add(u64::from(tour.boards.bits().count_ones()));
    }
    costs / served.max(1)
}
