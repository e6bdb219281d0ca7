//! Every feasible tour of a car, by depth-first search over the partial tours.

ghost use Rattle.std.specs.Prelude.{◌≡◌, ℕ, ◌≤◌, ◌<◌, ◌++◌, ◌∷◌, [], OnOk, IfOk, Some, true, length};
ghost use Rattle.elevator_model.specs.Snapshot.{car_count, call_count};
ghost use Rattle.elevator_model.specs.Partial.{Course, IsLawful};
ghost use Rattle.partial_tours.specs.PartialTour.{course, with_move};
ghost use Rattle.partial_tours.specs.Listed.{AreAllTours, AddsTours, ends_tour};

use call_sets::CallSet;
use call_state::Snapshot;
use elevator_model::{MOST_CALLS, Move, Tour};
use partial_tours::Prefix;
use std::alloc::{AllocError, Global};

/// The feasible tours of a car: every way to stop and to let calls board that breaks no rule, each once.
/// The order in which calls board at a stop makes no other tour.
///
/// Their number grows fast with the number of calls: this is for a few calls only. The only error
/// is that memory runs out.
pub fn feasible_tours(alloc: Global, snapshot: &Snapshot, car: u32) -> Result<Vec<Tour>, AllocError>
    requires { car < car_count snapshot.now }
    ensures { IfOk result (λ tours. AreAllTours snapshot.now car tours.items) }
{
    // So the set of all ones has each call.
    prove!(snapshot.calls().len() <= MOST_CALLS);
    let mut prefix = Prefix::new(alloc, snapshot, car)?;
    let mut found = Vec::new(alloc);
    add_tours(alloc, &mut prefix, &mut found)?;
    Ok(found)
}

/// Whether the move ends a tour.
fn is_end(next: Move) -> bool
    ensures { result ≡ ends_tour next }
{
    matches!(next, Move::End)
}

/// Whether the partial tour has ended.
fn has_ended(prefix: &Prefix) -> bool
    ensures { (x : Course) × (course prefix.now ≡ Some x) × (result ≡ x.ended) }
{
    match prefix.moves().last() {
        Some(last) => is_end(*last),
        None => false,
    }
}

/// Adds the tour of an ended partial tour.
fn add_tour(alloc: Global, prefix: &Prefix, found: &mut Vec<Tour>) -> Result<(), AllocError>
    requires { (x : Course) × (course prefix.now ≡ Some x) × (x.ended ≡ true) }
    ensures { OnOk result (AddsTours prefix.now found.old.items found.new.items) }
{
    let tour = prefix.tour(alloc)?;
    found.push(tour)?;
    Ok(())
}

/// Adds the tours to which the partial tour can lead.
#[cycle(search)]
fn add_tours(alloc: Global, prefix: &mut Prefix, found: &mut Vec<Tour>) -> Result<(), AllocError>
    requires { call_count prefix.old.snapshot ≤ MOST_CALLS }
    ensures prefix { OnOk result (prefix.new ≡ prefix.old) }
    ensures found { OnOk result (AddsTours prefix.old found.old.items found.new.items) }
{
    if has_ended(prefix) {
        return add_tour(alloc, prefix, found);
    }
    let allowed = CallSet::from_bits(u128::MAX);
    let mut next = prefix.first_move(allowed);
    while let Some(step) = next {
        add_tours_after(alloc, prefix, step, found)?;
        next = prefix.move_after(allowed, step);
    }
    Ok(())
}

/// Adds the tours to which the partial tour can lead with one more move.
#[cycle(search)]
fn add_tours_after(
    alloc: Global,
    prefix: &mut Prefix,
    next: Move,
    found: &mut Vec<Tour>,
) -> Result<(), AllocError>
    requires few { call_count prefix.old.snapshot ≤ MOST_CALLS }
    requires lawful { IsLawful prefix.old.snapshot prefix.old.car (prefix.old.moves ++ next ∷ []) }
    ensures prefix { OnOk result (prefix.new ≡ prefix.old) }
    ensures found { OnOk result
        (AddsTours (with_move prefix.old next) found.old.items found.new.items) }
{
    prefix.push(next);
    add_tours(alloc, prefix, found)?;
    prefix.pop();
    Ok(())
}
