//! Which partial tours some tour begins with.

ghost use Rattle.std.specs.Prelude.{◌++◌, ◌∷◌, [], IfSome};
ghost use Rattle.elevator_model.specs.Partial.{IsLawful};

use call_sets::CallSet;
use call_state::Snapshot;
use case_kit::{is_so_of, snapshot_in};
use elevator_model::Move;
use partial_tours::Prefix;
use std::alloc::Global;
use tour_extension::{Demand, can_be_extended};

/// At the middle floor two persons came first, and then one. All go to the upper floor. The car stands at the
/// lower one.
const QUEUE: &str = "building 1
speed 2000
accel 1000
weights 3 2
floors 0 4000 8000
car 4 3 1000 900 500 400 all
end
snapshot 1
now 70
car 4 idle 0 80
call 8 1 2 2 50 any
call 9 1 2 1 60 any
end
";

/// The first lawful move that is not before this one.
fn lawful(prefix: &Prefix, wanted: Move) -> Option<Move>
    ensures { IfSome result
        (λ m. IsLawful prefix.now.snapshot prefix.now.car (prefix.now.moves ++ m ∷ [])) }
{
    match wanted {
        Move::Board(call) if call < 128 => prefix.first_move(CallSet::empty().with(call)),
        Move::Leave(floor) if floor > 0 => {
            prefix.move_after(CallSet::empty(), Move::Leave(floor - 1))
        }
        Move::Board(_) | Move::Leave(_) => prefix.first_move(CallSet::empty()),
        Move::End => prefix.move_after(CallSet::empty(), Move::Leave(63)),
    }
}

/// Makes a lawful move.
fn make(prefix: &mut Prefix, wanted: Move) -> Option<()> {
    let next = lawful(prefix, wanted)?;
    prefix.push(next);
    if next == wanted { Some(()) } else { None }
}

/// Whether some tour begins with these moves, which come after the partial tour, in which the required calls
/// board.
fn goes_on(prefix: &mut Prefix, required: u128, moves: &[Move]) -> Option<bool> {
    for next in moves {
        make(prefix, *next)?;
    }
    let demand = Demand {
        allowed: CallSet::from_bits(0b11),
        required: CallSet::from_bits(required),
    };
    if !demand.is_for(prefix) {
        return None;
    }
    Some(can_be_extended(prefix, &demand))
}

/// Whether some tour of the first car begins with these moves.
fn extends(alloc: Global, snapshot: &Snapshot, required: u128, moves: &[Move]) -> Option<bool> {
    if snapshot.building().cars().is_empty() {
        return None;
    }
    match Prefix::new(alloc, snapshot, 0) {
        Ok(mut prefix) => goes_on(&mut prefix, required, moves),
        Err(_) => None,
    }
}

/// Whether this is so, or not so, in the queue.
fn extends_in_queue(alloc: Global, required: u128, moves: &[Move], expected: bool) -> bool {
    is_so_of(
        snapshot_in(alloc, QUEUE.as_bytes()),
        &|snapshot: &Snapshot| -> bool {
            extends(alloc, snapshot, required, moves) == Some(expected)
        },
    )
}

#[test]
fn two_calls_of_a_queue(rt: HostRuntime) {
    use Move::{Board, End, Leave};
    // The first call, or neither, has to board.
    let rows: [(u128, &[Move], bool); 10] = [
        (0b01, &[], true),
        (0b00, &[End], true),
        (0b01, &[End], false),
        (0b01, &[Leave(2)], false),
        (0b01, &[Leave(1)], true),
        // The second call passes the first one, whose index is lower.
        (0b01, &[Leave(1), Board(1)], false),
        (0b00, &[Leave(1), Board(1)], true),
        (0b10, &[Leave(1), Board(0)], true),
        (0b01, &[Leave(1), Board(0), Board(1), Leave(2), End], true),
        (0b10, &[Leave(1), Board(0), Leave(2), End], false),
    ];
    for (required, moves, expected) in rows {
        assert!(rt; extends_in_queue(rt.alloc(), required, moves, expected));
    }
}
