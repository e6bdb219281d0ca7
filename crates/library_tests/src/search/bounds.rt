//! Completion bounds of partial tours.

ghost use Rattle.std.specs.Prelude.{◌≡◌};

use call_sets::CallSet;
use call_state::Snapshot;
use case_kit::{is_so_of, snapshot_in};
use partial_tours::Prefix;
use price_scale::Price;
use pricing_bound::bound;
use std::alloc::Global;

/// The car stands at the lowest floor with two persons for the highest one. Calls wait at the middle, the
/// highest and the lowest floor. A ms of waiting costs 3 and past 6,000 ms 5 more, and one of riding 2.
const THREE_CALLS: &str = "building 3
speed 2000
accel 1000
weights 3 2
patience 6000 5
floors 0 4000 9000
times 0 4000 7000
times 4000 0 4500
times 7000 4500 0
car 4 5 1000 900 500 400 all
end
snapshot 2
now 2000
car 4 idle 0 2500
aboard 4 3 2 2 700
call 7 1 2 1 1100 any
call 8 2 0 3 300 any
call 9 0 1 2 1900 any
end
";

/// The car goes to the middle floor, where the first call boards.
fn board_first(prefix: &mut Prefix) -> Option<()>
    ensures { prefix.new.snapshot ≡ prefix.old.snapshot }
{
    let nobody = CallSet::from_bits(0);
    let lowest = prefix.first_move(nobody)?;
    let middle = prefix.move_after(nobody, lowest)?;
    prefix.push(middle);
    let board = prefix.first_move(CallSet::from_bits(0b001))?;
    prefix.push(board);
    Some(())
}

/// The car goes on to the next floor.
fn go_on(prefix: &mut Prefix) -> Option<()>
    ensures { prefix.new.snapshot ≡ prefix.old.snapshot }
{
    let highest = prefix.first_move(CallSet::from_bits(0))?;
    prefix.push(highest);
    Some(())
}

/// What is asked of a partial tour.
#[derive(Clone, Copy)]
struct Asked {
    prices: [i128; 3],
    allowed: u128,
    required: u128,
}

fn asked_bound(snapshot: &Snapshot, prefix: &Prefix, asked: Asked) -> Option<i128>
    requires { snapshot.now ≡ prefix.now.snapshot }
{
    let [first, second, third] = asked.prices;
    let prices = [Price::new(first)?, Price::new(second)?, Price::new(third)?];
    if snapshot.calls().len() != 3 {
        return None;
    }
    let (allowed, required) = (
        CallSet::from_bits(asked.allowed),
        CallSet::from_bits(asked.required),
    );
    Some(bound(snapshot, prefix, &prices, allowed, required))
}

/// The bounds where the first call has boarded, and where it has got off.
fn bounds_along(snapshot: &Snapshot, prefix: &mut Prefix, asked: Asked) -> Option<[i128; 2]>
    requires { snapshot.now ≡ prefix.old.snapshot }
{
    board_first(prefix)?;
    let carried = asked_bound(snapshot, prefix, asked)?;
    go_on(prefix)?;
    let delivered = asked_bound(snapshot, prefix, asked)?;
    Some([carried, delivered])
}

/// The same of the only car.
fn bounds_of(alloc: Global, snapshot: &Snapshot, asked: Asked) -> Option<[i128; 2]> {
    if snapshot.building().cars().len() != 1 {
        return None;
    }
    match Prefix::new(alloc, snapshot, 0) {
        Ok(mut prefix) => bounds_along(snapshot, &mut prefix, asked),
        Err(_) => None,
    }
}

/// Whether these are the bounds in the snapshot with the three calls.
fn are_bounds(alloc: Global, asked: Asked, due: [i128; 2]) -> bool {
    is_so_of(
        snapshot_in(alloc, THREE_CALLS.as_bytes()),
        &|snapshot: &Snapshot| -> bool { bounds_of(alloc, snapshot, asked) == Some(due) },
    )
}

/// What is asked at these prices of calls that may board and calls that have to.
fn at(prices: [i128; 3], allowed: u128, required: u128) -> Asked {
    Asked {
        prices,
        allowed,
        required,
    }
}

// Where the first call has boarded, the doors are open at 7,500: it costs 30,200 to its floor and the group
// 45,200. The second call would cost 124,800 and the third one 49,600. At 14,400 both are there, for 89,800
// together, and the others would cost 290,400 and 156,000.

#[test]
fn a_call_counts_where_it_lowers_the_bound(rt: HostRuntime) {
    let prices = [11_000_013, 130_000_500, 0];
    let all = at(prices, 0b111, 0b000);
    assert!(rt; are_bounds(rt.alloc(), all, [59_199_487, 78_799_987]));
    let some = at(prices, 0b101, 0b000);
    assert!(rt; are_bounds(rt.alloc(), some, [64_399_987, 78_799_987]));
}

#[test]
fn a_required_call_counts_always(rt: HostRuntime) {
    let third = at([11_000_013, 130_000_500, 0], 0b111, 0b100);
    assert!(rt; are_bounds(rt.alloc(), third, [108_799_487, 234_799_987]));
    let second = at([0, 0, 0], 0b111, 0b010);
    assert!(rt; are_bounds(rt.alloc(), second, [200_200_000, 380_200_000]));
}
