//! A walk over the partial tours of a car, depth first.

ghost use Rattle.std.specs.Prelude.{◌≡◌, ◌≤◌, ◌<◌, ◌++◌, ◌∷◌, [], IfSome};
ghost use Rattle.elevator_model.specs.Snapshot.{car_count};

use call_sets::CallSet;
use call_state::Snapshot;
use elevator_model::Move;
use partial_tours::Prefix;
use std::io;

/// What a walk saw.
#[derive(Clone, Copy)]
struct Seen {
    /// How many partial tours it came to. One that it came to again counts again.
    tours: u32,
    /// How many of them end.
    ended: u32,
    /// The sum of what those who got off cost, in cost units, modulo 2^64.
    settled: u64,
}

/// Walks on through the partial tours of the prefix's car, depth first, until this many were seen or none is
/// left.
fn walk_on(prefix: &mut Prefix, tours: u32, seen: &mut Seen)
    requires { seen.old.ended ≤ seen.old.tours }
    ensures ended { seen.new.ended ≤ seen.new.tours }
    ensures grows { seen.old.tours ≤ seen.new.tours }
    ensures snapshot { prefix.new.snapshot ≡ prefix.old.snapshot }
{
    let allowed = CallSet::from_bits(u128::MAX);
    let mut next = prefix.first_move(allowed);
    while seen.tours < tours {
        match next {
            Some(step) => {
                prefix.push(step);
                seen.tours += 1;
                seen.ended += u32::from(step == Move::End);
                seen.settled = seen.settled.wrapping_add(prefix.settled());
                next = prefix.first_move(allowed);
            }
            None => match prefix.pop() {
                Some(last) => next = prefix.move_after(allowed, last),
                None => break,
            },
        }
    }
}

/// Walks the partial tours of the prefix's car, all of them and then all of them again, this many together.
fn walk(prefix: &mut Prefix, tours: u32) -> Seen
    requires { 0 < car_count prefix.old.snapshot }
{
    let mut seen = Seen {
        tours: 0,
        ended: 0,
        settled: 0,
    };
    while seen.tours < tours {
        let before = seen.tours;
        walk_on(prefix, tours, &mut seen);
        if seen.tours == before {
            break;
        }
        prefix.restart(0);
    }
    seen
}

/// Walks this many partial tours of the first car depth first (where there are fewer, from the start again),
/// and prints how many there were, how many of them ended, and the sum of what those who got off cost, modulo
/// 2^64.
pub(crate) fn print_walk(rt: &HostRuntime, snapshot: &Snapshot, tours: u32) -> io::Result<bool> {
    if snapshot.building().cars().is_empty() {
        return Ok(false);
    }
    let seen = walk(&mut Prefix::new(rt.alloc(), snapshot, 0)?, tours);
    println!(rt;
        "calls {} cars {} floors {} tours {} ended {} settled {}",
        snapshot.calls().len(),
        snapshot.building().cars().len(),
        snapshot.building().heights().len(),
        seen.tours,
        seen.ended,
        seen.settled
    )?;
    Ok(true)
}
