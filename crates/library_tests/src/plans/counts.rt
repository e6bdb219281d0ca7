//! Snapshots as texts, and the counts of their partial tours. How many there are, how many of them end and
//! what these cost was counted by a program of its own, written from the definitions alone, which tries all
//! lists of stops and judges each from its start. It is not kept here: the counts are.

ghost use Rattle.std.specs.Prelude.{◌≤◌};

use crate::plans::walks::{Seen, listed, walk};
use call_state::Snapshot;
use case_kit::{is_so_of, snapshot_in};
use lift_text::put_line;
use std::alloc::{AllocError, Global};

/// Two groups aboard an idle car; one call in their direction, one in the other.
const GROUPS_ABOARD: &str = "building 1
speed 1700
accel 900
weights 3 2
floors 0 4100 7900 12300 15800
car 4 9 1300 1700 450 350 all
end
snapshot 1
now 50000
car 4 idle 1 50700
aboard 4 31 3 2 48900
aboard 4 32 4 3 49500
call 41 2 4 1 47300 any
call 42 3 0 2 44100 any
end
";

/// A coming car with a group that gets off where it comes to, and one that goes on.
const COMING: &str = "building 1
speed 2100
accel 800
weights 2 5
floors 0 3300 7100 10200 14900
car 9 7 1100 1900 600 400 all
end
snapshot 1
now 60000
car 9 coming 2 61300
aboard 9 51 2 1 57700
aboard 9 52 4 2 58300
call 61 2 0 3 55500 any
call 62 3 4 2 59100 any
call 63 4 1 1 52900 any
end
";

/// A moving car that can no longer stop at the floors 1 and 2, does not serve 3, and has a group aboard.
const MOVING: &str = "building 2
speed 2300
accel 1100
weights 4 3
patience 9000 2
floors 0 3900 8300 12100 16700 20200 25100
car 6 8 1200 1500 550 350 0 1 2 4 5 6
end
snapshot 2
now 70000
car 6 moving 0 up 66100
aboard 6 71 5 2 65200
call 81 4 6 3 63700 any
call 82 5 1 1 58300 any
call 83 2 0 2 61900 any
end
";

/// A moving car that can still stop at floor 3, but would have been there already; stated travel times that
/// differ by direction.
const MOVING_DOWN: &str = "building 3
speed 2300
accel 1100
weights 5 2
patience 7000 3
floors 0 4200 8300 12900 15500
times 0 3300 4800 6300 7400
times 3500 0 2900 4700 6100
times 5100 2700 0 3000 4300
times 6600 4500 2800 0 2000
times 7700 5800 3100 1450 0
car 18 6 1150 1350 500 700 all
end
snapshot 2
now 45000
car 18 moving 4 down 43500
aboard 18 93 1 3 41900
call 96 2 0 2 39800 any
call 97 3 1 1 43100 any
call 98 1 4 4 36700 any
end
";

/// Two cars, and calls that are pinned to either of them or to none. The text has the cars in another order.
const PINS: &str = "building 1
speed 1900
accel 1000
weights 1 2
floors 0 4300 8200 11900
car 3 6 900 1400 500 300 all
car 5 4 1000 1600 400 600 all
end
snapshot 1
now 40000
car 5 idle 2 41100
car 3 coming 1 40900
aboard 3 11 3 2 38700
call 21 0 3 1 37100 3
call 22 3 1 2 36200 5
call 23 1 2 3 39300 any
call 24 2 0 1 33800 any
end
";

/// A car that serves three of six floors: it may take the first, the third and the last call.
const SERVED_FLOORS: &str = "building 1
speed 2500
accel 1200
weights 5 3
floors 0 3700 8100 11300 15900 19400
car 2 5 1100 1300 450 650 0 2 5
car 8 8 1000 1200 500 550 all
end
snapshot 1
now 30000
car 2 idle 5 30400
car 8 idle 3 30900
call 91 0 5 2 28300 any
call 92 1 5 1 27100 any
call 93 2 0 3 25900 any
call 94 5 3 2 29200 any
call 95 5 2 1 24700 any
end
";

/// As many floors as a building may have, and calls far apart.
const MANY_FLOORS: &str = "building 1
speed 6100
accel 1300
weights 2 3
floors 0 3237 6488 9753 13032 15675 18982 22303 25638 28987 31700 35077 38468 41873 45292 48075 51522 54983 \
    58458 61947 64800 68317 71848 75393 78952 81875 85462 89063 92678 96307 99300 102957 106628 110313 114012 \
    117075 120802 124543 128298 132067 135200 138997 142808 146633 150472 153675 157542 161423 165318 169227 \
    172500 176437 180388 184353 188332 191675 195682 199703 203738 207787 211200 215277 219368 223473
car 12 7 1700 2300 700 500 all
end
snapshot 1
now 90000
car 12 idle 37 91300
call 101 2 59 3 81700 any
call 102 61 11 2 86300 any
call 103 29 46 1 78900 any
end
";

/// Three calls of a queue, of which two were released at the same moment, the one with the greater id first;
/// stated travel times that differ by direction.
const TIES: &str = "building 3
speed 1000
accel 1000
weights 3 7
patience 4000 2
floors 0 4000 8500 12100
times 0 4100 6900 8800
times 4700 0 3900 6200
times 7300 4400 0 3700
times 9100 6600 4300 0
car 14 5 1500 1100 350 750 all
end
snapshot 1
now 80000
car 14 idle 2 80300
call 19 1 3 2 76500 any
call 17 1 2 1 76500 any
call 11 1 3 3 77900 any
call 13 2 0 1 71200 any
end
";

/// Waits past the patience, and a car for three persons.
const PATIENCE: &str = "building 2
speed 1800
accel 950
weights 2 3
patience 11000 7
floors 0 4400 8900 12700
car 16 3 1250 1450 650 550 all
end
snapshot 1
now 55000
car 16 idle 1 55900
call 33 0 2 1 41700 any
call 35 2 1 2 47300 any
call 37 3 0 3 52100 any
call 39 1 3 2 36400 any
end
";

/// The head of a snapshot with as many calls as it may have.
const MANY_CALLS: &str = "building 2
speed 1600
accel 700
weights 3 4
patience 5000 6
floors 0 3600 7700 12500 16100
car 7 8 1000 1000 500 500 all
car 1 5 1400 1800 650 450 all
end
snapshot 1
now 20000
car 7 idle 0 20000
car 1 idle 3 20600
";

/// Appends the call with this id. The second car may take three of the calls, of which one is pinned to it:
/// the others are pinned to the first.
fn put_call(out: &mut Vec<u8>, id: u64) -> Result<(), AllocError>
    requires { id ≤ 128 }
{
    match id {
        5 => out.extend_from_slice(b"call 5 1 4 2 12700 any\n"),
        77 => out.extend_from_slice(b"call 77 3 0 1 9300 1\n"),
        128 => out.extend_from_slice(b"call 128 4 2 3 15100 any\n"),
        _ => {
            let numbers = [id, id % 5, (id + 2) % 5, 1 + id % 4, 50 + 97 * id, 7];
            put_line(out, b"call", &numbers)
        }
    }
}

/// The text of this snapshot.
fn many_calls(alloc: Global) -> Result<Vec<u8>, AllocError> {
    let mut text = Vec::from_slice(alloc, MANY_CALLS.as_bytes())?;
    for id in 1..129 {
        put_call(&mut text, id)?;
    }
    text.extend_from_slice(b"end\n")?;
    Ok(text)
}

/// Whether a walk sees this, and the plain solver lists as many feasible tours at the same cost.
fn agrees(alloc: Global, snapshot: &Snapshot, car: u32, due: Seen) -> bool {
    walk(alloc, snapshot, car) == Some(due)
        && listed(alloc, snapshot, car) == Some((due.ended as usize, due.cost))
}

/// Whether this is so of a text's snapshot.
fn agrees_in(alloc: Global, text: &[u8], car: u32, due: Seen) -> bool {
    is_so_of(
        snapshot_in(alloc, text),
        &|snapshot: &Snapshot| -> bool { agrees(alloc, snapshot, car, due) },
    )
}

fn seen(tours: u32, ended: u32, cost: u64) -> Seen {
    Seen { tours, ended, cost }
}

#[test]
fn partial_tours_are_walked_and_counted(rt: HostRuntime) {
    for (text, car, due) in [
        (GROUPS_ABOARD, 0, seen(65, 7, 2_681_726)),
        (COMING, 0, seen(204, 25, 18_023_096)),
        (MOVING, 0, seen(415, 44, 50_967_483)),
        (MOVING_DOWN, 0, seen(372, 43, 51_490_300)),
        (PINS, 0, seen(179, 24, 5_281_295)),
        (PINS, 1, seen(129, 19, 3_014_302)),
        (SERVED_FLOORS, 0, seen(87, 16, 9_491_472)),
        (MANY_FLOORS, 0, seen(1968, 19, 20_732_019)),
        (TIES, 0, seen(331, 45, 39_495_250)),
        (PATIENCE, 0, seen(531, 76, 127_353_840)),
    ] {
        assert!(rt; agrees_in(rt.alloc(), text.as_bytes(), car, due), "{text}");
    }
}

fn agrees_in_many_calls(alloc: Global, car: u32, due: Seen) -> bool {
    match many_calls(alloc) {
        Ok(text) => agrees_in(alloc, &text, car, due),
        Err(_) => false,
    }
}

#[test]
fn three_of_many_calls_are_taken(rt: HostRuntime) {
    assert!(rt; agrees_in_many_calls(rt.alloc(), 1, seen(169, 19, 23_297_724)));
}
