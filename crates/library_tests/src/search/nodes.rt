//! Roots and splits of nodes: which cars each call has, and which calls each car may board and has to.

ghost use Rattle.std.specs.Prelude.{◌≡◌, length};

use assign_branch::{BadSplit, CarSet, Node, root, split};
use call_state::Snapshot;
use case_kit::{is_so_of, put_lines, snapshot_in};
use lift_text::put_words;
use std::alloc::{AllocError, Global};

/// The first car lacks the top floor, the third one floor 1. The third call is for more persons than the
/// third car takes, and the last one is pinned to that car.
const UNEVEN: &str = "building 1
speed 2000
accel 1000
weights 3 2
floors 0 4000 8000 12000
car 3 3 1000 900 500 400 0 1 2
car 1 8 1000 900 500 400 all
car 7 2 1000 900 500 400 0 2 3
end
snapshot 1
now 0
car 3 idle 0 0
car 1 idle 0 0
car 7 idle 0 0
call 11 0 2 2 0 any
call 5 1 2 1 0 any
call 8 3 0 3 0 any
call 2 2 3 1 0 any
call 9 3 2 2 0 7
end
";

/// Whether the first five calls have these sets, and there are no more.
fn has_sets(node: &Node, sets: [u16; 5]) -> bool {
    for call in 0..5u32 {
        if node.set(call).bits() != sets[call as usize] {
            return false;
        }
    }
    node.set(5).is_empty()
}

/// The calls that the car may board and those that it has to, by the bits of two numbers.
fn demands(node: &Node, car: u32) -> [u128; 2] {
    [node.allowed(car).bits(), node.required(car).bits()]
}

fn set(bits: u16) -> CarSet {
    CarSet::from_bits(bits)
}

/// Whether the split is refused for its part.
fn is_refused(node: &Node, call: u32, part: u16, first: &mut Node, second: &mut Node) -> bool
    requires first { length first.old ≡ length node.now }
    requires second { length second.old ≡ length node.now }
    ensures first { length first.new ≡ length node.now }
    ensures second { length second.new ≡ length node.now }
{
    let part = set(part);
    split(node, call, part, first, second) == Err(BadSplit { part })
}

/// Whether each call of the uneven root has its possible cars.
fn has_possible_cars(node: &Node) -> bool {
    has_sets(node, [0b111, 0b011, 0b010, 0b110, 0b100])
        && demands(node, 0) == [0b00011, 0]
        && demands(node, 1) == [0b01111, 0b00100]
        && demands(node, 2) == [0b11001, 0b10000]
        && demands(node, 3) == [0, 0]
        && demands(node, 16) == [0, 0]
}

/// Whether a split of the uneven root divides one set.
fn divides(node: &Node, first: &mut Node, second: &mut Node) -> bool
    requires first { length first.old ≡ length node.now }
    requires second { length second.old ≡ length node.now }
{
    split(node, 0, set(0b101), first, second) == Ok(())
        && has_sets(first, [0b101, 0b011, 0b010, 0b110, 0b100])
        && has_sets(second, [0b010, 0b011, 0b010, 0b110, 0b100])
        && demands(first, 0) == [0b00011, 0]
        && demands(first, 1) == [0b01110, 0b00100]
        && demands(second, 1) == [0b01111, 0b00101]
        && demands(second, 2) == [0b11000, 0b10000]
}

/// Whether each of these parts of a call of the uneven root is refused. The second call has the first two
/// cars.
fn are_refused(node: &Node, first: &mut Node, second: &mut Node) -> bool
    requires first { length first.old ≡ length node.now }
    requires second { length second.old ≡ length node.now }
    ensures first { length first.new ≡ length node.now }
    ensures second { length second.new ≡ length node.now }
{
    is_refused(node, 1, 0, first, second)
        && is_refused(node, 1, 0b011, first, second)
        && is_refused(node, 1, 0b101, first, second)
        && is_refused(node, 1, 0b100, first, second)
        && is_refused(node, 2, 0b010, first, second)
        && is_refused(node, 5, 0b001, first, second)
}

/// Whether parts that do not divide a set are refused, and leave both nodes as they were.
fn refuses(node: &Node, first: &mut Node, second: &mut Node) -> bool
    requires first { length first.old ≡ length node.now }
    requires second { length second.old ≡ length node.now }
{
    split(node, 3, set(0b010), first, second) == Ok(())
        && are_refused(node, first, second)
        && has_sets(first, [0b111, 0b011, 0b010, 0b010, 0b100])
        && has_sets(second, [0b111, 0b011, 0b010, 0b100, 0b100])
        && split(node, 1, set(0b010), first, second) == Ok(())
        && has_sets(first, [0b111, 0b010, 0b010, 0b110, 0b100])
        && has_sets(second, [0b111, 0b001, 0b010, 0b110, 0b100])
}

/// Whether the root of the crowd, and its split, have the greatest sizes.
fn is_greatest(node: &Node, first: &mut Node, second: &mut Node) -> bool
    requires first { length first.old ≡ length node.now }
    requires second { length second.old ≡ length node.now }
{
    demands(node, 0) == [u128::MAX, 0]
        && demands(node, 15) == [u128::MAX, 0]
        && split(node, 127, set(1 << 15), first, second) == Ok(())
        && demands(first, 15) == [u128::MAX, 1 << 127]
        && demands(second, 15) == [u128::MAX >> 1, 0]
        && second.set(127) == set(0x7fff)
}

/// What is compared of a root.
#[derive(Clone, Copy)]
enum Case {
    PossibleCars,
    Divided,
    Refused,
    Greatest,
}

impl Case {
    fn snapshot(self, alloc: Global) -> Option<Snapshot> {
        match self {
            Case::PossibleCars | Case::Divided | Case::Refused => {
                snapshot_in(alloc, UNEVEN.as_bytes())
            }
            Case::Greatest => crowded(alloc),
        }
    }

    /// Whether it is so of the root, where both others are copies of it.
    fn is_so(self, node: &Node, first: &mut Node, second: &mut Node) -> bool
        requires first { length first.old ≡ length node.now }
        requires second { length second.old ≡ length node.now }
    {
        match self {
            Case::PossibleCars => has_possible_cars(node),
            Case::Divided => divides(node, first, second),
            Case::Refused => refuses(node, first, second),
            Case::Greatest => is_greatest(node, first, second),
        }
    }

    fn is_so_of(self, alloc: Global, node: &Node) -> bool {
        let Ok(mut first) = node.copy(alloc) else {
            return false;
        };
        match node.copy(alloc) {
            Ok(mut second) => self.is_so(node, &mut first, &mut second),
            Err(_) => false,
        }
    }

    fn is_so_in(self, alloc: Global, snapshot: &Snapshot) -> bool {
        match root(alloc, snapshot) {
            Ok(node) => self.is_so_of(alloc, &node),
            Err(_) => false,
        }
    }

    fn is_right(self, alloc: Global) -> bool {
        is_so_of(
            self.snapshot(alloc),
            &|snapshot: &Snapshot| -> bool { self.is_so_in(alloc, snapshot) },
        )
    }
}

/// Appends a snapshot of 16 cars and 128 calls, from all floors to the next one.
fn put_crowd(text: &mut Vec<u8>) -> Result<(), AllocError> {
    put_lines(
        text,
        "building 2 / speed 2000 / accel 1000 / weights 3 2 / patience 0 0",
    )?;
    put_lines(text, "floors 0 4000 8000 12000")?;
    for car in 1..17 {
        put_words(text, b"car", &[car])?;
        put_lines(text, " 8 1000 900 500 400 all")?;
    }
    put_lines(text, "end / snapshot 1 / now 0")?;
    for car in 1..17 {
        put_words(text, b"car", &[car])?;
        put_lines(text, " idle 0 0")?;
    }
    for call in 0..128u64 {
        put_words(text, b"call", &[1 + call, call % 4, (call + 1) % 4])?;
        put_lines(text, " 1 0 any")?;
    }
    put_lines(text, "end")
}

/// That snapshot.
fn crowded(alloc: Global) -> Option<Snapshot> {
    let mut text = Vec::new(alloc);
    match put_crowd(&mut text) {
        Ok(()) => snapshot_in(alloc, &text),
        Err(_) => None,
    }
}

#[test]
fn roots_and_splits(rt: HostRuntime) {
    assert!(rt; Case::PossibleCars.is_right(rt.alloc()));
    assert!(rt; Case::Divided.is_right(rt.alloc()));
    assert!(rt; Case::Refused.is_right(rt.alloc()));
    assert!(rt; Case::Greatest.is_right(rt.alloc()));
}
