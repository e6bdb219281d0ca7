//! The moves that may follow a partial tour, as sets.

ghost use Rattle.std.specs.Prelude.{◌≡◌, ℕ, ◌<◌, ◌≤◌, ◌+◌, ◌++◌, ◌&&◌, ◌||◌, not, Bool, true, false, nat_lt};
ghost use Rattle.std.specs.Prelude.{nat_le, map, vec_len, vec_capacity, is_some};
ghost use Rattle.std.specs.List.{filter};
ghost use Rattle.call_sets.specs.Counting.{has, any_below, members};
ghost use Rattle.elevator_model.specs.Tours.{rider_count};
ghost use Rattle.elevator_model.specs.declared.Move.{Move as MoveValue};
ghost use Rattle.elevator_model.specs.Snapshot.{Snapshot, call_count, call_of, state_of};
ghost use Rattle.elevator_model.specs.Snapshot.{is_coming as is_coming_lem, is_idle as is_idle_lem};
ghost use Rattle.elevator_model.specs.Partial.{Course, all_moves, move_on, lawful_moves, may_stand};
ghost use Rattle.partial_tours.specs.Courses.{TracksCourse, is_after, may_be_next, reached, empty_stop};
ghost use Rattle.partial_tours.specs.Courses.{IsOnWay};
ghost use Rattle.partial_tours.specs.Followers.{AreFollowers, ArePassing};
ghost use Rattle.partial_tours.specs.Orders.{first_of, next_after, first_choice as first_choice_lem};

use crate::points::Point;
use call_sets::{CallSet, FloorSet};
use car_layout::Layout;
use elevator_model::Move;

/// The members after the last index, and all where there is none.
pub fn after_last(calls: CallSet, last: Option<u32>) -> CallSet
    ensures { (j : ℕ) → has result j ≡ (has calls j && is_after last j) }
{
    match last {
        None => calls,
        Some(last) => calls.above(last),
    }
}

/// The calls for whose persons there is room.
pub fn calls_with_room(layout: &Layout, room: u32) -> CallSet
    ensures { (j : ℕ) → has result j
        ≡ (nat_lt j (call_count layout.now.snapshot) && nat_le (call_of layout.now.snapshot j).persons room) }
{
    // For the proof: no call has more than 8 persons.
    let _accepted = layout.snapshot();
    if room > 8 {
        layout.fitting(8)
    } else {
        layout.fitting(room)
    }
}

/// Whether a stop has begun, and the tour has not ended.
fn has_stopped(point: &Point) -> bool
    ensures { result ≡ (not point.now.ended && point.now.place.begun) }
{
    !point.ended && point.place.begun
}

/// Whether the present stop may be left.
fn may_be_left(point: &Point) -> bool
    ensures { result ≡ (not point.now.ended && point.now.useful) }
{
    !point.ended && point.useful
}

/// The calls that may board now.
pub(crate) fn boards_next(layout: &Layout, point: &Point, allowed: CallSet) -> CallSet
    ensures { (x : Course) → TracksCourse layout.now.snapshot layout.now.car point.now x
        → (j : ℕ) → has result j
        ≡ may_be_next layout.now.snapshot layout.now.car x (has allowed) (MoveValue.Board j) }
{
    if !has_stopped(point) {
        return CallSet::empty();
    }
    let here = point
        .waiting
        .intersection(allowed)
        .intersection(layout.starting(point.place.floor));
    after_last(here, point.last).intersection(calls_with_room(layout, point.room))
}

/// The floors to which a car may go from a floor, where someone is carried to each of these floors: not past
/// and not away from one.
fn floors_on_way(bound_for: FloorSet, floor: u32) -> FloorSet
    requires { floor < 64 }
    ensures on_way { (g : ℕ) → has result g ≡ true → (d : ℕ) → has bound_for d ≡ true
        → IsOnWay floor g d }
    ensures all { (g : ℕ) → g < 64 → ((d : ℕ) → has bound_for d ≡ true → IsOnWay floor g d)
        → has result g ≡ true }
{
    let Some(lowest) = bound_for.least() else {
        return FloorSet::lowest(64);
    };
    let Some(highest) = bound_for.greatest() else {
        return FloorSet::lowest(64);
    };
    let up = FloorSet::lowest(lowest + 1).above(floor);
    let down = FloorSet::lowest(floor).minus(FloorSet::lowest(highest));
    up.union(down).with(floor)
}

/// Whether the car is coming.
fn is_coming(layout: &Layout) -> bool
    ensures { result ≡ is_coming_lem (state_of layout.now.snapshot layout.now.car) }
{
    layout.snapshot().car(layout.car()).is_coming()
}

/// The floors where the car may make its first stop.
fn first_floors_next(layout: &Layout, point: &Point) -> FloorSet
    ensures { (x : Course) → TracksCourse layout.now.snapshot layout.now.car point.now x
        → (reached layout.now.snapshot layout.now.car x).begun ≡ false
        → (g : ℕ) → has result g ≡ may_stand layout.now.snapshot layout.now.car
        (reached layout.now.snapshot layout.now.car x) (empty_stop g) }
{
    // For the proof: each floor that is served is below 64.
    let _accepted = layout.snapshot();
    let floors = layout.served().intersection(layout.first_floors());
    if is_coming(layout) {
        floors
    } else {
        floors.intersection(floors_on_way(point.bound_for, point.place.floor))
    }
}

/// The floors where the car may make a later stop.
fn later_floors_next(layout: &Layout, point: &Point) -> FloorSet
    ensures { (x : Course) → TracksCourse layout.now.snapshot layout.now.car point.now x
        → (reached layout.now.snapshot layout.now.car x).begun ≡ true
        → (g : ℕ) → has result g ≡ may_stand layout.now.snapshot layout.now.car
        (reached layout.now.snapshot layout.now.car x) (empty_stop g) }
{
    // For the proof: each floor that is served is below 64.
    let _accepted = layout.snapshot();
    floors_on_way(point.bound_for, point.place.floor)
        .intersection(layout.served())
        .without(point.place.floor)
}

/// The floors to which the car may go now.
pub(crate) fn leaves_next(layout: &Layout, point: &Point) -> FloorSet
    ensures { (x : Course) → TracksCourse layout.now.snapshot layout.now.car point.now x
        → (g : ℕ) → has result g
        ≡ is_some (move_on layout.now.snapshot layout.now.car x (MoveValue.Leave g)) }
{
    if !may_be_left(point) {
        return FloorSet::empty();
    }
    if point.place.begun {
        later_floors_next(layout, point)
    } else {
        first_floors_next(layout, point)
    }
}

/// Whether the car is idle.
fn is_idle(layout: &Layout) -> bool
    ensures { result ≡ is_idle_lem (state_of layout.now.snapshot layout.now.car) }
{
    layout.snapshot().car(layout.car()).is_idle()
}

/// Whether the car has stopped, or needs not stop.
fn needs_no_stop(layout: &Layout, point: &Point) -> bool
    ensures { result ≡ (point.now.place.begun
        || is_idle_lem (state_of layout.now.snapshot layout.now.car)) }
{
    point.place.begun || is_idle(layout)
}

/// Whether nobody is carried.
fn carries_nobody(point: &Point) -> bool
    ensures { (s : Snapshot) (c : ℕ) (x : Course) → TracksCourse s c point.now x
        → result ≡ not (any_below (rider_count s) (reached s c x).carried) }
{
    match point.bound_for.least() {
        None => true,
        Some(_) => false,
    }
}

/// Whether the tour may end now.
pub(crate) fn ends_next(layout: &Layout, point: &Point) -> bool
    ensures { (x : Course) → TracksCourse layout.now.snapshot layout.now.car point.now x
        → result ≡ is_some (move_on layout.now.snapshot layout.now.car x MoveValue.End) }
{
    if !may_be_left(point) {
        return false;
    }
    if !needs_no_stop(layout, point) {
        return false;
    }
    carries_nobody(point)
}

/// The first of what may follow: the board of a call, the leave to a floor, or the end.
fn first_choice(call: Option<u32>, floor: Option<u32>, ends: bool) -> Option<Move>
    ensures { result ≡ first_choice_lem call floor ends }
{
    match (call, floor) {
        (Some(call), _) => Some(Move::Board(call)),
        (None, Some(floor)) => Some(Move::Leave(floor)),
        (None, None) if ends => Some(Move::End),
        (None, None) => None,
    }
}

/// Moves that may follow a partial tour, as sets.
#[derive(Clone, Copy)]
pub struct Followers {
    boards: CallSet,
    leaves: FloorSet,
    ends: bool,
}

impl Followers {
    /// The floors to which the car may go.
    pub fn leaves(&self) -> FloorSet
        ensures { result ≡ self.now.leaves }
    {
        self.leaves
    }

    /// The same without the leaves to these floors.
    pub fn without_leaves(&self, floors: FloorSet) -> Self
        ensures boards { result.boards ≡ self.now.boards }
        ensures leaves { (g : ℕ) → has result.leaves g
            ≡ (has self.now.leaves g && not (has floors g)) }
        ensures ends { result.ends ≡ self.now.ends }
    {
        Self {
            boards: self.boards,
            leaves: self.leaves.minus(floors),
            ends: self.ends,
        }
    }

    /// The first of them.
    pub fn first(&self) -> Option<Move>
        ensures { (s : Snapshot) (test : MoveValue → Bool) → ArePassing s test self.now
            → result ≡ first_of (filter test (all_moves s)) }
    {
        first_choice(self.boards.least(), self.leaves.least(), self.ends)
    }

    /// The first of them that comes after a move.
    pub fn after(&self, last: Move) -> Option<Move>
        ensures { (s : Snapshot) (test : MoveValue → Bool) → ArePassing s test self.now
            → result ≡ next_after last (filter test (all_moves s)) }
    {
        match last {
            Move::Board(call) => self.after_board(call),
            Move::Leave(floor) => self.after_leave(floor),
            Move::End => None,
        }
    }

    /// The first of them that comes after the board of a call.
    fn after_board(&self, last: u32) -> Option<Move>
        ensures { (s : Snapshot) (test : MoveValue → Bool) → ArePassing s test self.now
            → result ≡ next_after (MoveValue.Board last) (filter test (all_moves s)) }
    {
        let call = self.boards.above(last).least();
        first_choice(call, self.leaves.least(), self.ends)
    }

    /// The first of them that comes after the leave to a floor.
    fn after_leave(&self, last: u32) -> Option<Move>
        ensures { (s : Snapshot) (test : MoveValue → Bool) → ArePassing s test self.now
            → result ≡ next_after (MoveValue.Leave last) (filter test (all_moves s)) }
    {
        let floor = self.leaves.above(last).least();
        first_choice(None, floor, self.ends)
    }
}

/// The moves that may follow.
pub(crate) fn followers_at(layout: &Layout, point: &Point, allowed: CallSet) -> Followers
    ensures { (x : Course) → TracksCourse layout.now.snapshot layout.now.car point.now x
        → AreFollowers layout.now.snapshot layout.now.car x (has allowed) result }
{
    Followers {
        boards: boards_next(layout, point, allowed),
        leaves: leaves_next(layout, point),
        ends: ends_next(layout, point),
    }
}

/// Appends the boards of these calls.
fn push_boards(calls: CallSet, out: &mut Vec<Move>)
    requires { vec_len out.old + 128 ≤ vec_capacity out.old }
    ensures items { out.new.items ≡ out.old.items ++ map MoveValue.Board (members 128 calls) }
    ensures capacity { vec_capacity out.new ≡ vec_capacity out.old }
{
    for call in calls.iter() {
        out.push_reserved(Move::Board(call));
    }
}

/// Appends the leaves to these floors.
fn push_leaves(floors: FloorSet, out: &mut Vec<Move>)
    requires { vec_len out.old + 64 ≤ vec_capacity out.old }
    ensures items { out.new.items ≡ out.old.items ++ map MoveValue.Leave (members 64 floors) }
    ensures capacity { vec_capacity out.new ≡ vec_capacity out.old }
{
    for floor in floors.iter() {
        out.push_reserved(Move::Leave(floor));
    }
}

/// Puts the moves that may follow into the list, in order.
pub(crate) fn fill(layout: &Layout, point: &Point, allowed: CallSet, out: &mut Vec<Move>)
    requires { 193 ≤ vec_capacity out.old }
    ensures items { (x : Course) → TracksCourse layout.now.snapshot layout.now.car point.now x
        → out.new.items ≡ lawful_moves layout.now.snapshot layout.now.car x (has allowed) }
    ensures capacity { vec_capacity out.new ≡ vec_capacity out.old }
{
    // For the proof: there are at most 128 calls and 64 floors.
    let _accepted = layout.snapshot();
    out.clear();
    push_boards(boards_next(layout, point, allowed), out);
    push_leaves(leaves_next(layout, point), out);
    if ends_next(layout, point) {
        out.push_reserved(Move::End);
    }
}
