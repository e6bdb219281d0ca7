//! Where a partial tour begins, and where its moves lead.

ghost use Rattle.std.specs.Prelude.{◌≡◌, ℕ, ◌≤◌, ◌<◌, ◌==◌, ◌||◌, not, Some};
ghost use Rattle.call_sets.specs.Counting.{has};
ghost use Rattle.elevator_model.specs.Snapshot.{Snapshot, state_of, is_idle};
ghost use Rattle.elevator_model.specs.Tours.{Progress, persons_where, gets_off, make_stop};
ghost use Rattle.elevator_model.specs.Partial.{Course, course_start, move_on};
ghost use Rattle.elevator_model.specs.declared.Move.{Move};
ghost use Rattle.tour_rules.specs.Places.{Tracks};
ghost use Rattle.car_layout.specs.Layouts.{ends_at};
ghost use Rattle.partial_tours.specs.Courses.{TracksCourse, LeadsOn, reached, empty_stop};

use crate::points::Point;
use call_sets::CallSet;
use car_layout::Layout;
use elevator_model::MOST_CALLS;
use tour_rules::places::{CarPlace, Heading, at_start, persons_carried};

impl Point {
    /// A partial tour without moves.
    pub(crate) fn start(layout: &Layout) -> Self
        ensures { TracksCourse layout.now.snapshot layout.now.car result
            (course_start layout.now.snapshot layout.now.car) }
    {
        let snapshot = layout.snapshot();
        let car = layout.car();
        let place = at_start(snapshot, car);
        let aboard = persons_carried(snapshot, car, &place, Heading::Anywhere);
        Self {
            place,
            ended: false,
            useful: true,
            last: None,
            room: snapshot.spec(car).capacity - aboard,
            waiting: layout.possible(),
            passed: CallSet::empty(),
            bound_for: layout.destinations(),
        }
    }

    /// Where the board of a call leads.
    pub(crate) fn after_board(&self, layout: &Layout, call: u32) -> Self
        requires { LeadsOn layout.now.snapshot layout.now.car self.now (Move.Board call) }
        ensures { (x y : Course) → TracksCourse layout.now.snapshot layout.now.car self.now x
            → move_on layout.now.snapshot layout.now.car x (Move.Board call) ≡ Some y
            → TracksCourse layout.now.snapshot layout.now.car result y }
    {
        let boarding = &layout.snapshot().calls()[call as usize];
        Self {
            place: with_board(&self.place, call),
            ended: false,
            useful: true,
            last: Some(call),
            room: self.room - boarding.persons,
            waiting: self.waiting.without(call),
            passed: self.passed.union(layout.earlier(call)),
            bound_for: self.bound_for.with(boarding.destination),
        }
    }

    /// Whether somebody gets off at a next stop at this floor, or it needs no use.
    fn is_useful_at(&self, layout: &Layout, floor: u32) -> bool
        ensures { result ≡ (has self.now.bound_for floor || not (self.now.place.begun
            || is_idle (state_of layout.now.snapshot layout.now.car))) }
    {
        if self.bound_for.contains(floor) || self.place.begun {
            return self.bound_for.contains(floor);
        }
        !layout.snapshot().car(layout.car()).is_idle()
    }

    /// Where the leave to a floor leads, where this many persons get off.
    pub(crate) fn after_leave(&self, layout: &Layout, floor: u32, persons_off: u32) -> Self
        requires lawful { LeadsOn layout.now.snapshot layout.now.car self.now (Move.Leave floor) }
        requires off { (x : Course) → TracksCourse layout.now.snapshot layout.now.car self.now x
            → persons_off ≡ persons_where layout.now.snapshot
            (gets_off layout.now.snapshot (reached layout.now.snapshot layout.now.car x) floor) }
        ensures { (x y : Course) → TracksCourse layout.now.snapshot layout.now.car self.now x
            → move_on layout.now.snapshot layout.now.car x (Move.Leave floor) ≡ Some y
            → TracksCourse layout.now.snapshot layout.now.car result y }
    {
        // For the proof: a floor of the building is below 64, and a car carries at most 64 persons.
        let _accepted = layout.snapshot();
        let _car = layout.car();
        let ending = layout.ending(floor);
        Self {
            place: with_stop(&self.place, floor, ending),
            ended: false,
            useful: self.is_useful_at(layout, floor),
            last: None,
            room: self.room + persons_off,
            waiting: self.waiting.minus(self.passed),
            passed: CallSet::empty(),
            bound_for: self.bound_for.without(floor),
        }
    }

    /// Where the end leads.
    pub(crate) fn after_end(&self) -> Self
        ensures { (s : Snapshot) (c : ℕ) (x y : Course) → TracksCourse s c self.now x
            → move_on s c x Move.End ≡ Some y → TracksCourse s c result y }
    {
        Self {
            place: self.place,
            ended: true,
            useful: self.useful,
            last: self.last,
            room: self.room,
            waiting: self.waiting,
            passed: self.passed,
            bound_for: self.bound_for,
        }
    }
}

/// The car with one call more at its stop.
pub fn with_board(place: &CarPlace, call: u32) -> CarPlace
    requires { call < MOST_CALLS }
    ensures boarded { (j : ℕ) → has result.boarded j ≡ (has place.now.boarded j || (j == call)) }
    ensures carried { (j : ℕ) → has result.carried j ≡ (has place.now.carried j || (j == call)) }
    ensures begun { result.begun ≡ place.now.begun }
    ensures floor { result.floor ≡ place.now.floor }
    ensures visited { result.visited ≡ place.now.visited }
{
    CarPlace {
        begun: place.begun,
        floor: place.floor,
        boarded: place.boarded.with(call),
        carried: place.carried.with(call),
        visited: place.visited,
    }
}

/// The car after a stop where nobody boards and these calls get off if they are carried.
pub fn with_stop(place: &CarPlace, floor: u32, ending: CallSet) -> CarPlace
    requires { floor < 64 }
    ensures tracks { (s : Snapshot) (c : ℕ) (p : Progress) → Tracks s c place.now p
        → ((j : ℕ) → has ending j ≡ ends_at s floor j)
        → Tracks s c result (make_stop s c p (empty_stop floor)) }
    ensures floor { result.floor ≡ floor }
{
    CarPlace {
        begun: true,
        floor,
        boarded: place.boarded,
        carried: place.carried.minus(ending),
        visited: place.visited.with(floor),
    }
}
