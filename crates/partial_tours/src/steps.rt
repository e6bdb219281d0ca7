//! What a partial tour keeps of each of its moves.

ghost use Rattle.std.specs.Prelude.{◌≡◌, ℕ, ◌+◌, ◌≤◌, ◌<◌, List, length, slice_index};
ghost use Rattle.elevator_model.specs.Building.{floor_count};
ghost use Rattle.elevator_model.specs.Snapshot.{spec_of};
ghost use Rattle.elevator_model.specs.Tours.{Progress, arrival as arrival_lem};
ghost use Rattle.tour_rules.specs.Places.{Tracks};
ghost use Rattle.elevator_model.specs.declared.Move.{Move};
ghost use Rattle.elevator_model.specs.Partial.{course_start};
ghost use Rattle.partial_tours.specs.Courses.{TracksCourse};
ghost use Rattle.partial_tours.specs.Tallies.{IsTally, IsStepAfter, LeadsOnTallied};

use crate::leaving::leaving_at;
use crate::points::Point;
use crate::tally::Tally;
use car_layout::Layout;
use elevator_model::{MOMENT_LIMIT, Move};
use tour_rules::places::CarPlace;
use tour_rules::riding;

/// Where a partial tour is, and its moments and cost until there.
#[derive(Clone, Copy)]
pub(crate) struct Step {
    pub(crate) point: Point,
    pub(crate) tally: Tally,
}

impl Step {
    /// A partial tour without moves.
    pub(crate) fn start(layout: &Layout) -> Self
        ensures point { TracksCourse layout.now.snapshot layout.now.car result.point
            (course_start layout.now.snapshot layout.now.car) }
        ensures tally { IsTally layout.now.snapshot layout.now.car 0 result.tally
            (course_start layout.now.snapshot layout.now.car) }
    {
        Self {
            point: Point::start(layout),
            tally: Tally::start(layout.snapshot(), layout.car()),
        }
    }

    /// One call more boards at the stop begun.
    fn after_board(&self, layout: &Layout, call: u32) -> Self
        requires { (moments : List ℕ) × LeadsOnTallied layout.now.snapshot layout.now.car
            self.now.point self.now.tally moments (Move.Board call) }
        ensures { (moments : List ℕ) → IsStepAfter layout.now.snapshot layout.now.car self.now
            moments (Move.Board call) result }
    {
        Self {
            point: self.point.after_board(layout, call),
            tally: self.tally.after_board(layout, call),
        }
    }

    /// The car goes on to a stop at this floor. `moments` has those at which the calls boarded.
    fn after_leave(&self, layout: &Layout, floor: u32, moments: &[u64]) -> Self
        requires counted { length moments.now ≡ 128 }
        requires low { (j : ℕ) → slice_index moments.now j ≤ MOMENT_LIMIT }
        requires lawful { LeadsOnTallied layout.now.snapshot layout.now.car self.now.point
            self.now.tally moments.now (Move.Leave floor) }
        ensures { IsStepAfter layout.now.snapshot layout.now.car self.now moments.now
            (Move.Leave floor) result }
    {
        // For the proof: the floor is below 64 and no moment is too late.
        let _accepted = layout.snapshot();
        let _car = layout.car();
        let place = &self.point.place;
        let opened = opened_at(layout, place, self.tally.leaves, floor);
        let leaving = leaving_at(layout, place, floor, opened, moments);
        Self {
            point: self
                .point
                .after_leave(layout, floor, leaving.persons as u32),
            tally: self.tally.after_leave(layout, opened, leaving),
        }
    }

    /// Where a lawful move leads. `moments` has those at which the calls boarded.
    pub(crate) fn after(&self, layout: &Layout, next: Move, moments: &[u64]) -> Self
        requires counted { length moments.now ≡ 128 }
        requires low { (j : ℕ) → slice_index moments.now j ≤ MOMENT_LIMIT }
        requires lawful { LeadsOnTallied layout.now.snapshot layout.now.car self.now.point
            self.now.tally moments.now next }
        ensures { IsStepAfter layout.now.snapshot layout.now.car self.now moments.now next result }
    {
        match next {
            Move::Board(call) => self.after_board(layout, call),
            Move::Leave(floor) => self.after_leave(layout, floor, moments),
            Move::End => Self {
                point: self.point.after_end(),
                tally: self.tally,
            },
        }
    }
}

/// The moment, in ms, at which the doors are open at a next stop at this floor, where the car leaves its
/// place at the moment `leaves`.
pub(crate) fn opened_at(layout: &Layout, place: &CarPlace, leaves: u64, floor: u32) -> u64
    requires from { place.now.floor < floor_count layout.now.snapshot.building }
    requires to { floor < floor_count layout.now.snapshot.building }
    requires early { leaves ≤ MOMENT_LIMIT }
    ensures value { (p : Progress) → Tracks layout.now.snapshot layout.now.car place.now p
        → leaves ≡ p.leaves → result ≡ arrival_lem layout.now.snapshot layout.now.car p floor
        + (spec_of layout.now.snapshot layout.now.car).opening }
    ensures late { result ≤ leaves + 20060000 }
{
    let snapshot = layout.snapshot();
    let car = layout.car();
    riding::arrival(snapshot, car, place.begun, place.floor, leaves, floor)
        + riding::opening_of(snapshot, car)
}
