//! The moments and the cost of a partial tour, as running sums.

ghost use Rattle.std.specs.Prelude.{◌≡◌, ℕ, ◌+◌, ◌*◌, ◌≤◌, ◌<◌, true, nat_lt, length};
ghost use Rattle.std.specs.List.{list_all};
ghost use Rattle.elevator_model.specs.Snapshot.{car_count, call_count, spec_of};
ghost use Rattle.elevator_model.specs.Tours.{Progress, make_stop};
ghost use Rattle.elevator_model.specs.declared.Stop.{Stop};
ghost use Rattle.elevator_model.specs.Partial.{course_start, may_stand};
ghost use Rattle.tour_rules.specs.Leaving.{IsKept};
ghost use Rattle.partial_tours.specs.Courses.{with_call_on};
ghost use Rattle.partial_tours.specs.Tallies.{Counts, IsTally, with_moment};

use crate::leaving::{Leaving, MOST_LEAVING, MOST_LEAVING_COST};
use call_state::Snapshot;
use car_layout::Layout;
use elevator_model::{MOMENT_LIMIT, Move};
use tour_rules::riding;

/// Those who got off cost at most this, in cost units: 128 calls and 64 groups, `MOST_CALL_COST` each.
pub(crate) const MOST_SETTLED: u64 = 460_800_000_000_000_000;

/// The moments of the last stop, and the cost of those who got off.
#[derive(Clone, Copy)]
pub(crate) struct Tally {
    /// The moment in ms at which the doors of the last stop are open; before the first stop that from
    /// which the tour is timed.
    pub(crate) opened: u64,
    /// The moment in ms at which the car leaves the last stop, if nobody else boards there.
    pub(crate) leaves: u64,
    /// What those who got off cost, in cost units.
    pub(crate) settled: u64,
}

impl Tally {
    /// A partial tour without moves.
    pub(crate) fn start(snapshot: &Snapshot, car: u32) -> Self
        requires { car < car_count snapshot.now }
        ensures { IsTally snapshot.now car 0 result (course_start snapshot.now car) }
    {
        let moment = snapshot.car(car).moment();
        Self {
            opened: moment,
            leaves: moment,
            settled: 0,
        }
    }

    /// One call more boards at the stop begun.
    pub(crate) fn after_board(&self, layout: &Layout, call: u32) -> Self
        requires call { call < call_count layout.now.snapshot }
        requires early { self.now.leaves ≤ 90000000000 }
        ensures counts { (p : Progress) (stop : Stop)
            → IsKept layout.now.snapshot layout.now.car p
            → list_all (λ i. nat_lt i call) stop.boards ≡ true
            → may_stand layout.now.snapshot layout.now.car p (with_call_on stop call) ≡ true
            → Counts layout.now.snapshot layout.now.car self.now
            (make_stop layout.now.snapshot layout.now.car p stop)
            → Counts layout.now.snapshot layout.now.car result
            (make_stop layout.now.snapshot layout.now.car p (with_call_on stop call)) }
        ensures opened { result.opened ≡ self.now.opened }
        ensures later { self.now.leaves ≤ result.leaves }
        ensures late { result.leaves ≤ self.now.leaves + 150000000 }
    {
        let snapshot = layout.snapshot();
        let boarding = snapshot.spec(layout.car()).boarding;
        let persons = snapshot.calls()[call as usize].persons as u64;
        Self {
            opened: self.opened,
            leaves: self.leaves + boarding * persons,
            settled: self.settled,
        }
    }

    /// The car goes on to a stop whose doors are open at this moment, where these get off.
    pub(crate) fn after_leave(&self, layout: &Layout, opened: u64, leaving: Leaving) -> Self
        requires few { leaving.persons ≤ MOST_LEAVING }
        requires cheap { leaving.cost ≤ MOST_LEAVING_COST }
        requires early { opened ≤ MOMENT_LIMIT }
        requires small { self.now.settled ≤ MOST_SETTLED }
        ensures opened { result.opened ≡ opened }
        ensures leaves { result.leaves ≡ opened
            + ((spec_of layout.now.snapshot layout.now.car).alighting * leaving.persons
            + (spec_of layout.now.snapshot layout.now.car).closing) }
        ensures settled { result.settled ≡ self.now.settled + leaving.cost }
        ensures late { result.leaves ≤ opened + 129000000 }
    {
        let dwell = riding::dwell_of(layout.snapshot(), layout.car(), leaving.persons, 0);
        Self {
            opened,
            leaves: opened + dwell,
            settled: self.settled + leaving.cost,
        }
    }
}

/// Notes the moment at which a call boards.
pub(crate) fn note(moments: &mut [u64], next: Move, opened: u64)
    requires { (call : ℕ) → next ≡ Move.Board call → call < length moments.old }
    ensures { moments.new ≡ with_moment next opened moments.old }
{
    if let Move::Board(call) = next {
        moments[call as usize] = opened;
    }
}
