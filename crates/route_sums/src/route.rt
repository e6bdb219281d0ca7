//! The forced route, and what it gathers.

ghost use Rattle.std.specs.Prelude.{◌≡◌, ℕ, ◌*◌, ◌^◌, ◌<◌, ◌≤◌, ◌≤ℤ◌, ◌+ℤ◌, ◌-ℤ◌, ◌&&◌};
ghost use Rattle.std.specs.Prelude.{ℤ, pos, neg_ℤ, not, true, false};
ghost use Rattle.std.specs.Prelude.{MatchOption, Some};
ghost use Rattle.call_sets.specs.Counting.{has};
ghost use Rattle.elevator_model.specs.Costs.{settled_cost};
ghost use Rattle.elevator_model.specs.Partial.{Course};
ghost use Rattle.elevator_model.specs.Snapshot.{call_count, call_of};
ghost use Rattle.elevator_model.specs.Tours.{Progress, has_leg as has_leg_lem};
ghost use Rattle.route_bound.specs.ForcedRoute.{bound_from, forced_stops, is_before};
ghost use Rattle.route_bound.specs.ForcedRoute.{part_if_boarded, rides_along};
ghost use Rattle.route_bound.specs.ForcedRoute.{route_end, route_start as route_start_lem};
ghost use Rattle.partial_tours.specs.Courses.{is_after, reached};
ghost use Rattle.partial_tours.specs.PartialTour.{course};
ghost use Rattle.price_scale.specs.Scale.{IsPriceSum};
ghost use Rattle.pricing_bound.specs.Aims.{IsBoundSize};
ghost use Rattle.search_model.specs.Prices.{price_at, scaled as scaled_lem};
ghost use Rattle.search_model.specs.Sums.{int_sum_where};
ghost use Rattle.route_sums.specs.Gathering.{gathered, highest, lowest};
ghost use Rattle.route_sums.specs.Idle.{AreIdleBut, boards_along};
ghost use Rattle.route_sums.specs.Stands.{IsStand, StandsFor};

use crate::parts::RouteSums;
use crate::stands::{Newest, Stand};
use call_sets::{CallSet, FloorSet};
use elevator_model::MOST_CALLS;
use partial_tours::Prefix;
use price_scale::scaled;

/// The next floor of a set above a floor, or below it.
fn next_stop(stops: FloorSet, upward: bool, floor: u32) -> Option<u32>
    requires { floor < 64 }
    ensures up { upward ≡ true → MatchOption result
        ((g : ℕ) → floor < g → has stops g ≡ false)
        (λ f. (has stops f ≡ true) × (floor < f) × (f < 64)
        × ((g : ℕ) → floor < g → g < f → has stops g ≡ false)) }
    ensures down { upward ≡ false → MatchOption result
        ((g : ℕ) → g < floor → has stops g ≡ false)
        (λ f. (has stops f ≡ true) × (f < floor) × (f < 64)
        × ((g : ℕ) → f < g → g < floor → has stops g ≡ false)) }
{
    if upward {
        stops.above(floor).least()
    } else {
        stops.intersection(FloorSet::lowest(floor)).greatest()
    }
}

/// What was found at the end of a forced route.
#[derive(Clone, Copy)]
pub(crate) struct Found {
    /// What those cost who got off, in cost units.
    pub(crate) settled: u64,
    /// What the calls add that have not boarded, in thousandths of a cost unit.
    pub(crate) added: i128,
    /// The calls that add something.
    pub(crate) waiting: CallSet,
}

/// A value that the bound along the forced route is not below, in thousandths of a cost unit, and the calls
/// that may add something after further moves.
#[derive(Clone, Copy)]
pub(crate) struct RouteValue {
    pub(crate) value: i128,
    pub(crate) waiting: CallSet,
}

/// How a car goes on its forced route.
#[derive(Clone, Copy)]
pub(crate) struct Way {
    pub(crate) upward: bool,
    /// The calls that can board on the way.
    pub(crate) along: CallSet,
}

impl<'a, 'r, 'p> RouteSums<'a, 'r, 'p> {
    /// Those of the calls that begin on the way from one floor on, before another.
    fn calls_before(&self, upward: bool, from: u32, to: u32, calls: CallSet) -> CallSet
        requires from { from < 64 }
        requires to { to < 64 }
        requires within { (j : ℕ) → has calls j ≡ true → j < call_count self.now.snapshot.now }
        ensures { (j : ℕ) → has result j ≡ (has calls j
            && is_before upward from to (call_of self.now.snapshot.now j).origin) }
    {
        if upward {
            self.between(from, to, calls)
        } else {
            self.between(to + 1, from + 1, calls)
        }
    }

    /// The calls of the rest that board on the leg from one floor to another.
    fn boards_before(&self, way: &Way, from: u32, to: u32, rest: CallSet) -> CallSet
        requires from { from < 64 }
        requires to { to < 64 }
        requires within { (j : ℕ) → has rest j ≡ true → j < call_count self.now.snapshot.now }
        ensures { (j : ℕ) → has result j ≡ (has rest j && (has way.now.along j
            && is_before way.now.upward from to (call_of self.now.snapshot.now j).origin)) }
    {
        self.calls_before(way.upward, from, to, rest.intersection(way.along))
    }

    /// The calls of the rest that can board on the way from a stand, at whose stop calls after the last index
    /// may still board.
    fn riding_along(&self, at: &Stand, upward: bool, last: Option<u32>, rest: CallSet) -> CallSet
        requires within { (j : ℕ) → has rest j ≡ true → j < call_count self.now.snapshot.now }
        ensures { (p : Progress) → at.now.place.floor ≡ p.floor → (j : ℕ) → has result j
            ≡ (has rest j && rides_along self.now.snapshot.now upward p (is_after last) j) }
    {
        let way = self.going(upward, rest);
        match last {
            None => way,
            Some(last) => self.not_passed(at.place.floor, last, way),
        }
    }

    /// What is found from a stand on, where these calls have not boarded.
    #[cycle(route)]
    fn along_route(
        &self,
        prefix: &Prefix,
        newest: Option<Newest>,
        at: &Stand,
        way: &Way,
        rest: CallSet,
    ) -> Found
        requires same { self.now.snapshot.now ≡ prefix.now.snapshot }
        requires car { self.now.car ≡ prefix.now.car }
        requires stands { (p : Progress) × StandsFor prefix.now newest at.now p }
        requires rest { (j : ℕ) → has rest j ≡ true → j < call_count self.now.snapshot.now }
        ensures added { (x : Course) (p : Progress) → course prefix.now ≡ Some x
            → IsStand prefix.now.snapshot prefix.now.car newest
            (reached prefix.now.snapshot prefix.now.car x) at.now p
            → result.added ≤ℤ gathered prefix.now.snapshot prefix.now.car
            (price_at self.now.prices.now) (has self.now.required) (has way.now.along) way.now.upward p
            (forced_stops prefix.now.snapshot way.now.upward p) (has rest) }
        ensures settled { (x : Course) (p : Progress) → course prefix.now ≡ Some x
            → IsStand prefix.now.snapshot prefix.now.car newest
            (reached prefix.now.snapshot prefix.now.car x) at.now p
            → result.settled ≤ settled_cost prefix.now.snapshot prefix.now.car
            (route_end prefix.now.snapshot prefix.now.car p
            (forced_stops prefix.now.snapshot way.now.upward p)) }
        ensures low { int_sum_where (call_count self.now.snapshot.now) (has rest) lowest ≤ℤ result.added }
        ensures high { result.added ≤ℤ int_sum_where (call_count self.now.snapshot.now) (has rest) highest }
        ensures small { result.settled ≤ 10 ^ 18 }
        ensures within { (j : ℕ) → has result.waiting j ≡ true → has rest j ≡ true }
        ensures idle { (x : Course) (p : Progress) → course prefix.now ≡ Some x
            → IsStand prefix.now.snapshot prefix.now.car newest
            (reached prefix.now.snapshot prefix.now.car x) at.now p
            → (j : ℕ) → has rest j ≡ true → has result.waiting j ≡ false
            → pos 0 ≤ℤ part_if_boarded prefix.now.snapshot prefix.now.car (price_at self.now.prices.now)
            (has self.now.required) j (boards_along prefix.now.snapshot prefix.now.car (has way.now.along)
            way.now.upward p (forced_stops prefix.now.snapshot way.now.upward p) j) }
    {
        // For the proof: the snapshot is accepted.
        prove!(self.snapshot.calls().len() <= MOST_CALLS);
        let Some(floor) = next_stop(at.bound_for, way.upward, at.place.floor) else {
            let last = self.parts(at, rest);
            return Found {
                settled: at.settled,
                added: last.added,
                waiting: last.waiting,
            };
        };
        let boards = self.boards_before(way, at.place.floor, floor, rest);
        let here = self.parts(at, boards);
        let after = rest.minus(boards);
        let later = self.along_route(
            prefix,
            newest,
            &at.halted(prefix, newest, floor),
            way,
            after,
        );
        Found {
            settled: later.settled,
            added: here.added + later.added,
            waiting: here.waiting.union(later.waiting),
        }
    }

    /// Whether a leg leads to the next stop: not where a coming car made none.
    fn has_leg(&self, begun: bool) -> bool
        ensures { (p : Progress) → begun ≡ p.begun
            → result ≡ has_leg_lem self.now.snapshot.now self.now.car p }
    {
        begun || !self.snapshot.car(self.car).is_coming()
    }

    /// Where the forced route begins: a coming car has to stop first where it comes to.
    pub(crate) fn route_start(&self, prefix: &Prefix, newest: Option<Newest>, at: &Stand) -> Stand
        requires same { self.now.snapshot.now ≡ prefix.now.snapshot }
        requires car { self.now.car ≡ prefix.now.car }
        requires stands { (p : Progress) × StandsFor prefix.now newest at.now p }
        ensures { (x : Course) (p : Progress) → course prefix.now ≡ Some x
            → IsStand prefix.now.snapshot prefix.now.car newest
            (reached prefix.now.snapshot prefix.now.car x) at.now p
            → IsStand prefix.now.snapshot prefix.now.car newest
            (reached prefix.now.snapshot prefix.now.car x) result
            (route_start_lem prefix.now.snapshot prefix.now.car p) }
    {
        if self.has_leg(at.place.begun) {
            *at
        } else {
            at.halted(prefix, newest, at.place.floor)
        }
    }

    /// What is found from the start of the forced route on, where calls after the last index may still board.
    /// Of the allowed calls all but these are idle: the others are not looked at.
    fn found_from(
        &self,
        prefix: &Prefix,
        newest: Option<Newest>,
        start: &Stand,
        last: Option<u32>,
        waiting: CallSet,
    ) -> Found
        requires same { self.now.snapshot.now ≡ prefix.now.snapshot }
        requires car { self.now.car ≡ prefix.now.car }
        requires stands { (p : Progress) × StandsFor prefix.now newest start.now p }
        requires allowed { (j : ℕ) → has waiting j ≡ true → has self.now.allowed j ≡ true }
        ensures lower { (x : Course) (p : Progress) (paid : ℤ) → course prefix.now ≡ Some x
            → IsStand prefix.now.snapshot prefix.now.car newest
            (reached prefix.now.snapshot prefix.now.car x) start.now p
            → paid ≡ int_sum_where (call_count prefix.now.snapshot) p.boarded (price_at self.now.prices.now)
            → AreIdleBut prefix.now.snapshot prefix.now.car (price_at self.now.prices.now)
            (has self.now.allowed) (has self.now.required) (is_after last) p waiting
            → ((scaled_lem result.settled +ℤ result.added) -ℤ paid)
            ≤ℤ bound_from prefix.now.snapshot prefix.now.car (price_at self.now.prices.now)
            (has self.now.allowed) (has self.now.required) (is_after last) p }
        ensures low { neg_ℤ (pos (256 * 10 ^ 24)) ≤ℤ result.added }
        ensures high { result.added ≤ℤ pos (256 * 10 ^ 24) }
        ensures small { result.settled ≤ 10 ^ 18 }
        ensures within { (j : ℕ) → has result.waiting j ≡ true → has waiting j ≡ true }
        ensures idle { (x : Course) (p : Progress) → course prefix.now ≡ Some x
            → IsStand prefix.now.snapshot prefix.now.car newest
            (reached prefix.now.snapshot prefix.now.car x) start.now p
            → AreIdleBut prefix.now.snapshot prefix.now.car (price_at self.now.prices.now)
            (has self.now.allowed) (has self.now.required) (is_after last) p waiting
            → AreIdleBut prefix.now.snapshot prefix.now.car (price_at self.now.prices.now)
            (has self.now.allowed) (has self.now.required) (is_after last) p result.waiting }
    {
        // For the proof: the snapshot is accepted.
        prove!(self.snapshot.calls().len() <= MOST_CALLS);
        let upward = is_above(start.bound_for, start.place.floor);
        let rest = waiting.minus(start.place.boarded);
        let along = self.riding_along(start, upward, last, rest);
        let way = Way { upward, along };
        self.along_route(prefix, newest, start, &way, rest)
    }

    /// A value that the bound along the forced route is not below, from its start on, where the prices of the
    /// calls that boarded are `paid`, and calls after the last index may still board. Of the allowed calls all
    /// but those that wait are idle.
    pub(crate) fn value_at(
        &self,
        prefix: &Prefix,
        newest: Option<Newest>,
        at: &Stand,
        last: Option<u32>,
        paid: i128,
        waiting: CallSet,
    ) -> RouteValue
        requires same { self.now.snapshot.now ≡ prefix.now.snapshot }
        requires car { self.now.car ≡ prefix.now.car }
        requires stands { (p : Progress) × StandsFor prefix.now newest at.now p }
        requires paid { IsPriceSum paid }
        requires allowed { (j : ℕ) → has waiting j ≡ true → has self.now.allowed j ≡ true }
        ensures value { (x : Course) (p : Progress) → course prefix.now ≡ Some x
            → IsStand prefix.now.snapshot prefix.now.car newest
            (reached prefix.now.snapshot prefix.now.car x) at.now p
            → paid ≡ int_sum_where (call_count prefix.now.snapshot) p.boarded (price_at self.now.prices.now)
            → AreIdleBut prefix.now.snapshot prefix.now.car (price_at self.now.prices.now)
            (has self.now.allowed) (has self.now.required) (is_after last) p waiting
            → result.value ≤ℤ bound_from prefix.now.snapshot prefix.now.car (price_at self.now.prices.now)
            (has self.now.allowed) (has self.now.required) (is_after last) p }
        ensures size { IsBoundSize result.value }
        ensures within { (j : ℕ) → has result.waiting j ≡ true → has waiting j ≡ true }
        ensures idle { (x : Course) (p : Progress) → course prefix.now ≡ Some x
            → IsStand prefix.now.snapshot prefix.now.car newest
            (reached prefix.now.snapshot prefix.now.car x) at.now p
            → AreIdleBut prefix.now.snapshot prefix.now.car (price_at self.now.prices.now)
            (has self.now.allowed) (has self.now.required) (is_after last) p waiting
            → AreIdleBut prefix.now.snapshot prefix.now.car (price_at self.now.prices.now)
            (has self.now.allowed) (has self.now.required) (is_after last) p result.waiting }
    {
        let found = self.found_from(prefix, newest, at, last, waiting);
        RouteValue {
            value: value_of(found.settled, found.added, paid),
            waiting: found.waiting,
        }
    }
}

/// Whether some floor of the set lies above a floor.
fn is_above(floors: FloorSet, floor: u32) -> bool
    ensures some { result ≡ true → (g : ℕ) × (has floors g ≡ true) × (floor < g) }
    ensures none { result ≡ false → (g : ℕ) → floor < g → has floors g ≡ false }
{
    match floors.above(floor).least() {
        None => false,
        Some(_) => true,
    }
}

/// What is settled, in cost units, and what calls add, less what was paid.
fn value_of(settled: u64, added: i128, paid: i128) -> i128
    requires settled { settled ≤ 10 ^ 18 }
    requires low { neg_ℤ (pos (256 * 10 ^ 24)) ≤ℤ added }
    requires high { added ≤ℤ pos (256 * 10 ^ 24) }
    requires paid { IsPriceSum paid }
    ensures value { result ≡ ((scaled_lem settled +ℤ added) -ℤ paid) }
    ensures size { IsBoundSize result }
{
    scaled(settled) + added - paid
}
