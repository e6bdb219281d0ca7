//! The completion bound in which each rider goes straight to its destination, kept along the moves.

ghost use Rattle.std.specs.Prelude.{◌≡◌, ℕ, pos, neg_ℤ, int_lt, not, ◌==◌, ◌*◌, ◌^◌, ◌&&◌, ◌||◌, ◌<◌, ◌≤◌};
ghost use Rattle.std.specs.Prelude.{◌+ℤ◌, ◌-ℤ◌, ◌≤ℤ◌, if◌then◌else◌, Some, true};
ghost use Rattle.call_sets.specs.Counting.{has, sum_where};
ghost use Rattle.elevator_model.specs.Partial.{Course};
ghost use Rattle.elevator_model.specs.Snapshot.{call_count};
ghost use Rattle.elevator_model.specs.declared.Move.{Move as MoveValue};
ghost use Rattle.partial_tours.specs.PartialTour.{course, with_move};
ghost use Rattle.price_scale.specs.Scale.{IsPrice, IsPriceSum};
ghost use Rattle.search_model.specs.Prices.{scaled as scaled_lem};
ghost use Rattle.search_model.specs.Sums.{int_sum_where};
ghost use Rattle.pricing_bound.specs.Aims.{AimsAt, HasReached, IsBoundSize, IsNextMove, completion_bound_for};
ghost use Rattle.pricing_bound.specs.Rates.{aim_at, counts_at, rise_at, term_at};
ghost use Rattle.pricing_bound.specs.Running.{AreDeparting, AreEven, IsEven, StandFor};
ghost use Rattle.search_model.specs.Prices.{price_at};
ghost use Rattle.search_model.proofs.BoundLemmas.{bound_is_at_least};
ghost use Rattle.pricing_bound.specs.GrowthLemmas.{bound_grows};
ghost use Rattle.pricing_bound.specs.LowerLemmas.{bound_undercuts};
ghost use Rattle.pricing_bound.specs.Narrowing.{narrowed};

use crate::bounds::groups_part;
use crate::carried::cost_of_carried;
use crate::completion::CompletionBound;
use crate::rates::Rates;
use crate::tour_bound::TourBound;
use crate::waiting::{Growth, Waiting};
use call_sets::CallSet;
use elevator_model::{LATEST_MOMENT, MOMENT_LIMIT, MOST_COST, Move};
use partial_tours::Prefix;
use price_scale::scaled;
use tour_rules::riding::opening_of;

/// What is kept of a partial tour, in thousandths of a cost unit.
#[derive(Clone, Copy)]
pub struct Sums {
    bound: i128,
    /// The prices of the calls that boarded, added up.
    paid: i128,
    /// The calls that have not boarded and add to the bound: those that are required, and those that lower
    /// it. Later a call costs no less, so one that does not lower the bound never will.
    waiting: Waiting,
}

impl Sums {
    /// A call boards that adds this to the bound, at this price, and these wait.
    fn with_board(&self, more: i128, price: i128, waiting: Waiting) -> Sums
        requires bound { IsBoundSize self.now.bound }
        requires paid { IsPriceSum self.now.paid }
        requires low { neg_ℤ (pos (2 * 10 ^ 24)) ≤ℤ more }
        requires high { more ≤ℤ pos (2 * 10 ^ 24) }
        requires price { IsPrice price }
        ensures bound { result.bound ≡ self.now.bound +ℤ more }
        ensures paid { result.paid ≡ self.now.paid +ℤ price }
        ensures waiting { result.waiting ≡ waiting }
    {
        Sums {
            bound: self.bound + more,
            paid: self.paid + price,
            waiting,
        }
    }
}

/// The sums of what is settled and what those carried cost, both in cost units, of what was paid and of calls
/// that wait.
fn sums_of(settled: u64, carried: u64, paid: i128, waiting: Waiting) -> Sums
    requires settled { settled ≤ 10 ^ 18 }
    requires carried { carried ≤ 10 ^ 18 }
    requires paid { IsPriceSum paid }
    requires low { neg_ℤ (pos (256 * 10 ^ 24)) ≤ℤ waiting.sum }
    requires high { waiting.sum ≤ℤ pos (256 * 10 ^ 24) }
    ensures bound { result.bound ≡ (((scaled_lem settled +ℤ scaled_lem carried) -ℤ paid)
        +ℤ waiting.sum) }
    ensures paid { result.paid ≡ paid }
    ensures waiting { result.waiting ≡ waiting }
{
    Sums {
        bound: scaled(settled) + scaled(carried) - paid + waiting.sum,
        paid,
        waiting,
    }
}

/// The sums of the empty partial tour: what the groups aboard add, and calls that wait.
fn sums_at_start(groups: i128, waiting: Waiting) -> Sums
    requires groups_low { pos 0 ≤ℤ groups }
    requires groups_high { groups ≤ℤ pos (10 ^ 24) }
    requires low { neg_ℤ (pos (256 * 10 ^ 24)) ≤ℤ waiting.sum }
    requires high { waiting.sum ≤ℤ pos (256 * 10 ^ 24) }
    ensures bound { result.bound ≡ groups +ℤ waiting.sum }
    ensures paid { result.paid ≡ pos 0 }
    ensures waiting { result.waiting ≡ waiting }
{
    Sums {
        bound: groups + waiting.sum,
        paid: 0,
        waiting,
    }
}

/// The completion bound in which each call boards at once and rides straight to its destination, for a car at
/// laid out rates, with the calls that a tour may board and those that it has to board. It is `bound`, kept
/// along the moves.
#[derive(Clone, Copy)]
pub struct StraightRides<'a> {
    pub(crate) rates: &'a Rates<'a>,
    car: u32,
    pub(crate) allowed: CallSet,
    pub(crate) required: CallSet,
}

impl<'a> StraightRides<'a> {
    /// The bound of a car's partial tours.
    pub fn new(rates: &'a Rates<'a>, car: u32, allowed: CallSet, required: CallSet) -> Self
        ensures rates { result.rates.now ≡ rates.now }
        ensures car { result.car ≡ car }
        ensures allowed { result.allowed ≡ allowed }
        ensures required { result.required ≡ required }
    {
        StraightRides {
            rates,
            car,
            allowed,
            required,
        }
    }

    /// What calls cost without their prices that board at this moment.
    fn terms(&self, calls: CallSet, moment: u64) -> i128
        requires within { (j : ℕ) → has calls j ≡ true
            → j < call_count self.now.rates.now.snapshot }
        requires early { moment ≤ MOMENT_LIMIT }
        ensures sum { result ≡ int_sum_where (call_count self.now.rates.now.snapshot)
            (has calls) (term_at (aim_at self.now.rates.now self.now.car self.now.allowed
            self.now.required) moment) }
        ensures low { neg_ℤ (pos (256 * 10 ^ 24)) ≤ℤ result }
        ensures high { result ≤ℤ pos (256 * 10 ^ 24) }
    {
        // For the proof: the snapshot is accepted, so it has at most 128 calls.
        let _accepted = self.rates.snapshot();
        let mut sum = 0;
        for call in calls.iter() {
            sum += self.rates.term(call, moment);
        }
        sum
    }

    /// How what calls cost grows from this moment on.
    fn growth(&self, calls: CallSet, moment: u64) -> Growth
        requires within { (j : ℕ) → has calls j ≡ true
            → j < call_count self.now.rates.now.snapshot }
        ensures slope { result.slope ≡ sum_where (call_count self.now.rates.now.snapshot)
            (has calls) (rise_at self.now.rates.now.snapshot moment) }
        ensures gentle { result.slope ≤ 2048000 }
        ensures even { (j : ℕ) → has calls j ≡ true → IsEven
            (aim_at self.now.rates.now self.now.car self.now.allowed
            self.now.required) moment result.until j }
    {
        // For the proof: the snapshot is accepted, so it has at most 128 calls.
        let _accepted = self.rates.snapshot();
        let mut growth = Growth {
            slope: 0,
            until: u64::MAX,
        };
        for call in calls.iter() {
            growth = growth.with(self.rates.growth(call, moment));
        }
        growth
    }

    /// Leaves a call out that costs no less than its price at the moment.
    fn sift_one(&self, waiting: &mut Waiting, call: u32)
        requires are { AreEven (aim_at self.now.rates.now self.now.car self.now.allowed
            self.now.required) waiting.old }
        requires call { has waiting.old.counted call ≡ true }
        requires early { waiting.old.moment < LATEST_MOMENT }
        ensures counted { (j : ℕ) → has waiting.new.counted j ≡ (has waiting.old.counted j
            && (not (j == call) || int_lt (term_at
            (aim_at self.now.rates.now self.now.car self.now.allowed
            self.now.required) waiting.old.moment j) (pos 0))) }
        ensures are { AreEven (aim_at self.now.rates.now self.now.car self.now.allowed
            self.now.required) waiting.new }
        ensures moment { waiting.new.moment ≡ waiting.old.moment }
    {
        // For the proof: the snapshot is accepted, and no term is great.
        let _accepted = self.rates.snapshot();
        let term = self.rates.term(call, waiting.moment);
        if term >= 0 {
            let slope = self.rates.growth(call, waiting.moment).slope;
            *waiting = waiting.without(call, term, slope);
        }
    }

    /// Leaves those of these calls out that cost no less than their prices at the moment.
    fn sift(&self, waiting: &mut Waiting, due: CallSet)
        requires are { AreEven (aim_at self.now.rates.now self.now.car self.now.allowed
            self.now.required) waiting.old }
        requires due { (j : ℕ) → has due j ≡ true → has waiting.old.counted j ≡ true }
        requires early { waiting.old.moment < LATEST_MOMENT }
        ensures counted { (j : ℕ) → has waiting.new.counted j ≡ (has waiting.old.counted j
            && (not (has due j) || int_lt (term_at
            (aim_at self.now.rates.now self.now.car self.now.allowed
            self.now.required) waiting.old.moment j) (pos 0))) }
        ensures are { AreEven (aim_at self.now.rates.now self.now.car self.now.allowed
            self.now.required) waiting.new }
        ensures moment { waiting.new.moment ≡ waiting.old.moment }
    {
        // For the proof: the snapshot is accepted, so it has at most 128 calls.
        let _accepted = self.rates.snapshot();
        for call in due.iter() {
            self.sift_one(waiting, call);
        }
    }

    /// Those of the calls that count at the moment. None but those that may have ceased to is looked at.
    fn sifted(&self, waiting: Waiting) -> Waiting
        requires are { AreEven (aim_at self.now.rates.now self.now.car self.now.allowed
            self.now.required) waiting }
        requires early { waiting.moment < LATEST_MOMENT }
        ensures counted { (j : ℕ) → has result.counted j
            ≡ (has waiting.counted j && counts_at
            (aim_at self.now.rates.now self.now.car self.now.allowed
            self.now.required) waiting.moment j) }
        ensures are { AreEven (aim_at self.now.rates.now self.now.car self.now.allowed
            self.now.required) result }
        ensures moment { result.moment ≡ waiting.moment }
    {
        let optional = waiting.counted.minus(self.required);
        let due = self.rates.due(waiting.place, waiting.moment);
        let mut sifted = waiting.from_place(due.place);
        let calls = optional.intersection(due.calls);
        if calls.is_empty() {
            return sifted;
        }
        self.sift(&mut sifted, calls);
        sifted
    }

    /// Those of the calls that count where they board at this moment, with what they add.
    fn waiting(&self, calls: CallSet, moment: u64) -> Waiting
        requires within { (j : ℕ) → has calls j ≡ true
            → j < call_count self.now.rates.now.snapshot }
        requires early { moment < LATEST_MOMENT }
        ensures counted { (j : ℕ) → has result.counted j ≡ (has calls j && counts_at
            (aim_at self.now.rates.now self.now.car self.now.allowed
            self.now.required) moment j) }
        ensures are { AreEven (aim_at self.now.rates.now self.now.car self.now.allowed
            self.now.required) result }
        ensures moment { result.moment ≡ moment }
    {
        self.sifted(Waiting {
            counted: calls,
            sum: self.terms(calls, moment),
            moment,
            growth: self.growth(calls, moment),
            place: 0,
        })
    }

    /// The same of calls that wait, at a later moment. Their costs are added up anew where one has changed
    /// its pace.
    fn waiting_later(&self, waiting: &Waiting, moment: u64) -> Waiting
        requires are { AreEven (aim_at self.now.rates.now self.now.car self.now.allowed
            self.now.required) waiting.now }
        requires later { waiting.now.moment ≤ moment }
        requires early { moment < LATEST_MOMENT }
        ensures counted { (j : ℕ) → has result.counted j
            ≡ (has waiting.now.counted j && counts_at
            (aim_at self.now.rates.now self.now.car self.now.allowed
            self.now.required) moment j) }
        ensures are { AreEven (aim_at self.now.rates.now self.now.car self.now.allowed
            self.now.required) result }
        ensures moment { result.moment ≡ moment }
    {
        // For the proof: the snapshot is accepted, and no term is great.
        let _accepted = self.rates.snapshot();
        if moment < waiting.growth.until {
            self.sifted(waiting.later(moment))
        } else {
            self.waiting(waiting.counted, moment)
        }
    }

    /// Those that wait but this call.
    fn waiting_without(&self, waiting: &Waiting, call: u32) -> Waiting
        requires are { AreEven (aim_at self.now.rates.now self.now.car self.now.allowed
            self.now.required) waiting.now }
        requires call { call < call_count self.now.rates.now.snapshot }
        requires early { waiting.now.moment < LATEST_MOMENT }
        ensures counted { (j : ℕ) → has result.counted j
            ≡ (has waiting.now.counted j && not (j == call)) }
        ensures are { AreEven (aim_at self.now.rates.now self.now.car self.now.allowed
            self.now.required) result }
        ensures moment { result.moment ≡ waiting.now.moment }
    {
        // For the proof: the snapshot is accepted, and no term is great.
        let _accepted = self.rates.snapshot();
        if !waiting.counted.contains(call) {
            return *waiting;
        }
        let term = self.rates.term(call, waiting.moment);
        let slope = self.rates.growth(call, waiting.moment).slope;
        waiting.without(call, term, slope)
    }

    /// What a call that boards adds to the bound: nothing where it was counted, since it boards at the moment
    /// for which it was.
    fn board_adds(&self, waiting: &Waiting, call: u32) -> i128
        requires call { call < call_count self.now.rates.now.snapshot }
        requires early { waiting.now.moment ≤ MOMENT_LIMIT }
        ensures more { result ≡ (if has waiting.now.counted call then pos 0 else term_at
            (aim_at self.now.rates.now self.now.car self.now.allowed self.now.required)
            waiting.now.moment call) }
        ensures low { neg_ℤ (pos (2 * 10 ^ 24)) ≤ℤ result }
        ensures high { result ≤ℤ pos (2 * 10 ^ 24) }
    {
        if waiting.counted.contains(call) {
            0
        } else {
            self.rates.term(call, waiting.moment)
        }
    }

    /// The sums after a call boarded.
    fn after_board(&self, prefix: &Prefix, sums: &Sums, call: u32) -> Sums
        requires for_it { AimsAt (aim_at self.now.rates.now self.now.car self.now.allowed
            self.now.required) prefix.now }
        requires leads { IsNextMove (aim_at self.now.rates.now self.now.car self.now.allowed
            self.now.required) (StandFor (aim_at self.now.rates.now self.now.car self.now.allowed
            self.now.required) sums.now) prefix.now (MoveValue.Board call) }
        ensures { (y : Course) → course (with_move prefix.now (MoveValue.Board call)) ≡ Some y
            → StandFor (aim_at self.now.rates.now
            self.now.car self.now.allowed self.now.required) result y }
    {
        // For the proof: the snapshot is accepted, the car one of its cars, and what is settled small.
        let _accepted = self.rates.snapshot();
        let _car = prefix.car();
        prove!(prefix.settled() < MOST_COST);
        prove!(prefix.opened() < LATEST_MOMENT);
        let more = self.board_adds(&sums.waiting, call);
        let waiting = self.waiting_without(&sums.waiting, call);
        sums.with_board(more, self.rates.price(call), waiting)
    }

    /// The sums of the car as it departs. At no next stop are its doors open before it could be at the
    /// nearest floor, so calls that have ceased to count by then are left out once for all of them. A car
    /// that made no stop departs as it stands, since it may stop first where it is.
    fn departing(&self, prefix: &Prefix, sums: &Sums) -> Sums
        requires for_it { AimsAt (aim_at self.now.rates.now self.now.car self.now.allowed
            self.now.required) prefix.now }
        requires reached { HasReached (aim_at self.now.rates.now self.now.car self.now.allowed
            self.now.required) (StandFor (aim_at self.now.rates.now self.now.car self.now.allowed
            self.now.required) sums.now) prefix.now }
        ensures { (x : Course) → course prefix.now ≡ Some x → AreDeparting (aim_at
            self.now.rates.now self.now.car self.now.allowed self.now.required) result x }
    {
        let snapshot = self.rates.snapshot();
        let car = prefix.car();
        let point = prefix.point();
        if !point.place.begun || !point.useful {
            return *sums;
        }
        let floor = prefix.floor();
        let opened = prefix.departs_at() + opening_of(snapshot, car);
        let earliest = opened + self.rates.nearest(floor);
        if earliest >= LATEST_MOMENT {
            // No leave is lawful any more.
            return *sums;
        }
        let waiting = self.waiting_later(&sums.waiting, earliest);
        let carried = cost_of_carried(self.rates, prefix, floor, opened);
        sums_of(prefix.settled(), carried, sums.paid, waiting)
    }

    /// The sums after the car goes to a stop: what stands departs.
    fn after_leave(&self, prefix: &Prefix, sums: &Sums, floor: u32) -> Sums
        requires for_it { AimsAt (aim_at self.now.rates.now self.now.car self.now.allowed
            self.now.required) prefix.now }
        requires leads { IsNextMove (aim_at self.now.rates.now self.now.car self.now.allowed
            self.now.required) (StandFor (aim_at self.now.rates.now self.now.car self.now.allowed
            self.now.required) sums.now) prefix.now (MoveValue.Leave floor) }
        ensures { (y : Course) → course (with_move prefix.now (MoveValue.Leave floor)) ≡ Some y
            → StandFor (aim_at self.now.rates.now
            self.now.car self.now.allowed self.now.required) result y }
    {
        // For the proof: the snapshot is accepted and the car one of its cars.
        let _accepted = self.rates.snapshot();
        let _car = prefix.car();
        self.after_departure(prefix, sums, floor)
    }

    /// The sums after a car that departs goes to a stop: later, those carried have ridden on, and calls cost
    /// more.
    fn after_departure(&self, prefix: &Prefix, departing: &Sums, floor: u32) -> Sums
        requires for_it { AimsAt (aim_at self.now.rates.now self.now.car self.now.allowed
            self.now.required) prefix.now }
        requires leads { IsNextMove (aim_at self.now.rates.now self.now.car self.now.allowed
            self.now.required) (AreDeparting (aim_at self.now.rates.now self.now.car
            self.now.allowed self.now.required) departing.now) prefix.now (MoveValue.Leave floor) }
        ensures { (y : Course) → course (with_move prefix.now (MoveValue.Leave floor)) ≡ Some y
            → StandFor (aim_at self.now.rates.now
            self.now.car self.now.allowed self.now.required) result y }
    {
        // For the proof: the snapshot is accepted, the car one of its cars and what is settled small.
        let _accepted = self.rates.snapshot();
        let _car = prefix.car();
        let opened = prefix.opened_after(floor);
        let waiting = self.waiting_later(&departing.waiting, opened);
        let carried = cost_of_carried(self.rates, prefix, floor, opened);
        sums_of(prefix.settled(), carried, departing.paid, waiting)
    }
}

impl<'a> TourBound for StraightRides<'a> {
    type Sums = Sums;

    /// The sums of the car as it departs.
    type Departure = Sums;

    ghost aim = { λ it. aim_at it.rates.now it.car it.allowed it.required };

    ghost stands = { λ it sums x. StandFor (aim_at it.rates.now it.car it.allowed it.required) sums x };

    ghost departs = { λ it departing x. AreDeparting (aim_at it.rates.now it.car it.allowed it.required) departing x };

    ghost bounds = { λ it value x. value
        ≡ completion_bound_for (aim_at it.rates.now it.car it.allowed it.required) x };

    fn start(&self, prefix: &Prefix) -> Sums {
        // For the proof: the car is one of the snapshot's, and the moves are lawful.
        let _car = prefix.car();
        let _lawful = prefix.moves();
        let groups = groups_part(self.rates.snapshot(), prefix);
        let calls = self.allowed.intersection(self.rates.calls());
        sums_at_start(groups, self.waiting(calls, prefix.opened()))
    }

    fn after(&self, prefix: &Prefix, sums: &Sums, next: Move) -> Sums {
        match next {
            Move::Board(call) => self.after_board(prefix, sums, call),
            Move::Leave(floor) => self.after_leave(prefix, sums, floor),
            Move::End => *sums,
        }
    }

    fn depart(&self, prefix: &Prefix, sums: &Sums) -> Sums {
        self.departing(prefix, sums)
    }

    fn least_value(&self, departure: &Sums) -> i128 {
        departure.bound
    }

    fn arrive(&self, prefix: &Prefix, departure: &Sums, floor: u32) -> Sums {
        self.after_departure(prefix, departure, floor)
    }

    fn value(&self, sums: &Sums) -> i128 {
        sums.bound
    }

    fn tour_value(&self, prefix: &Prefix, sums: &Sums) -> i128 {
        scaled(prefix.settled()) - sums.paid
    }

    ghost lower = { λ it. bound_undercuts (aim_at it.rates.now it.car it.allowed it.required) };
}

impl<'a> CompletionBound for StraightRides<'a> {
    ghost bound = { λ it x. completion_bound_for (aim_at it.rates.now it.car it.allowed it.required) x };

    ghost exact = { λ it value x. (λ is. is, λ is. is) };

    ghost grows = { λ it moves x y m. bound_grows it.rates.now.snapshot it.car (price_at it.rates.now.prices)
        (has it.allowed) (has it.required) moves x y m };

    ghost least = { λ it moves x. bound_is_at_least it.rates.now.snapshot it.car
        (price_at it.rates.now.prices) (has it.allowed) (has it.required) moves x };

    ghost narrow = { λ it other narrower x. narrowed (aim_at it.rates.now it.car it.allowed it.required)
        (aim_at other.rates.now other.car other.allowed other.required) narrower x };
}
