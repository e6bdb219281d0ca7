//! What calls add that have not boarded, in thousandths of a cost unit.

ghost use Rattle.std.specs.Prelude.{◌≡◌, ℕ, ◌+◌, ◌*◌, ◌^◌, ◌<◌, ◌≤◌, ◌≤ℤ◌, ◌+ℤ◌, ◌-ℤ◌, pos, neg_ℤ, false, true};
ghost use Rattle.std.specs.Prelude.{if◌then◌else◌, int_lt, length, ◌&&◌, ◌||◌, ◌==◌, not};
ghost use Rattle.call_sets.specs.Counting.{has};
ghost use Rattle.elevator_model.specs.Building.{floor_count};
ghost use Rattle.elevator_model.specs.Snapshot.{call_count, call_of, car_count};
ghost use Rattle.elevator_model.specs.Tours.{Progress};
ghost use Rattle.route_bound.specs.ForcedRoute.{part_if_boarded};
ghost use Rattle.price_scale.specs.Scale.{IsPrice};
ghost use Rattle.search_model.specs.Prices.{price_at};
ghost use Rattle.search_model.specs.Sums.{int_sum_where};
ghost use Rattle.route_sums.specs.CallRates.{IsCallRate, IsLaidOut};
ghost use Rattle.route_sums.specs.Gathering.{highest, lowest};
ghost use Rattle.route_sums.specs.Idle.{adds as adds_lem};
ghost use Rattle.route_sums.specs.Stands.{soonest};

use crate::rates::{CallRate, RouteRates};
use crate::rows::{RowSum, row_sum};
use crate::stands::{LATEST_OPEN, Stand};
use call_sets::CallSet;
use call_state::Snapshot;
use price_scale::Price;

/// The bound along the forced route for a car at one price per call, with the calls that a tour may board and
/// those that it has to board.
#[derive(Clone, Copy)]
pub struct RouteSums<'a, 'r, 'p> {
    pub(crate) snapshot: &'a Snapshot,
    pub(crate) rates: &'r RouteRates,
    pub(crate) car: u32,
    /// The price of each call.
    pub(crate) prices: &'p [Price],
    /// The calls that a tour may board, and those that it has to board.
    pub(crate) allowed: CallSet,
    pub(crate) required: CallSet,
    ghost known: { car < car_count snapshot.now },
    ghost priced: { length prices.now ≡ call_count snapshot.now },
    ghost worth: { (j : ℕ) → IsPrice (price_at prices.now j) },
    ghost laid: { IsLaidOut snapshot.now car (price_at prices.now) (has required) rates.now },
    ghost within: { (j : ℕ) → has allowed j ≡ true → j < call_count snapshot.now },
}

/// What a term adds: where the call is not required, nothing that is positive.
fn counted(term: i128, is_required: bool) -> i128
    requires low { neg_ℤ (pos (2 * 10 ^ 24)) ≤ℤ term }
    requires high { term ≤ℤ pos (2 * 10 ^ 24) }
    ensures value { result ≡ (if is_required then term
        else (if int_lt term (pos 0) then term else pos 0)) }
    ensures low { neg_ℤ (pos (2 * 10 ^ 24)) ≤ℤ result }
    ensures high { result ≤ℤ pos (2 * 10 ^ 24) }
{
    if is_required { term } else { term.min(0) }
}

/// Whether what a call adds is not nothing.
fn adds(part: i128) -> bool
    ensures { result ≡ adds_lem part }
{
    part < 0 || 0 < part
}

/// The set, and without the call where it fails.
fn without_if(set: CallSet, call: u32, fails: bool) -> CallSet
    ensures { (j : ℕ) → has result j ≡ (has set j && not ((j == call) && fails)) }
{
    if fails { set.without(call) } else { set }
}

/// What calls add, in thousandths of a cost unit, and those of them that add something.
#[derive(Clone, Copy)]
pub(crate) struct Gathered {
    pub(crate) added: i128,
    pub(crate) waiting: CallSet,
}

/// What calls add call by call, and what other ones add by a row.
fn together(others: &Gathered, row: &RowSum) -> Gathered
    requires low { neg_ℤ (pos (256 * 10 ^ 24)) ≤ℤ others.now.added }
    requires high { others.now.added ≤ℤ pos (256 * 10 ^ 24) }
    requires row_low { neg_ℤ (pos (4 * 10 ^ 18)) ≤ℤ row.now.added }
    requires row_high { row.now.added ≤ℤ pos 0 }
    ensures added { result.added ≡ (others.now.added +ℤ row.now.added) }
    ensures waiting { (j : ℕ) → has result.waiting j
        ≡ (has others.now.waiting j || has row.now.waiting j) }
{
    Gathered {
        added: others.added + i128::from(row.added),
        waiting: others.waiting.union(row.waiting),
    }
}

impl<'a, 'r, 'p> RouteSums<'a, 'r, 'p> {
    /// The price of a call, in thousandths of a cost unit.
    pub(crate) fn price(&self, call: u32) -> i128
        requires { call < call_count self.now.snapshot.now }
        ensures value { result ≡ price_at self.now.prices.now call }
        ensures range { IsPrice result }
    {
        self.prices[call as usize].value()
    }

    /// The rate of a call.
    fn rate(&self, call: u32) -> &CallRate
        requires { call < call_count self.now.snapshot.now }
        ensures { IsCallRate self.now.snapshot.now self.now.car call
            (price_at self.now.prices.now call) (has self.now.required call) result.now }
    {
        self.rates.rate(call)
    }

    /// What a call adds that boards at this moment.
    fn part(&self, call: u32, boarded: u64) -> i128
        requires call { call < call_count self.now.snapshot.now }
        requires early { boarded ≤ LATEST_OPEN }
        ensures value { result ≡ part_if_boarded self.now.snapshot.now self.now.car
            (price_at self.now.prices.now) (has self.now.required) call boarded }
        ensures low { neg_ℤ (pos (2 * 10 ^ 24)) ≤ℤ result }
        ensures high { result ≤ℤ pos (2 * 10 ^ 24) }
    {
        let rate = self.rate(call);
        if boarded >= rate.enough {
            return 0;
        }
        counted(rate.term(boarded), rate.is_required)
    }

    /// The same call by call.
    fn each_part(&self, stand: &Stand, calls: CallSet) -> Gathered
        requires from { stand.now.place.floor < floor_count self.now.snapshot.now.building }
        requires within { (j : ℕ) → has calls j ≡ true → j < call_count self.now.snapshot.now }
        ensures sum { result.added ≡ int_sum_where (call_count self.now.snapshot.now) (has calls)
            (λ j. part_if_boarded self.now.snapshot.now self.now.car (price_at self.now.prices.now)
            (has self.now.required) j
            (soonest self.now.snapshot.now self.now.car stand.now (call_of self.now.snapshot.now j).origin)) }
        ensures low { int_sum_where (call_count self.now.snapshot.now) (has calls) lowest ≤ℤ result.added }
        ensures high { result.added ≤ℤ int_sum_where (call_count self.now.snapshot.now) (has calls) highest }
        ensures waiting { (j : ℕ) → has result.waiting j ≡ (has calls j
            && adds_lem (part_if_boarded self.now.snapshot.now self.now.car (price_at self.now.prices.now)
            (has self.now.required) j
            (soonest self.now.snapshot.now self.now.car stand.now
            (call_of self.now.snapshot.now j).origin))) }
    {
        // For the proof: the snapshot is accepted.
        let _calls = self.snapshot.calls();
        let ready = stand.ready(self.snapshot, self.car);
        let mut sum = 0;
        let mut waiting = calls;
        for call in calls.iter() {
            let boarded = stand.next_open(self.snapshot, ready, self.rate(call).origin);
            let added = self.part(call, boarded);
            sum += added;
            waiting = without_if(waiting, call, !adds(added));
        }
        Gathered {
            added: sum,
            waiting,
        }
    }

    /// What calls add that board as soon as the doors can be open from this stand, or less.
    pub(crate) fn parts(&self, stand: &Stand, calls: CallSet) -> Gathered
        requires from { stand.now.place.floor < floor_count self.now.snapshot.now.building }
        requires within { (j : ℕ) → has calls j ≡ true → j < call_count self.now.snapshot.now }
        ensures sum { result.added ≤ℤ int_sum_where (call_count self.now.snapshot.now) (has calls)
            (λ j. part_if_boarded self.now.snapshot.now self.now.car (price_at self.now.prices.now)
            (has self.now.required) j
            (soonest self.now.snapshot.now self.now.car stand.now (call_of self.now.snapshot.now j).origin)) }
        ensures low { int_sum_where (call_count self.now.snapshot.now) (has calls) lowest ≤ℤ result.added }
        ensures high { result.added ≤ℤ int_sum_where (call_count self.now.snapshot.now) (has calls) highest }
        ensures within { (j : ℕ) → has result.waiting j ≡ true → has calls j ≡ true }
        ensures idle { (j : ℕ) → has calls j ≡ true → has result.waiting j ≡ false → pos 0
            ≤ℤ part_if_boarded self.now.snapshot.now self.now.car (price_at self.now.prices.now)
            (has self.now.required) j
            (soonest self.now.snapshot.now self.now.car stand.now
            (call_of self.now.snapshot.now j).origin) }
    {
        // For the proof: the snapshot is accepted.
        let _calls = self.snapshot.calls();
        let floor = stand.place.floor;
        let elsewhere = self.rates.apart(floor);
        let apart = calls.intersection(elsewhere);
        let row = self.rates.row(floor);
        let by_row = row_sum(row, stand.leaves, apart);
        let rest = calls.minus(apart);
        let others = self.each_part(stand, rest);
        together(&others, &by_row)
    }
}
