//! What calls add from each floor, laid out as sums that grow with the moment at which the car leaves.

ghost use Rattle.std.specs.Prelude.{◌≡◌, ℕ, ◌+◌, ◌*◌, ◌^◌, ◌<◌, ◌≤◌, ◌+ℤ◌, ◌≤ℤ◌, ◌==◌, ◌&&◌};
ghost use Rattle.std.specs.Prelude.{IfOk, if◌then◌else◌, int_lt, length, neg_ℤ, not, pos};
ghost use Rattle.std.specs.Prelude.{slice_index, slice_index_or, true};
ghost use Rattle.call_sets.specs.Counting.{has};
ghost use Rattle.elevator_model.specs.Building.{floor_count};
ghost use Rattle.elevator_model.specs.Snapshot.{car_count};
ghost use Rattle.search_model.specs.Sums.{int_sum_where};
ghost use Rattle.route_sums.specs.Rows.{AreTerms, BeginsApart, HasRow, IsRateSize, IsTermOf, IsTermSize};
ghost use Rattle.route_sums.specs.Rows.{no_rate, no_term, row_at, row_part};

use crate::origins::with_if;
use crate::rates::CallRate;
use crate::stands::LATEST;
use call_sets::CallSet;
use call_state::Snapshot;
use elevator_model::MOST_CALLS;
use std::alloc::{AllocError, Global};
use tour_rules::riding;

/// What a call adds that boards after the way from a floor, or less: by the moment in ms at which the car
/// leaves that floor, in thousandths of a cost unit.
#[derive(Clone, Copy)]
pub(crate) struct RowTerm {
    constant: i64,
    /// What each ms adds.
    weight: u64,
}

impl RowTerm {
    /// What the call adds where the car leaves at this moment.
    fn at(&self, leaves: u64) -> i64
        requires size { IsTermSize self.now }
        requires early { leaves ≤ LATEST }
        ensures value { result ≡ row_at self.now leaves }
        ensures least { neg_ℤ (pos (3 * 10 ^ 16)) ≤ℤ result }
        ensures most { result ≤ℤ pos (10 ^ 18) }
    {
        self.constant + (self.weight * leaves) as i64
    }
}

/// No call whose price is above this, or below its negative, has a row. In thousandths of a cost unit.
const MOST_IN_ROW: i128 = 10_000_000_000_000_000;

/// Whether a call has a row: not where it has to board or its price is great, nor where its wait counts once
/// more past its patience, of which a row does not tell.
pub(crate) fn has_row(is_required: bool, over: u64, price: i128) -> bool
    ensures { result ≡ true → HasRow is_required price }
{
    !is_required && over == 0 && -MOST_IN_ROW <= price && price <= MOST_IN_ROW
}

/// The term of a call where the doors open this much after the car leaves.
fn term_of(rate: &CallRate, way: u64) -> RowTerm
    requires wait { rate.now.wait ≤ 8000 }
    requires ride { rate.now.ride ≤ 1600000000000 }
    requires released { rate.now.released ≤ 1000000000 }
    requires price { HasRow rate.now.is_required rate.now.price }
    requires way { way ≤ 20060000 }
    ensures { IsTermOf rate.now way result }
{
    let weight = 1000 * rate.wait;
    let later = weight * way + 1000 * rate.ride;
    let sooner = weight * rate.released;
    RowTerm {
        constant: later as i64 - sooner as i64 - rate.price as i64,
        weight,
    }
}

/// The same for each call: nothing is said where it has no row.
fn term_or_none(rate: &CallRate, way: u64) -> RowTerm
    requires wait { rate.now.wait ≤ 8000 }
    requires ride { rate.now.ride ≤ 1600000000000 }
    requires released { rate.now.released ≤ 1000000000 }
    requires price { rate.now.has_row ≡ true → HasRow rate.now.is_required rate.now.price }
    requires way { way ≤ 20060000 }
    ensures { rate.now.has_row ≡ true → IsTermOf rate.now way result }
{
    if rate.has_row {
        term_of(rate, way)
    } else {
        RowTerm {
            constant: 0,
            weight: 0,
        }
    }
}

/// The calls that have a row and do not begin at this floor.
fn calls_apart(rates: &[CallRate], floor: u32) -> CallSet
    requires { length rates.now ≤ MOST_CALLS }
    ensures { (j : ℕ) → has result j ≡ true → BeginsApart rates.now floor j }
{
    let mut set = CallSet::empty();
    for j in 0..rates.len() {
        let rate = &rates[j];
        set = with_if(set, j as u32, rate.has_row && rate.origin != floor);
    }
    set
}

/// Puts for each floor the calls that have a row and do not begin there.
pub(crate) fn set_apart(apart: &mut [CallSet], rates: &[CallRate])
    requires floors { length apart.old ≤ 64 }
    requires few { length rates.now ≤ MOST_CALLS }
    ensures size { length apart.new ≡ length apart.old }
    ensures apart { (f j : ℕ) → f < length apart.new → has (slice_index apart.new f) j ≡ true
        → BeginsApart rates.now f j }
{
    for floor in 0..apart.len() {
        apart[floor] = calls_apart(rates, floor as u32);
    }
}

/// Puts for each floor the terms of the calls, in their order.
pub(crate) fn set_terms(terms: &mut [RowTerm], snapshot: &Snapshot, car: u32, rates: &[CallRate])
    requires car { car < car_count snapshot.now }
    requires size { length terms.old ≡ floor_count snapshot.now.building * length rates.now }
    requires rates { (j : ℕ) → j < length rates.now
        → IsRateSize snapshot.now (slice_index_or rates.now j no_rate) }
    ensures { AreTerms snapshot.now car rates.now terms.new }
{
    let opening = riding::opening_of(snapshot, car);
    let travel = snapshot.building().travel();
    let calls = rates.len();
    for place in 0..terms.len() {
        let rate = &rates[place % calls];
        let way = travel.time((place / calls) as u32, rate.origin);
        terms[place] = term_or_none(rate, way + opening);
    }
}

/// As many empty sets as there are floors.
pub(crate) fn no_sets(alloc: Global, floors: usize) -> Result<Vec<CallSet>, AllocError>
    ensures { IfOk result (λ sets. length sets.items ≡ floors) }
{
    let mut sets = Vec::new(alloc);
    for floor in 0..floors {
        sets.push(CallSet::empty())?;
    }
    Ok(sets)
}

/// As many terms, of no meaning yet.
pub(crate) fn no_terms(alloc: Global, places: usize) -> Result<Vec<RowTerm>, AllocError>
    ensures { IfOk result (λ terms. length terms.items ≡ places) }
{
    let mut terms = Vec::new(alloc);
    for place in 0..places {
        terms.push(RowTerm {
            constant: 0,
            weight: 0,
        })?;
    }
    Ok(terms)
}

/// What calls add by a row, in thousandths of a cost unit, and those of them that add something.
#[derive(Clone, Copy)]
pub(crate) struct RowSum {
    pub(crate) added: i64,
    pub(crate) waiting: CallSet,
}

impl RowSum {
    /// With what one call more adds: nothing, where its term is not below 0.
    fn with(&self, call: u32, term: i64) -> RowSum
        requires so_far { neg_ℤ (pos (4 * 10 ^ 18)) ≤ℤ self.now.added }
        requires least { neg_ℤ (pos (3 * 10 ^ 16)) ≤ℤ term }
        ensures added { result.added
            ≡ (self.now.added +ℤ (if int_lt term (pos 0) then term else pos 0)) }
        ensures waiting { (j : ℕ) → has result.waiting j
            ≡ (has self.now.waiting j && not ((j == call) && not (int_lt term (pos 0)))) }
    {
        if term < 0 {
            RowSum {
                added: self.added + term,
                waiting: self.waiting,
            }
        } else {
            RowSum {
                added: self.added,
                waiting: self.waiting.without(call),
            }
        }
    }
}

/// What the calls of a set add by a row where the car leaves at this moment.
pub(crate) fn row_sum(row: &[RowTerm], leaves: u64, calls: CallSet) -> RowSum
    requires few { length row.now ≤ MOST_CALLS }
    requires early { leaves ≤ LATEST }
    requires within { (j : ℕ) → has calls j ≡ true → j < length row.now }
    requires sizes { (j : ℕ) → has calls j ≡ true → IsTermSize (slice_index_or row.now j no_term) }
    ensures added { result.added ≡ int_sum_where (length row.now) (has calls) (row_part row.now leaves) }
    ensures low { neg_ℤ (pos (4 * 10 ^ 18)) ≤ℤ result.added }
    ensures high { result.added ≤ℤ pos 0 }
    ensures waiting { (j : ℕ) → has result.waiting j
        ≡ (has calls j && int_lt (row_at (slice_index_or row.now j no_term) leaves) (pos 0)) }
{
    let mut sum = RowSum {
        added: 0,
        waiting: calls,
    };
    for call in calls.iter() {
        sum = sum.with(call, row[call as usize].at(leaves));
    }
    sum
}
