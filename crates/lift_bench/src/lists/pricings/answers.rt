//! The answers of a pricer, compared with what the listed tours say.

ghost use Rattle.std.specs.Prelude.{◌≡◌, ◌<◌, length};
ghost use Rattle.elevator_model.specs.Snapshot.{car_count, call_count};
ghost use Rattle.search_model.specs.Nodes.{IsNodeOf};

use crate::lists::pricings::aims::Aim;
use crate::lists::pricings::begun::Listed;
use crate::lists::pricings::tally::Counts;
use assign_branch::{Priced, Pricer};
use elevator_model::Tour;
use std::alloc::{AllocError, Global};

/// A limit that no pricing of a small snapshot comes to.
const FAR: u64 = 1_000_000_000;

/// The tour that a pricer gave.
#[derive(Clone, Copy)]
struct Given {
    is_some: bool,
    /// Its value. None where there is no tour, or none that is in the node.
    value: Option<i128>,
}

impl Given {
    fn of(aim: &Aim, given: &Option<Tour>) -> Given {
        match given {
            Some(tour) => Given {
                is_some: true,
                value: aim.value_within(tour),
            },
            None => Given {
                is_some: false,
                value: None,
            },
        }
    }
}

/// Compares a pricing with no limit that matters.
fn note_whole(due: i128, priced: Priced, given: Given, tally: &mut Counts) {
    tally.least.note(priced.worth == due && !priced.spent);
    tally.tours.note(given.value == Some(due));
}

/// Compares the visits of such a pricing with the partial tours that tours of the node begin with.
fn note_visits(listed: Listed, priced: Priced, tally: &mut Counts) {
    let Some(begun) = listed.begun else {
        tally.visits.note(false);
        return;
    };
    tally.visits.note(priced.visits <= begun);
    tally.all_begun = tally.all_begun.wrapping_add(begun);
    tally.all_visits = tally.all_visits.wrapping_add(priced.visits);
}

/// Compares a pricing with a limit.
fn note_limited(listed: Listed, limit: u64, priced: Priced, tally: &mut Counts) {
    tally.limits.note(priced.visits <= limit && priced.spent == (priced.visits == limit));
    tally.bounds.note(priced.worth <= listed.worth && listed.first_bound <= priced.worth);
    if !priced.spent {
        tally.unspent.note(priced.worth == listed.worth);
    }
    if limit == 1 {
        tally.first.note(priced.visits == 1 && priced.spent);
    }
}

/// Compares the tour of a pricing with a limit.
fn note_given(due: i128, priced: Priced, given: Given, tally: &mut Counts) {
    if priced.spent {
        tally.given.note(!given.is_some || given.value.is_some());
    } else {
        tally.given.note(given.value == Some(due));
    }
}

/// The tour of the last pricing at the desk.
fn given_at<P: Pricer>(
    alloc: Global,
    pricer: &P,
    aim: &Aim,
    desk: &P::Desk,
) -> Result<Given, AllocError>
    requires { P.owns pricer.now desk.now }
{
    let tour = pricer.tour(alloc, desk)?;
    Ok(Given::of(aim, &tour))
}

/// Prices with a limit, and compares the answer. Nothing is done where the limit is 0 or too great.
fn compare_limit<P: Pricer>(
    alloc: Global,
    pricer: &P,
    aim: &Aim,
    listed: Listed,
    limit: u64,
    desk: &mut P::Desk,
    tally: &mut Counts,
) -> Result<(), AllocError>
    requires same { P.snapshot pricer.now ≡ aim.now.snapshot.now }
    requires car { aim.now.car < car_count aim.now.snapshot.now }
    requires node { IsNodeOf aim.now.snapshot.now aim.now.node.now }
    requires prices { length aim.now.prices.now ≡ call_count aim.now.snapshot.now }
    requires own { P.owns pricer.now desk.old }
    ensures own { P.owns pricer.now desk.new }
{
    if limit < 1 || FAR < limit {
        return Ok(());
    }
    let priced = pricer.price(aim.car, aim.node, aim.prices, limit, desk);
    let given = given_at(alloc, pricer, aim, desk)?;
    note_limited(listed, limit, priced, tally);
    note_given(listed.worth, priced, given, tally);
    Ok(())
}

/// Prices without a limit, and compares the answer. The visits are answered.
fn compare_whole<P: Pricer>(
    alloc: Global,
    pricer: &P,
    aim: &Aim,
    listed: Listed,
    desk: &mut P::Desk,
    tally: &mut Counts,
) -> Result<u64, AllocError>
    requires same { P.snapshot pricer.now ≡ aim.now.snapshot.now }
    requires car { aim.now.car < car_count aim.now.snapshot.now }
    requires node { IsNodeOf aim.now.snapshot.now aim.now.node.now }
    requires prices { length aim.now.prices.now ≡ call_count aim.now.snapshot.now }
    requires own { P.owns pricer.now desk.old }
    ensures own { P.owns pricer.now desk.new }
{
    let priced = pricer.price(aim.car, aim.node, aim.prices, FAR, desk);
    let given = given_at(alloc, pricer, aim, desk)?;
    note_whole(listed.worth, priced, given, tally);
    note_visits(listed, priced, tally);
    Ok(priced.visits)
}

/// Prices without a limit and with several ones, and compares the answers.
pub(crate) fn compare<P: Pricer>(
    alloc: Global,
    pricer: &P,
    aim: &Aim,
    desk: &mut P::Desk,
    tally: &mut Counts,
) -> Result<(), AllocError>
    requires same { P.snapshot pricer.now ≡ aim.now.snapshot.now }
    requires car { aim.now.car < car_count aim.now.snapshot.now }
    requires node { IsNodeOf aim.now.snapshot.now aim.now.node.now }
    requires prices { length aim.now.prices.now ≡ call_count aim.now.snapshot.now }
    requires own { P.owns pricer.now desk.old }
    ensures own { P.owns pricer.now desk.new }
{
    let Some(least) = aim.least() else {
        tally.least.note(false);
        return Ok(());
    };
    let listed = Listed::at(alloc, aim, least)?;
    let visits = compare_whole(alloc, pricer, aim, listed, desk, tally)?;
    for limit in [1, 2, visits, visits.saturating_sub(1), FAR] {
        compare_limit(alloc, pricer, aim, listed, limit, desk, tally)?;
    }
    Ok(())
}
