//! The sums of a search along the forced route.

ghost use Rattle.std.specs.Prelude.{◌≡◌, ℕ, ◌^◌, ◌<◌, ◌≤◌, ◌+ℤ◌, ◌-ℤ◌, true, length};
ghost use Rattle.call_sets.specs.Counting.{has};
ghost use Rattle.elevator_model.specs.Partial.{Course};
ghost use Rattle.elevator_model.specs.Snapshot.{call_count, car_count};
ghost use Rattle.elevator_model.specs.declared.Move.{Move as MoveValue};
ghost use Rattle.partial_tours.specs.PartialTour.{course, with_move};
ghost use Rattle.pricing_bound.specs.Aims.{AimsAt, IsBoundSize, IsNextMove};
ghost use Rattle.pricing_bound.specs.Undercutting.{UndercutsNone};
ghost use Rattle.price_scale.specs.Scale.{IsPrice, IsPriceSum};
ghost use Rattle.search_model.specs.Prices.{price_at, scaled as scaled_lem};
ghost use Rattle.route_sums.specs.CallRates.{IsLaidOut};
ghost use Rattle.route_sums.specs.Keeping.{AreRouteSums, aim_of};

use crate::halting::stand_at;
use crate::parts::RouteSums;
use crate::rates::RouteRates;
use crate::stands::Newest;
use call_sets::CallSet;
use call_state::Snapshot;
use elevator_model::Move;
use partial_tours::Prefix;
use price_scale::{MOST_WORTH, Price, scaled};
use pricing_bound::TourBound;

/// What is kept of a partial tour, in thousandths of a cost unit.
#[derive(Clone, Copy)]
pub struct Sums {
    /// No tour that begins with it has a smaller value.
    value: i128,
    /// The prices of the calls that boarded, added up.
    paid: i128,
    /// Of the allowed calls that have not boarded, those that may still add something: the others take nothing
    /// off the value of any tour that begins with it.
    waiting: CallSet,
}

/// Prices added up, with one more.
fn with_price(paid: i128, price: i128) -> i128
    requires paid { IsPriceSum paid }
    requires price { IsPrice price }
    ensures { result ≡ paid +ℤ price }
{
    paid + price
}

/// The value of a tour of which this is settled, in cost units, less the prices of its calls.
fn value_of(settled: u64, paid: i128) -> i128
    requires settled { settled ≤ 10 ^ 18 }
    requires paid { IsPriceSum paid }
    ensures value { result ≡ scaled_lem settled -ℤ paid }
    ensures size { IsBoundSize result }
{
    scaled(settled) - paid
}

impl<'a, 'r, 'p> RouteSums<'a, 'r, 'p> {
    /// The bound of a car's partial tours, with the rates laid out for it, its prices and the calls that it
    /// has to board.
    pub fn new(
        snapshot: &'a Snapshot,
        rates: &'r RouteRates,
        car: u32,
        prices: &'p [Price],
        allowed: CallSet,
        required: CallSet,
    ) -> Self
        requires car { car < car_count snapshot.now }
        requires prices { length prices.now ≡ call_count snapshot.now }
        requires worth { (j : ℕ) → IsPrice (price_at prices.now j) }
        requires laid { IsLaidOut snapshot.now car (price_at prices.now) (has required) rates.now }
        requires within { (j : ℕ) → has allowed j ≡ true → j < call_count snapshot.now }
        ensures { aim_of result ≡ record {
          snapshot = snapshot.now;
          car = car;
          price = price_at prices.now;
          allowed = has allowed;
          required = has required;
        } }
    {
        RouteSums {
            snapshot,
            rates,
            car,
            prices,
            allowed,
            required,
        }
    }

    /// The sums after a call boarded.
    fn after_board(&self, prefix: &Prefix, sums: &Sums, call: u32) -> Sums
        requires for_it { AimsAt (aim_of self.now) prefix.now }
        requires leads { IsNextMove (aim_of self.now)
            (AreRouteSums (aim_of self.now) sums.now) prefix.now (MoveValue.Board call) }
        ensures { (y : Course) → course (with_move prefix.now (MoveValue.Board call)) ≡ Some y
            → AreRouteSums (aim_of self.now) result y }
    {
        // For the proof: the snapshot is accepted.
        let _calls = self.snapshot.calls();
        let stand = stand_at(prefix).with_board(prefix, call);
        let newest = Newest {
            call,
            moment: stand.opened,
        };
        let paid = with_price(sums.paid, self.price(call));
        let next = self.value_at(prefix, Some(newest), &stand, Some(call), paid, sums.waiting);
        Sums {
            value: next.value,
            paid,
            waiting: next.waiting,
        }
    }

    /// The sums after the car goes to a stop.
    fn after_leave(&self, prefix: &Prefix, sums: &Sums, floor: u32) -> Sums
        requires for_it { AimsAt (aim_of self.now) prefix.now }
        requires leads { IsNextMove (aim_of self.now)
            (AreRouteSums (aim_of self.now) sums.now) prefix.now (MoveValue.Leave floor) }
        ensures { (y : Course) → course (with_move prefix.now (MoveValue.Leave floor)) ≡ Some y
            → AreRouteSums (aim_of self.now) result y }
    {
        // For the proof: the snapshot is accepted.
        let _calls = self.snapshot.calls();
        let stand = stand_at(prefix).halted(prefix, None, floor);
        let next = self.value_at(prefix, None, &stand, None, sums.paid, sums.waiting);
        Sums {
            value: next.value,
            paid: sums.paid,
            waiting: next.waiting,
        }
    }
}

impl<'a, 'r, 'p> TourBound for RouteSums<'a, 'r, 'p> {
    type Sums = Sums;

    /// Nothing is left out where a car departs.
    type Departure = Sums;

    ghost aim = { λ it. aim_of it };

    ghost stands = { λ it sums x. AreRouteSums (aim_of it) sums x };

    ghost departs = { λ it sums x. AreRouteSums (aim_of it) sums x };

    ghost bounds = { λ it value x. UndercutsNone (aim_of it) value x };

    fn start(&self, prefix: &Prefix) -> Sums {
        let stand = stand_at(prefix);
        let start = self.route_start(prefix, None, &stand);
        let first = self.value_at(prefix, None, &start, None, 0, self.allowed);
        Sums {
            value: first.value,
            paid: 0,
            waiting: first.waiting,
        }
    }

    fn after(&self, prefix: &Prefix, sums: &Sums, next: Move) -> Sums {
        match next {
            Move::Board(call) => self.after_board(prefix, sums, call),
            Move::Leave(floor) => self.after_leave(prefix, sums, floor),
            Move::End => Sums {
                value: value_of(prefix.settled(), sums.paid),
                paid: sums.paid,
                waiting: sums.waiting,
            },
        }
    }

    fn depart(&self, _prefix: &Prefix, sums: &Sums) -> Sums {
        *sums
    }

    fn least_value(&self, _departure: &Sums) -> i128 {
        -MOST_WORTH
    }

    fn arrive(&self, prefix: &Prefix, departure: &Sums, floor: u32) -> Sums {
        self.after_leave(prefix, departure, floor)
    }

    fn value(&self, sums: &Sums) -> i128 {
        sums.value
    }

    fn tour_value(&self, prefix: &Prefix, sums: &Sums) -> i128 {
        value_of(prefix.settled(), sums.paid)
    }

    ghost lower = { λ it value x none. none };
}
