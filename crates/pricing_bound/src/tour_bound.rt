//! What a walk asks of a lower bound of partial tours.

ghost use Rattle.std.specs.Prelude.{◌≡◌, ℕ, ℤ, [], Some};
ghost use Rattle.elevator_model.specs.Partial.{Course, move_on};
ghost use Rattle.elevator_model.specs.declared.Move.{Move as MoveValue};
ghost use Rattle.partial_tours.specs.PartialTour.{course, with_move};
ghost use Rattle.pricing_bound.specs.Aims.{Aim, AimsAt, HasEnded, HasReached, IsBoundSize, IsNextMove};
ghost use Rattle.pricing_bound.specs.Aims.{IsUpTo, value_for};
ghost use Rattle.pricing_bound.specs.Undercutting.{UndercutsNone};

use elevator_model::Move;
use partial_tours::Prefix;

/// A lower bound of the tours that begin with a partial tour of one car.
///
/// It is laid out for a car of a snapshot, one price per call, the calls that a tour may board and those that
/// it has to board. A walk over the car's partial tours keeps the sums of each of them: it starts with those
/// of the empty one, and gets those after a move from those before it, so that a move need not be made to see
/// its value. Values are in thousandths of a cost unit.
pub trait TourBound {
    /// What is kept where a partial tour leads.
    type Sums: Copy;

    /// What is kept of a car that departs.
    type Departure: Copy;

    /// The car, prices and calls that it is laid out for.
    ghost aim: { Self → Aim };

    /// The sums are those of where a partial tour leads.
    ghost stands: { Self → Self.Sums → Course → Type 0 };

    /// It is the departure from where a partial tour leads.
    ghost departs: { Self → Self.Departure → Course → Type 0 };

    /// The value is one of the bound's where a partial tour leads.
    ghost bounds: { Self → ℤ → Course → Type 0 };

    /// The sums of the empty partial tour.
    fn start(&self, prefix: &Prefix) -> Self::Sums
        requires for_it { AimsAt (aim self.now) prefix.now }
        requires empty { prefix.now.moves ≡ [] }
        ensures { (x : Course) → course prefix.now ≡ Some x → stands self.now result x };

    /// The sums of a partial tour with one move more, from its own. The move has not to be made for it.
    fn after(&self, prefix: &Prefix, sums: &Self::Sums, next: Move) -> Self::Sums
        requires for_it { AimsAt (aim self.now) prefix.now }
        requires leads { IsNextMove (aim self.now) (stands self.now sums.now) prefix.now next }
        ensures { (y : Course) → course (with_move prefix.now next) ≡ Some y
            → stands self.now result y };

    /// The departure from where a partial tour leads, whatever its next stop is.
    fn depart(&self, prefix: &Prefix, sums: &Self::Sums) -> Self::Departure
        requires for_it { AimsAt (aim self.now) prefix.now }
        requires reached { HasReached (aim self.now) (stands self.now sums.now) prefix.now }
        ensures { (x : Course) → course prefix.now ≡ Some x → departs self.now result x };

    /// A value that the bound at no next stop is below, of absolute value at most 10^27.
    fn least_value(&self, departure: &Self::Departure) -> i128
        ensures least { (x y : Course) (floor : ℕ) → departs self.now departure.now x
            → move_on (aim self.now).snapshot (aim self.now).car x (MoveValue.Leave floor) ≡ Some y
            → IsUpTo (bounds self.now) result y }
        ensures size { (x : Course) → departs self.now departure.now x → IsBoundSize result };

    /// The sums after the car goes to a stop, from its departure. The move has not to be made for it.
    fn arrive(&self, prefix: &Prefix, departure: &Self::Departure, floor: u32) -> Self::Sums
        requires for_it { AimsAt (aim self.now) prefix.now }
        requires leads { IsNextMove (aim self.now) (departs self.now departure.now) prefix.now
            (MoveValue.Leave floor) }
        ensures { (y : Course) → course (with_move prefix.now (MoveValue.Leave floor)) ≡ Some y
            → stands self.now result y };

    /// The bound, of absolute value at most 10^27.
    fn value(&self, sums: &Self::Sums) -> i128
        ensures value { (x : Course) → stands self.now sums.now x → bounds self.now result x }
        ensures size { (x : Course) → stands self.now sums.now x → IsBoundSize result };

    /// The value of the tour of a partial tour that has ended, of absolute value at most 10^27.
    fn tour_value(&self, prefix: &Prefix, sums: &Self::Sums) -> i128
        requires for_it { AimsAt (aim self.now) prefix.now }
        requires ended { HasEnded (stands self.now sums.now) prefix.now }
        ensures value { (x : Course) → course prefix.now ≡ Some x
            → result ≡ value_for (aim self.now) x.left }
        ensures size { IsBoundSize result };

    /// No tour for the aim that begins with a partial tour undercuts a value of the bound.
    ghost lower: { (it : Self) (value : ℤ) (x : Course) → bounds it value x
        → UndercutsNone (aim it) value x };
}
