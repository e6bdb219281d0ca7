//! Walks over all partial tours of a car on which the running sums are compared with `bound`.

ghost use Rattle.std.specs.Prelude.{◌≡◌, ◌++◌, ◌∷◌, [], Some, true, length};
ghost use Rattle.call_sets.specs.Counting.{has};
ghost use Rattle.elevator_model.specs.Partial.{Course, IsLawful, boards_allowed};
ghost use Rattle.elevator_model.specs.Snapshot.{call_count};
ghost use Rattle.elevator_model.specs.declared.Move.{Move as MoveValue};
ghost use Rattle.partial_tours.specs.PartialTour.{course, with_move};
ghost use Rattle.pricing_bound.specs.Aims.{AimsAt, IsNextMove};
ghost use Rattle.pricing_bound.specs.Rates.{aim_at};
ghost use Rattle.pricing_bound.specs.Running.{StandFor};
ghost use Rattle.library_tests.specs.Walks.{IsKept};

use call_sets::CallSet;
use call_state::Snapshot;
use elevator_model::{MOST_NEXT_MOVES, Move};
use partial_tours::Prefix;
use price_scale::Price;
use pricing_bound::{StraightRides, Sums, TourBound, bound};

/// What `bound` is asked at each partial tour.
#[derive(Clone, Copy)]
pub(crate) struct Asked<'a> {
    pub(crate) snapshot: &'a Snapshot,
    pub(crate) prices: &'a [Price],
    pub(crate) allowed: CallSet,
    pub(crate) required: CallSet,
}

/// What a walk saw: how many partial tours, at how many the sums agreed with `bound`, and the least value of
/// a tour.
#[derive(Clone, Copy, PartialEq)]
pub(crate) struct Seen {
    pub(crate) visits: u64,
    pub(crate) agreed: u64,
    pub(crate) best: Option<i128>,
}

impl Seen {
    fn note(&mut self, agrees: bool) {
        self.visits = self.visits.saturating_add(1);
        self.agreed = self.agreed.saturating_add(u64::from(agrees));
    }

    fn note_tour(&mut self, value: i128) {
        self.best = match self.best {
            Some(best) => Some(best.min(value)),
            None => Some(value),
        };
    }
}

fn agrees(prefix: &Prefix, rides: &StraightRides, asked: &Asked, sums: &Sums) -> bool
    requires snapshot { asked.now.snapshot.now ≡ prefix.now.snapshot }
    requires prices { length asked.now.prices.now ≡ call_count prefix.now.snapshot }
{
    let whole = bound(
        asked.snapshot,
        prefix,
        asked.prices,
        asked.allowed,
        asked.required,
    );
    rides.value(sums) == whole
}

/// The sums at a next stop, from the departure. It is noted as a partial tour where something disagrees if
/// the sums found without a departure have another bound, or the departure tells of a greater one.
fn arrived(prefix: &Prefix, rides: &StraightRides, sums: &Sums, floor: u32, seen: &mut Seen) -> Sums
    requires kept { IsKept (aim_at rides.now.rates.now rides.now.car rides.now.allowed
        rides.now.required) prefix.now sums.now }
    requires leads { IsNextMove (aim_at rides.now.rates.now rides.now.car rides.now.allowed
        rides.now.required) (StandFor (aim_at rides.now.rates.now rides.now.car rides.now.allowed
        rides.now.required) sums.now) prefix.now (MoveValue.Leave floor) }
    ensures { (y : Course) → course (with_move prefix.now (MoveValue.Leave floor)) ≡ Some y
        → StandFor (aim_at rides.now.rates.now rides.now.car rides.now.allowed
        rides.now.required) result y }
{
    let departure = rides.depart(prefix, sums);
    let arrived = rides.arrive(prefix, &departure, floor);
    let value = rides.value(&arrived);
    let after = rides.after(prefix, sums, Move::Leave(floor));
    if rides.value(&after) != value || rides.least_value(&departure) > value {
        seen.note(false);
    }
    arrived
}

/// The sums after one more move.
fn after_move(
    prefix: &Prefix,
    rides: &StraightRides,
    sums: &Sums,
    step: Move,
    seen: &mut Seen,
) -> Sums
    requires kept { IsKept (aim_at rides.now.rates.now rides.now.car rides.now.allowed
        rides.now.required) prefix.now sums.now }
    requires leads { IsNextMove (aim_at rides.now.rates.now rides.now.car rides.now.allowed
        rides.now.required) (StandFor (aim_at rides.now.rates.now rides.now.car rides.now.allowed
        rides.now.required) sums.now) prefix.now step }
    ensures { (y : Course) → course (with_move prefix.now step) ≡ Some y
        → StandFor (aim_at rides.now.rates.now rides.now.car rides.now.allowed
        rides.now.required) result y }
{
    if let Move::Leave(floor) = step {
        return arrived(prefix, rides, sums, floor, seen);
    }
    rides.after(prefix, sums, step)
}

/// The walk over all partial tours of a car, from the empty one.
pub(crate) fn walk_all(prefix: &mut Prefix, rides: &StraightRides, asked: &Asked) -> Seen
    requires for_it { AimsAt (aim_at rides.now.rates.now rides.now.car rides.now.allowed
        rides.now.required) prefix.old }
    requires empty { prefix.old.moves ≡ [] }
    requires snapshot { asked.now.snapshot.now ≡ prefix.old.snapshot }
    requires prices { length asked.now.prices.now ≡ call_count prefix.old.snapshot }
    requires allowed { rides.now.allowed ≡ asked.now.allowed }
{
    // For the proof: the moves are lawful.
    let _lawful = prefix.moves();
    let sums = rides.start(prefix);
    let mut seen = Seen {
        visits: 0,
        agreed: 0,
        best: None,
    };
    visit(prefix, rides, asked, &sums, 40, &mut seen);
    seen
}

/// Visits the partial tour and those that begin with it and have at most `depth` moves more.
#[cycle(walk)]
fn visit(
    prefix: &mut Prefix,
    rides: &StraightRides,
    asked: &Asked,
    sums: &Sums,
    depth: u32,
    seen: &mut Seen,
)
    requires kept { IsKept (aim_at rides.now.rates.now rides.now.car rides.now.allowed
        rides.now.required) prefix.old sums.now }
    requires snapshot { asked.now.snapshot.now ≡ prefix.old.snapshot }
    requires prices { length asked.now.prices.now ≡ call_count prefix.old.snapshot }
    requires allowed { rides.now.allowed ≡ asked.now.allowed }
    ensures { prefix.new ≡ prefix.old }
{
    seen.note(agrees(prefix, rides, asked, sums));
    if prefix.point().ended {
        seen.note_tour(rides.tour_value(prefix, sums));
    }
    if depth == 0 {
        return;
    }
    let mut next = prefix.first_move(asked.allowed);
    for _ in 0..MOST_NEXT_MOVES {
        let Some(step) = next else {
            return;
        };
        visit_after(prefix, rides, asked, sums, depth - 1, step, seen);
        next = prefix.move_after(asked.allowed, step);
    }
}

/// Visits those that begin with one more move.
#[cycle(walk)]
fn visit_after(
    prefix: &mut Prefix,
    rides: &StraightRides,
    asked: &Asked,
    sums: &Sums,
    depth: u32,
    step: Move,
    seen: &mut Seen,
)
    requires kept { IsKept (aim_at rides.now.rates.now rides.now.car rides.now.allowed
        rides.now.required) prefix.old sums.now }
    requires snapshot { asked.now.snapshot.now ≡ prefix.old.snapshot }
    requires prices { length asked.now.prices.now ≡ call_count prefix.old.snapshot }
    requires allowed { rides.now.allowed ≡ asked.now.allowed }
    requires may { boards_allowed (has asked.now.allowed) step ≡ true }
    requires lawful { IsLawful prefix.old.snapshot prefix.old.car (prefix.old.moves ++ step ∷ []) }
    ensures { prefix.new ≡ prefix.old }
{
    let after = after_move(prefix, rides, sums, step, seen);
    prefix.push(step);
    visit(prefix, rides, asked, &after, depth, seen);
    prefix.pop();
}
