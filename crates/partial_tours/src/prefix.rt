//! Partial tours and the moves that may follow.

ghost use Rattle.std.specs.Prelude.{true, OnOk, ◌≡◌, ◌+◌, ◌<◌, ◌≤◌, ◌++◌, ◌∷◌, [], IfOk, IfSome, MatchOption};
ghost use Rattle.std.specs.Prelude.{Some, ℕ, length};
ghost use Rattle.call_sets.specs.Counting.{has};
ghost use Rattle.elevator_model.specs.Partial.{Course, lawful_moves, moves_of, settled_of, moment_in};
ghost use Rattle.partial_tours.specs.PartialTour.{course, with_move_made, stops_made};
ghost use Rattle.partial_tours.specs.Orders.{first_of, next_after};

use crate::following::{Followers, fill, followers_at};
use crate::points::Point;
use crate::steps::{Step, opened_at};
use crate::tally::{MOST_SETTLED, note};
use call_sets::CallSet;
use call_state::Snapshot;
use car_layout::Layout;
use elevator_model::{
    Boards, LATEST_MOMENT, MOMENT_LIMIT, MOST_CALLS, MOST_COST, MOST_MOVES, MOST_NEXT_MOVES, Move,
    Stop, Tour,
};
use std::alloc::{AllocError, Global};
use std::marker::Model;
use tour_rules::places::is_carried;

/// The moves that may follow a partial tour, with room for all of them.
#[derive(Drop)]
pub struct Moves {
    items: Vec<Move>,
}

impl Model for Moves {
    ghost use Rattle.std.specs.Prelude.{List, ◌≤◌, vec_capacity};
    ghost use Rattle.elevator_model.specs.declared.Move.{Move};

    ghost Value = { List Move };

    ghost view = { λ m. m.items.items };

    ghost invariant = { λ m. 193 ≤ vec_capacity m.items };
}

impl Moves {
    /// No moves, with room for all that may follow any partial tour.
    pub fn new(alloc: Global) -> Result<Self, AllocError>
        ensures { IfOk result (λ m. m ≡ []) }
    {
        Ok(Moves {
            items: Vec::with_capacity(alloc, MOST_NEXT_MOVES)?,
        })
    }

    /// The moves, in their order.
    pub fn items(&self) -> &[Move]
        ensures { result.now ≡ self.now }
    {
        self.items.as_slice()
    }
}

/// The beginning of a car's tour, as a list of lawful moves, with where each of them leads and what it
/// costs until there.
#[derive(Drop)]
pub struct Prefix<'a> {
    layout: Layout<'a>,
    moves: Vec<Move>,
    /// Where the moves lead: the start, and what follows each move. A move that is taken back takes its step
    /// with it.
    steps: Vec<Step>,
    /// For each call that boarded the moment of it. One that was taken back is overwritten when the call
    /// boards again.
    moments: Vec<u64>,
}

impl<'a> Model for Prefix<'a> {
    ghost use Rattle.std.specs.Prelude.{◌≤◌, vec_capacity};
    ghost use Rattle.partial_tours.specs.PartialTour.{PartialTour};

    ghost Value = { PartialTour };

    ghost use Rattle.partial_tours.specs.Prefixes.{IsPrefix};
    ghost use Rattle.partial_tours.specs.Tallies.{IsTallied};

    ghost view = { λ p. record { snapshot = p.layout.snapshot; car = p.layout.car; moves = p.moves.items } };

    ghost invariant = { λ p. IsPrefix p.layout.snapshot p.layout.car p.moves.items p.steps.items
        × (450 ≤ vec_capacity p.moves) × (451 ≤ vec_capacity p.steps)
        × IsTallied p.layout.snapshot p.layout.car p.moves.items p.steps.items p.moments.items };
}

impl<'a> Prefix<'a> {
    ghost use Rattle.elevator_model.specs.Building.{floor_count};
    ghost use Rattle.elevator_model.specs.Snapshot.{car_count, call_count};
    ghost use Rattle.partial_tours.specs.Courses.{TracksCourse, reached};
    ghost use Rattle.partial_tours.specs.Tallies.{StandsAt};
    ghost use Rattle.elevator_model.specs.Partial.{IsLawful};
    ghost use Rattle.elevator_model.specs.declared.Move.{Move as MoveValue};
    ghost use Rattle.partial_tours.specs.Followers.{AreFollowers};
    ghost use Rattle.partial_tours.specs.PartialTour.{with_move};
    ghost use Rattle.tour_rules.specs.Measure.{most_moves};

    /// The empty partial tour of the car, with room for the longest.
    pub fn new(alloc: Global, snapshot: &'a Snapshot, car: u32) -> Result<Self, AllocError>
        requires { car < car_count snapshot.now }
        ensures { IfOk result (λ p. p ≡ record { snapshot = snapshot.now; car = car; moves = [] }) }
    {
        let layout = Layout::new(alloc, snapshot, car)?;
        let moves = Vec::with_capacity(alloc, MOST_MOVES)?;
        let mut steps = Vec::with_capacity(alloc, MOST_MOVES + 1)?;
        steps.push_reserved(Step::start(&layout));
        let moments = Vec::from_array(alloc, [0; MOST_CALLS])?;
        Ok(Prefix {
            layout,
            moves,
            steps,
            moments,
        })
    }

    /// Becomes the empty partial tour of a car of the snapshot, and takes no memory.
    pub fn restart(&mut self, car: u32)
        requires { car < car_count self.old.snapshot }
        ensures { self.new ≡ record { snapshot = self.old.snapshot; car = car; moves = [] } }
    {
        self.layout.restart(car);
        self.moves.clear();
        self.steps.clear();
        self.steps.push_reserved(Step::start(&self.layout));
    }

    /// The car.
    pub fn car(&self) -> u32
        ensures value { result ≡ self.now.car }
        ensures car { result < car_count self.now.snapshot }
    {
        self.layout.car()
    }

    /// What the snapshot and the car alone decide.
    pub fn layout(&self) -> &Layout<'a>
        ensures { result.now ≡ record { snapshot = self.now.snapshot; car = self.now.car } }
    {
        &self.layout
    }

    /// Where the moves lead.
    pub fn point(&self) -> &Point
        ensures { (x : Course) → course self.now ≡ Some x
            → TracksCourse self.now.snapshot self.now.car result.now x }
    {
        &self.last_step().point
    }

    /// The moves: at most three for each call, one for each group aboard the car, and two.
    pub fn moves(&self) -> &[Move]
        ensures value { result.now ≡ self.now.moves }
        ensures lawful { IsLawful self.now.snapshot self.now.car self.now.moves }
        ensures short { length self.now.moves ≤ most_moves self.now.snapshot self.now.car }
    {
        self.moves.as_slice()
    }

    /// Adds a move. The longer partial tour has to be lawful.
    pub fn push(&mut self, next: Move)
        requires { IsLawful self.old.snapshot self.old.car (self.old.moves ++ next ∷ []) }
        ensures { self.new ≡ with_move self.old next }
    {
        let step = self.steps[self.moves.len()].after(&self.layout, next, self.moments.as_slice());
        note(self.moments.as_mut_slice(), next, step.tally.opened);
        self.moves.push_reserved(next);
        self.steps.push_reserved(step);
    }

    /// Takes the last move away. None where there is none, and then nothing changes.
    pub fn pop(&mut self) -> Option<Move>
        ensures { MatchOption result ((self.old.moves ≡ []) × (self.new ≡ self.old))
            (λ m. self.old ≡ with_move self.new m) }
    {
        let last = self.moves.pop()?;
        let _ = self.steps.pop();
        Some(last)
    }

    /// The moves after which the partial tour is lawful: boards of allowed calls, leaves and the end.
    pub fn followers(&self, allowed: CallSet) -> Followers
        ensures value { (x : Course) → course self.now ≡ Some x
            → AreFollowers self.now.snapshot self.now.car x (has allowed) result }
        ensures course { (x : Course) × (course self.now ≡ Some x) }
    {
        followers_at(&self.layout, &self.last_step().point, allowed)
    }

    /// The first move after which the partial tour is lawful, of boards of allowed calls, leaves and the end.
    /// None where there is none.
    pub fn first_move(&self, allowed: CallSet) -> Option<Move>
        ensures value { (x : Course) → course self.now ≡ Some x → result
            ≡ first_of (lawful_moves self.now.snapshot self.now.car x (has allowed)) }
        ensures lawful { IfSome result
            (λ m. IsLawful self.now.snapshot self.now.car (self.now.moves ++ m ∷ [])) }
    {
        self.followers(allowed).first()
    }

    /// The first such move that comes after this one. None where there is none.
    pub fn move_after(&self, allowed: CallSet, last: Move) -> Option<Move>
        ensures value { (x : Course) → course self.now ≡ Some x → result
            ≡ next_after last (lawful_moves self.now.snapshot self.now.car x (has allowed)) }
        ensures lawful { IfSome result
            (λ m. IsLawful self.now.snapshot self.now.car (self.now.moves ++ m ∷ [])) }
    {
        self.followers(allowed).after(last)
    }

    /// The cost in cost units of those who got off within the partial tour. The present stop counts: those
    /// who are to get off there have done so.
    pub fn settled(&self) -> u64
        ensures value { (x : Course) → course self.now ≡ Some x
            → result ≡ settled_of self.now.snapshot self.now.car x }
        ensures bounded { result < MOST_COST }
    {
        self.last_step().tally.settled
    }

    /// The moment in ms at which the doors of the last stop are open. None where no stop has begun.
    pub fn moment(&self) -> Option<u64>
        ensures value { (x : Course) → course self.now ≡ Some x
            → result ≡ moment_in self.now.snapshot self.now.car x }
        ensures early { IfSome result (λ moment. moment < LATEST_MOMENT) }
    {
        let step = self.last_step();
        if step.point.place.begun {
            Some(step.tally.opened)
        } else {
            None
        }
    }

    /// The floor of the last stop, or where the car stands, comes to or comes from.
    pub fn floor(&self) -> u32
        ensures value { (x : Course) → course self.now ≡ Some x
            → result ≡ (reached self.now.snapshot self.now.car x).floor }
        ensures floor { result < floor_count self.now.snapshot.building }
    {
        self.last_step().point.place.floor
    }

    /// The moment in ms at which the doors of the last stop are open; where no stop has begun, that from
    /// which the first arrival counts.
    pub fn opened(&self) -> u64
        ensures value { (x : Course) → course self.now ≡ Some x
            → result ≡ (reached self.now.snapshot self.now.car x).opened }
        ensures early { result < LATEST_MOMENT }
    {
        self.last_step().tally.opened
    }

    /// The moment in ms at which the car departs from the last stop; where no stop has begun, that from which
    /// the first arrival counts.
    pub fn departs_at(&self) -> u64
        ensures value { (x : Course) → course self.now ≡ Some x
            → result ≡ (reached self.now.snapshot self.now.car x).leaves }
        ensures early { result ≤ MOMENT_LIMIT }
    {
        self.last_step().tally.leaves
    }

    /// The moment in ms at which the doors would be open at a next stop at this floor. The leave to it has to
    /// be lawful. Those who would have got off then cost less than `MOST_COST`.
    pub fn opened_after(&self, floor: u32) -> u64
        requires { IsLawful self.now.snapshot self.now.car
            (self.now.moves ++ MoveValue.Leave floor ∷ []) }
        ensures value { (y : Course) → course (with_move self.now (MoveValue.Leave floor)) ≡ Some y
            → result ≡ (reached self.now.snapshot self.now.car y).opened }
        ensures early { result < LATEST_MOMENT }
        ensures small { (y : Course) → course (with_move self.now (MoveValue.Leave floor)) ≡ Some y
            → settled_of self.now.snapshot self.now.car y < MOST_COST }
    {
        let step = self.last_step();
        opened_at(&self.layout, &step.point.place, step.tally.leaves, floor)
    }

    /// The calls that boarded.
    pub fn boarded(&self) -> CallSet
        ensures { (x : Course) → course self.now ≡ Some x → (j : ℕ)
            → j < call_count self.now.snapshot
            → has result j ≡ (reached self.now.snapshot self.now.car x).boarded j }
    {
        self.last_step().point.place.boarded
    }

    /// The calls that are carried, once those got off who get off at the last stop.
    pub fn carried(&self) -> CallSet
        ensures { (x : Course) → course self.now ≡ Some x → (j : ℕ)
            → j < call_count self.now.snapshot
            → has result j ≡ (reached self.now.snapshot self.now.car x).carried j }
    {
        self.last_step().point.place.carried
    }

    /// Whether a group aboard, by its place in the snapshot, is carried by the car and has not got off.
    pub fn carries_group(&self, group: u32) -> bool
        requires { group < length self.now.snapshot.aboard }
        ensures { (x : Course) → course self.now ≡ Some x → result
            ≡ (reached self.now.snapshot self.now.car x).carried
            (call_count self.now.snapshot + group) }
    {
        let aboard = &self.layout.snapshot().aboard()[group as usize];
        is_carried(
            aboard,
            self.layout.car(),
            self.last_step().point.place.visited,
        )
    }

    /// The moment in ms at which a call boarded. The call has to have boarded.
    pub fn boarded_at(&self, call: u32) -> u64
        requires call { call < call_count self.now.snapshot }
        requires boarded { (x : Course) × (course self.now ≡ Some x)
            × ((reached self.now.snapshot self.now.car x).boarded call ≡ true) }
        ensures value { (x : Course) → course self.now ≡ Some x
            → result ≡ (reached self.now.snapshot self.now.car x).boarded_at call }
        ensures early { result < LATEST_MOMENT }
    {
        self.moments[call as usize]
    }

    /// Where the moves lead.
    fn last_step(&self) -> &Step
        ensures stands { (x : Course) → course self.now ≡ Some x
            → StandsAt self.now.snapshot self.now.car result.now x }
        ensures course { (x : Course) × (course self.now ≡ Some x) }
        ensures leaves { result.now.tally.leaves ≤ 90000000000 }
        ensures small { result.now.tally.settled ≤ MOST_SETTLED }
        ensures early { result.now.tally.opened < 10000000000 }
        ensures floor { result.now.point.place.floor < floor_count self.now.snapshot.building }
    {
        &self.steps[self.moves.len()]
    }

    /// The tour whose move list this is. The partial tour has to have ended.
    pub fn tour(&self, alloc: Global) -> Result<Tour, AllocError>
        requires { (x : Course) × (course self.now ≡ Some x) × (x.ended ≡ true) }
        ensures stops { IfOk result (λ tour. (x : Course) → course self.now ≡ Some x
            → tour ≡ x.left) }
        ensures moves { IfOk result (λ tour. moves_of self.now.snapshot tour ≡ self.now.moves) }
    {
        tour_of(alloc, self.moves.as_slice())
    }
}

/// Fills the list with the moves after which the partial tour is lawful, boards of allowed calls only,
/// in order.
pub fn next_moves(prefix: &Prefix, allowed: CallSet, out: &mut Moves)
    ensures { (x : Course) → course prefix.now ≡ Some x
        → out.new ≡ lawful_moves prefix.now.snapshot prefix.now.car x (has allowed) }
{
    fill(
        &prefix.layout,
        &prefix.last_step().point,
        allowed,
        &mut out.items,
    );
}

/// Adds what the move does to the stops: a new one, or a board at the last one.
fn add_move(alloc: Global, stops: &mut Vec<Stop>, next: Move) -> Result<(), AllocError>
    ensures { OnOk result (stops.new.items ≡ with_move_made stops.old.items next) }
{
    match next {
        Move::Leave(floor) => {
            stops.push(Stop {
                floor,
                boards: Boards::new(alloc),
            })?;
        }
        Move::Board(call) => {
            if let Some(mut stop) = stops.pop() {
                stop.boards.push(call)?;
                stops.push(stop)?;
            }
        }
        Move::End => {}
    }
    Ok(())
}

/// The stops that the moves make: a leave begins one, and a board adds a call to the last one begun. The
/// only error is that memory runs out.
pub fn tour_of(alloc: Global, moves: &[Move]) -> Result<Tour, AllocError>
    ensures { IfOk result (λ tour. tour ≡ stops_made moves.now) }
{
    let mut stops = Vec::new(alloc);
    for next in moves {
        add_move(alloc, &mut stops, *next)?;
    }
    Ok(Tour::from_vec(stops))
}
