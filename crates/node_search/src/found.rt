//! The whole search: turns at the root, rounds below it, and what is answered at the end.

ghost use Rattle.std.specs.Prelude.{◌≡◌, ◌<◌, ◌≤◌, ◌^◌, ◌⊎◌, ℕ, ℤ, pos, ◌≤ℤ◌, ◌<ℤ◌, All, IfOk, OnOk};
ghost use Rattle.std.specs.Prelude.{MatchOption, false, length, true, None, Some, IfSome};
ghost use Rattle.elevator_model.specs.Snapshot.{Snapshot as SnapshotOf, IsAccepted, call_count, car_count};
ghost use Rattle.elevator_model.specs.Plans.{IsFeasiblePlan};
ghost use Rattle.search_model.specs.Sums.{rounded_up};
ghost use Rattle.search_model.specs.Nodes.{root_of};
ghost use Rattle.search_model.specs.declared.StopReason.TheVariants.{Solved, Told};
ghost use Rattle.search_model.specs.Solving.{IsFound, IsSearchAnswer, IsToldAnswer};
ghost use Rattle.search_model.specs.Verdicts.{rounds_enough, tours_enough};
ghost use Rattle.search_tree.specs.Sheets.{IsSizedTwig, PriceSheet, sum_of_sheet};
ghost use Rattle.search_tree.specs.Branches.{at_place};
ghost use Rattle.search_tree.specs.Standing.{IsSheetIn, bound_of_sheet};
ghost use Rattle.work_fan.specs.Work.{Serving};
ghost use Rattle.node_search.specs.Best.{IsBest};
ghost use Rattle.node_search.specs.Roots.{IsRoot};
ghost use Rattle.node_search.specs.Searches.{IsSplit};
ghost use Rattle.node_search.specs.Found.{IsAnswerOf, IsBegun, IsBelow, IsEnded, IsKeptRoot, IsOpenRoot};
ghost use Rattle.node_search.specs.Found.{HasDueTurns, IsReasonOf, IsTurned, IsTurnedSoFar, least_of};
ghost use Rattle.node_search.specs.Reasons.{HasLastState, HasReason};

use crate::best::Best;
use crate::choosing::first_wanted;
use crate::root::{MOST_TURNS, Root};
use crate::search::Search;
use crate::steps::{note_turns, split};
use assign_branch::{Pricer, Tree};
use branching_rules::Steps;
use byte_streams::{Gate, Progress};
use call_state::Snapshot;
use elevator_model::{MOST_CALLS, Plan};
use pricing_rounds::{PricingCrew, desks_for};
use root_turns::TurnSeries;
use search_model::{Interruption, Items, Limits, Stated, StopReason, Turn};
use search_tree::{Branch, SearchTree, Sheet, first_choice};
use std::alloc::{AllocError, Global};
use work_fan::Runtime;

/// What a search answers.
#[derive(Drop)]
pub struct Found {
    /// The cheapest plan that was found, with its cost and the bound.
    pub stated: Stated,
    /// It proves the bound.
    pub tree: Tree,
    /// The turns at the root.
    pub turns: Items<Turn>,
    pub why: StopReason,
}

/// The root after its turns, or after some of them.
#[derive(Drop)]
struct AfterTurns<'a> {
    root: Root<'a>,
    /// Whether the turns were told to stop.
    is_told: bool,
}

/// A search below the root, and the turns at the root before it.
#[derive(Drop)]
struct Begun<'a> {
    search: Search<'a>,
    turns: Vec<Turn>,
    /// Whether the rounds were told to stop.
    is_told: bool,
}

/// The car that reached the limit in a leaf's last pricing, in the first such leaf whose bound is below the
/// cost.
fn spent_car(branches: &[Branch], cost: u64) -> Option<u32>
    ensures { MatchOption result
        ((k : ℕ) → IsBelow cost branches.now k → (at_place branches.now k).spent ≡ None)
        (λ car. (k : ℕ) × IsBelow cost branches.now k × ((at_place branches.now k).spent ≡ Some car)) }
{
    for place in 0..branches.len() {
        let branch = &branches[place];
        let is_below = !branch.is_split() && branch.sheet.bound() < i128::from(cost);
        if is_below && branch.spent.is_some() {
            return branch.spent;
        }
    }
    None
}

impl<'a> Search<'a> {
    /// Why it ended, where each pricing may try up to `most_tours` partial tours.
    fn reason(&self, calls: usize, most_tours: u64) -> StopReason
        requires { calls ≤ MOST_CALLS }
        ensures { (s : SnapshotOf) → call_count s ≡ calls → IsReasonOf s most_tours self.now result }
    {
        let (branches, cost) = (self.tree.branches(), self.best.cost);
        let done = self.done;
        if self.tree.bound(cost) >= i128::from(cost) {
            return StopReason::Solved;
        }
        if first_wanted(branches, cost, calls).is_some() {
            return StopReason::Rounds { done };
        }
        match spent_car(branches, cost) {
            Some(car) => StopReason::Moves {
                car,
                count: most_tours,
            },
            None => StopReason::Rounds { done },
        }
    }
}

/// The answer of a search that ended with this tree, this plan and these turns. It fails only where there is
/// no memory left.
fn answer(
    alloc: Global,
    tree: SearchTree<Steps>,
    best: Best,
    turns: Vec<Turn>,
    why: StopReason,
) -> Result<Found, AllocError>
    requires { pos 0 ≤ℤ least_of best.cost tree.branches }
    ensures answer { IfOk result (IsAnswerOf tree.branches best.entry turns.items why) }
    ensures sized { IfOk result (λ f. All IsSizedTwig f.tree.twigs) }
{
    let bound = tree.bound(best.cost) as u64;
    Ok(Found {
        tree: tree.to_tree(alloc)?,
        stated: Stated {
            plan: best.plan,
            cost: best.cost,
            bound,
        },
        turns: Items::from_vec(turns),
        why,
    })
}

/// Splits the root where it had as many turns as it may have and some call has two cars. It fails only where
/// there is no memory left.
fn split_where_due(
    alloc: Global,
    tree: &mut SearchTree<Steps>,
    turns: usize,
    calls: usize,
) -> Result<(), AllocError>
    requires some { 0 < length tree.old.branches }
    requires calls { calls ≤ MOST_CALLS }
    ensures { OnOk result
        (IsSplit 0 tree.old.branches tree.new.branches
        ⊎ IsKeptRoot calls turns tree.old.branches tree.new.branches) }
{
    if turns < MOST_TURNS {
        return Ok(());
    }
    if let Some(first) = first_choice(&tree.branches()[0].node, calls) {
        split(tree, alloc, 0, calls, first)?;
    }
    Ok(())
}

/// The search below a root that is open after its turns. It fails only where there is no memory left.
fn begin<'a, P: Pricer>(
    alloc: Global,
    pricer: &P,
    root: Root<'a>,
    limits: Limits,
) -> Result<Begun<'a>, AllocError>
    requires accepted { IsAccepted (P.snapshot pricer.now) }
    requires root { IsRoot (P.snapshot pricer.now) limits.most_tours root }
    ensures { IfOk result (λ begun. (start : PriceSheet)
        → IsTurned (P.snapshot pricer.now) limits.rounds limits.most_tours start
        root.entry → IsOpenRoot root.entry
        → IsBegun (P.snapshot pricer.now) limits.rounds limits.most_tours start
        begun.turns.items begun.search) }
{
    let Root {
        mut tree,
        best,
        series,
    } = root;
    let TurnSeries { turns, prices, .. } = series;
    let calls = prices.len();
    note_turns(&mut tree, &turns);
    split_where_due(alloc, &mut tree, turns.len(), calls)?;
    let done = turns.len() as u64;
    let search = Search { tree, best, done };
    Ok(Begun {
        search,
        turns,
        is_told: false,
    })
}

/// The rounds below a root that is open after its turns. It fails only where there is no memory left.
fn go_on<'a, P: Pricer, C: PricingCrew<P>, G: Gate>(
    runtime: &Runtime<C, G>,
    pricer: &P,
    root: Root<'a>,
    limits: Limits,
    desks: &mut [P::Desk],
) -> Result<Begun<'a>, AllocError>
    requires accepted { IsAccepted (P.snapshot pricer.now) }
    requires turned { (start : PriceSheet)
        × IsTurned (P.snapshot pricer.now) limits.rounds limits.most_tours start root }
    requires open_yet { IsOpenRoot root }
    requires desks { Serving (P.owns pricer.now) desks.old }
    ensures begun { IfOk result (λ begun. (start : PriceSheet)
        → IsTurned (P.snapshot pricer.now) limits.rounds limits.most_tours start
        root.entry → IsBegun (P.snapshot pricer.now) limits.rounds limits.most_tours start
        begun.turns.items begun.search) }
    ensures ended { IfOk result (λ begun. begun.is_told ≡ false → (start : PriceSheet)
        → IsTurned (P.snapshot pricer.now) limits.rounds limits.most_tours start
        root.entry → IsEnded (P.snapshot pricer.now) limits.rounds limits.most_tours start
        begun.turns.items begun.search) }
    ensures goes_on { G.never_stops runtime.now.gate.now
        → IfOk result (λ begun. begun.is_told ≡ false) }
{
    let Begun {
        mut search,
        turns,
        ..
    } = begin(runtime.alloc, pricer, root, limits)?;
    let ended = search.run(runtime, pricer, limits, desks);
    let is_told = Interruption::was_told(ended)?;
    Ok(Begun {
        search,
        turns,
        is_told,
    })
}

/// The answer of a search whose rounds have ended. It fails only where there is no memory left.
fn end<P: Pricer>(
    alloc: Global,
    pricer: &P,
    begun: Begun,
    limits: Limits,
) -> Result<Found, AllocError>
    requires ended { (start : PriceSheet) × (pos 0 ≤ℤ sum_of_sheet start)
        × IsEnded (P.snapshot pricer.now) limits.rounds limits.most_tours start
        begun.turns.items begun.search }
    ensures found { IfOk result (λ f. (start : PriceSheet)
        → IsEnded (P.snapshot pricer.now) limits.rounds limits.most_tours start
        begun.entry.turns.items begun.entry.search
        → IsFound start.prices (rounded_up (sum_of_sheet start)) (P.snapshot pricer.now)
        limits.rounds limits.most_tours f.stated.plan f.stated.cost f.stated.bound f.tree.twigs f.turns f.why) }
    ensures why { IfOk result (λ f. (start : PriceSheet)
        → IsEnded (P.snapshot pricer.now) limits.rounds limits.most_tours start
        begun.entry.turns.items begun.entry.search
        → HasLastState (P.snapshot pricer.now) limits.rounds limits.most_tours start f) }
    ensures sized { IfOk result (λ f. All IsSizedTwig f.tree.twigs) }
{
    let Begun { search, turns, .. } = begun;
    let calls = search.best.pool.snapshot().calls().len();
    let why = search.reason(calls, limits.most_tours());
    let Search { tree, best, .. } = search;
    answer(alloc, tree, best, turns, why)
}

/// The answer where the root is not open after its turns. It fails only where there is no memory left.
fn close<P: Pricer>(
    alloc: Global,
    pricer: &P,
    root: Root,
    limits: Limits,
) -> Result<Found, AllocError>
    requires accepted { IsAccepted (P.snapshot pricer.now) }
    requires turned { (start : PriceSheet) × (pos 0 ≤ℤ sum_of_sheet start)
        × IsTurned (P.snapshot pricer.now) limits.rounds limits.most_tours start root }
    requires closed { pos root.best.cost ≤ℤ bound_of_sheet (at_place root.tree.branches 0).sheet }
    ensures found { IfOk result (λ f. (start : PriceSheet)
        → IsTurned (P.snapshot pricer.now) limits.rounds limits.most_tours start
        root.entry → IsFound start.prices (rounded_up (sum_of_sheet start)) (P.snapshot pricer.now)
        limits.rounds limits.most_tours f.stated.plan f.stated.cost f.stated.bound f.tree.twigs f.turns f.why) }
    ensures why { IfOk result (λ f. f.why ≡ Solved) }
    ensures sized { IfOk result (λ f. All IsSizedTwig f.tree.twigs) }
{
    let Root { tree, best, series } = root;
    answer(alloc, tree, best, series.turns, StopReason::Solved)
}

/// The answer of a search that was told to stop before its turns were done. It fails only where there is no
/// memory left.
fn stop_turning<P: Pricer>(
    alloc: Global,
    pricer: &P,
    root: Root,
    limits: Limits,
) -> Result<Found, AllocError>
    requires accepted { IsAccepted (P.snapshot pricer.now) }
    requires turned { (start : PriceSheet) × (pos 0 ≤ℤ sum_of_sheet start)
        × IsTurnedSoFar (P.snapshot pricer.now) limits.rounds limits.most_tours start root }
    ensures found { IfOk result (λ f. (start : PriceSheet)
        → IsTurnedSoFar (P.snapshot pricer.now) limits.rounds limits.most_tours start
        root.entry → IsToldAnswer start.prices (rounded_up (sum_of_sheet start)) (P.snapshot pricer.now)
        limits.rounds limits.most_tours f.stated.plan f.stated.cost f.stated.bound f.tree.twigs f.turns) }
    ensures why { IfOk result (λ f. f.why ≡ Told) }
    ensures sized { IfOk result (λ f. All IsSizedTwig f.tree.twigs) }
{
    let Root { tree, best, series } = root;
    answer(alloc, tree, best, series.turns, StopReason::Told)
}

/// The answer of a search whose rounds were told to stop. It fails only where there is no memory left.
fn stop<P: Pricer>(
    alloc: Global,
    pricer: &P,
    begun: Begun,
    limits: Limits,
) -> Result<Found, AllocError>
    requires begun { (start : PriceSheet) × (pos 0 ≤ℤ sum_of_sheet start)
        × IsBegun (P.snapshot pricer.now) limits.rounds limits.most_tours start
        begun.turns.items begun.search }
    ensures found { IfOk result (λ f. (start : PriceSheet)
        → IsBegun (P.snapshot pricer.now) limits.rounds limits.most_tours start
        begun.entry.turns.items begun.entry.search
        → IsToldAnswer start.prices (rounded_up (sum_of_sheet start)) (P.snapshot pricer.now)
        limits.rounds limits.most_tours f.stated.plan f.stated.cost f.stated.bound f.tree.twigs f.turns) }
    ensures why { IfOk result (λ f. f.why ≡ Told) }
    ensures sized { IfOk result (λ f. All IsSizedTwig f.tree.twigs) }
{
    let Begun { search, turns, .. } = begun;
    let Search { tree, best, .. } = search;
    answer(alloc, tree, best, turns, StopReason::Told)
}

/// The root after the turns that are due, or after those that were made before they were told to stop. It
/// fails only where there is no memory left.
fn turned<'a, P: Pricer, C: PricingCrew<P>, G: Gate>(
    runtime: &Runtime<C, G>,
    snapshot: &'a Snapshot,
    pricer: &P,
    start: Plan,
    sheet: Sheet,
    limits: Limits,
    desks: &mut [P::Desk],
) -> Result<AfterTurns<'a>, AllocError>
    requires snapshot { P.snapshot pricer.now ≡ snapshot.now }
    requires start { IsFeasiblePlan snapshot.now start }
    requires sheet { IsSheetIn snapshot.now (root_of snapshot.now) sheet }
    requires desks { Serving (P.owns pricer.now) desks.old }
    ensures so_far { IfOk result (λ turned. IsTurnedSoFar (P.snapshot pricer.now) limits.rounds
        limits.most_tours sheet turned.root) }
    ensures due { IfOk result (λ turned. turned.is_told ≡ false
        → HasDueTurns (P.snapshot pricer.now) limits.rounds turned.root) }
    ensures goes_on { G.never_stops runtime.now.gate.now
        → IfOk result (λ turned. turned.is_told ≡ false) }
    ensures accepted { IsAccepted (P.snapshot pricer.now) }
    ensures desks { IfOk result (λ turned. turned.is_told ≡ false → Serving (P.owns pricer.now) desks.new) }
{
    prove!(snapshot.calls().len() <= MOST_CALLS);
    let mut root = Root::new(runtime.alloc, snapshot, start, sheet)?;
    runtime.gate.tell(Progress::Begins(root.state()));
    let ended = root.turn_as_due(runtime, pricer, limits, desks);
    let is_told = Interruption::was_told(ended)?;
    Ok(AfterTurns { root, is_told })
}

/// Searches as `find_plan` does, with one worker for each desk.
fn find_at<P: Pricer, C: PricingCrew<P>, G: Gate>(
    runtime: &Runtime<C, G>,
    snapshot: &Snapshot,
    pricer: &P,
    start: Plan,
    sheet: Sheet,
    limits: Limits,
    desks: &mut [P::Desk],
) -> Result<Found, AllocError>
    requires snapshot { P.snapshot pricer.now ≡ snapshot.now }
    requires start { IsFeasiblePlan snapshot.now start }
    requires sheet { IsSheetIn snapshot.now (root_of snapshot.now) sheet }
    requires sum { pos 0 ≤ℤ sum_of_sheet sheet }
    requires desks { Serving (P.owns pricer.now) desks.old }
    ensures answer { IfOk result (λ f. IsSearchAnswer sheet.prices (rounded_up (sum_of_sheet sheet))
        snapshot.now limits.rounds limits.most_tours f.stated.plan f.stated.cost f.stated.bound f.tree.twigs
        f.turns f.why) }
    ensures goes_on { G.never_stops runtime.now.gate.now
        → IfOk result (λ f. f.why ≡ Told → ⊥) }
    ensures why { IfOk result (HasReason snapshot.now limits.rounds limits.most_tours sheet) }
    ensures sized { IfOk result (λ f. All IsSizedTwig f.tree.twigs) }
{
    let AfterTurns { root, is_told } = turned(
        runtime, snapshot, pricer, start, sheet, limits, desks,
    )?;
    if !root.is_open() {
        runtime.gate.tell(Progress::Ends(root.state()));
        return close(runtime.alloc, pricer, root, limits);
    }
    if is_told {
        runtime.gate.tell(Progress::Ends(root.state()));
        return stop_turning(runtime.alloc, pricer, root, limits);
    }
    let begun = go_on(runtime, pricer, root, limits, desks)?;
    runtime.gate.tell(Progress::Ends(begun.search.state()));
    if begun.is_told {
        return stop(runtime.alloc, pricer, begun, limits);
    }
    end(runtime.alloc, pricer, begun, limits)
}

/// Searches for a plan of the snapshot that costs least, from a feasible one, and from prices of the calls
/// with a worth of each car in the root.
///
/// The plan that it answers costs `cost`, and no feasible plan costs less than `bound`, as the tree proves.
/// It starts with turns at the root: up to 20 pricings of all cars, at prices that move from turn to turn.
/// Then rounds each price a few leaves of the tree, which are split in time, until cost and bound are the
/// same, as many rounds were done as `limits` allows, or nothing is left to split. Where the last two come
/// together, the reason is that nothing is left: `Moves`. Where the limits are enough for the snapshot none is
/// reached. Each price and each worth of the tree lies in its range. The runtime's gate is told how far the
/// search has come. It fails only where there is no memory left.
pub fn find_plan<P: Pricer, C: PricingCrew<P>, G: Gate>(
    runtime: &Runtime<C, G>,
    snapshot: &Snapshot,
    pricer: &P,
    start: Plan,
    sheet: Sheet,
    limits: Limits,
) -> Result<Found, AllocError>
    requires snapshot { P.snapshot pricer.now ≡ snapshot.now }
    requires start { IsFeasiblePlan snapshot.now start }
    requires sheet { IsSheetIn snapshot.now (root_of snapshot.now) sheet }
    requires sum { pos 0 ≤ℤ sum_of_sheet sheet }
    ensures answer { IfOk result (λ f. IsSearchAnswer sheet.prices (rounded_up (sum_of_sheet sheet))
        snapshot.now limits.rounds limits.most_tours f.stated.plan f.stated.cost f.stated.bound f.tree.twigs
        f.turns f.why) }
    ensures goes_on { G.never_stops runtime.now.gate.now
        → IfOk result (λ f. f.why ≡ Told → ⊥) }
    ensures why { IfOk result (HasReason snapshot.now limits.rounds limits.most_tours sheet) }
    ensures sized { IfOk result (λ f. All IsSizedTwig f.tree.twigs) }
    ensures enough { G.never_stops runtime.now.gate.now
        → rounds_enough snapshot.now ≤ limits.rounds → tours_enough snapshot.now ≤ limits.most_tours
        → IfOk result (λ f. f.why ≡ Solved) }
{
    // For the proof: a reader tells that the snapshot keeps the rules.
    let _moment = snapshot.now();
    let mut desks = desks_for(runtime.alloc, pricer, runtime.workers.count())?;
    find_at(runtime, snapshot, pricer, start, sheet, limits, &mut desks)
}
