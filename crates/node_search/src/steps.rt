//! How prices move and where nodes are split: what a search keeps of each node of its tree. No theorem rests
//! on it.

ghost use Rattle.std.specs.Prelude.{◌≡◌, ◌<◌, ◌≤◌, IfOk, OnOk, length, true, slice_set};
ghost use Rattle.search_model.specs.Nodes.{is_part, set_of};
ghost use Rattle.search_tree.specs.Sheets.{AreTurnSizes};
ghost use Rattle.search_tree.specs.Branches.{at_place, noted};
ghost use Rattle.search_tree.specs.Answers.{BeginsAt};
ghost use Rattle.node_search.specs.Searches.{IsSplit};

use assign_branch::Node;
use branching_rules::Steps;
use elevator_model::MOST_CALLS;
use partition_relaxation::SeenTours;
use price_scale::Price;
use restricted_master::Pool;
use search_model::{Turn, TurnOf};
use search_tree::{Branch, MOST_PRICINGS, SearchTree, SplitAt};
use std::alloc::{AllocError, Global};

/// Takes in the pricings of all cars of some turns. By how much a turn raised the leaf's sum counts for
/// nothing here: the root is split after its last turn.
fn note_all(steps: &mut Steps, turns: &[Turn]) {
    for turn in turns {
        let spent = turn.cars.as_slice().iter().any(|car| car.priced.spent);
        steps.note(turn.cars.as_slice(), 0, spent);
    }
}

/// Takes in the turns at the root, of which the leaf knows already.
pub(crate) fn note_turns(tree: &mut SearchTree<Steps>, turns: &[Turn])
    requires { 0 < length tree.old.branches }
    ensures { tree.new.branches ≡ tree.old.branches }
{
    note_all(tree.payload_mut(0), turns);
}

/// Takes in a pricing of all cars that the leaf has taken in already, and by how much it raised the leaf's
/// sum.
fn note_gain(tree: &mut SearchTree<Steps>, place: usize, cars: &[TurnOf], gain: i128, spent: bool)
    requires { place < length tree.old.branches }
    ensures { tree.new.branches ≡ tree.old.branches }
{
    tree.payload_mut(place).note(cars, gain, spent);
}

/// Notes a pricing of all cars in the node at this place, at these prices.
fn note(tree: &mut SearchTree<Steps>, place: usize, prices: &[Price], cars: &[TurnOf])
    requires place { place < length tree.old.branches }
    requires calls { length prices.now ≡ length (at_place tree.old.branches place).sheet.prices }
    requires cars { length cars.now ≡ length (at_place tree.old.branches place).sheet.worths }
    requires sizes { AreTurnSizes cars.now }
    requires rounds { (at_place tree.old.branches place).rounds < MOST_PRICINGS }
    ensures { tree.new.branches ≡ slice_set tree.old.branches place
        (noted (at_place tree.old.branches place) prices.now cars.now) }
{
    let sum = tree.branches()[place].sheet.sum();
    tree.note(place, prices, cars);
    let branch = &tree.branches()[place];
    let gain = branch.sheet.sum().saturating_sub(sum);
    let spent = branch.spent.is_some();
    note_gain(tree, place, cars, gain, spent);
}

/// Takes in what the relaxation over the tours seen says of the node at this place after a pricing, where
/// the best known plan costs this many cost units. It fails only where there is no memory left.
pub(crate) fn look_ahead(
    tree: &mut SearchTree<Steps>,
    alloc: Global,
    place: usize,
    cost: u64,
    seen: &SeenTours,
) -> Result<(), AllocError>
    requires { place < length tree.old.branches }
    ensures { OnOk result (tree.new.branches ≡ tree.old.branches) }
{
    let Branch { sheet, node, .. } = &tree.branches()[place];
    let outlook = tree.payload(place).outlook(alloc, sheet, cost, node, seen)?;
    tree.payload_mut(place).take(outlook);
    Ok(())
}

/// Takes in a pricing of all cars in the node at this place, at these prices, and what the relaxation over
/// the tours seen says of the node then. It fails only where there is no memory left.
pub(crate) fn take_in(
    tree: &mut SearchTree<Steps>,
    alloc: Global,
    place: usize,
    prices: &[Price],
    cars: &[TurnOf],
    cost: u64,
    seen: &SeenTours,
) -> Result<(), AllocError>
    requires place { place < length tree.old.branches }
    requires calls { length prices.now ≡ length (at_place tree.old.branches place).sheet.prices }
    requires cars { length cars.now ≡ length (at_place tree.old.branches place).sheet.worths }
    requires sizes { AreTurnSizes cars.now }
    requires rounds { (at_place tree.old.branches place).rounds < MOST_PRICINGS }
    ensures { OnOk result (tree.new.branches ≡ slice_set tree.old.branches place
        (noted (at_place tree.old.branches place) prices.now cars.now)) }
{
    note(tree, place, prices, cars);
    look_ahead(tree, alloc, place, cost, seen)
}

/// The prices of the node's next pricing: first those of its leaf. It fails only where there is no memory
/// left.
pub(crate) fn next_prices(
    alloc: Global,
    steps: &Steps,
    branch: &Branch,
    cost: u64,
    pool: &Pool,
) -> Result<Vec<Price>, AllocError>
    ensures count { IfOk result
        (λ prices. length prices.items ≡ length branch.now.sheet.prices) }
    ensures begins { IfOk result (λ prices. BeginsAt branch.now prices.items) }
{
    if branch.rounds == 0 {
        return branch.sheet.prices().to_vec(alloc);
    }
    steps.next_prices(alloc, &branch.sheet, cost, &branch.node, pool)
}

/// Which call is split and how: where nothing else is proposed, as `first` says.
fn choice(steps: &Steps, node: &Node, calls: usize, first: SplitAt) -> SplitAt
    requires calls { calls ≤ MOST_CALLS }
    requires part { is_part (set_of node.now first.call) first.part ≡ true }
    ensures { is_part (set_of node.now result.call) result.part ≡ true }
{
    match steps.choice(node, calls) {
        Some(at) => at,
        None => first,
    }
}

/// Splits the leaf at this place: as `first` says where nothing else is proposed. Its two parts begin with
/// what it has. It fails only where there is no memory left.
pub(crate) fn split(
    tree: &mut SearchTree<Steps>,
    alloc: Global,
    place: usize,
    calls: usize,
    first: SplitAt,
) -> Result<(), AllocError>
    requires place { place < length tree.old.branches }
    requires calls { calls ≤ MOST_CALLS }
    requires part { is_part (set_of (at_place tree.old.branches place).node first.call) first.part ≡ true }
    ensures { OnOk result (IsSplit place tree.old.branches tree.new.branches) }
{
    let steps = tree.payload(place);
    let at = choice(steps, &tree.branches()[place].node, calls, first);
    let one = steps.child(alloc)?;
    let other = steps.child(alloc)?;
    let _is_part = tree.split(alloc, place, at.call, at.part, one, other)?;
    Ok(())
}
