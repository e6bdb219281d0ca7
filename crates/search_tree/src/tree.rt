//! The tree.

ghost use Rattle.std.specs.Prelude.{◌≡◌, ◌<◌, ◌≤◌, ◌+◌, [], ◌∷◌, All, IfOk, OnOk, OnErr, insert};
ghost use Rattle.std.specs.Prelude.{vec_capacity, vec_len, length, map, true, false, slice_index_or};
ghost use Rattle.std.specs.Prelude.{slice_set};
ghost use Rattle.std.specs.Borrow.{sem};
ghost use Rattle.search_model.specs.Nodes.{is_part, set_of};
ghost use Rattle.search_model.specs.Solving.{least_bound};
ghost use Rattle.search_tree.specs.Sheets.{AreTurnSizes, IsSizedTwig};
ghost use Rattle.search_tree.specs.Branches.{at_place, leaf_at, noted, split_tree, twig_of};
ghost use Rattle.search_tree.specs.Payloads.{split_payloads};

use crate::branches::{Branch, MOST_PRICINGS, SplitAt};
use crate::sheets::Sheet;
use assign_branch::{CarSet, Node, Tree};
use price_scale::Price;
use search_model::{Items, TurnOf};
use std::alloc::{AllocError, Global};
use std::marker::Model;

/// The nodes of a search, in preorder: after a node that was split come those of its first part and then
/// those of its second part. Each node has a payload, which is what the owner of the tree keeps of it.
#[derive(Drop)]
pub struct SearchTree<T> {
    branches: Vec<Branch>,
    /// In the order of the nodes.
    payloads: Vec<T>,
}

impl<T> Model for SearchTree<T> {
    ghost use Rattle.std.specs.Prelude.{◌≡◌, length};
    ghost use Rattle.search_tree.specs.Payloads.{TreeNodes};

    ghost Value = { TreeNodes T };

    ghost view = { λ t. record { branches = t.branches.items; payloads = t.payloads.items } };

    ghost invariant = { λ t. length t.payloads.items ≡ length t.branches.items };
}

impl<T: Drop> SearchTree<T> {
    ghost use Rattle.search_tree.specs.Lends.{lends_payload};

    /// The tree of one leaf. It fails only where there is no memory left.
    pub fn new(alloc: Global, root: Node, sheet: Sheet, payload: T) -> Result<Self, AllocError>
        ensures branches { IfOk result (λ tree. tree.branches ≡ leaf_at root sheet 0 ∷ []) }
        ensures payloads { IfOk result (λ tree. tree.payloads ≡ payload ∷ []) }
    {
        let mut branches = Vec::new(alloc);
        branches.push(Branch::leaf(root, sheet, 0))?;
        let mut payloads = Vec::new(alloc);
        payloads.push(payload)?;
        Ok(SearchTree { branches, payloads })
    }

    /// The nodes, in preorder.
    pub fn branches(&self) -> &[Branch]
        ensures { result.now ≡ self.now.branches }
    {
        &self.branches
    }

    /// The payload of the node at this place.
    pub fn payload(&self, place: usize) -> &T
        requires { place < length self.now.branches }
        ensures { result.now ≡ slice_index_or self.now.payloads place result.now }
    {
        &self.payloads[place]
    }

    /// The payload of the node at this place, to be changed.
    pub fn payload_mut(&mut self, place: usize) -> &mut T
        requires { place < length self.old.branches }
        ensures* writes_back { sem 𝓛 (lends_payload T.row self.entry place result) }
        ensures value { result.now ≡ slice_index_or self.old.payloads place result.now }
    {
        &mut self.payloads[place]
    }

    /// Takes in a pricing of all cars in the node at this place, at these prices.
    pub fn note(&mut self, place: usize, prices: &[Price], cars: &[TurnOf])
        requires place { place < length self.old.branches }
        requires calls { length prices.now ≡ length (at_place self.old.branches place).sheet.prices }
        requires cars { length cars.now ≡ length (at_place self.old.branches place).sheet.worths }
        requires sizes { AreTurnSizes cars.now }
        requires rounds { (at_place self.old.branches place).rounds < MOST_PRICINGS }
        ensures branches { self.new.branches ≡ slice_set self.old.branches place
            (noted (at_place self.old.branches place) prices.now cars.now) }
        ensures payloads { self.new.payloads ≡ self.old.payloads }
    {
        self.branches[place].note(prices, cars);
    }

    /// Splits the leaf at this place: in the first part the cars of `part` may serve the call, in the second
    /// one the rest of its cars. Both begin with the leaf's prices and worths, and with the payloads that are
    /// given.
    ///
    /// It says false, and the tree is as before, exactly where the part does not divide the call's set. It
    /// fails only where there is no memory left, and then the tree is as before too.
    pub fn split(
        &mut self,
        alloc: Global,
        place: usize,
        call: u32,
        part: CarSet,
        first: T,
        second: T,
    ) -> Result<bool, AllocError>
        requires place { place < length self.old.branches }
        ensures tested { IfOk result
            (λ done. done ≡ is_part (set_of (at_place self.old.branches place).node call) part) }
        ensures split { IfOk result
            (λ done. done ≡ true → self.new.branches ≡ split_tree self.old.branches place call part) }
        ensures payloads { IfOk result
            (λ done. done ≡ true → self.new.payloads ≡ split_payloads self.old.payloads place first second) }
        ensures refused { IfOk result (λ done. done ≡ false → self.new ≡ self.old) }
        ensures failed { OnErr result (self.new ≡ self.old) }
    {
        let Some(parts) = self.branches[place].parts(alloc, call, part)? else {
            return Ok(false);
        };
        make_room(&mut self.branches, &mut self.payloads)?;
        put(&mut self.branches, place + 1, parts.first);
        put(&mut self.branches, place + 2, parts.second);
        put(&mut self.payloads, place + 1, first);
        put(&mut self.payloads, place + 2, second);
        self.branches[place].split = Some(SplitAt { call, part });
        Ok(true)
    }

    /// The least of a cost and the bounds of the leaves, in cost units.
    pub fn bound(&self, cost: u64) -> i128
        ensures { result ≡ least_bound cost (map twig_of self.now.branches) }
    {
        let mut least = i128::from(cost);
        for place in (0..self.branches.len()).rev() {
            least = self.branches[place].least_with(least);
        }
        least
    }

    /// The twigs of a certificate: each price and each worth of them lies in its range. It fails only where
    /// there is no memory left.
    pub fn to_tree(&self, alloc: Global) -> Result<Tree, AllocError>
        ensures twigs { IfOk result (λ tree. tree.twigs ≡ map twig_of self.now.branches) }
        ensures sized { IfOk result (λ tree. All IsSizedTwig tree.twigs) }
    {
        let mut twigs = Items::new(alloc);
        for place in 0..self.branches.len() {
            twigs.push(self.branches[place].to_twig(alloc)?)?;
        }
        Ok(Tree { twigs })
    }
}

/// Makes room for two nodes more, whose payloads these are. It fails only where there is no memory left.
fn make_room<T>(branches: &mut Vec<Branch>, payloads: &mut Vec<T>) -> Result<(), AllocError>
    ensures branches { branches.new.items ≡ branches.old.items }
    ensures payloads { payloads.new.items ≡ payloads.old.items }
    ensures room { OnOk result (vec_len branches.new + 2 ≤ vec_capacity branches.new) }
    ensures room_of_payloads { OnOk result (vec_len payloads.new + 2 ≤ vec_capacity payloads.new) }
{
    branches.reserve(2)?;
    payloads.reserve(2)?;
    Ok(())
}

/// Puts an item in at this place, where there is room for it.
fn put<X: Drop>(items: &mut Vec<X>, place: usize, item: X)
    requires place { place ≤ vec_len items.old }
    requires room { vec_len items.old < vec_capacity items.old }
    ensures items { items.new.items ≡ insert items.old.items place item }
    ensures len { vec_len items.new ≡ vec_len items.old + 1 }
    ensures capacity { vec_capacity items.old ≤ vec_capacity items.new }
{
    let Ok(()) = items.insert(place, item) else {
        unreachable!()
    };
}
