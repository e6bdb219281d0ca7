//! Nodes of the tree: leaves, and nodes that were split.

ghost use Rattle.std.specs.Prelude.{◌≡◌, ◌<◌, ◌≤◌, IfOk, IfSome, length};
ghost use Rattle.std.specs.Option.{is_some};
ghost use Rattle.search_model.specs.declared.Twig.TheVariants.{Split};
ghost use Rattle.search_model.specs.Nodes.{is_part, set_of};
ghost use Rattle.search_model.specs.Solving.{lesser_bound};
ghost use Rattle.search_tree.specs.Parts.{ArePartsOf};
ghost use Rattle.search_tree.specs.Sheets.{AreTurnSizes, IsSizedTwig};
ghost use Rattle.search_tree.specs.Branches.{depth_below, first_spent, leaf_at, noted, twig_of};

use crate::sheets::Sheet;
use assign_branch::{CarSet, Node, Twig, split};
use elevator_model::MOST_CARS;
use price_scale::Price;
use search_model::TurnOf;
use std::alloc::{AllocError, Global};

/// The most pricings that a node may have: then it is split.
pub const MOST_PRICINGS: u32 = 20;

/// A search states no claims: what states them comes after it.
const NO_CLAIM: u64 = 0;

/// At which call a node is split, and the cars that may still serve it in the first part.
#[derive(Clone, Copy)]
pub struct SplitAt {
    pub call: u32,
    pub part: CarSet,
}

impl SplitAt {
    /// What a certificate states of it.
    fn to_twig(self) -> Twig
        ensures twig { result ≡ Split self.call self.part }
        ensures sized { IsSizedTwig result }
    {
        Twig::Split {
            call: self.call,
            part: self.part,
        }
    }
}

/// A node of the tree.
#[derive(Drop)]
pub struct Branch {
    pub node: Node,
    /// The best prices and worths that are known, of a leaf.
    pub sheet: Sheet,
    /// None for a leaf.
    pub split: Option<SplitAt>,
    /// How many splits lie above it.
    pub depth: u32,
    /// In how many rounds it was priced.
    pub rounds: u32,
    /// The first car whose last pricing here reached the limit of partial tours.
    pub spent: Option<u32>,
}

/// The two parts of a split.
#[derive(Drop)]
pub(crate) struct Parts {
    pub(crate) first: Branch,
    pub(crate) second: Branch,
}

/// The first car whose pricing reached the limit of partial tours.
fn first_spent_of(cars: &[TurnOf]) -> Option<u32>
    requires { length cars.now ≤ MOST_CARS }
    ensures { result ≡ first_spent 0 cars.now }
{
    for (car, turn) in cars.iter().enumerate() {
        if turn.priced.spent {
            return Some(car as u32);
        }
    }
    None
}

impl Branch {
    /// A leaf that was not priced yet.
    pub(crate) fn leaf(node: Node, sheet: Sheet, depth: u32) -> Self
        ensures { result ≡ leaf_at node sheet depth }
    {
        Branch {
            node,
            sheet,
            split: None,
            depth,
            rounds: 0,
            spent: None,
        }
    }

    /// Whether it was split.
    pub fn is_split(&self) -> bool
        ensures { result ≡ is_some self.now.split }
    {
        self.split.is_some()
    }

    /// Takes in a pricing of all cars at these prices. The first one is at the prices of the leaf, and each
    /// car keeps the greater of its worths. A later one replaces the prices and worths where its sum is
    /// greater.
    pub(crate) fn note(&mut self, prices: &[Price], cars: &[TurnOf])
        requires calls { length prices.now ≡ length self.old.sheet.prices }
        requires cars { length cars.now ≡ length self.old.sheet.worths }
        requires sizes { AreTurnSizes cars.now }
        requires rounds { self.old.rounds < MOST_PRICINGS }
        ensures { self.new ≡ noted self.old prices.now cars.now }
    {
        // A sheet has a worth for each of 16 cars at most.
        prove!(self.sheet.worths().len() <= 16);
        if self.rounds == 0 {
            self.sheet.raise(cars);
        } else {
            self.sheet.improve(prices, cars);
        }
        self.rounds += 1;
        self.spent = first_spent_of(cars);
    }

    /// A part of a split of this leaf: not priced yet, with the leaf's prices and worths. It fails only where
    /// there is no memory left.
    fn part(&self, alloc: Global, node: Node) -> Result<Self, AllocError>
        ensures { IfOk result (λ part. part ≡ leaf_at node self.now.sheet (depth_below self.now)) }
    {
        let depth = self.depth.saturating_add(1);
        Ok(Branch::leaf(node, self.sheet.copy(alloc)?, depth))
    }

    /// The two parts of a split of this leaf: None exactly where the cars do not divide the call's set. It
    /// fails only where there is no memory left.
    pub(crate) fn parts(
        &self,
        alloc: Global,
        call: u32,
        cars: CarSet,
    ) -> Result<Option<Parts>, AllocError>
        ensures tested { IfOk result
            (λ parts. is_some parts ≡ is_part (set_of self.now.node call) cars) }
        ensures parts { IfOk result (λ found. IfSome found (ArePartsOf self.now call cars)) }
    {
        let mut first = self.node.copy(alloc)?;
        let mut second = self.node.copy(alloc)?;
        if split(&self.node, call, cars, &mut first, &mut second).is_err() {
            return Ok(None);
        }
        let first = self.part(alloc, first)?;
        let second = self.part(alloc, second)?;
        Ok(Some(Parts { first, second }))
    }

    /// The lesser of this bound and the one of the leaf, in cost units; this one where it was split.
    pub(crate) fn least_with(&self, bound: i128) -> i128
        ensures { result ≡ lesser_bound bound (twig_of self.now) }
    {
        match self.split {
            Some(_) => bound,
            None => self.sheet.bound().min(bound),
        }
    }

    /// What a certificate states of it. It fails only where there is no memory left.
    pub(crate) fn to_twig(&self, alloc: Global) -> Result<Twig, AllocError>
        ensures twig { IfOk result (λ twig. twig ≡ twig_of self.now) }
        ensures sized { IfOk result IsSizedTwig }
    {
        match self.split {
            Some(at) => Ok(at.to_twig()),
            None => Ok(Twig::Leaf(self.sheet.to_leaf(alloc, NO_CLAIM)?)),
        }
    }
}
