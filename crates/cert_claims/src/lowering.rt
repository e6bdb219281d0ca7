//! Trees with lesser worths, which prove a lesser bound and have shorter kept lists.

ghost use Rattle.std.specs.Prelude.{◌≡◌, ◌≤◌, ◌<◌, ◌^◌, ◌≤ℤ◌, pos, All, IfOk, length, map};
ghost use Rattle.search_model.specs.Certificates.{sum_needed as sum_needed_lem, sum_of_leaf as sum_of_leaf_lem};
ghost use Rattle.cert_claims.specs.Lowering.{IsSizedLeaf, lowered_leaf as lowered_leaf_lem};
ghost use Rattle.cert_claims.specs.Lowering.{lowered_tree as lowered_tree_lem, lowered_twig as lowered_twig_lem};
ghost use Rattle.cert_claims.specs.Lowering.{lowered_worth as lowered_worth_lem, share_of};
ghost use Rattle.cert_claims.specs.Lowered.{CanBeLowered, IsWideLeaf};
ghost use Rattle.kept_tours.specs.Leaves.{HasWorthSize};

use assign_branch::Tree;
use kept_tours::sum_of_leaf;
use price_scale::MOST_WORTH;
use search_model::{Items, Leaf, Twig, WorthOf};
use std::alloc::{AllocError, Global};

/// The least sum of prices and worths, in thousandths of a cost unit, that proves this bound.
fn sum_needed(bound: u64) -> i128
    ensures { result ≡ sum_needed_lem bound }
{
    1000 * (i128::from(bound) - 1) + 1
}

/// How far each worth of a leaf falls, so that the leaf still proves this bound.
fn share(leaf: &Leaf, bound: u64) -> i128
    requires wide { IsWideLeaf bound leaf.now }
    ensures { result ≡ share_of bound leaf.now }
{
    let slack = (sum_of_leaf(leaf) - sum_needed(bound)).unsigned_abs();
    (slack / leaf.worths.as_slice().len().max(1) as u128) as i128
}

/// The worth, lowered by this much where it stays one that a certificate may state.
fn lowered_worth(worth: WorthOf, by: i128) -> WorthOf
    requires size { HasWorthSize worth }
    requires by { (pos 0 ≤ℤ by) × (by ≤ℤ pos (10 ^ 31)) }
    ensures { result ≡ lowered_worth_lem by worth }
{
    let lower = worth.worth - by;
    WorthOf {
        car: worth.car,
        worth: if lower < -MOST_WORTH {
            worth.worth
        } else {
            lower
        },
        claim: worth.claim,
    }
}

/// The worths, each lowered by this much. It fails only where there is no memory left.
fn lowered_worths(alloc: Global, worths: &[WorthOf], by: i128) -> Result<Vec<WorthOf>, AllocError>
    requires sizes { All HasWorthSize worths.now }
    requires by { (pos 0 ≤ℤ by) × (by ≤ℤ pos (10 ^ 31)) }
    ensures { IfOk result (λ lowered. lowered.items ≡ map (lowered_worth_lem by) worths.now) }
{
    let mut lowered = Vec::new(alloc);
    for worth in worths {
        lowered.push(lowered_worth(*worth, by))?;
    }
    Ok(lowered)
}

/// The leaf with worths lowered to what proves this bound. It fails only where there is no memory left.
fn lowered_leaf(alloc: Global, leaf: &Leaf, bound: u64) -> Result<Leaf, AllocError>
    requires wide { IsWideLeaf bound leaf.now }
    ensures { IfOk result (λ lowered. lowered ≡ lowered_leaf_lem bound leaf.now) }
{
    let by = share(leaf, bound);
    let worths = lowered_worths(alloc, leaf.worths.as_slice(), by)?;
    Ok(Leaf {
        prices: Items::from_vec(leaf.prices.as_slice().to_vec(alloc)?),
        worths: Items::from_vec(worths),
    })
}

/// The twig with worths lowered to what proves this bound. It fails only where there is no memory left.
fn lowered_twig(alloc: Global, twig: &Twig, bound: u64) -> Result<Twig, AllocError>
    requires can { CanBeLowered bound twig.now }
    ensures { IfOk result (λ lowered. lowered ≡ lowered_twig_lem bound twig.now) }
{
    match twig {
        Twig::Split { call, part } => Ok(Twig::Split {
            call: *call,
            part: *part,
        }),
        Twig::Leaf(leaf) => Ok(Twig::Leaf(lowered_leaf(alloc, leaf, bound)?)),
    }
}

/// The tree with worths lowered to what proves this bound. It fails only where there is no memory left.
pub(crate) fn lowered_tree(alloc: Global, tree: &[Twig], bound: u64) -> Result<Tree, AllocError>
    requires can { All (CanBeLowered bound) tree.now }
    ensures { IfOk result (λ lowered. lowered.twigs ≡ lowered_tree_lem bound tree.now) }
{
    let mut twigs = Vec::new(alloc);
    for twig in tree {
        twigs.push(lowered_twig(alloc, twig, bound)?)?;
    }
    Ok(Tree {
        twigs: Items::from_vec(twigs),
    })
}
