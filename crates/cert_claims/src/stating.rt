//! The claims of a tree.

ghost use Rattle.std.specs.Prelude.{◌≡◌, ◌≤◌, ◌<◌, ◌^◌, ◌-◌, [], ◌∷◌, All, drop, true, IfOk, option_map};
ghost use Rattle.search_model.specs.declared.Twig.TheVariants.{Leaf as Tip};
ghost use Rattle.search_model.specs.Certificates.{Proves};
ghost use Rattle.search_model.specs.Nodes.{root_of};
ghost use Rattle.cert_claims.specs.Due.{HasCars, worths_of_tree};
ghost use Rattle.cert_claims.specs.Leaves.{AreAllWithin, claimed, claimed_here};
ghost use Rattle.cert_claims.specs.Leaves.{IsProvedTree, claims_after, leaves_from};
ghost use Rattle.cert_claims.specs.Lowered.{IsCut, IsSizedTree, IsTried};
ghost use Rattle.cert_claims.specs.Lowering.{IsSizedTwig, lesser_bounds as lesser_bounds_lem};
ghost use Rattle.cert_claims.specs.Stating.{IsClaimed, IsLastResort};

use crate::counting::claims_of_all;
use crate::crews::CountingCrew;
use crate::leaves::{Claims, with_claims};
use crate::lowering::lowered_tree;
use crate::tasks::leaves_of;
use assign_branch::Tree;
use byte_streams::Gate;
use call_state::Snapshot;
use search_model::{Items, Leaf, Stated, Twig};
use std::alloc::{AllocError, Global};
use work_fan::Runtime;

/// The tree of a certificate, with its claims.
#[derive(Drop)]
pub struct Claimed {
    pub tree: Tree,
    /// What the tree proves, in cost units.
    pub bound: u64,
    /// Whether the claims of the search's own tree go beyond the limit.
    pub cut: bool,
}

/// A leaf that holds at the root, and is checked by one visit for each car at most.
#[derive(Drop)]
pub struct LastResort {
    pub leaf: Leaf,
    /// What it proves, in cost units.
    pub bound: u64,
}

/// The twig, with the next claims where it is a leaf.
fn claimed_twig(twig: Twig, all: &[Claims], next: &mut usize) -> Twig
    ensures twig { result ≡ claimed_here twig (drop next.old all.now) }
    ensures next { drop next.new all.now ≡ claims_after twig (drop next.old all.now) }
{
    match twig {
        Twig::Split { call, part } => Twig::Split { call, part },
        Twig::Leaf(leaf) => {
            let Some(claims) = all.get(*next) else {
                return Twig::Leaf(leaf);
            };
            *next += 1;
            Twig::Leaf(with_claims(leaf, &claims.by_car))
        }
    }
}

/// The tree with these claims, leaf by leaf. It fails only where there is no memory left.
fn write_claims(alloc: Global, tree: Tree, all: &[Claims]) -> Result<Tree, AllocError>
    ensures { IfOk result (λ made. made.twigs ≡ claimed tree.twigs all.now) }
{
    let mut twigs = Vec::new(alloc);
    let mut next = 0;
    for twig in tree.twigs.into_vec() {
        twigs.push(claimed_twig(twig, all, &mut next))?;
    }
    Ok(Tree {
        twigs: Items::from_vec(twigs),
    })
}

/// The claims that are due in a tree: None where they go further than the limit allows.
///
/// It fails only where there is no memory left.
fn claims_of<C: CountingCrew, G: Gate>(
    runtime: &Runtime<C, G>,
    snapshot: &Snapshot,
    tree: &Tree,
    limit: u64,
) -> Result<Option<Vec<Claims>>, AllocError>
    requires proved { IsProvedTree snapshot.now tree.now.twigs }
    requires limit { limit < 2 ^ 63 }
    ensures { IfOk result (λ found. AreAllWithin snapshot.now (limit - worths_of_tree tree.now.twigs)
        (leaves_from (root_of snapshot.now ∷ []) tree.now.twigs) (option_map (λ all. all.items) found)) }
{
    // For the proof: the reader says that the snapshot is accepted.
    let _calls = snapshot.calls();
    let tasks = leaves_of(runtime.alloc, snapshot, tree.twigs.as_slice())?;
    let cars = snapshot.building().cars().len() as u64;
    let worths = (tasks.len() as u64).saturating_mul(cars);
    claims_of_all(
        runtime,
        snapshot,
        tasks.as_slice(),
        limit.saturating_sub(worths),
    )
}

impl LastResort {
    /// A tree of this one leaf. It fails only where there is no memory left.
    fn into_claimed(self, alloc: Global) -> Result<Claimed, AllocError>
        ensures tree { IfOk result (λ claimed. claimed.tree.twigs ≡ Tip self.leaf ∷ []) }
        ensures bound { IfOk result (λ claimed. claimed.bound ≡ self.bound) }
        ensures cut { IfOk result (λ claimed. claimed.cut ≡ true) }
    {
        let mut twigs = Vec::new(alloc);
        twigs.push(Twig::Leaf(self.leaf))?;
        Ok(Claimed {
            tree: Tree {
                twigs: Items::from_vec(twigs),
            },
            bound: self.bound,
            cut: true,
        })
    }
}

/// The bounds that are tried where the claims go past the limit, the greatest one first: a 64th, a 16th and
/// a quarter of the way down to the least.
fn lesser_bounds(bound: u64, least: u64) -> [u64; 3]
    requires { least ≤ bound }
    ensures { result ≡ lesser_bounds_lem bound least }
{
    let gap = bound - least;
    [
        bound - gap.div_ceil(64),
        bound - gap.div_ceil(16),
        bound - gap.div_ceil(4),
    ]
}

/// The tree with worths lowered to what proves this bound, and its claims: None where they go further than
/// the limit allows.
///
/// It fails only where there is no memory left.
fn claimed_at<C: CountingCrew, G: Gate>(
    runtime: &Runtime<C, G>,
    snapshot: &Snapshot,
    tree: &Tree,
    bound: u64,
    limit: u64,
) -> Result<Option<Claimed>, AllocError>
    requires tree { IsSizedTree snapshot.now bound tree.now.twigs }
    requires limit { limit < 2 ^ 63 }
    ensures { IfOk result (IsTried snapshot.now bound limit tree.now.twigs) }
{
    // For the proof: the reader says that the snapshot is accepted, so a leaf's sum is small.
    let _calls = snapshot.calls();
    let lowered = lowered_tree(runtime.alloc, tree.twigs.as_slice(), bound)?;
    match claims_of(runtime, snapshot, &lowered, limit)? {
        Some(all) => Ok(Some(Claimed {
            tree: write_claims(runtime.alloc, lowered, all.as_slice())?,
            bound,
            cut: true,
        })),
        None => Ok(None),
    }
}

/// The tree with worths lowered to the first of the lesser bounds at which the claims go no further than the
/// limit allows; or the last resort.
///
/// It fails only where there is no memory left.
fn cut<C: CountingCrew, G: Gate>(
    runtime: &Runtime<C, G>,
    snapshot: &Snapshot,
    tree: &Tree,
    bound: u64,
    resort: LastResort,
    limit: u64,
) -> Result<Claimed, AllocError>
    requires tree { IsSizedTree snapshot.now bound tree.now.twigs }
    requires resort { IsLastResort snapshot.now resort.bound resort.leaf }
    requires least { resort.bound ≤ bound }
    requires limit { limit < 2 ^ 63 }
    ensures { IfOk result (IsCut snapshot.now bound tree.now.twigs resort limit) }
{
    let bounds = lesser_bounds(bound, resort.bound);
    for lesser in bounds.as_slice() {
        match claimed_at(runtime, snapshot, tree, *lesser, limit)? {
            Some(claimed) => return Ok(claimed),
            None => {}
        }
    }
    resort.into_claimed(runtime.alloc)
}

/// States the claims of a tree that proves what is stated: for each worth the one that is due.
///
/// Where these go further than the limit allows, worths are lowered. The runtime's crew finds the claims. It
/// fails only where there is no memory left.
pub fn state_claims<C: CountingCrew, G: Gate>(
    runtime: &Runtime<C, G>,
    snapshot: &Snapshot,
    stated: &Stated,
    tree: Tree,
    resort: LastResort,
    limit: u64,
) -> Result<Claimed, AllocError>
    requires proves { Proves snapshot.now stated.now.plan stated.now.cost stated.now.bound tree.twigs }
    requires cars { All HasCars tree.twigs }
    requires sizes { All IsSizedTwig tree.twigs }
    requires resort { IsLastResort snapshot.now resort.bound resort.leaf }
    requires least { resort.bound ≤ stated.now.bound }
    requires limit { limit ≤ 10 ^ 10 }
    ensures { IfOk result (IsClaimed snapshot.now stated.now tree.twigs resort limit) }
{
    match claims_of(runtime, snapshot, &tree, limit)? {
        Some(all) => Ok(Claimed {
            tree: write_claims(runtime.alloc, tree, all.as_slice())?,
            bound: stated.bound,
            cut: false,
        }),
        None => cut(runtime, snapshot, &tree, stated.bound, resort, limit),
    }
}
