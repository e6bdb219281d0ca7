//! The leaves of a tree at their nodes.

ghost use Rattle.std.specs.Prelude.{◌≡◌, ◌∷◌, [], ◌++◌, map, IfOk, OnOk};
ghost use Rattle.search_model.specs.Nodes.{root_of};
ghost use Rattle.cert_claims.specs.Leaves.{leaf_at, leaves_from, leaves_here, nodes_after};

use assign_branch::{Node, Places, root};
use call_state::Snapshot;
use search_model::{Leaf, Twig};
use std::alloc::{AllocError, Global};

/// A leaf whose claims are to be stated, at its node.
#[derive(Drop)]
pub(crate) struct Task<'t> {
    pub(crate) node: Node,
    pub(crate) leaf: &'t Leaf,
}

/// Puts a twig at its node, which was the next place. It fails only where there is no memory left.
fn place<'t>(
    alloc: Global,
    places: &mut Places,
    tasks: &mut Vec<Task<'t>>,
    node: Node,
    twig: &'t Twig,
) -> Result<(), AllocError>
    ensures places { OnOk result (places.new ≡ nodes_after node twig.now places.old) }
    ensures tasks { OnOk result
        (map leaf_at tasks.new.items ≡ map leaf_at tasks.old.items ++ leaves_here node twig.now []) }
{
    match twig {
        Twig::Split { call, part } => {
            places.split(alloc, &node, *call, *part)?;
        }
        Twig::Leaf(leaf) => tasks.push(Task { node, leaf })?,
    }
    Ok(())
}

/// The leaves of a tree, in their order. It fails only where there is no memory left.
pub(crate) fn leaves_of<'t>(
    alloc: Global,
    snapshot: &Snapshot,
    twigs: &'t [Twig],
) -> Result<Vec<Task<'t>>, AllocError>
    ensures { IfOk result (λ tasks.
        map leaf_at tasks.items ≡ leaves_from (root_of snapshot.now ∷ []) twigs.now) }
{
    let mut places = Places::new(alloc, root(alloc, snapshot)?)?;
    let mut tasks = Vec::new(alloc);
    for twig in twigs {
        let Some(node) = places.take_next() else {
            return Ok(tasks);
        };
        place(alloc, &mut places, &mut tasks, node, twig)?;
    }
    Ok(tasks)
}
