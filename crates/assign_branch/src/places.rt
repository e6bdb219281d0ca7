//! The places of a tree that are still to be filled, as its twigs come in preorder.

ghost use Rattle.std.specs.Prelude.{◌≡◌, [], ◌∷◌, true, false, IfOk, OnOk, MatchOption};
ghost use Rattle.assign_branch.specs.Splits.{KeepsNodes};
ghost use Rattle.search_model.specs.Nodes.{first_of_split, is_part, second_of_split, set_of};

use crate::nodes::Node;
use crate::splits::split;
use call_sets::CarSet;
use std::alloc::{AllocError, Global};
use std::marker::Model;

/// The nodes of the places that are still to be filled.
///
/// Contracts see them in the order in which they are filled, the next one first.
#[derive(Drop)]
pub struct Places {
    /// The next one last.
    nodes: Vec<Node>,
}

impl Model for Places {
    ghost use Rattle.std.specs.Prelude.{List, reverse};
    ghost use Rattle.search_model.specs.Nodes.{Node};

    ghost Value = { List Node };

    ghost view = { λ p. reverse p.nodes.items };
}

impl Places {
    /// One place. It fails only where there is no memory left.
    pub fn new(alloc: Global, node: Node) -> Result<Self, AllocError>
        ensures { IfOk result (λ places. places ≡ node ∷ []) }
    {
        let mut nodes = Vec::new(alloc);
        nodes.push(node)?;
        Ok(Places { nodes })
    }

    /// A copy of the places. It fails only where there is no memory left.
    pub fn copy(&self, alloc: Global) -> Result<Self, AllocError>
        ensures { IfOk result (λ places. places ≡ self.now) }
    {
        Ok(Places {
            nodes: copies(alloc, &self.nodes)?,
        })
    }

    /// Takes the next place out. None where no place is left.
    pub fn take_next(&mut self) -> Option<Node>
        ensures { MatchOption result ((self.old ≡ []) × (self.new ≡ []))
            (λ node. self.old ≡ node ∷ self.new) }
    {
        self.nodes.pop()
    }

    /// Puts the two nodes of a split of this node in front, in the first of which the cars of the part may
    /// serve the call. It says false, and nothing is put in front, exactly where the part does not divide the
    /// call's set.
    ///
    /// It fails only where there is no memory left.
    pub fn split(
        &mut self,
        alloc: Global,
        node: &Node,
        call: u32,
        part: CarSet,
    ) -> Result<bool, AllocError>
        ensures tested { IfOk result (λ done. done ≡ is_part (set_of node.now call) part) }
        ensures split { IfOk result (λ done. done ≡ true → self.new
            ≡ first_of_split node.now call part ∷ second_of_split node.now call part ∷ self.old) }
        ensures refused { IfOk result (λ done. done ≡ false → self.new ≡ self.old) }
        ensures nodes { OnOk result (KeepsNodes node.now self.old self.new) }
    {
        let mut first = node.copy(alloc)?;
        let mut second = node.copy(alloc)?;
        if split(node, call, part, &mut first, &mut second).is_err() {
            return Ok(false);
        }
        self.nodes.push(second)?;
        self.nodes.push(first)?;
        Ok(true)
    }
}

/// A copy of the nodes.
fn copies(alloc: Global, nodes: &[Node]) -> Result<Vec<Node>, AllocError>
    ensures { IfOk result (λ copies. copies.items ≡ nodes.now) }
{
    let mut copies = Vec::with_capacity(alloc, nodes.len())?;
    for node in nodes {
        copies.push(node.copy(alloc)?)?;
    }
    Ok(copies)
}
