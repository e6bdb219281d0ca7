//! The leaves of a piece of a tree, with their nodes.

ghost use Rattle.std.specs.Prelude.{◌≡◌, [], List, IfOk, OnOk, None};
ghost use Rattle.search_model.specs.declared.Twig.TheVariants.{Split, Leaf as Tip};
ghost use Rattle.search_model.specs.Nodes.{Node as NodeValue};
ghost use Rattle.cert_checker.specs.Judging.{IsPiece, PlacesTwig};

use assign_branch::{CarSet, Node, Places};
use search_model::{Leaf, Twig};
use std::alloc::{AllocError, Global};

/// A leaf that is to be judged, at its node, which has this number in the tree.
#[derive(Drop)]
pub(crate) struct Task<'t> {
    pub(crate) number: u32,
    pub(crate) node: Node,
    pub(crate) leaf: &'t Leaf,
}

/// A piece of a tree.
#[derive(Drop)]
pub(crate) struct Piece<'t> {
    /// Its leaves, up to the first bad split.
    pub(crate) tasks: Vec<Task<'t>>,
    /// The number of the first bad split.
    pub(crate) bad: Option<u32>,
}

impl<'t> Piece<'t> {
    /// No twig.
    fn new(alloc: Global) -> Self
        ensures tasks { result.tasks.items ≡ [] }
        ensures bad { result.bad ≡ None }
    {
        Piece {
            tasks: Vec::new(alloc),
            bad: None,
        }
    }

    /// Puts a leaf at its node, which has this number. It fails only where there is no memory left.
    fn add(&mut self, number: u32, node: Node, leaf: &'t Leaf) -> Result<(), AllocError>
        requires { self.old.bad ≡ None }
        ensures { OnOk result ((places : List NodeValue)
            → PlacesTwig number node (Tip leaf.now) places self.old places self.new) }
    {
        self.tasks.push(Task { number, node, leaf })?;
        Ok(())
    }

    /// Puts a split at its node, which has this number. It fails only where there is no memory left.
    fn split(
        &mut self,
        alloc: Global,
        places: &mut Places,
        number: u32,
        node: &Node,
        call: u32,
        part: CarSet,
    ) -> Result<(), AllocError>
        requires { self.old.bad ≡ None }
        ensures { OnOk result
            (PlacesTwig number node.now (Split call part) places.old self.old places.new self.new) }
    {
        if !places.split(alloc, node, call, part)? {
            self.bad = Some(number);
        }
        Ok(())
    }

    /// Puts one twig more at its node, which was the next place and has this number.
    ///
    /// It fails only where there is no memory left.
    fn place(
        &mut self,
        alloc: Global,
        places: &mut Places,
        number: u32,
        node: Node,
        twig: &'t Twig,
    ) -> Result<(), AllocError>
        requires { self.old.bad ≡ None }
        ensures { OnOk result
            (PlacesTwig number node twig.now places.old self.old places.new self.new) }
    {
        match twig {
            Twig::Leaf(leaf) => self.add(number, node, leaf),
            Twig::Split { call, part } => self.split(alloc, places, number, &node, *call, *part),
        }
    }

    /// The twigs at the places that they fill, up to the first bad split or to where no place is left. This
    /// many twigs came before them.
    ///
    /// It fails only where there is no memory left.
    pub(crate) fn of_twigs(
        alloc: Global,
        places: &mut Places,
        seen: u32,
        twigs: &'t [Twig],
    ) -> Result<Self, AllocError>
        ensures { IfOk result (λ piece. IsPiece places.old seen twigs.now piece places.new) }
    {
        let mut piece = Piece::new(alloc);
        let mut number = seen;
        for twig in twigs {
            if piece.bad.is_some() {
                return Ok(piece);
            }
            let Some(node) = places.take_next() else {
                return Ok(piece);
            };
            number = number.saturating_add(1);
            piece.place(alloc, places, number, node, twig)?;
        }
        Ok(piece)
    }
}
