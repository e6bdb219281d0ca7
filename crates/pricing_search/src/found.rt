//! The moves of a tour that was found.

ghost use Rattle.std.specs.Prelude.{◌≡◌, [], IfOk};

use elevator_model::{MOST_MOVES, Move};
use partial_tours::Prefix;
use std::alloc::{AllocError, Global};
use std::marker::Model;

/// The moves of a tour that was found, with room for the longest.
#[derive(Drop)]
pub(crate) struct BestMoves {
    moves: Vec<Move>,
}

impl Model for BestMoves {
    ghost use Rattle.std.specs.Prelude.{List, ◌≤◌, vec_capacity};
    ghost use Rattle.elevator_model.specs.declared.Move.{Move};

    ghost Value = { List Move };

    ghost view = { λ f. f.moves.items };

    ghost invariant = { λ f. 450 ≤ vec_capacity f.moves };
}

impl BestMoves {
    /// No moves yet.
    pub(crate) fn new(alloc: Global) -> Result<Self, AllocError>
        ensures { IfOk result (λ found. found ≡ []) }
    {
        Ok(BestMoves {
            moves: Vec::with_capacity(alloc, MOST_MOVES)?,
        })
    }

    /// The moves.
    pub(crate) fn moves(&self) -> &[Move]
        ensures { result.now ≡ self.now }
    {
        self.moves.as_slice()
    }

    /// Takes the moves of the partial tour in place of its own, without memory.
    pub(crate) fn take(&mut self, prefix: &Prefix)
        ensures { self.new ≡ prefix.now.moves }
    {
        // For the proof: their readers say that the snapshot is accepted and the car one of its cars, so
        // there are at most 450 moves.
        let _accepted = prefix.layout().snapshot();
        let _car = prefix.car();
        self.moves.clear();
        for next in prefix.moves() {
            self.moves.push_reserved(*next);
        }
    }
}
