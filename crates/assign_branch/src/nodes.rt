//! Nodes: for each call the cars that may still serve it.

ghost use Rattle.std.specs.Prelude.{◌≡◌, ℕ, ◌^◌, ◌<◌, ◌≤◌, IfOk, length, slice_index, slice_set};
ghost use Rattle.call_sets.specs.Counting.{has};
ghost use Rattle.search_model.specs.Nodes.{IsNodeOf, allows, requires_of, root_of, set_of};

use crate::demands::{if_single, place};
use call_sets::{CallSet, CarSet};
use call_state::Snapshot;
use elevator_model::MOST_CALLS;
use std::alloc::{AllocError, Global};
use std::marker::Model;

/// A node of a search: for each call the set of the cars that may still serve it.
///
/// Contracts see it as the list of these sets, in the order of the calls. The calls that each car may and has
/// to board are kept beside it, so that reading them looks nothing through.
#[derive(Drop)]
pub struct Node {
    sets: Vec<CarSet>,
    /// For each car the calls whose set has it, and those whose set is the car alone.
    allowed: [CallSet; 16],
    required: [CallSet; 16],
}

impl Model for Node {
    ghost use Rattle.std.specs.Prelude.{ℕ, List};
    ghost use Rattle.assign_branch.specs.Demands.{KeepsDemands};

    ghost Value = { List ℕ };

    ghost view = { λ n. n.sets.items };

    ghost invariant = { λ n. KeepsDemands n.sets.items n.allowed n.required };
}

impl Node {
    /// The node with these sets.
    fn of_sets(sets: Vec<CarSet>) -> Self
        requires calls { length sets.items ≤ MOST_CALLS }
        requires cars { (j : ℕ) → slice_index sets.items j < 2 ^ 16 }
        ensures { result ≡ sets.items }
    {
        let mut allowed = [CallSet::empty(); 16];
        let mut required = [CallSet::empty(); 16];
        for call in 0..sets.len() {
            let set = sets[call];
            place(&mut allowed, call as u32, set);
            place(&mut required, call as u32, if_single(set));
        }
        Node {
            sets,
            allowed,
            required,
        }
    }

    /// A copy of the node. It fails only where there is no memory left.
    pub fn copy(&self, alloc: Global) -> Result<Node, AllocError>
        ensures { IfOk result (λ node. node ≡ self.now) }
    {
        Ok(Node {
            sets: self.sets.as_slice().to_vec(alloc)?,
            allowed: self.allowed,
            required: self.required,
        })
    }

    /// The cars that may serve a call: none where there is no such call.
    pub fn set(&self, call: u32) -> CarSet
        ensures { result ≡ set_of self.now call }
    {
        self.sets
            .get(call as usize)
            .copied()
            .unwrap_or(CarSet::empty())
    }

    /// The calls that a car may board: those whose set has it.
    pub fn allowed(&self, car: u32) -> CallSet
        ensures { (j : ℕ) → has result j ≡ allows self.now car j }
    {
        self.allowed
            .get(car as usize)
            .copied()
            .unwrap_or(CallSet::empty())
    }

    /// The calls that a car has to board: those whose set is this car alone.
    pub fn required(&self, car: u32) -> CallSet
        ensures { (j : ℕ) → has result j ≡ requires_of self.now car j }
    {
        self.required
            .get(car as usize)
            .copied()
            .unwrap_or(CallSet::empty())
    }

    /// Becomes the other node, in the memory that it has.
    pub(crate) fn copy_from(&mut self, other: &Node)
        requires { length self.old ≡ length other.now }
        ensures { self.new ≡ other.now }
    {
        self.sets.copy_from_slice(&other.sets);
        self.allowed = other.allowed;
        self.required = other.required;
    }

    /// Gives a call this set in place of its own.
    pub(crate) fn give(&mut self, call: u32, set: CarSet)
        requires call { call < length self.old }
        requires cars { set < 2 ^ 16 }
        ensures { self.new ≡ slice_set self.old call set }
    {
        self.sets[call as usize] = set;
        place(&mut self.allowed, call, set);
        place(&mut self.required, call, if_single(set));
    }
}

/// The root of a snapshot's search: each call has its possible cars. It fails only where there is no memory
/// left.
pub fn root(alloc: Global, snapshot: &Snapshot) -> Result<Node, AllocError>
    ensures root { IfOk result (λ node. node ≡ root_of snapshot.now) }
    ensures node { IfOk result (IsNodeOf snapshot.now) }
{
    let calls = snapshot.calls().len();
    let mut sets = Vec::with_capacity(alloc, calls)?;
    for call in 0..calls {
        sets.push(snapshot.possible(call as u32))?;
    }
    Ok(Node::of_sets(sets))
}
