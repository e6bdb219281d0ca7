//! Checkers of a plan, its cost and a bound.

ghost use Rattle.std.specs.Prelude.{◌≡◌, ℕ, ◌+◌, ◌<◌, ◌≤◌, ◌^◌, ◌++◌, [], List, All, IfOk, OnOk, OnErr};
ghost use Rattle.std.specs.Prelude.{length};
ghost use Rattle.elevator_model.specs.Snapshot.{Snapshot as SnapshotValue, car_count};
ghost use Rattle.search_model.specs.declared.Stated.{Stated as StatedValue};
ghost use Rattle.search_model.specs.declared.Twig.{Twig as TwigValue};
ghost use Rattle.search_model.specs.Nodes.{IsNodeOf};
ghost use Rattle.search_model.specs.Verdicts.{verdict_of};
ghost use Rattle.cert_checker.specs.Judging.{HasSeen, HasWorthSizes, IsCheckerOf, IsStateOf, GoesOnTo};
ghost use Rattle.cert_checker.specs.Judging.{reason_of_bad as reason_of_bad_lem};

use crate::crews::JudgingCrew;
use crate::judging::judge_tasks;
use crate::plans::judge_stated;
use crate::tasks::Piece;
use assign_branch::{Places, root};
use byte_streams::Gate;
use call_state::Snapshot;
use search_model::{Reason, Stated, Twig, Verdict};
use std::alloc::{AllocError, Global};
use work_fan::Runtime;

/// What a checker has seen.
#[derive(Drop)]
enum State {
    /// The first reason to say no.
    Found(Reason),
    /// No reason so far: the places that are still to be filled, and how many twigs came.
    Open { places: Places, seen: u32 },
}

/// Says whether a certificate's tree proves a plan, its cost and a bound. It takes the tree twig by twig, in
/// preorder and in pieces of any size.
///
/// It keeps the first reason to say no, or else the nodes of the places of the tree that are still to be
/// filled, of which there are never more than one and the cars of all calls.
#[derive(Drop)]
pub struct Checker {
    /// In cost units.
    bound: u64,
    state: State,
}

impl Checker {
    /// A checker of what is stated, which has judged the plan and its cost and has seen no twig of the tree.
    ///
    /// The plan has to have one tour per car. It fails only where there is no memory left.
    pub fn new(alloc: Global, snapshot: &Snapshot, stated: &Stated) -> Result<Self, AllocError>
        requires { length stated.now.plan ≡ car_count snapshot.now }
        ensures own { IfOk result (IsCheckerOf snapshot.now) }
        ensures seen { IfOk result (HasSeen snapshot.now stated.now []) }
    {
        let bound = stated.bound;
        if let Some(reason) = judge_stated(snapshot, stated) {
            let state = State::Found(reason);
            return Ok(Checker { bound, state });
        }
        let places = Places::new(alloc, root(alloc, snapshot)?)?;
        let state = State::Open { places, seen: 0 };
        Ok(Checker { bound, state })
    }

    /// Takes the next twigs of the tree, in preorder. Each leaf among them that is still to be judged is one
    /// job, numbered from 0; the runtime's crew does them.
    ///
    /// The snapshot has to be the checker's own. In all a checker takes fewer than 2^32 twigs, of which each
    /// worth is of absolute value at most 10^27. It fails only where there is no memory left, and then it is
    /// as before.
    pub fn feed<C: JudgingCrew, G: Gate>(
        &mut self,
        runtime: &Runtime<C, G>,
        snapshot: &Snapshot,
        twigs: &[Twig],
    ) -> Result<(), AllocError>
        requires own { IsCheckerOf snapshot.now self.old }
        requires few { length twigs.now < 2 ^ 32 }
        requires sizes { All HasWorthSizes twigs.now }
        ensures own { IsCheckerOf snapshot.now self.new }
        ensures seen { OnOk result ((stated : StatedValue) (fed : List TwigValue)
            → length fed + length twigs.now < 2 ^ 32 → HasSeen snapshot.now stated fed self.old
            → HasSeen snapshot.now stated (fed ++ twigs.now) self.new) }
        ensures failed { OnErr result (self.new ≡ self.old) }
    {
        let State::Open { places, seen } = &self.state else {
            return Ok(());
        };
        let bound = self.bound;
        self.state = goes_on(runtime, snapshot, bound, places, *seen, twigs)?;
        Ok(())
    }

    /// The verdict of all twigs that it took. It takes no memory.
    pub fn verdict(self) -> Verdict
        ensures { (s : SnapshotValue) (stated : StatedValue) (fed : List TwigValue)
            → HasSeen s stated fed self
            → result ≡ verdict_of s stated.plan stated.cost stated.bound fed }
    {
        match self.state {
            State::Found(reason) => Verdict::No(reason),
            State::Open { places: _, seen: _ } => Verdict::Yes,
        }
    }
}

/// The reason that a bad split gives, which has this number.
fn reason_of_bad(bad: Option<u32>) -> Option<Reason>
    ensures { result ≡ reason_of_bad_lem bad }
{
    let node = bad?;
    Some(Reason::Split { node })
}

/// What a checker has seen after some twigs more, where no reason was found before.
fn goes_on<C: JudgingCrew, G: Gate>(
    runtime: &Runtime<C, G>,
    snapshot: &Snapshot,
    bound: u64,
    places: &Places,
    seen: u32,
    twigs: &[Twig],
) -> Result<State, AllocError>
    requires own { All (IsNodeOf snapshot.now) places.now }
    requires few { length twigs.now < 2 ^ 32 }
    requires sizes { All HasWorthSizes twigs.now }
    ensures own { IfOk result (IsStateOf snapshot.now) }
    ensures on { IfOk result (GoesOnTo snapshot.now bound places.now seen twigs.now) }
{
    // For the proof: its readers say that the snapshot is accepted.
    let _calls = snapshot.calls();
    let mut places = places.copy(runtime.alloc)?;
    let piece = Piece::of_twigs(runtime.alloc, &mut places, seen, twigs)?;
    let found = judge_tasks(runtime, snapshot, bound, &piece.tasks)?;
    if let Some(reason) = found.or(reason_of_bad(piece.bad)) {
        return Ok(State::Found(reason));
    }
    let seen = seen.saturating_add(twigs.len() as u32);
    Ok(State::Open { places, seen })
}

/// Whether the tree proves the plan, its cost and the bound: the verdict of one whole tree, its twigs in
/// preorder.
///
/// The plan has to have one tour per car, the tree fewer than 2^32 twigs, of which each worth is of absolute
/// value at most 10^27. The runtime's crew judges its leaves. It fails only where there is no memory left.
pub fn check<C: JudgingCrew, G: Gate>(
    runtime: &Runtime<C, G>,
    snapshot: &Snapshot,
    stated: &Stated,
    tree: &[Twig],
) -> Result<Verdict, AllocError>
    requires cars { length stated.now.plan ≡ car_count snapshot.now }
    requires few { length tree.now < 2 ^ 32 }
    requires sizes { All HasWorthSizes tree.now }
    ensures { IfOk result (λ verdict. verdict
        ≡ verdict_of snapshot.now stated.now.plan stated.now.cost stated.now.bound tree.now) }
{
    let mut checker = Checker::new(runtime.alloc, snapshot, stated)?;
    checker.feed(runtime, snapshot, tree)?;
    Ok(checker.verdict())
}
