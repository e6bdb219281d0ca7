//! A crew whose jobs are looked out for.

ghost use Rattle.std.specs.Prelude.{◌≡◌, ℕ, ◌*◌, All, IfOk, IfSome, IsSome, Option, Some, length, slice_get, slice_index};
ghost use Rattle.work_fan.specs.Work.{Serving};
ghost use Rattle.pricing_rounds.specs.Rounds.{IsAnswerAt};

use crate::lookout::Lookout;
use assign_branch::Pricer;
use bank_days::{BankJobs, BankLog};
use byte_streams::Gate;
use cert_checker::{Judging, JudgingCrew, Reason};
use cert_claims::{Claims, Counting, CountingCrew};
use day_commands::{GroupCrew, Searches};
use kept_tours::Desk as LeafDesk;
use pricing_rounds::Round;
use pricing_search::{Desk, Searcher};
use search_model::TurnOf;
use snapshot_solver::SearchCrew;
use std::alloc::{AllocError, Global};
use std::thread::Threads;
use work_fan::fan;

/// Threads, each of whose jobs passes a lookout.
#[derive(Drop)]
pub(crate) struct Watched<'a, R: Threads> {
    pub(crate) threads: &'a R,
    pub(crate) lookout: &'a Lookout,
}

impl<R: Threads> SearchCrew for Watched<'_, R> {
    fn price_all<'a, G: Gate>(
        &self,
        alloc: Global,
        round: &Round<'_, Searcher<'a>>,
        desks: &mut [Desk<'a>],
        _gate: &G,
    ) -> Result<Vec<Option<TurnOf>>, AllocError> {
        price_in_threads(self, alloc, round, desks)
    }
}

fn price_in_threads<P: Pricer, R: Threads>(
    watched: &Watched<R>,
    alloc: Global,
    round: &Round<P>,
    desks: &mut [P::Desk],
) -> Result<Vec<Option<TurnOf>>, AllocError>
    requires { Serving (P.owns round.now.pricer.now) desks.old }
    ensures count { IfOk result (λ answers.
        length answers.items ≡ length round.now.tasks.now * round.now.cars) }
    ensures right { IfOk result (λ answers.
        (k : ℕ) (answer : Option TurnOf) → slice_get answers.items k ≡ Some answer
        → IfSome answer (IsAnswerAt (P.snapshot round.now.pricer.now)
        round.now.limits.most_tours round.now.tasks.now round.now.cars (slice_index round.now.order.now k))) }
    ensures done { IfOk result (λ answers. All IsSome answers.items) }
    ensures desks { All (P.owns round.now.pricer.now) desks.new }
{
    fan(watched.threads, alloc, round, desks, watched.lookout)
}

impl<R: Threads> CountingCrew for Watched<'_, R> {
    fn count_all<'a>(
        &self,
        alloc: Global,
        counting: &Counting<'a>,
        desks: &mut [LeafDesk<'a>],
    ) -> Result<Vec<Option<Claims>>, AllocError> {
        fan(self.threads, alloc, counting, desks, self.lookout)
    }
}

impl<R: Threads> JudgingCrew for Watched<'_, R> {
    fn judge_all<'a>(
        &self,
        alloc: Global,
        judging: &Judging<'a>,
        desks: &mut [LeafDesk<'a>],
    ) -> Result<Vec<Option<Reason>>, AllocError> {
        fan(self.threads, alloc, judging, desks, self.lookout)
    }
}

impl<R: Threads> GroupCrew for Watched<'_, R> {
    fn run_all(
        &self,
        alloc: Global,
        jobs: &BankJobs<Searches>,
        desks: &mut [()],
    ) -> Result<Vec<BankLog>, AllocError> {
        fan(self.threads, alloc, jobs, desks, self.lookout)
    }
}
