//! A crew of threads: the workers of each round of jobs, in threads of their own where they can be made.
//!
//! It is the one place where a product's work comes to threads; what each round answers is promised by the
//! crews' traits, whoever does the jobs. A lone worker is the calling thread.
#![tactic(auto)]

ghost use Rattle.std.specs.Prelude.{◌≡◌, ℕ, ◌*◌, All, IfOk, IfSome, IsSome, Option, Some, length, slice_get, slice_index};
ghost use Rattle.work_fan.specs.Work.{Serving};
ghost use Rattle.pricing_rounds.specs.Rounds.{IsAnswerAt};

use assign_branch::Pricer;
use bank_days::{BankJobs, BankLog};
use byte_streams::{Gate, OpenGate};
use cert_checker::{Judging, JudgingCrew, Reason};
use cert_claims::{Claims, Counting, CountingCrew};
use day_commands::{GroupCrew, Searches};
use kept_tours::Desk as LeafDesk;
use pricing_rounds::Round;
use pricing_search::{Desk, Searcher};
use search_model::TurnOf;
use snapshot_solver::SearchCrew;
use std::alloc::{AllocError, Global};
use std::thread::Threads;
use work_fan::fan;

/// A crew of threads that come from this handle.
#[derive(Drop)]
pub struct InThreads<'a, R: Threads> {
    threads: &'a R,
}

impl<'a, R: Threads> InThreads<'a, R> {
    /// A crew of threads that come from this handle.
    pub fn new(threads: &'a R) -> InThreads<'a, R> {
        InThreads { threads }
    }
}

impl<R: Threads> SearchCrew for InThreads<'_, R> {
    fn price_all<'a, G: Gate>(
        &self,
        alloc: Global,
        round: &Round<'_, Searcher<'a>>,
        desks: &mut [Desk<'a>],
        _gate: &G,
    ) -> Result<Vec<Option<TurnOf>>, AllocError> {
        price_in_threads(self.threads, alloc, round, desks)
    }
}

/// Makes all pricings of a round, with a thread for each desk. A function of its own, since the method knows the
/// jobs by a pricer whose lifetime they do not show.
fn price_in_threads<P: Pricer, R: Threads>(
    threads: &R,
    alloc: Global,
    round: &Round<P>,
    desks: &mut [P::Desk],
) -> Result<Vec<Option<TurnOf>>, AllocError>
    requires { Serving (P.owns round.now.pricer.now) desks.old }
    ensures count { IfOk result (λ answers.
        length answers.items ≡ length round.now.tasks.now * round.now.cars) }
    ensures right { IfOk result (λ answers.
        (k : ℕ) (answer : Option TurnOf) → slice_get answers.items k ≡ Some answer
        → IfSome answer (IsAnswerAt (P.snapshot round.now.pricer.now)
        round.now.limits.most_tours round.now.tasks.now round.now.cars (slice_index round.now.order.now k))) }
    ensures done { IfOk result (λ answers. All IsSome answers.items) }
    ensures desks { All (P.owns round.now.pricer.now) desks.new }
{
    fan(threads, alloc, round, desks, &OpenGate)
}

impl<R: Threads> CountingCrew for InThreads<'_, R> {
    fn count_all<'a>(
        &self,
        alloc: Global,
        counting: &Counting<'a>,
        desks: &mut [LeafDesk<'a>],
    ) -> Result<Vec<Option<Claims>>, AllocError> {
        fan(self.threads, alloc, counting, desks, &OpenGate)
    }
}

impl<R: Threads> JudgingCrew for InThreads<'_, R> {
    fn judge_all<'a>(
        &self,
        alloc: Global,
        judging: &Judging<'a>,
        desks: &mut [LeafDesk<'a>],
    ) -> Result<Vec<Option<Reason>>, AllocError> {
        fan(self.threads, alloc, judging, desks, &OpenGate)
    }
}

impl<R: Threads> GroupCrew for InThreads<'_, R> {
    fn run_all(
        &self,
        alloc: Global,
        jobs: &BankJobs<Searches>,
        desks: &mut [()],
    ) -> Result<Vec<BankLog>, AllocError> {
        fan(self.threads, alloc, jobs, desks, &OpenGate)
    }
}
