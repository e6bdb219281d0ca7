//! The planner of days.

ghost use Rattle.std.specs.Prelude.{◌≡◌, ◌≤◌, ◌^◌, IfSome};
ghost use Rattle.std.proofs.Props.{props};

use crate::planning::plan_within;
use byte_streams::Gate;
use call_state::Snapshot;
use cert_claims::CountingCrew;
use day_simulator::{Plan, Planner};
use search_model::{Limits, Stated};
use snapshot_solver::SearchCrew;
use std::alloc::AllocError;
use work_fan::Runtime;

/// Plans the rows of days by searches within limits, with what a runtime has. It plans each row anew, whatever
/// plan held before.
#[derive(Drop)]
pub struct Searches<'a, C: SearchCrew + CountingCrew, G: Gate> {
    runtime: &'a Runtime<'a, C, G>,
    limits: Limits,
    claims: Option<u64>,
    ghost few: { IfSome claims (λ most. most ≤ 10 ^ 10) } by { Prim.hlevel props },
}

impl<'a, C: SearchCrew + CountingCrew, G: Gate> Searches<'a, C, G> {
    /// Searches within these limits, with what the runtime has. Each plan is written with its certificate where
    /// the claims of that have a limit, which is at most 10^10.
    pub fn new(
        runtime: &'a Runtime<'a, C, G>,
        limits: Limits,
        claims: Option<u64>,
    ) -> Searches<'a, C, G>
        requires { IfSome claims (λ most. most ≤ 10 ^ 10) }
        ensures limits { result.limits ≡ limits }
        ensures claims { result.claims ≡ claims }
    {
        Searches {
            runtime,
            limits,
            claims,
        }
    }
}

impl<'a, C: SearchCrew + CountingCrew, G: Gate> Planner for Searches<'a, C, G> {
    ghost use Rattle.day_planner.specs.SolvedRows.{IsSolvedRow};

    ghost right = { λ it s held stated proof.
        IsSolvedRow it.limits.rounds it.limits.most_tours it.claims s held stated proof };

    fn plan(
        &self,
        snapshot: &Snapshot,
        _held: &Plan,
        log: &mut Vec<u8>,
    ) -> Result<Stated, AllocError> {
        plan_within(self.runtime, self.limits, self.claims, snapshot, log)
    }
}
