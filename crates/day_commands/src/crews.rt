//! Who runs the days of banks that searches plan.

ghost use Rattle.std.specs.Prelude.{◌≡◌, ℕ, All, IfOk, Some, length, slice_get};
ghost use Rattle.work_fan.specs.Work.{Serving};
ghost use Rattle.bank_text.specs.declared.banks.Bank.{Bank as BankValue};
ghost use Rattle.day_simulator.specs.Planning.{PlannerLaw};
ghost use Rattle.day_planner.specs.SolvedRows.{IsSolvedRow};
ghost use Rattle.bank_days.specs.Banks.{IsBankLog};

use crate::planning::Searches;
use bank_days::{BankJobs, BankLog, BanksCrew};
use byte_streams::OpenGate;
use std::alloc::{AllocError, Global};
use work_fan::{Alone, fan_alone};

/// Who runs the days of banks that searches plan.
pub trait GroupCrew {
    /// Runs the day of each bank, for 1 to 16 workers, which need nothing at their desks: in place `k` stands a
    /// log of bank `k`. It fails only where there is no memory left.
    fn run_all(
        &self,
        alloc: Global,
        jobs: &BankJobs<Searches>,
        desks: &mut [()],
    ) -> Result<Vec<BankLog>, AllocError>
        requires { Serving (λ desk. PlannerLaw (IsSolvedRow jobs.now.planner.now.limits.rounds
            jobs.now.planner.now.limits.most_tours jobs.now.planner.now.claims)) desks.old }
        ensures count { IfOk result (λ logs. length logs.items ≡ length jobs.now.banks.now) }
        ensures right { IfOk result (λ logs. (k : ℕ) (log : BankLog) → slice_get logs.items k ≡ Some log
            → (bank : BankValue) → slice_get jobs.now.banks.now k ≡ Some bank
            → IsBankLog (IsSolvedRow jobs.now.planner.now.limits.rounds
            jobs.now.planner.now.limits.most_tours jobs.now.planner.now.claims) bank log) };
}

impl GroupCrew for Alone {
    fn run_all(
        &self,
        alloc: Global,
        jobs: &BankJobs<Searches>,
        desks: &mut [()],
    ) -> Result<Vec<BankLog>, AllocError> {
        fan_alone(alloc, jobs, desks, &OpenGate)
    }
}

/// A crew of a group, as the days of banks know one.
#[derive(Drop)]
pub(crate) struct ByCrew<'c, C: GroupCrew> {
    pub(crate) crew: &'c C,
}

impl<'s, C: GroupCrew> BanksCrew<Searches<'s>> for ByCrew<'_, C> {
    fn run_all(
        &self,
        alloc: Global,
        jobs: &BankJobs<Searches<'s>>,
        desks: &mut [()],
    ) -> Result<Vec<BankLog>, AllocError> {
        self.crew.run_all(alloc, jobs, desks)
    }
}
