//! Who runs the days of banks.

ghost use Rattle.std.specs.Prelude.{◌≡◌, ℕ, All, IfOk, Some, length, slice_get};
ghost use Rattle.work_fan.specs.Work.{Serving};
ghost use Rattle.bank_text.specs.declared.banks.Bank.{Bank as BankValue};
ghost use Rattle.day_simulator.specs.Planning.{PlannerLaw};
ghost use Rattle.bank_days.specs.Banks.{IsBankLog};

use crate::logs::BankLog;
use crate::running::BankJobs;
use day_simulator::Planner;
use std::alloc::{AllocError, Global};
use std::marker::Sync;

/// Who runs the days of banks.
///
/// It is implemented where the planner is a concrete type: in an `impl` that knows the planner by its bounds
/// only, no thread takes it.
pub trait BanksCrew<P: Planner + Sync> {
    /// Runs the day of each bank, for 1 to 16 workers, which need nothing at their desks: in place `k` stands a
    /// log of bank `k`. It fails only where there is no memory left.
    fn run_all(
        &self,
        alloc: Global,
        jobs: &BankJobs<P>,
        desks: &mut [()],
    ) -> Result<Vec<BankLog>, AllocError>
        requires { Serving (λ desk. PlannerLaw (P.right jobs.now.planner.now)) desks.old }
        ensures count { IfOk result (λ logs. length logs.items ≡ length jobs.now.banks.now) }
        ensures right { IfOk result (λ logs. (k : ℕ) (log : BankLog) → slice_get logs.items k ≡ Some log
            → (bank : BankValue) → slice_get jobs.now.banks.now k ≡ Some bank
            → IsBankLog (P.right jobs.now.planner.now) bank log) };
}
