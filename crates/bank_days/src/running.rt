//! Running the days of banks.

ghost use Rattle.std.specs.Prelude.{◌≡◌, ◌<◌, ◌≤◌, ◌+◌, ◌^◌, All, IfOk, IsTrue, OnOk, length};
ghost use Rattle.elevator_model.specs.Snapshot.{IsAccepted};
ghost use Rattle.search_model.specs.Days.{loses_none, opening_day};
ghost use Rattle.day_state.specs.Openings.{IsOpeningSnapshot};
ghost use Rattle.day_simulator.specs.Planning.{PlannerLaw};
ghost use Rattle.day_simulator.specs.Rows.{IsRowDone};
ghost use Rattle.day_laws.specs.Standing.{row_number};
ghost use Rattle.bank_text.specs.BankRows.{row_said};
ghost use Rattle.bank_days.specs.Banks.{AreBankLogs, AreRowsAppended, IsDayLog, IsRunnable};

use crate::crews::BanksCrew;
use crate::logs::BankLog;
use bank_text::{Bank, BankRow};
use byte_streams::Gate;
use call_state::Snapshot;
use day_simulator::{Day, FIRST_LINE, Planner};
use std::alloc::{AllocError, Global};
use std::marker::Sync;
use work_fan::{Jobs, MOST_WORKERS, Runtime};

/// A worker has nothing at its desk.
const MOST_DESKS: usize = MOST_WORKERS as usize;

/// Takes or refuses the next row of a bank, and appends its lines to the log. It fails only where there is
/// no memory left.
fn run_row<P: Planner>(
    alloc: Global,
    planner: &P,
    row: &BankRow,
    day: &mut Day,
    log: &mut Vec<u8>,
) -> Result<(), AllocError>
    requires sound { PlannerLaw (P.right planner.now) }
    requires number { row_number day.old < 2 ^ 32 }
    ensures done { OnOk result (IsRowDone (P.right planner.now) day.old (row_said row.now)
        day.new log.old.items log.new.items) }
    ensures none_lost { IsTrue (loses_none day.new) }
    ensures number { OnOk result (row_number day.new ≡ row_number day.old + 1) }
{
    match row {
        BankRow::Fields(line) => day.row(alloc, planner, line.as_slice(), log),
        BankRow::Other => day.long_row(log),
    }
}

/// Does what the rows say, one after another, and appends their lines to the log. It fails only where there
/// is no memory left.
fn run_rows<P: Planner>(
    alloc: Global,
    planner: &P,
    rows: &[BankRow],
    day: &mut Day,
    log: &mut Vec<u8>,
) -> Result<(), AllocError>
    requires sound { PlannerLaw (P.right planner.now) }
    requires few { row_number day.old + length rows.now ≤ 2 ^ 32 }
    requires none_lost { IsTrue (loses_none day.old) }
    ensures done { OnOk result (AreRowsAppended (P.right planner.now) day.old rows.now day.new
        log.old.items log.new.items) }
    ensures none_lost { IsTrue (loses_none day.new) }
{
    for row in rows {
        run_row(alloc, planner, row, day, log)?;
    }
    Ok(())
}

/// The day of the opening before its first row. It fails only where there is no memory left.
fn open_day(alloc: Global, opening: &Snapshot) -> Result<Day, AllocError>
    requires { IsOpeningSnapshot opening.now }
    ensures day { IfOk result (λ day. day ≡ opening_day opening.now) }
    ensures none_lost { IfOk result (λ day. IsTrue (loses_none day)) }
    ensures accepted { IsAccepted opening.now }
{
    // For the proof: a reader of the snapshot tells that it keeps the rules.
    let _moment = opening.now();
    let day = Day::new(alloc, opening.copy(alloc)?)?;
    // For the proof: a reader of the day tells that no call is lost.
    let _unsolved = day.unsolved();
    Ok(day)
}

/// Runs the day of the opening over the rows. It fails only where there is no memory left.
fn run_day<P: Planner>(
    alloc: Global,
    planner: &P,
    opening: &Snapshot,
    rows: &[BankRow],
) -> Result<BankLog, AllocError>
    requires sound { PlannerLaw (P.right planner.now) }
    requires opening { IsOpeningSnapshot opening.now }
    requires few { length rows.now < 2 ^ 32 }
    ensures { IfOk result (IsDayLog (P.right planner.now) opening.now rows.now) }
{
    let mut text = Vec::from_slice(alloc, FIRST_LINE)?;
    let mut day = open_day(alloc, opening)?;
    run_rows(alloc, planner, rows, &mut day, &mut text)?;
    let is_stopped = day.unsolved() > 0;
    day.finish(alloc, &mut text)?;
    Ok(BankLog { text, is_stopped })
}

/// Banks: job `k` is to run the day of bank `k`.
#[derive(Drop)]
pub struct BankJobs<'a, P: Planner + Sync> {
    alloc: Global,
    planner: &'a P,
    banks: &'a [Bank],
    ghost few: { length banks.now < 2 ^ 32 },
    ghost are_runnable: { All IsRunnable banks.now },
}

impl<'a, P: Planner + Sync> Jobs for BankJobs<'a, P> {
    ghost use Rattle.std.specs.Prelude.{◌≡◌, length, slice_get, Some};
    ghost use Rattle.day_simulator.specs.Planning.{PlannerLaw};
    ghost use Rattle.bank_text.specs.declared.banks.Bank.{Bank as BankValue};
    ghost use Rattle.bank_days.specs.Banks.{IsBankLog};

    type Desk = ();

    type Answer = BankLog;

    ghost number = { λ it. length it.banks.now };

    ghost serves = { λ it desk. PlannerLaw (P.right it.planner.now) };

    ghost is_right = { λ it k log. (bank : BankValue) → slice_get it.banks.now k ≡ Some bank
        → IsBankLog (P.right it.planner.now) bank log };

    // It is done whether or not the work may go on: no search is in it that could be stopped.
    ghost is_done = { λ _ _. Unit {0} };

    fn count(&self) -> u32 {
        self.banks.len() as u32
    }

    fn work(&self, k: u32, _may_go_on: bool, _desk: &mut ()) -> Result<BankLog, AllocError> {
        let bank = &self.banks[k as usize];
        run_day(
            self.alloc,
            self.planner,
            &bank.opening,
            bank.rows.as_slice(),
        )
    }
}

/// Runs the day of each bank over its rows, by the runtime's crew: in place `k` stands a log of bank `k`.
///
/// Each bank is one job, and rows are numbered in their bank. Each opening has no calls and nobody aboard,
/// and each bank has fewer than 2^32 rows. It fails only where there is no memory left.
pub fn run_banks<P: Planner + Sync, C: BanksCrew<P>, G: Gate>(
    runtime: &Runtime<C, G>,
    planner: &P,
    banks: &[Bank],
) -> Result<Vec<BankLog>, AllocError>
    requires sound { PlannerLaw (P.right planner.now) }
    requires few { length banks.now < 2 ^ 32 }
    requires banks { All IsRunnable banks.now }
    ensures { IfOk result (λ logs. AreBankLogs (P.right planner.now) banks.now logs.items) }
{
    let jobs = BankJobs {
        alloc: runtime.alloc,
        planner,
        banks,
    };
    let mut desks = [(); MOST_DESKS];
    let workers = runtime.workers.count() as usize;
    runtime
        .crew
        .run_all(runtime.alloc, &jobs, &mut desks[..workers])
}
