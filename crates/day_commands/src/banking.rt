//! The command `banks`.
ghost use Rattle.std.specs.Prelude.{◌≡◌, ◌≤◌, All, IfOk, length};
ghost use Rattle.std.specs.List.{list_any};
ghost use Rattle.bank_text.specs.BankTexts.{IsReadyBank};
ghost use Rattle.command_ends.specs.Ends.{streams};
ghost use Rattle.command_ends.specs.Runs.{IsOfAnswer};
ghost use Rattle.day_commands.specs.BanksOutcome.{AreTold, RunsBanks};
ghost use Rattle.day_commands.specs.BanksOutcome.{status_of_logs as status_of_logs_lem};

use crate::bank_writing::banks_text;
use crate::crews::{ByCrew, GroupCrew};
use bank_days::{BankLog, run_banks};
use bank_text::{BankFault, BankInput, MOST_BANKS, read_banks};
use byte_streams::{Gate, OpenGate, Sink, Source};
use command_ends::{Answer, Command, InputFault, OwnCode, Status, WholeText, run_command};
use day_planner::Searches;
use lift_text::LineReader;
use search_model::Limits;
use std::alloc::{AllocError, Global};
use work_fan::{Alone, Runtime, Workers};

/// Whether some accepted row of some bank had a bound below its cost.
fn is_any_stopped(logs: &[BankLog]) -> bool
    ensures { result ≡ list_any (λ log. log.is_stopped) logs.now }
{
    logs.iter().any(|log| log.is_stopped)
}

/// The status with which these logs are told.
fn status_of_logs(logs: &[BankLog]) -> Status
    ensures is { result ≡ status_of_logs_lem logs.now }
    ensures answers { IsOfAnswer result }
{
    if is_any_stopped(logs) {
        Status::Stopped
    } else {
        Status::Done
    }
}

/// The logs of the days of banks, each a job of its own, as searches within these limits plan them. It fails
/// only where there is no memory left.
fn answer_of<C: GroupCrew, G: Gate>(
    runtime: &Runtime<C, G>,
    limits: Limits,
    banks: &BankInput,
) -> Result<Answer, AllocError>
    requires ready { All IsReadyBank banks.now.banks.items }
    requires few { length banks.now.banks.items ≤ MOST_BANKS }
    ensures told { IfOk result (λ answer. AreTold limits.rounds limits.most_tours banks.now answer.status
        answer.text.items) }
    ensures status { IfOk result (λ answer. IsOfAnswer answer.status) }
{
    let lone = Runtime {
        crew: &Alone,
        workers: Workers::one(),
        alloc: runtime.alloc,
        gate: &OpenGate,
    };
    let planner = Searches::new(&lone, limits, None);
    let by_crew = ByCrew { crew: runtime.crew };
    let days = Runtime {
        crew: &by_crew,
        workers: runtime.workers,
        alloc: runtime.alloc,
        gate: runtime.gate,
    };
    let all = banks.banks.as_slice();
    let logs = run_banks(&days, &planner, all)?;
    let status = status_of_logs(logs.as_slice());
    let text = banks_text(runtime.alloc, all, logs.as_slice(), banks.strays)?;
    Ok(Answer { status, text })
}

/// Tells of banks the days of their own rows, as searches within limits plan them.
#[derive(Drop)]
struct DaysOfBanks<'a, C: GroupCrew, G: Gate> {
    runtime: &'a Runtime<'a, C, G>,
    limits: Limits,
}

impl<'a, C: GroupCrew, G: Gate> WholeText for DaysOfBanks<'a, C, G> {
    ghost use Rattle.day_commands.specs.BanksOutcome.{banks_form};

    type Value = BankInput;

    ghost form = { λ _. banks_form };

    fn read<S: Source>(
        &self,
        alloc: Global,
        lines: &mut LineReader<S>,
    ) -> Result<BankInput, InputFault> {
        match read_banks(alloc, lines) {
            Ok(banks) => Ok(banks),
            Err(BankFault::Text(fault)) => Err(InputFault::Text(fault)),
            Err(BankFault::UsedId { line }) => Err(InputFault::Own {
                line,
                code: OwnCode::UsedId,
            }),
            Err(BankFault::TooMany { line }) => Err(InputFault::Own {
                line,
                code: OwnCode::TooManyBanks,
            }),
        }
    }
}

impl<'a, C: GroupCrew, G: Gate> Command for DaysOfBanks<'a, C, G> {
    ghost use Rattle.day_commands.specs.BanksOutcome.{AreTold};

    ghost told = { λ it banks. AreTold it.limits.rounds it.limits.most_tours banks };

    fn answer(&self, _alloc: Global, banks: &BankInput) -> Result<Answer, AllocError> {
        answer_of(self.runtime, self.limits, banks)
    }
}

/// Reads banks of cars and the rows of all of them, and writes the log of each bank's day over its own rows,
/// and how many rows name no bank; or what is wrong with the input.
pub fn banks<S: Source, K: Sink, C: GroupCrew, G: Gate>(
    runtime: &Runtime<C, G>,
    limits: Limits,
    source: &mut S,
    sink: &mut K,
) -> Status
    ensures { RunsBanks limits.rounds limits.most_tours
        (streams (S.left source.old) (K.taken sink.old) (S.faults source.old) (K.faults sink.old))
        (streams (S.left source.new) (K.taken sink.new) (S.faults source.new)
        (K.faults sink.new)) result }
{
    let command = DaysOfBanks { runtime, limits };
    run_command(runtime.alloc, &command, source, sink)
}
