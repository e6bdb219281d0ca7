//! The command `whatif`.
ghost use Rattle.command_ends.specs.Ends.{streams};
ghost use Rattle.command_ends.specs.Runs.{IsOfAnswer};
ghost use Rattle.case_commands.specs.WhatIfOutcome.{IsStatusOf, RunsWhatIf};

use crate::extra_writing::what_if_text;
use byte_streams::{Gate, Sink, Source};
use call_state::Snapshot;
use case_text::{AskFault, read_asked_case};
use command_ends::{Answer, Command, InputFault, OwnCode, Status, WholeText, run_command};
use lift_text::LineReader;
use search_model::Limits;
use snapshot_solver::SearchCrew;
use std::alloc::{AllocError, Global};
use what_if::{Extra, are_settled, what_if};
use work_fan::Runtime;

/// The status with which these extra costs are told.
fn status_of(extras: &[Extra]) -> Status
    ensures is { IsStatusOf extras.now result }
    ensures answers { IsOfAnswer result }
{
    if are_settled(extras) {
        Status::Done
    } else {
        Status::Stopped
    }
}

/// Tells of cases what their last call costs, as searches within limits answer it.
#[derive(Drop)]
struct Asking<'a, C: SearchCrew, G: Gate> {
    runtime: &'a Runtime<'a, C, G>,
    limits: Limits,
}

impl<'a, C: SearchCrew, G: Gate> WholeText for Asking<'a, C, G> {
    ghost use Rattle.case_commands.specs.WhatIfOutcome.{asked_form};

    type Value = Snapshot;

    ghost form = { λ _. asked_form };

    fn read<S: Source>(
        &self,
        alloc: Global,
        lines: &mut LineReader<S>,
    ) -> Result<Snapshot, InputFault> {
        match read_asked_case(alloc, lines) {
            Ok(snapshot) => Ok(snapshot),
            Err(AskFault::Text(fault)) => Err(InputFault::Text(fault)),
            Err(AskFault::NothingAsked { line }) => Err(InputFault::Own {
                line,
                code: OwnCode::NothingAsked,
            }),
        }
    }
}

impl<'a, C: SearchCrew, G: Gate> Command for Asking<'a, C, G> {
    ghost use Rattle.case_commands.specs.WhatIfOutcome.{IsTold};

    ghost told = { λ it s. IsTold s it.limits.rounds it.limits.most_tours };

    fn answer(&self, alloc: Global, snapshot: &Snapshot) -> Result<Answer, AllocError> {
        let costs = what_if(self.runtime, snapshot, self.limits)?;
        let text = what_if_text(alloc, snapshot, &costs)?;
        let status = status_of(costs.extras.as_slice());
        Ok(Answer { status, text })
    }
}

/// Reads a case, and writes what its last call costs with each car and what it costs to send the nearest one,
/// as far as searches within the limits tell it; or what is wrong with the input.
pub fn whatif<S: Source, K: Sink, C: SearchCrew, G: Gate>(
    runtime: &Runtime<C, G>,
    limits: Limits,
    source: &mut S,
    sink: &mut K,
) -> Status
    ensures { RunsWhatIf limits.rounds limits.most_tours
        (streams (S.left source.old) (K.taken sink.old) (S.faults source.old) (K.faults sink.old))
        (streams (S.left source.new) (K.taken sink.new) (S.faults source.new)
        (K.faults sink.new)) result }
{
    let command = Asking { runtime, limits };
    run_command(runtime.alloc, &command, source, sink)
}
