//! The command `check`.
ghost use Rattle.std.specs.Prelude.{IfOk};
ghost use Rattle.check_text.specs.VerdictTexts.{IsToldOf};
ghost use Rattle.command_ends.specs.Ends.{streams};
ghost use Rattle.command_ends.specs.Runs.{IsOfAnswer};
ghost use Rattle.case_commands.specs.CheckOutcome.{IsVerdictTold, RunsCheck};

use crate::status::status_of_verdict;
use byte_streams::{Gate, Sink, Source};
use cert_checker::JudgingCrew;
use check_text::{Checked, read_check, write_verdict};
use command_ends::{Answer, Command, InputFault, Status, WholeText, run_command};
use lift_text::LineReader;
use std::alloc::{AllocError, Global};
use work_fan::Runtime;

/// The text of a verdict, with its status.
fn verdict_answer(alloc: Global, checked: &Checked) -> Result<Answer, AllocError>
    requires { IsToldOf checked.now.snapshot checked.now.verdict }
    ensures told { IfOk result (λ answer. IsVerdictTold checked.now answer.status answer.text.items) }
    ensures status { IfOk result (λ answer. IsOfAnswer answer.status) }
{
    let mut text = Vec::new(alloc);
    write_verdict(checked, &mut text)?;
    let status = status_of_verdict(&checked.verdict);
    Ok(Answer { status, text })
}

/// Judges certificates while they are read.
#[derive(Drop)]
struct Checking<'a, C: JudgingCrew, G: Gate> {
    runtime: &'a Runtime<'a, C, G>,
}

impl<'a, C: JudgingCrew, G: Gate> WholeText for Checking<'a, C, G> {
    ghost use Rattle.case_commands.specs.CheckOutcome.{check_form};

    type Value = Checked;

    ghost form = { λ _. check_form };

    fn read<S: Source>(
        &self,
        _alloc: Global,
        lines: &mut LineReader<S>,
    ) -> Result<Checked, InputFault> {
        match read_check(self.runtime, lines) {
            Ok(checked) => Ok(checked),
            Err(fault) => Err(InputFault::Text(fault)),
        }
    }
}

impl<'a, C: JudgingCrew, G: Gate> Command for Checking<'a, C, G> {
    ghost use Rattle.case_commands.specs.CheckOutcome.{IsVerdictTold};

    ghost told = { λ _. IsVerdictTold };

    fn answer(&self, alloc: Global, checked: &Checked) -> Result<Answer, AllocError> {
        verdict_answer(alloc, checked)
    }
}

/// Reads a case with an answer and a certificate, and writes whether the certificate proves the answer, or
/// why not; or what is wrong with the input.
pub fn check<S: Source, K: Sink, C: JudgingCrew, G: Gate>(
    runtime: &Runtime<C, G>,
    source: &mut S,
    sink: &mut K,
) -> Status
    ensures { RunsCheck
        (streams (S.left source.old) (K.taken sink.old) (S.faults source.old) (K.faults sink.old))
        (streams (S.left source.new) (K.taken sink.new) (S.faults source.new)
        (K.faults sink.new)) result }
{
    let command = Checking { runtime };
    run_command(runtime.alloc, &command, source, sink)
}
