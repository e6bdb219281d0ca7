//! The command `root`.
ghost use Rattle.std.specs.Prelude.{◌≡◌, ◌≤◌, IfOk};
ghost use Rattle.root_prices.specs.declared.answers.TheConstants.{MOST_ROUNDS};
ghost use Rattle.command_ends.specs.Ends.{streams};
ghost use Rattle.command_ends.specs.Runs.{IsOfAnswer};
ghost use Rattle.case_commands.specs.RootOutcome.{IsRootTold, RunsRoot, status_of as status_of_lem};

use crate::root_writing::root_text;
use byte_streams::{Sink, Source};
use call_state::Snapshot;
use case_text::read_lone_case;
use command_ends::{Answer, Command, InputFault, Status, WholeText, run_command};
use lift_text::LineReader;
use root_prices::{MOST_ROUNDS, RootReason};
use search_model::Limits;
use snapshot_solver::solve_root;
use std::alloc::{AllocError, Global};

/// The status with which this is told.
fn status_of(why: RootReason) -> Status
    ensures is { result ≡ status_of_lem why }
    ensures answers { IsOfAnswer result }
{
    match why {
        RootReason::Best => Status::Done,
        RootReason::Gap | RootReason::Moves { .. } | RootReason::Pairs { .. } => Status::Stopped,
    }
}

/// The text of what turns at the root tell, and its status. It fails only where there is no memory left.
fn answer_of(alloc: Global, limits: Limits, snapshot: &Snapshot) -> Result<Answer, AllocError>
    requires { limits.rounds ≤ MOST_ROUNDS }
    ensures told { IfOk result (λ answer.
        IsRootTold snapshot.now limits.rounds limits.most_tours answer.status answer.text.items) }
    ensures status { IfOk result (λ answer. IsOfAnswer answer.status) }
{
    let answer = solve_root(alloc, snapshot, limits)?;
    let text = root_text(alloc, snapshot, &answer)?;
    let status = status_of(answer.why);
    Ok(Answer { status, text })
}

/// Tells of cases what as many turns at the root as the limits have rounds can prove, within their limit of
/// partial tours.
#[derive(Clone, Copy)]
struct AtRoot {
    limits: Limits,
    ghost few: { limits.rounds ≤ MOST_ROUNDS },
}

impl WholeText for AtRoot {
    ghost use Rattle.command_ends.specs.WholeTexts.{case_form};

    type Value = Snapshot;

    ghost form = { λ _. case_form };

    fn read<S: Source>(
        &self,
        alloc: Global,
        lines: &mut LineReader<S>,
    ) -> Result<Snapshot, InputFault> {
        match read_lone_case(alloc, lines) {
            Ok(snapshot) => Ok(snapshot),
            Err(fault) => Err(InputFault::Text(fault)),
        }
    }
}

impl Command for AtRoot {
    ghost use Rattle.case_commands.specs.RootOutcome.{IsRootTold};

    ghost told = { λ it s. IsRootTold s it.limits.rounds it.limits.most_tours };

    fn answer(&self, alloc: Global, snapshot: &Snapshot) -> Result<Answer, AllocError> {
        answer_of(alloc, self.limits, snapshot)
    }
}

/// Reads a case, and writes the best prices of as many turns at the root as the limits have rounds and the
/// cheapest plan in halves of their tours, and whether the two meet; or what is wrong with the input. The
/// limit of partial tours holds for each pricing, and for the partial pairings that the search for the plan
/// in halves tries.
pub fn root<S: Source, K: Sink>(
    alloc: Global,
    limits: Limits,
    source: &mut S,
    sink: &mut K,
) -> Status
    requires { limits.rounds ≤ MOST_ROUNDS }
    ensures { RunsRoot limits.rounds limits.most_tours
        (streams (S.left source.old) (K.taken sink.old) (S.faults source.old) (K.faults sink.old))
        (streams (S.left source.new) (K.taken sink.new) (S.faults source.new)
        (K.faults sink.new)) result }
{
    let command = AtRoot { limits };
    run_command(alloc, &command, source, sink)
}
