//! The command `make`, with `--run` and without it.
ghost use Rattle.std.specs.Prelude.{◌≡◌, ◌≤◌, ℕ, List, Option, IfOk};
ghost use Rattle.elevator_model.specs.Snapshot.{IsAccepted, Snapshot as SnapshotLem};
ghost use Rattle.search_model.specs.Verdicts.{tours_enough, rounds_enough};
ghost use Rattle.lift_words.specs.Taken.{AreCaseSizes, AreRunOptions};
ghost use Rattle.command_ends.specs.Ends.{streams};
ghost use Rattle.case_commands.specs.MakeOutcome.{IsCaseOf, IsMadeCase, IsSolvedCase, RunsMake, RunsSolvedCase};
ghost use Rattle.case_commands.specs.MakeOutcome.{run_text};

use crate::status::status_of;
use byte_streams::{Gate, Sink};
use call_state::Snapshot;
use case_maker::make;
use case_text::write_case;
use command_ends::{Answer, Status, put};
use lift_text::put_line;
use lift_words::{CaseSizes, RunOptions};
use snapshot_solver::{SearchCrew, solve};
use std::alloc::{AllocError, Global};
use work_fan::Runtime;

/// The generated case with this number and these sizes.
fn case_of(alloc: Global, sizes: CaseSizes) -> Result<Snapshot, AllocError>
    requires { AreCaseSizes sizes }
    ensures case { IfOk result (λ snapshot. IsCaseOf sizes snapshot) }
    ensures accepted { IfOk result (λ snapshot. IsAccepted snapshot) }
{
    make(alloc, sizes.number, sizes.floors, sizes.cars, sizes.calls)
}

/// The text of the generated case with this number and these sizes.
fn made_case(alloc: Global, sizes: CaseSizes) -> Result<Vec<u8>, AllocError>
    requires { AreCaseSizes sizes }
    ensures { IfOk result (λ text. IsMadeCase sizes text.items) }
{
    let snapshot = case_of(alloc, sizes)?;
    let mut text = Vec::new(alloc);
    write_case(alloc, &snapshot, &mut text)?;
    Ok(text)
}

/// Writes a generated case. Nothing is read.
pub fn write_made_case<K: Sink>(alloc: Global, sizes: CaseSizes, sink: &mut K) -> Status
    requires { AreCaseSizes sizes }
    ensures { (left : Option (List ℕ)) (faults : ℕ) → RunsMake sizes
        (streams left (K.taken sink.old) faults (K.faults sink.old))
        (streams left (K.taken sink.new) faults (K.faults sink.new)) result }
{
    match made_case(alloc, sizes) {
        Ok(text) => put(sink, text.as_slice(), Status::Done),
        Err(_) => Status::Memory,
    }
}

/// The lines of a case that was solved.
fn run_lines(alloc: Global, sizes: CaseSizes, cost: u64, bound: u64) -> Result<Vec<u8>, AllocError>
    ensures { IfOk result (λ text. text.items ≡ run_text sizes cost bound) }
{
    let mut text = Vec::new(alloc);
    put_line(&mut text, b"number", &[sizes.number])?;
    put_line(&mut text, b"floors", &[u64::from(sizes.floors)])?;
    put_line(&mut text, b"cars", &[u64::from(sizes.cars)])?;
    put_line(&mut text, b"calls", &[u64::from(sizes.calls)])?;
    put_line(&mut text, b"cost", &[cost])?;
    put_line(&mut text, b"bound", &[bound])?;
    Ok(text)
}

/// What the search finds of the generated case within the limits, as lines.
fn solved_case<C: SearchCrew, G: Gate>(
    runtime: &Runtime<C, G>,
    options: RunOptions,
) -> Result<Answer, AllocError>
    requires { AreRunOptions options }
    ensures solved { IfOk result (λ answer. IsSolvedCase options answer.status answer.text.items) }
    ensures enough { (s : SnapshotLem) → IsCaseOf options.sizes s
        → rounds_enough s ≤ options.limits.rounds → tours_enough s ≤ options.limits.most_tours
        → IfOk result (λ answer. answer.status ≡ Status.Done) }
{
    let sizes = options.sizes;
    let snapshot = case_of(runtime.alloc, sizes)?;
    let found = solve(runtime, &snapshot, options.limits)?;
    let text = run_lines(runtime.alloc, sizes, found.stated.cost, found.stated.bound)?;
    Ok(Answer {
        status: status_of(found.why),
        text,
    })
}

/// Solves a generated case and writes its number and sizes, and the cost and the bound that were found.
/// Nothing is read.
pub fn write_solved_case<K: Sink, C: SearchCrew, G: Gate>(
    runtime: &Runtime<C, G>,
    options: RunOptions,
    sink: &mut K,
) -> Status
    requires { AreRunOptions options }
    ensures { (left : Option (List ℕ)) (faults : ℕ) → RunsSolvedCase options
        (streams left (K.taken sink.old) faults (K.faults sink.old))
        (streams left (K.taken sink.new) faults (K.faults sink.new)) result }
{
    match solved_case(runtime, options) {
        Ok(answer) => put(sink, answer.text.as_slice(), answer.status),
        Err(_) => Status::Memory,
    }
}
