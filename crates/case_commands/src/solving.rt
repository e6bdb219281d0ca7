//! The command `solve`.
ghost use Rattle.std.specs.Prelude.{◌≡◌, ◌≤◌, ◌++◌, All, IfOk, OnOk};
ghost use Rattle.search_model.specs.Certificates.{Proves};
ghost use Rattle.search_model.specs.Solving.{floor_of_bound};
ghost use Rattle.search_tree.specs.Sheets.{IsSizedTwig};
ghost use Rattle.answer_text.specs.Texts.{answer_text};
ghost use Rattle.answer_text.specs.Plans.{FitsSnapshot};
ghost use Rattle.cert_text.specs.Trees.{AreTwigsKnown};
ghost use Rattle.lift_words.specs.Taken.{AreSolveOptions};
ghost use Rattle.command_ends.specs.Ends.{streams};
ghost use Rattle.command_ends.specs.Runs.{IsOfAnswer};
ghost use Rattle.case_commands.specs.SolveOutcome.{IsCarOf, IsPrinted, IsSolution, RunsSolve};
ghost use Rattle.case_commands.specs.SolveOutcome.{certificate_part, closing_line};

use crate::endings::Ending;
use answer_text::write_answer;
use assign_branch::Tree;
use byte_streams::{Gate, Sink, Source};
use call_state::Snapshot;
use case_text::read_lone_case;
use cert_claims::{Claimed, CountingCrew};
use cert_text::write_cert;
use certified_search::certify;
use command_ends::{Answer, Command, InputFault, Status, WholeText, run_command};
use elevator_model::MOST_CALLS;
use lift_text::{LineReader, put_line};
use lift_words::SolveOptions;
use search_model::{Stated, Twig};
use snapshot_solver::{SearchCrew, solve as solve_within};
use std::alloc::{AllocError, Global};
use work_fan::Runtime;

/// Appends the comment line that says why an answer ends as it does.
fn put_closing(snapshot: &Snapshot, ending: Ending, text: &mut Vec<u8>) -> Result<(), AllocError>
    requires car { IsCarOf snapshot.now ending }
    ensures { OnOk result (text.new.items ≡ text.old.items ++ closing_line snapshot.now ending) }
{
    match ending {
        Ending::IsSolved => text.extend_from_slice(b"# solved\n"),
        Ending::OfRounds { done } => put_line(text, b"# stopped rounds", &[done]),
        Ending::OfMoves { car, count } => {
            let id = snapshot.building().cars()[car as usize].id;
            put_line(text, b"# stopped moves", &[u64::from(id), count])
        }
        Ending::OfTime => text.extend_from_slice(b"# stopped time\n"),
        Ending::OfClaims { limit } => put_line(text, b"# stopped claims", &[limit]),
    }
}

/// What is printed after a search: its bound, and with a certificate the tree with its claims and the bound
/// that this proves.
///
/// It fails only where there is no memory left.
fn printed<C: CountingCrew, G: Gate>(
    runtime: &Runtime<C, G>,
    options: SolveOptions,
    snapshot: &Snapshot,
    stated: &Stated,
    tree: Tree,
) -> Result<Claimed, AllocError>
    requires options { AreSolveOptions options }
    requires proves { Proves snapshot.now stated.now.plan stated.now.cost stated.now.bound tree.twigs }
    requires least { floor_of_bound snapshot.now ≤ stated.now.bound }
    requires sized { All IsSizedTwig tree.twigs }
    requires known { AreTwigsKnown snapshot.now tree.twigs }
    ensures printed { IfOk result (λ claimed.
        IsPrinted options snapshot.now stated.now tree.twigs claimed.bound claimed.tree.twigs) }
    ensures sized { IfOk result (λ claimed. All IsSizedTwig claimed.tree.twigs) }
    ensures known { IfOk result (λ claimed. AreTwigsKnown snapshot.now claimed.tree.twigs) }
{
    if options.brief {
        return Ok(Claimed {
            tree,
            bound: stated.bound,
            cut: false,
        });
    }
    certify(runtime, snapshot, stated, tree, options.claims)
}

/// Appends the certificate, where one is wanted.
fn put_certificate(
    options: SolveOptions,
    snapshot: &Snapshot,
    tree: &[Twig],
    text: &mut Vec<u8>,
) -> Result<(), AllocError>
    requires { AreTwigsKnown snapshot.now tree.now }
    ensures { OnOk result (text.new.items
        ≡ text.old.items ++ certificate_part options snapshot.now tree.now) }
{
    if options.brief {
        return Ok(());
    }
    write_cert(snapshot, tree, text)
}

/// The text of an answer, with its certificate unless none is wanted. It fails only where there is no memory
/// left.
fn text_of(
    alloc: Global,
    options: SolveOptions,
    snapshot: &Snapshot,
    stated: &Stated,
    tree: &Tree,
    ending: Ending,
) -> Result<Vec<u8>, AllocError>
    requires tours { FitsSnapshot snapshot.now stated.now.plan }
    requires known { AreTwigsKnown snapshot.now tree.now.twigs }
    requires car { IsCarOf snapshot.now ending }
    ensures { IfOk result (λ text. text.items ≡ answer_text snapshot.now stated.now
        ++ certificate_part options snapshot.now tree.now.twigs ++ closing_line snapshot.now ending) }
{
    let mut text = Vec::new(alloc);
    write_answer(snapshot, stated, &mut text)?;
    put_certificate(options, snapshot, tree.twigs.as_slice(), &mut text)?;
    put_closing(snapshot, ending, &mut text)?;
    Ok(text)
}

/// The text of a plan with its cost and a bound, with its certificate unless none is wanted, and why the
/// search for it ended.
fn solution_of<C: SearchCrew + CountingCrew, G: Gate>(
    runtime: &Runtime<C, G>,
    options: SolveOptions,
    snapshot: &Snapshot,
) -> Result<Answer, AllocError>
    requires options { AreSolveOptions options }
    ensures solution { IfOk result (λ answer. IsSolution options snapshot.now answer.status answer.text.items) }
    ensures status { IfOk result (λ answer. IsOfAnswer answer.status) }
{
    prove!(snapshot.calls().len() <= MOST_CALLS);
    let found = solve_within(runtime, snapshot, options.limits)?;
    let tree = found.tree;
    let claimed = printed(runtime, options, snapshot, &found.stated, tree)?;
    let ending = Ending::of(
        found.why,
        options.claims,
        found.stated.cost == claimed.bound,
    );
    let stated = Stated {
        bound: claimed.bound,
        ..found.stated
    };
    let text = text_of(
        runtime.alloc,
        options,
        snapshot,
        &stated,
        &claimed.tree,
        ending,
    )?;
    Ok(Answer {
        status: ending.status(),
        text,
    })
}

/// Answers cases with plans that searches find, within limits.
#[derive(Drop)]
struct Solving<'a, C: SearchCrew + CountingCrew, G: Gate> {
    runtime: &'a Runtime<'a, C, G>,
    options: SolveOptions,
    ghost within: { AreSolveOptions options },
}

impl<'a, C: SearchCrew + CountingCrew, G: Gate> WholeText for Solving<'a, C, G> {
    ghost use Rattle.command_ends.specs.WholeTexts.{case_form};

    type Value = Snapshot;

    ghost form = { λ _. case_form };

    fn read<S: Source>(
        &self,
        alloc: Global,
        lines: &mut LineReader<S>,
    ) -> Result<Snapshot, InputFault> {
        match read_lone_case(alloc, lines) {
            Ok(snapshot) => Ok(snapshot),
            Err(fault) => Err(InputFault::Text(fault)),
        }
    }
}

impl<'a, C: SearchCrew + CountingCrew, G: Gate> Command for Solving<'a, C, G> {
    ghost use Rattle.case_commands.specs.SolveOutcome.{IsSolution};

    ghost told = { λ it. IsSolution it.options };

    fn answer(&self, _alloc: Global, snapshot: &Snapshot) -> Result<Answer, AllocError> {
        solution_of(self.runtime, self.options, snapshot)
    }
}

/// Reads a case and writes the cheapest plan of it that the search finds within the limits, or what is wrong
/// with the input.
pub fn solve<S: Source, K: Sink, C: SearchCrew + CountingCrew, G: Gate>(
    runtime: &Runtime<C, G>,
    options: SolveOptions,
    source: &mut S,
    sink: &mut K,
) -> Status
    requires { AreSolveOptions options }
    ensures { RunsSolve options
        (streams (S.left source.old) (K.taken sink.old) (S.faults source.old) (K.faults sink.old))
        (streams (S.left source.new) (K.taken sink.new) (S.faults source.new)
        (K.faults sink.new)) result }
{
    let command = Solving { runtime, options };
    run_command(runtime.alloc, &command, source, sink)
}
