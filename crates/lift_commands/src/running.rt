//! The top call of the program.

ghost use Rattle.std.specs.Prelude.{◌≡◌, map, string_bytes};
ghost use Rattle.command_ends.specs.Ends.{streams};
ghost use Rattle.lift_words.specs.Taken.{AreTaken, IsWithin};
ghost use Rattle.lift_words.specs.declared.request.Request.{Request};
ghost use Rattle.lift_commands.specs.Runs.{AskForNothing, RefusesWords, RunsRequest};
ghost use Rattle.lift_commands.specs.Unread.{AskForNoInput, ReadsNothing};

use byte_streams::{Gate, Sink, Source};
use case_commands::{check, root, solve, table, whatif, write_made_case, write_solved_case};
use cert_checker::JudgingCrew;
use cert_claims::CountingCrew;
use command_ends::{Status, put};
use day_commands::{GroupCrew, audit, banks, day, report};
use lift_words::{Request, WordsFault, read_words};
use progress_gates::{Watch, Watched};
use snapshot_solver::SearchCrew;
use std::alloc::Global;
use work_fan::{Runtime, Workers};

/// What is written where the words are not taken.
const USAGE: &[u8] = b"usage: lift solve/check/day/report/make [options]\n";

/// What the work of one command is done with.
fn runtime<'a, C, G>(
    crew: &'a C,
    workers: Workers,
    alloc: Global,
    gate: &'a G,
) -> Runtime<'a, C, G> {
    Runtime {
        crew,
        workers,
        alloc,
        gate,
    }
}

/// Runs the program: what the words of the command line ask for, the program's name first, from the source to
/// the sink.
///
/// - `solve` reads a case, to its end, and writes a plan with its cost and a bound that no feasible plan's
///   cost is below, equal to the cost unless a limit was reached, and, without `--brief`, a certificate that
///   proves them. `check` takes the input followed by all of that, and says yes.
/// - `check` reads a case with an answer and a certificate of any origin, and writes whether the certificate
///   proves the answer, or why not.
/// - `day` reads what comes before the rows of a day, and then the rows, and writes the log of the day: what
///   each row that is accepted brings about, with a plan as `solve` finds it, and at the end that every
///   accepted call was delivered. The lines of a row are written before more of the source is read than what
///   its line takes.
/// - `report` reads the same and writes how long the calls waited and rode.
/// - `table` reads a table of travel times, and writes whether no way over a third floor is shorter, or the
///   first three floors for which one is.
/// - `whatif` reads a case, to its end, and writes what its last call costs with each car, exactly or by two
///   ends, and how much more it costs with the nearest car than with the best one.
/// - `banks` reads banks of cars, each with what comes before the rows of a day, and then the rows of all of
///   them, to the end, and writes for each bank the log of the day of its own rows alone.
/// - `root` reads a case, to its end, and writes the best prices of turns at the root and the cheapest plan in
///   halves of their tours, and whether the two meet, so that no prices at the root prove more.
/// - `audit` reads what `day` reads and the log that it wrote with certificates, to its end, and writes whether
///   all of the log is as it has to be, or what is found first.
/// - `make` writes a generated case, and `make --run` the cost and the bound of such a case; they read nothing.
///
/// All write what is wrong with an input that they do not take: its first bad line with its code, or that it
/// is too long. Other words are refused with the usage line. The gate is told how far a search of `solve` and
/// the rows of `day` have come where `--progress` asks for it; nothing else depends on that. The crew does what
/// `--workers` shares out.
pub fn run<S: Source, K: Sink, C: SearchCrew + CountingCrew + JudgingCrew + GroupCrew, G: Gate>(
    crew: &C,
    alloc: Global,
    words: &[String],
    source: &mut S,
    sink: &mut K,
    gate: &G,
) -> Status
    // What the words ask for is done: `RunsRequest` says for each request what was read and written, and why
    // it ended.
    ensures runs { (request : Request) → AreTaken (map string_bytes words.now) request → RunsRequest request
        (streams (S.left source.old) (K.taken sink.old) (S.faults source.old) (K.faults sink.old))
        (streams (S.left source.new) (K.taken sink.new) (S.faults source.new)
        (K.faults sink.new)) result }

    // Other words get the usage line.
    ensures refuses { AskForNothing (map string_bytes words.now) → RefusesWords
        (streams (S.left source.old) (K.taken sink.old) (S.faults source.old) (K.faults sink.old))
        (streams (S.left source.new) (K.taken sink.new) (S.faults source.new)
        (K.faults sink.new)) result }

    // Words that ask for no input, as those of `make` do, leave the source as it was, whatever the status.
    ensures unread { AskForNoInput (map string_bytes words.now) → source.new ≡ source.old }
{
    match read_words(alloc, words) {
        Ok(request) => run_request(crew, alloc, request, source, sink, gate),
        Err(WordsFault::NotTaken) => put(sink, USAGE, Status::Words),
        Err(WordsFault::NoMemory) => Status::Memory,
    }
}

/// Does what is asked for, from the source to the sink.
fn run_request<S: Source, K: Sink, C: SearchCrew + CountingCrew + JudgingCrew + GroupCrew, G: Gate>(
    crew: &C,
    alloc: Global,
    request: Request,
    source: &mut S,
    sink: &mut K,
    gate: &G,
) -> Status
    requires { IsWithin request }
    ensures runs { RunsRequest request
        (streams (S.left source.old) (K.taken sink.old) (S.faults source.old) (K.faults sink.old))
        (streams (S.left source.new) (K.taken sink.new) (S.faults source.new)
        (K.faults sink.new)) result }
    ensures unread { ReadsNothing request → source.new ≡ source.old }
{
    let quiet = Watch::new(gate, Watched::Nothing);
    match request {
        Request::Solve(options) => {
            let watch = Watch::new(gate, Watched::Search.only_if(options.progress));
            let runtime = runtime(crew, options.workers, alloc, &watch);
            solve(&runtime, options, source, sink)
        }
        Request::Check(options) => {
            let runtime = runtime(crew, options.workers, alloc, &quiet);
            check(&runtime, source, sink)
        }
        Request::Day(options) => {
            let watch = Watch::new(gate, Watched::Rows.only_if(options.progress));
            let runtime = runtime(crew, options.search.workers, alloc, &watch);
            day(&runtime, options, source, sink)
        }
        Request::Report(options) => {
            let runtime = runtime(crew, options.workers, alloc, &quiet);
            report(&runtime, options.without_certificates(), source, sink)
        }
        Request::Make(sizes) => write_made_case(alloc, sizes, sink),
        Request::Run(options) => {
            let runtime = runtime(crew, Workers::one(), alloc, &quiet);
            write_solved_case(&runtime, options, sink)
        }
        Request::Table => table(alloc, source, sink),
        Request::WhatIf(options) => {
            let runtime = runtime(crew, options.workers, alloc, &quiet);
            whatif(&runtime, options.limits, source, sink)
        }
        Request::Banks(options) => {
            let runtime = runtime(crew, options.workers, alloc, &quiet);
            banks(&runtime, options.limits, source, sink)
        }
        Request::Root(options) => root(alloc, options.limits, source, sink),
        Request::Audit(options) => {
            let runtime = runtime(crew, options.workers, alloc, &quiet);
            audit(&runtime, source, sink)
        }
    }
}
