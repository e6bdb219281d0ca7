//! The commands `day` and `report`.

ghost use Rattle.std.specs.Prelude.{◌≡◌, ◌<◌, ◌≤◌, ◌^◌, ℕ, List, None, IfOk, IsSomeAnd, length, option_map};
ghost use Rattle.byte_streams.specs.Streams.{Rose};
ghost use Rattle.lift_text.specs.Reading.{whole_text};
ghost use Rattle.search_model.specs.Reports.{report_of as report_of_lem};
ghost use Rattle.service_report.specs.ReportTexts.{report_text as report_text_lem};
ghost use Rattle.day_simulator.specs.TextRuns.{DayAnswered, EndsUnlessFailed, IsDayText, IsUnread};
ghost use Rattle.day_simulator.specs.TextRuns.{IsUnwritten};
ghost use Rattle.lift_words.specs.Taken.{AreDayOptions};
ghost use Rattle.command_ends.specs.Ends.{streams};
ghost use Rattle.day_commands.specs.DayOutcome.{PutsRowsFault, ReportsDay, RunsDay, SolvedBy};
ghost use Rattle.day_commands.specs.DayOutcome.{most_ahead, status_of_unsolved as status_of_unsolved_lem};

use byte_streams::{Gate, Sink, SinkFault, Source};
use cert_claims::CountingCrew;
use command_ends::{Status, put, put_fault, put_too_long};
use day_planner::Searches;
use day_simulator::{DayFault, Ended, RunFault, run_day_text};
use lift_text::{LineReader, TextFault};
use lift_words::DayOptions;
use service_report::{report_of, write_report};
use snapshot_solver::SearchCrew;
use std::alloc::{AllocError, Global};
use work_fan::Runtime;

/// Takes all and keeps nothing.
#[derive(Drop)]
struct Nowhere;

impl Sink for Nowhere {
    ghost use Rattle.std.specs.Prelude.{None as Untold};

    ghost taken = { λ it. Untold };

    ghost faults = { λ it. 0 };

    fn write(&mut self, piece: &[u8]) -> Result<usize, SinkFault> {
        Ok(piece.len())
    }
}

/// Runs the day of an opening and rows, with a plan of a search at each row that is accepted.
fn run_input<S: Source, K: Sink, C: SearchCrew + CountingCrew, G: Gate>(
    runtime: &Runtime<C, G>,
    options: DayOptions,
    source: &mut S,
    sink: &mut K,
) -> Result<Ended, DayFault>
    requires { AreDayOptions options }
    ensures answered { (ahead : List ℕ) × (length ahead ≤ most_ahead) × DayAnswered (SolvedBy options)
        (option_map whole_text (S.left source.old)) ahead (S.left source.new) (K.taken sink.old)
        (K.taken sink.new) result }
    ensures ends { IsSomeAnd (option_map whole_text (S.left source.old)) IsDayText → EndsUnlessFailed result }
    ensures small { IfOk result (λ ended. (report_of_lem ended.served.items).total.sum < 2 ^ 64) }
    ensures read { IsUnread result → Rose (S.faults source.old) (S.faults source.new) }
    ensures write { IsUnwritten result → Rose (K.faults sink.old) (K.faults sink.new) }
    ensures sink_counted { K.faults sink.old ≤ K.faults sink.new }
{
    let planner = Searches::new(runtime, options.search.limits, options.most_claims());
    let mut lines = match LineReader::new(runtime.alloc, source) {
        Ok(lines) => lines,
        Err(_) => return Err(DayFault::Opening(TextFault::NoMemory)),
    };
    let ended = run_day_text(runtime.alloc, &planner, &mut lines, sink, runtime.gate);
    lines.into_source();
    ended
}

/// The status of a day of which this many rows had a bound below their cost.
fn status_of_unsolved(unsolved: u32) -> Status
    ensures { result ≡ status_of_unsolved_lem unsolved }
{
    if unsolved == 0 {
        Status::Done
    } else {
        Status::Stopped
    }
}

/// The status of a day whose rows were not run to their end, and what is still written then.
fn put_rows_fault<K: Sink>(fault: RunFault, sink: &mut K) -> Status
    ensures put { PutsRowsFault fault result (K.taken sink.old) (K.taken sink.new) (K.faults sink.old)
        (K.faults sink.new) }
    ensures counted { K.faults sink.old ≤ K.faults sink.new }
{
    match fault {
        RunFault::TooLong => put_too_long(sink),
        RunFault::Read => Status::Read,
        RunFault::Write => Status::Write,
        RunFault::NoMemory => Status::Memory,
    }
}

/// Reads an opening and rows, and writes the log of their day as the rows come, or what is wrong with the
/// input.
pub fn day<S: Source, K: Sink, C: SearchCrew + CountingCrew, G: Gate>(
    runtime: &Runtime<C, G>,
    options: DayOptions,
    source: &mut S,
    sink: &mut K,
) -> Status
    requires { AreDayOptions options }
    ensures { RunsDay options
        (streams (S.left source.old) (K.taken sink.old) (S.faults source.old) (K.faults sink.old))
        (streams (S.left source.new) (K.taken sink.new) (S.faults source.new)
        (K.faults sink.new)) result }
{
    match run_input(runtime, options, source, sink) {
        Ok(ended) => status_of_unsolved(ended.unsolved),
        Err(DayFault::Opening(fault)) => put_fault(runtime.alloc, fault, sink),
        Err(DayFault::Rows(fault)) => put_rows_fault(fault, sink),
    }
}

/// The text of the report of a day.
fn report_text(alloc: Global, ended: &Ended) -> Result<Vec<u8>, AllocError>
    requires { (report_of_lem ended.now.served.items).total.sum < 2 ^ 64 }
    ensures { IfOk result (λ text. text.items ≡ report_text_lem (report_of_lem ended.now.served.items)) }
{
    let report = report_of(alloc, ended.served.as_slice())?;
    let mut text = Vec::new(alloc);
    write_report(alloc, &report, &mut text)?;
    Ok(text)
}

/// Reads an opening and rows, and writes the report of their day, or what is wrong with the input.
pub fn report<S: Source, K: Sink, C: SearchCrew + CountingCrew, G: Gate>(
    runtime: &Runtime<C, G>,
    options: DayOptions,
    source: &mut S,
    sink: &mut K,
) -> Status
    requires options { AreDayOptions options }
    ensures { ReportsDay options
        (streams (S.left source.old) (K.taken sink.old) (S.faults source.old) (K.faults sink.old))
        (streams (S.left source.new) (K.taken sink.new) (S.faults source.new)
        (K.faults sink.new)) result }
{
    match run_input(runtime, options, source, &mut Nowhere) {
        Ok(ended) => match report_text(runtime.alloc, &ended) {
            Ok(text) => put(sink, text.as_slice(), status_of_unsolved(ended.unsolved)),
            Err(_) => Status::Memory,
        },
        Err(DayFault::Opening(fault)) => put_fault(runtime.alloc, fault, sink),
        Err(DayFault::Rows(fault)) => put_rows_fault(fault, sink),
    }
}
