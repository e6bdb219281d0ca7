//! Reads the words.
ghost use Rattle.std.specs.Prelude.{◌≡◌, ◌≤◌, IfErr, IfOk, IfSome, IsSome, None, length, map, string_bytes};
ghost use Rattle.clap.specs.Words.{found_of, rows_of};
ghost use Rattle.lift_words.specs.Taken.{AreCaseSizes, AreDayOptions, AreRootOptions, AreSolveOptions};
ghost use Rattle.lift_words.specs.Taken.{AreTaken, AsksBy, AsksForDay, AsksForLimits, AsksForRoot};
ghost use Rattle.lift_words.specs.Taken.{AsksForSearch, AsksForSizes, AsksForWorkers, AsksToCheck};
ghost use Rattle.lift_words.specs.Taken.{AsksToSolve, IsInRange, IsSecond, IsWithin, number_of};
ghost use Rattle.option_words.specs.Options.{ExactlyWhere};
ghost use Rattle.lift_words.specs.declared.request.Request.{Request};
ghost use Rattle.lift_words.specs.declared.table.CommandWord.{CommandWord};

use crate::parsing::parse;
use crate::request::{
    CaseSizes, CheckOptions, DayOptions, Request, RootOptions, RunOptions, SearchOptions,
    SolveOptions,
};
use crate::table::{CommandWord, NumberOption};
use clap::ArgMatches;
use option_words::{WordsFault, is_given};
use search_model::Limits;
use std::alloc::Global;
use work_fan::Workers;

/// Reads the words of the command line, of which the first is the program's name.
///
/// Options are written `--name value` or `--name=value`, in any order, each at most once. A value is one
/// or more decimal digits, in the option's range; an option that is not given has its default.
/// `NotTaken` comes exactly where the words are not taken, unless memory runs out.
pub fn read_words(alloc: Global, words: &[String]) -> Result<Request, WordsFault>
    ensures taken { IfOk result (λ request. AreTaken (map string_bytes words.now) request) }
    ensures refused { IfErr result (λ fault. fault ≡ WordsFault.NotTaken
        → (request : Request) → AreTaken (map string_bytes words.now) request → ⊥) }
    ensures one { IfOk result (λ request. (other : Request)
        → AreTaken (map string_bytes words.now) other → other ≡ request) }
    ensures within { IfOk result IsWithin }
{
    let Some(command) = command_in(words) else {
        return Err(WordsFault::NotTaken);
    };
    let matches = parse(alloc, command, words)?;
    match asked(command, &matches) {
        Some(request) => Ok(request),
        None => Err(WordsFault::NotTaken),
    }
}

/// The command that the second word names.
fn command_in(words: &[String]) -> Option<CommandWord>
    ensures known { IfSome result (λ command. IsSecond (map string_bytes words.now) command) }
    ensures long { IfSome result (λ _. 2 ≤ length words.now) }
    ensures none { result ≡ None → (command : CommandWord) → IsSecond (map string_bytes words.now) command → ⊥ }
{
    let word = words.get(1)?;
    CommandWord::named(word.as_str())
}

/// What the matches of a command ask for.
fn asked(command: CommandWord, matches: &ArgMatches<'_>) -> Option<Request>
    ensures asked { ExactlyWhere (AsksBy command (rows_of (found_of matches.now))) result }
    ensures within { IfSome result IsWithin }
{
    match command {
        CommandWord::Solve => Some(Request::Solve(solve_options(matches)?)),
        CommandWord::Check => Some(Request::Check(check_options(matches)?)),
        CommandWord::Day => Some(Request::Day(day_options(matches)?)),
        CommandWord::Report => Some(Request::Report(search_options(matches)?)),
        CommandWord::Make => asked_of_make(matches),
        CommandWord::Table => Some(Request::Table),
        CommandWord::WhatIf => Some(Request::WhatIf(search_options(matches)?)),
        CommandWord::Banks => Some(Request::Banks(search_options(matches)?)),
        CommandWord::Root => Some(Request::Root(root_options(matches)?)),
        CommandWord::Audit => Some(Request::Audit(check_options(matches)?)),
    }
}

/// The options of `solve`: limits and workers of a search, the limit of claims, and two flags.
fn solve_options(matches: &ArgMatches<'_>) -> Option<SolveOptions>
    ensures asked { let rows = rows_of (found_of matches.now) in
        ExactlyWhere (AsksToSolve rows) result }
    ensures within { IfSome result AreSolveOptions }
{
    Some(SolveOptions {
        limits: limits(matches)?,
        workers: workers(matches)?,
        claims: number(matches, NumberOption::Claims)?,
        brief: is_given(matches, "brief"),
        progress: is_given(matches, "progress"),
    })
}

/// The options of `check` and `audit`.
fn check_options(matches: &ArgMatches<'_>) -> Option<CheckOptions>
    ensures { let rows = rows_of (found_of matches.now) in
        ExactlyWhere (AsksToCheck rows) result }
{
    Some(CheckOptions {
        workers: workers(matches)?,
    })
}

/// The options of `day`: those of a search, the limit of claims, and two flags.
fn day_options(matches: &ArgMatches<'_>) -> Option<DayOptions>
    ensures asked { let rows = rows_of (found_of matches.now) in
        ExactlyWhere (AsksForDay rows) result }
    ensures within { IfSome result AreDayOptions }
{
    Some(DayOptions {
        search: search_options(matches)?,
        claims: number(matches, NumberOption::Claims)?,
        certs: is_given(matches, "certs"),
        progress: is_given(matches, "progress"),
    })
}

/// The options of a search.
fn search_options(matches: &ArgMatches<'_>) -> Option<SearchOptions>
    ensures { let rows = rows_of (found_of matches.now) in
        ExactlyWhere (AsksForSearch rows) result }
{
    Some(SearchOptions {
        limits: limits(matches)?,
        workers: workers(matches)?,
    })
}

/// How far a search may go.
fn limits(matches: &ArgMatches<'_>) -> Option<Limits>
    ensures asked { let rows = rows_of (found_of matches.now) in
        ExactlyWhere (AsksForLimits rows) result }
    ensures none { let rows = rows_of (found_of matches.now) in
        result ≡ None → IsSome (number_of rows NumberOption.Rounds)
        → IsSome (number_of rows NumberOption.Moves) → ⊥ }
{
    let rounds = number(matches, NumberOption::Rounds)?;
    let most_tours = number(matches, NumberOption::Moves)?;
    Limits::new(rounds, most_tours)
}

/// How many workers share the work.
fn workers(matches: &ArgMatches<'_>) -> Option<Workers>
    ensures { let rows = rows_of (found_of matches.now) in
        ExactlyWhere (AsksForWorkers rows) result }
{
    let count = number(matches, NumberOption::Workers)?;
    Workers::new(count as u32)
}

/// The options of `root`.
fn root_options(matches: &ArgMatches<'_>) -> Option<RootOptions>
    ensures asked { let rows = rows_of (found_of matches.now) in
        ExactlyWhere (AsksForRoot rows) result }
    ensures within { IfSome result AreRootOptions }
{
    let rounds = number(matches, NumberOption::Turns)?;
    let most_tours = number(matches, NumberOption::Moves)?;
    let limits = Limits::new(rounds, most_tours)?;
    Some(RootOptions { limits })
}

/// What `make` asks for: a case, or with `--run` its solution.
fn asked_of_make(matches: &ArgMatches<'_>) -> Option<Request>
    ensures asked { let rows = rows_of (found_of matches.now) in
        ExactlyWhere (AsksBy CommandWord.Make rows) result }
    ensures within { IfSome result IsWithin }
{
    let options = RunOptions {
        sizes: case_sizes(matches)?,
        limits: limits(matches)?,
    };
    if is_given(matches, "run") {
        Some(Request::Run(options))
    } else {
        Some(Request::Make(options.sizes))
    }
}

/// The sizes of a case.
fn case_sizes(matches: &ArgMatches<'_>) -> Option<CaseSizes>
    ensures asked { let rows = rows_of (found_of matches.now) in
        ExactlyWhere (AsksForSizes rows) result }
    ensures within { IfSome result AreCaseSizes }
{
    let number_of_case = number(matches, NumberOption::Number)?;
    let floors = number(matches, NumberOption::Floors)?;
    let cars = number(matches, NumberOption::Cars)?;
    let calls = number(matches, NumberOption::Calls)?;
    Some(CaseSizes {
        number: number_of_case,
        floors: floors as u32,
        cars: cars as u32,
        calls: calls as u32,
    })
}

/// The number of an option: its value, where that is a number word in the range, or the default.
fn number(matches: &ArgMatches<'_>, option: NumberOption) -> Option<u64>
    ensures value { result ≡ number_of (rows_of (found_of matches.now)) option }
    ensures within { IfSome result (IsInRange option) }
{
    option.setting().number(matches)
}
