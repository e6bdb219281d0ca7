//! What `clap` makes of the words of a command.
ghost use Rattle.std.specs.Prelude.{◌≡◌, ◌≢◌, ◌≤◌, IfErr, IfOk, List, length, true, map, string_bytes};
ghost use Rattle.clap.specs.Words.{Row, app_of, found_of, matches_of, rows_of, takes};
ghost use Rattle.option_words.specs.Options.{IsPlain, with_flag, with_option};
ghost use Rattle.option_words.specs.Given.{AreGiven};

use crate::faults::WordsFault;
use crate::repeats::are_unclear;
use clap::error::ErrorKind;
use clap::{Arg, ArgAction, ArgMatches, Command};
use std::alloc::{AllocError, Global};

/// The command with one more option, which takes a value.
pub fn with_option<'a>(
    alloc: Global,
    command: Command<'a>,
    name: &'a str,
) -> Result<Command<'a>, AllocError>
    ensures { IfOk result (λ built. app_of built ≡ with_option (app_of command.entry) name.entry.now) }
{
    command.arg(Arg::new(alloc, name).long(name))
}

/// The command with one more option, which takes no value.
pub fn with_flag<'a>(
    alloc: Global,
    command: Command<'a>,
    name: &'a str,
) -> Result<Command<'a>, AllocError>
    ensures { IfOk result (λ built. app_of built ≡ with_flag (app_of command.entry) name.entry.now) }
{
    let argument = Arg::new(alloc, name).long(name).action(ArgAction::SetTrue);
    command.arg(argument)
}

/// What `clap` finds in the words of a command, of which the first is the command's own.
fn matches_in<'a>(command: Command<'a>, words: &'a [String]) -> Result<ArgMatches<'a>, WordsFault>
    requires { IsPlain (app_of command) }
    ensures taken { IfOk result (λ _.
        takes (app_of command.entry) (map string_bytes words.entry.now) ≡ true) }
    ensures rows { IfOk result (λ m. rows_of (found_of m)
        ≡ matches_of (app_of command.entry) (map string_bytes words.entry.now)) }
    ensures refused { IfErr result (λ fault. fault ≡ WordsFault.NotTaken
        → takes (app_of command.entry) (map string_bytes words.entry.now) ≢ true) }
{
    match command.try_get_matches_from(words) {
        Ok(matches) => Ok(matches),
        Err(error) => match error.kind() {
            ErrorKind::OutOfMemory => Err(WordsFault::NoMemory),
            _ => Err(WordsFault::NotTaken),
        },
    }
}

/// What `clap` finds in the words of the command line, of which the second is the command's own. `NotTaken`
/// comes exactly where behind that an option is repeated or a word is `--` alone, or `clap` does not take the
/// words from that on; unless memory runs out.
pub fn options_given<'a>(
    command: Command<'a>,
    words: &'a [String],
) -> Result<ArgMatches<'a>, WordsFault>
    requires plain { IsPlain (app_of command) }
    requires long { 2 ≤ length words.now }
    ensures given { IfOk result (λ m.
        AreGiven (app_of command.entry) (map string_bytes words.entry.now) (rows_of (found_of m))) }
    ensures refused { IfErr result (λ fault. fault ≡ WordsFault.NotTaken → (rows : List Row)
        → AreGiven (app_of command.entry) (map string_bytes words.entry.now) rows → ⊥) }
{
    if are_unclear(&words[2..]) {
        return Err(WordsFault::NotTaken);
    }
    matches_in(command, &words[1..])
}
