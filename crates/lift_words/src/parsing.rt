//! What `clap` makes of the words of a command.
ghost use Rattle.std.specs.Prelude.{◌≡◌, ◌≤◌, IfErr, IfOk, List, fold, length, map, string_bytes};
ghost use Rattle.clap.specs.Words.{Row, app_of, found_of, rows_of};
ghost use Rattle.lift_words.specs.Table.{app, with_number};
ghost use Rattle.option_words.specs.Given.{AreGiven};
ghost use Rattle.option_words.specs.Options.{texts, with_flag};

use crate::table::{CommandWord, NumberOption};
use clap::{ArgMatches, Command};
use option_words::{WordsFault, options_given, with_flag, with_option};
use std::alloc::{AllocError, Global};

/// What `clap` finds in the words of the command line, of which the second is that of the command.
pub(crate) fn parse<'a>(
    alloc: Global,
    command: CommandWord,
    words: &'a [String],
) -> Result<ArgMatches<'a>, WordsFault>
    requires { 2 ≤ length words.now }
    ensures given { IfOk result (λ m.
        AreGiven (app command) (map string_bytes words.entry.now) (rows_of (found_of m))) }
    ensures refused { IfErr result (λ fault. fault ≡ WordsFault.NotTaken → (rows : List Row)
        → AreGiven (app command) (map string_bytes words.entry.now) rows → ⊥) }
{
    match as_command(alloc, command) {
        Ok(built) => options_given(built, words),
        Err(_) => Err(WordsFault::NoMemory),
    }
}

/// The command with its options, for `clap`.
fn as_command<'a>(alloc: Global, command: CommandWord) -> Result<Command<'a>, AllocError>
    ensures { IfOk result (λ built. app_of built ≡ app command) }
{
    let word: &'a str = command.word();
    let with_numbers = with_numbers(alloc, Command::new(alloc, word), command.numbers())?;
    with_flags(alloc, with_numbers, command.flags())
}

/// The command with an option for each number.
fn with_numbers<'a>(
    alloc: Global,
    mut command: Command<'a>,
    options: &[NumberOption],
) -> Result<Command<'a>, AllocError>
    ensures { IfOk result (λ built. app_of built ≡ fold with_number (app_of command.entry) options.now) }
{
    for option in options {
        command = with_number(alloc, command, *option)?;
    }
    Ok(command)
}

fn with_number<'a>(
    alloc: Global,
    command: Command<'a>,
    option: NumberOption,
) -> Result<Command<'a>, AllocError>
    ensures { IfOk result (λ built. app_of built ≡ with_number (app_of command.entry) option) }
{
    let name: &'a str = option.setting().name;
    with_option(alloc, command, name)
}

/// The command with these flags.
fn with_flags<'a>(
    alloc: Global,
    mut command: Command<'a>,
    flags: &[&'static str],
) -> Result<Command<'a>, AllocError>
    ensures { IfOk result (λ built. app_of built ≡ fold with_flag (app_of command.entry) (texts flags.now)) }
{
    for flag in flags {
        command = with_flag(alloc, command, flag)?;
    }
    Ok(command)
}
