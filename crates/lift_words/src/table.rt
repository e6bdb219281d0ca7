//! The table of commands and their options.
ghost use Rattle.std.specs.Prelude.{◌≡◌};
ghost use Rattle.lift_words.specs.Table.{command_of, flags_of, numbers_of, setting_of, word_of};
ghost use Rattle.option_words.specs.Options.{Shows, texts};

use option_words::Setting;
use search_model::MOST_CLAIM;

/// A command.
#[derive(Clone, Copy)]
pub(crate) enum CommandWord {
    Solve,
    Check,
    Day,
    Report,
    Make,
    Table,
    WhatIf,
    Banks,
    Root,
    Audit,
}

/// An option that takes a number.
#[derive(Clone, Copy)]
pub(crate) enum NumberOption {
    Rounds,
    /// The rounds of `root`.
    Turns,
    Moves,
    Claims,
    Workers,
    Number,
    Floors,
    Cars,
    Calls,
}

/// The greatest number of rounds, and of moves.
const MOST: u64 = 1_000_000_000_000_000_000;

impl CommandWord {
    /// The command that a word names.
    pub(crate) fn named(word: &str) -> Option<CommandWord>
        ensures { result ≡ command_of word.now }
    {
        match word {
            "solve" => Some(CommandWord::Solve),
            "check" => Some(CommandWord::Check),
            "day" => Some(CommandWord::Day),
            "report" => Some(CommandWord::Report),
            "make" => Some(CommandWord::Make),
            "table" => Some(CommandWord::Table),
            "whatif" => Some(CommandWord::WhatIf),
            "banks" => Some(CommandWord::Banks),
            "root" => Some(CommandWord::Root),
            "audit" => Some(CommandWord::Audit),
            _ => None,
        }
    }

    /// The word that names the command.
    pub(crate) fn word(self) -> &'static str
        ensures { result.now ≡ word_of self }
    {
        match self {
            CommandWord::Solve => "solve",
            CommandWord::Check => "check",
            CommandWord::Day => "day",
            CommandWord::Report => "report",
            CommandWord::Make => "make",
            CommandWord::Table => "table",
            CommandWord::WhatIf => "whatif",
            CommandWord::Banks => "banks",
            CommandWord::Root => "root",
            CommandWord::Audit => "audit",
        }
    }

    /// Its options that take a number.
    pub(crate) fn numbers(self) -> &'static [NumberOption]
        ensures { result.now ≡ numbers_of self }
    {
        match self {
            CommandWord::Solve | CommandWord::Day => &[
                NumberOption::Rounds,
                NumberOption::Moves,
                NumberOption::Workers,
                NumberOption::Claims,
            ],
            CommandWord::Report | CommandWord::WhatIf | CommandWord::Banks => &[
                NumberOption::Rounds,
                NumberOption::Moves,
                NumberOption::Workers,
            ],
            CommandWord::Check | CommandWord::Audit => &[NumberOption::Workers],
            CommandWord::Make => &[
                NumberOption::Number,
                NumberOption::Floors,
                NumberOption::Cars,
                NumberOption::Calls,
                NumberOption::Rounds,
                NumberOption::Moves,
            ],
            CommandWord::Table => &[],
            CommandWord::Root => &[NumberOption::Turns, NumberOption::Moves],
        }
    }

    /// Its options that take no value, by name.
    pub(crate) fn flags(self) -> &'static [&'static str]
        ensures { texts result.now ≡ flags_of self }
    {
        match self {
            CommandWord::Solve => &["brief", "progress"],
            CommandWord::Day => &["certs", "progress"],
            CommandWord::Check
            | CommandWord::Report
            | CommandWord::Table
            | CommandWord::WhatIf
            | CommandWord::Banks
            | CommandWord::Root
            | CommandWord::Audit => &[],
            CommandWord::Make => &["run"],
        }
    }
}

impl NumberOption {
    /// What the table says of it.
    pub(crate) fn setting(self) -> Setting
        ensures { Shows result (setting_of self) }
    {
        match self {
            NumberOption::Rounds => Setting::new("rounds", 1, MOST, 2000),
            NumberOption::Turns => Setting::new("rounds", 1, 31, 20),
            NumberOption::Moves => Setting::new("moves", 1, MOST, 75000),
            NumberOption::Claims => Setting::new("claims", 1, MOST_CLAIM, 1_000_000_000),
            NumberOption::Workers => Setting::new("workers", 1, 16, 1),
            NumberOption::Number => Setting::new("number", 0, u64::MAX, 1),
            NumberOption::Floors => Setting::new("floors", 2, 64, 12),
            NumberOption::Cars => Setting::new("cars", 1, 8, 4),
            NumberOption::Calls => Setting::new("calls", 0, 64, 20),
        }
    }
}
