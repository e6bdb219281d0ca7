//! The values that options are given.
ghost use Rattle.std.specs.Prelude.{◌≡◌, ◌↔◌, IfSome, IsTrue, Some, codes, option_map};
ghost use Rattle.clap.specs.Words.{first_of, found_of, rows_of};
ghost use Rattle.option_words.specs.Options.{IsInRange, number_from, number_in_range, shown};

use clap::ArgMatches;
use lift_text::number_in;

/// An option that takes a number: its name without the dashes, its least and its greatest value, and the
/// value where it is not given.
#[derive(Clone, Copy)]
pub struct Setting {
    pub name: &'static str,
    pub low: u64,
    pub high: u64,
    pub default: u64,
}

impl Setting {
    pub fn new(name: &'static str, low: u64, high: u64, default: u64) -> Setting
        ensures { result ≡ record { name = name.entry; low = low; high = high; default = default } }
    {
        Setting {
            name,
            low,
            high,
            default,
        }
    }

    /// The number of the option: its value, where that is a number word in the range, or the default.
    pub fn number(self, matches: &ArgMatches<'_>) -> Option<u64>
        ensures value { result
            ≡ number_from (shown self) (first_of (shown self).name (rows_of (found_of matches.now))) }
        ensures within { IsInRange (shown self) self.default → IfSome result (IsInRange (shown self)) }
    {
        match value(matches, self.name) {
            None => Some(self.default),
            Some(word) => number_word(word, self.low, self.high),
        }
    }
}

/// Whether the flag is given.
pub fn is_given(matches: &ArgMatches<'_>, flag: &str) -> bool
    ensures { IsTrue result ↔ (first_of flag.now (rows_of (found_of matches.now)) ≡ Some (codes "true")) }
{
    match value(matches, flag) {
        Some(value) => value == "true",
        None => false,
    }
}

/// The value that an option is given.
fn value<'a>(matches: &ArgMatches<'a>, name: &str) -> Option<&'a str>
    ensures { option_map (λ s. s.now) result ≡ first_of name.now (rows_of (found_of matches.now)) }
{
    matches.get_str(name)
}

/// The number that a word writes, where it is a number word in the range.
fn number_word(word: &str, low: u64, high: u64) -> Option<u64>
    ensures { result ≡ number_in_range low high word.now }
{
    match number_in(word.as_bytes(), i128::from(low), i128::from(high)) {
        Ok(number) => Some(number as u64),
        Err(_) => None,
    }
}
